// What is written as an array whose data is given page by page.
ghost use Rattle.std.specs.Prelude.{◌≡◌, ◌≢◌, ◌≤◌, ◌<◌, ◌*◌, ◌⊎◌, [], ◌∷◌, ℕ, List, Ok, IsTrue, IfErr, OnOk, IsErrOf, replicate, take};
ghost use Rattle.mars_base.specs.Causes.{Rose};
ghost use Rattle.mars_base.specs.Bytes.{range};
ghost use Rattle.pcm_media.specs.Images.{MayLeave, settled, written};
ghost use Rattle.pcm_media.specs.View.{Writes, LeavesOnly};
ghost use Rattle.array_shape.specs.Places.{media_len, row_at, page_count};
ghost use Rattle.row_bytes.specs.Header.{header_bytes};
ghost use Rattle.array_image.specs.Image.{data_of};
ghost use Rattle.array_image.specs.Standing.{SameCells};
ghost use Rattle.eaw_device.specs.Attaching.{AllOpenWith};
ghost use Rattle.eaw_device.specs.Made.{IsMade, LeavesAsRead, IsOldOrNew, IsNoArray, HasParts, HasPages, HasRows, behind_header, behind_mark, IsWrongLength};

use array_shape::{BadShape, NUMBERS_MAX, PAGE_LEN, ROW_LEN, Shape, ShapeNumber};
use mars_base::Failed;
use pcm_media::Media;
use row_bytes::write_array_header;
use thiserror::Error;

// The mark is the first bytes of a header.
const MARK_LEN: usize = 8;

// The most bytes that the rows of a logger take.
const ROWS_LEN: usize = ROW_LEN as usize * NUMBERS_MAX as usize;

/// The pages of data that a new array begins with, by their numbers.
pub trait PageSource {
    ghost pages: { Self → ℕ → List ℕ };

    /// Writes a page.
    fn page(&self, page: u64, out: &mut [u8; 512])
        ensures { out.new ≡ pages self.now page };
}

/// Why no array was made on a medium.
#[derive(Clone, Copy, Debug, PartialEq, Eq, Error)]
pub enum FormatFault {
    /// Its length is not that of the shape. Nothing was written.
    #[error("{0}")]
    BadShape(BadShape),
    #[error("the medium failed")]
    Media,
}

/// Makes an array of this shape whose data has the pages of the source. An array that is there loses its mark first, and the new one
/// gets its own last, with a barrier after each: if it is broken off, the old array is left as it was, or none, or the new one whole.
/// The cells are left as they are, whatever it answers.
pub fn make<M: Media, P: PageSource>(
    media: &mut M,
    shape: &Shape,
    source: &P,
) -> Result<(), FormatFault>
    // Whatever a loss of power leaves after it is the new array, and opens.
    ensures made { IsTrue M.tells → OnOk result (IsMade shape.now (P.pages source.now) (M.view media.new).content) }
    ensures sure { IsTrue M.tells → OnOk result (LeavesAsRead (M.view media.new).content) }
    ensures opens { IsTrue M.tells → OnOk result (AllOpenWith shape.now (M.view media.new).content (data_of shape.now (M.view media.new).content.bytes)) }
    // And at each moment of it, what it leaves is the old or the new, and never a part of both.
    ensures any_moment { IsTrue M.tells → LeavesOnly (IsOldOrNew shape.now (P.pages source.now) (M.view media.old).content) (M.view media.old) (M.view media.new) }
    ensures cells { IsTrue M.tells → SameCells shape.now (M.view media.old).content.bytes (M.view media.new).content.bytes }
    ensures sized { OnOk result ((M.view media.old).size ≡ media_len shape.now) }
    ensures bad_shape { IfErr result (IsWrongLength shape.now (M.view media.old).size) }
    ensures untouched { IfErr result (λ fault. fault ≢ FormatFault.Media → media.new ≡ media.old) }
    ensures media { IsErrOf result FormatFault.Media → Rose (M.view media.old).faults (M.view media.new).faults }
    ensures kept { OnOk result ((M.view media.new).faults ≡ (M.view media.old).faults) }
    ensures size { (M.view media.new).size ≡ (M.view media.old).size }
    ensures later { (M.view media.old).faults ≤ (M.view media.new).faults }
{
    let given = media.len();
    if given != shape.media_len() {
        return Err(FormatFault::BadShape(BadShape {
            which: ShapeNumber::MediaLength,
            given,
        }));
    }
    match write_array(media, shape, source) {
        Ok(()) => Ok(()),
        Err(_) => Err(FormatFault::Media),
    }
}

fn write_array<M: Media, P: PageSource>(
    media: &mut M,
    shape: &Shape,
    source: &P,
) -> Result<(), Failed>
    requires size { (M.view media.old).size ≡ media_len shape.now }
    ensures made { IsTrue M.tells → OnOk result (IsMade shape.now (P.pages source.now) (M.view media.new).content) }
    ensures any_moment { IsTrue M.tells → LeavesOnly (IsOldOrNew shape.now (P.pages source.now) (M.view media.old).content) (M.view media.old) (M.view media.new) }
    ensures cells { IsTrue M.tells → SameCells shape.now (M.view media.old).content.bytes (M.view media.new).content.bytes }
    ensures does { Writes M.tells ((0, media_len shape.now) ∷ []) (M.view media.old) (M.view media.new) result }
{
    let mut header = [0; 512];
    write_array_header(shape, &mut header);
    drop_mark(media, shape, &header)?;
    write_parts(media, shape, source, &header)?;
    write_mark(media, shape, &header)
}

// Writes zeros over the mark of what is there, if it has one, and makes all that was written before durable.
fn drop_mark<M: Media>(media: &mut M, shape: &Shape, header: &[u8; 512]) -> Result<(), Failed>
    requires size { (M.view media.old).size ≡ media_len shape.now }
    requires header { header.now ≡ header_bytes shape.now }
    ensures dropped { IsTrue M.tells → OnOk result (IsNoArray (M.view media.new).content.bytes) }
    ensures sure { IsTrue M.tells → OnOk result ((M.view media.new).content.unsettled ≡ []) }
    ensures any_moment { IsTrue M.tells → LeavesOnly (λ image. MayLeave (M.view media.old).content image ⊎ IsNoArray image) (M.view media.old) (M.view media.new) }
    ensures does { Writes M.tells ((0, 8) ∷ []) (M.view media.old) (M.view media.new) result }
{
    let mut found = [0; MARK_LEN];
    media.read(0, &mut found)?;
    if header.starts_with(&found) {
        media.write(0, &[0; MARK_LEN])?;
    }
    media.barrier()
}

// Writes all but the mark and the cells, and makes it durable.
fn write_parts<M: Media, P: PageSource>(
    media: &mut M,
    shape: &Shape,
    source: &P,
    header: &[u8; 512],
) -> Result<(), Failed>
    requires size { (M.view media.old).size ≡ media_len shape.now }
    ensures parts { IsTrue M.tells → OnOk result (HasParts shape.now (P.pages source.now) (M.view media.new).content.bytes) }
    ensures numbers { IsTrue M.tells → OnOk result (range (M.view media.new).content.bytes 8 504 ≡ range header.now 8 504) }
    ensures sure { IsTrue M.tells → OnOk result ((M.view media.new).content.unsettled ≡ []) }
    ensures cells { IsTrue M.tells → SameCells shape.now (M.view media.old).content.bytes (M.view media.new).content.bytes }
    ensures does { Writes M.tells (behind_mark shape.now) (M.view media.old) (M.view media.new) result }
{
    write_pages(media, shape, source)?;
    clear_rows(media, shape)?;
    media.write(MARK_LEN as u64, &header[MARK_LEN..])?;
    media.barrier()
}

// Writes the mark of the header, when all else is durable.
fn write_mark<M: Media>(media: &mut M, shape: &Shape, header: &[u8; 512]) -> Result<(), Failed>
    requires size { (M.view media.old).size ≡ media_len shape.now }
    ensures marked { IsTrue M.tells → OnOk result ((M.view media.new).content ≡ settled (written 0 (take 8 header.now) (M.view media.old).content)) }
    ensures does { Writes M.tells ((0, 8) ∷ []) (M.view media.old) (M.view media.new) result }
{
    media.write(0, &header[..MARK_LEN])?;
    media.barrier()
}

fn write_pages<M: Media, P: PageSource>(
    media: &mut M,
    shape: &Shape,
    source: &P,
) -> Result<(), Failed>
    requires size { (M.view media.old).size ≡ media_len shape.now }
    ensures pages { IsTrue M.tells → OnOk result (HasPages shape.now (P.pages source.now) (page_count shape.now) (M.view media.new).content.bytes) }
    ensures cells { IsTrue M.tells → SameCells shape.now (M.view media.old).content.bytes (M.view media.new).content.bytes }
    ensures does { Writes M.tells (behind_header shape.now) (M.view media.old) (M.view media.new) result }
{
    for page in 0..shape.page_count() {
        let mut bytes = [0; 512];
        source.page(page, &mut bytes);
        media.write(shape.byte_at(PAGE_LEN * page), &bytes)?;
    }
    Ok(())
}

fn clear_rows<M: Media>(media: &mut M, shape: &Shape) -> Result<(), Failed>
    requires size { (M.view media.old).size ≡ media_len shape.now }
    ensures rows { IsTrue M.tells → OnOk result (HasRows shape.now shape.now.loggers (M.view media.new).content.bytes) }
    ensures pages { IsTrue M.tells → OnOk result (data_of shape.now (M.view media.new).content.bytes ≡ data_of shape.now (M.view media.old).content.bytes) }
    ensures cells { IsTrue M.tells → SameCells shape.now (M.view media.old).content.bytes (M.view media.new).content.bytes }
    ensures does { Writes M.tells (behind_header shape.now) (M.view media.old) (M.view media.new) result }
{
    let zeros = [0; ROWS_LEN];
    fill_rows(media, shape, &zeros[..16 * usize::from(shape.numbers)])
}

// The rows of a logger lie side by side, and are written at once.
fn fill_rows<M: Media>(media: &mut M, shape: &Shape, zeros: &[u8]) -> Result<(), Failed>
    requires size { (M.view media.old).size ≡ media_len shape.now }
    requires zeros { zeros.now ≡ replicate (16 * shape.now.numbers) 0 }
    ensures rows { IsTrue M.tells → OnOk result (HasRows shape.now shape.now.loggers (M.view media.new).content.bytes) }
    ensures pages { IsTrue M.tells → OnOk result (data_of shape.now (M.view media.new).content.bytes ≡ data_of shape.now (M.view media.old).content.bytes) }
    ensures cells { IsTrue M.tells → SameCells shape.now (M.view media.old).content.bytes (M.view media.new).content.bytes }
    ensures does { Writes M.tells (behind_header shape.now) (M.view media.old) (M.view media.new) result }
{
    for logger in 0..shape.loggers {
        media.write(shape.row_at(logger, 0), zeros)?;
    }
    Ok(())
}
