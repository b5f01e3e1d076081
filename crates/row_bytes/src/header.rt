// The header of an array.
ghost use Rattle.std.specs.Prelude.{◌≡◌, IfOk, IfErr, slice_index};
ghost use Rattle.row_bytes.specs.Header.{header_front, header_bytes, SaysShape, IsFaulty, entries_said, pages_said};
ghost use Rattle.array_shape.specs.Numbers.{IsFirstBad};
ghost use Rattle.array_shape.specs.Places.{HasNumbers};
ghost use Rattle.array_shape.specs.Places as places;

use array_shape::{BadShape, Shape, ShapeNumber};
use byteorder::{ByteOrder, LittleEndian};
use thiserror::Error;

const MARK: [u8; 8] = *b"MARSEAW1";

/// Why the first bytes of a medium are not the header of an array.
#[derive(Clone, Copy, Debug, PartialEq, Eq, Error)]
pub enum HeaderFault {
    #[error("not mars")]
    NotMars,
    #[error(transparent)]
    BadShape(BadShape),
}

/// Writes the header of an array.
pub fn write_array_header(shape: &Shape, out: &mut [u8; 512])
    ensures written { out.new ≡ header_bytes shape.now }
    ensures reads_back { SaysShape out.new shape.now }
{
    out.fill(0);
    out[..16].copy_from_slice(&header_front(*shape));
}

// The mark and the numbers.
fn header_front(shape: Shape) -> [u8; 16]
    ensures { result ≡ header_front shape }
{
    let mut front = [0; 16];
    front[..8].copy_from_slice(&MARK);
    front[8] = shape.loggers;
    front[9] = shape.numbers;
    LittleEndian::write_u16(&mut front[10..], shape.entries);
    LittleEndian::write_u32(&mut front[12..], shape.pages);
    front
}

/// The shape of the array on a medium of `media_len` bytes that begins with this header.
pub fn read_array_header(bytes: &[u8; 512], media_len: u64) -> Result<Shape, HeaderFault>
    ensures shape { IfOk result (λ shape. SaysShape bytes.now shape) }
    ensures length { IfOk result (λ shape. media_len ≡ places.media_len shape) }
    ensures fault { IfErr result (IsFaulty bytes.now media_len) }
{
    if !bytes.starts_with(&MARK) {
        return Err(HeaderFault::NotMars);
    }
    let shape = read_shape(bytes).map_err(HeaderFault::BadShape)?;
    if shape.media_len() != media_len {
        return Err(HeaderFault::BadShape(BadShape {
            which: ShapeNumber::MediaLength,
            given: media_len,
        }));
    }
    Ok(shape)
}

fn read_shape(bytes: &[u8; 512]) -> Result<Shape, BadShape>
    ensures shape { IfOk result (HasNumbers (slice_index bytes.now 8) (slice_index bytes.now 9) (entries_said bytes.now) (pages_said bytes.now)) }
    ensures bad { IfErr result (λ bad. IsFirstBad (slice_index bytes.now 8) (slice_index bytes.now 9) (entries_said bytes.now) (pages_said bytes.now) bad.which bad.given) }
{
    let entries = LittleEndian::read_u16(&bytes[10..]);
    let pages = LittleEndian::read_u32(&bytes[12..]);
    Shape::new(bytes[8], bytes[9], entries, pages)
}
