// Pages as pieces.
ghost use Rattle.std.specs.Prelude.{◌≡◌, ◌+◌, ◌-◌, ◌*◌, ◌≤◌, ◌<◌, ◌++◌, IsTrue, length, replicate, take};
ghost use Rattle.array_shape.specs.Places.{data_at};
ghost use Rattle.row_bytes.specs.Header.{header_bytes};
ghost use Rattle.array_image.specs.Joined.{joined};
ghost use Rattle.image_pieces.specs.Image.{front_len, page_of};
ghost use Rattle.image_pieces.specs.Pieces.{IsPlaced, bytes_of};

use crate::piece::{PIECE_LEN, Piece};
use array_shape::{HEADER_LEN, PAGE_LEN, Shape};
use eaw_device::PageSource;
use row_bytes::write_array_header;

// The most pages of a piece.
pub const PAGES_MOST: u32 = 128;

// The header of an array.
pub fn header_piece(shape: &Shape, out: &mut [u8; PIECE_LEN]) -> Piece
    ensures bytes { bytes_of result out.new ≡ header_bytes shape.now }
    ensures placed { IsPlaced 0 result }
{
    let mut header = [0; 512];
    write_array_header(shape, &mut header);
    out[..512].copy_from_slice(&header);
    Piece::Bytes { at: 0, len: 512 }
}

// The rows and cells of a logger.
pub fn front_piece(shape: &Shape) -> Piece
    ensures { result ≡ Piece.Zeros (front_len shape.now) }
{
    Piece::Zeros {
        len: shape.data_at(0) - HEADER_LEN,
    }
}

// So many pages of a logger.
pub fn pages_piece<P: PageSource>(
    shape: &Shape,
    source: &P,
    logger: u8,
    page: u32,
    count: u32,
    out: &mut [u8; PIECE_LEN],
) -> Piece
    requires logger { logger < shape.now.loggers }
    requires pages { page + count ≤ shape.now.pages }
    requires most { count ≤ 128 }
    ensures bytes { bytes_of result out.new ≡ joined (page_of shape.now (P.pages source.now) logger) page count }
    ensures placed { IsPlaced (data_at shape.now logger + 512 * page) result }
{
    fill_pages(shape, source, logger, page, count, out);
    let len = 512 * count as usize;
    if is_zero(&out[..len]) {
        return Piece::Zeros { len: len as u64 };
    }
    Piece::Bytes {
        at: shape.data_at(logger) + PAGE_LEN * u64::from(page),
        len,
    }
}

fn fill_pages<P: PageSource>(
    shape: &Shape,
    source: &P,
    logger: u8,
    page: u32,
    count: u32,
    out: &mut [u8; PIECE_LEN],
)
    requires logger { logger < shape.now.loggers }
    requires pages { page + count ≤ shape.now.pages }
    requires most { count ≤ 128 }
    ensures { take (512 * count) out.new ≡ joined (page_of shape.now (P.pages source.now) logger) page count }
{
    for j in 0..count {
        let mut bytes = [0; 512];
        source.page(number_of(shape, logger, page + j), &mut bytes);
        let at = 512 * j as usize;
        out[at..at + 512].copy_from_slice(&bytes);
    }
}

// The number of a page of a logger.
fn number_of(shape: &Shape, logger: u8, page: u32) -> u64
    ensures { result ≡ page * shape.now.loggers + logger }
{
    u64::from(page) * u64::from(shape.loggers) + u64::from(logger)
}

fn is_zero(bytes: &[u8]) -> bool
    requires { length bytes.now ≤ 65536 }
    ensures { IsTrue result → bytes.now ≡ replicate (length bytes.now) 0 }
{
    let zeros = [0; PIECE_LEN];
    bytes == &zeros[..bytes.len()]
}
