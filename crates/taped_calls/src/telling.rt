// What is put where the caller has room for it.
ghost use Rattle.std.specs.Prelude.{◌≡◌, drop, Option, None, Some, MatchOption};
ghost use Rattle.tape_media.specs.Pieces.{step_of};
ghost use Rattle.tape_media.specs.Steps.{Step};
ghost use Rattle.taped_calls.specs.Told.{IsPutOut, IsPiece, IsWrite};

use tape_media::Piece;

// What is to be done next on the device.
pub const NOTHING: i32 = 0;

pub const WRITE: i32 = 1;

pub const BARRIER: i32 = 2;

/// Puts as many of these bytes into `room` as it has room for, and how many there are into `len`.
pub fn put_out(bytes: &[u8], room: &mut [u8], len: &mut u64)
    ensures { IsPutOut (Some bytes.now) room.old room.new len.old len.new }
{
    let count = bytes.len().min(room.len());
    room[..count].copy_from_slice(&bytes[..count]);
    *len = bytes.len() as u64;
}

/// Tells the next piece: nothing is to be done (0), a write of `len` bytes at the place `at` (1), or a barrier (2).
pub fn tell_piece(next: Option<&Piece>, at: &mut u64, len: &mut u64) -> i32
    ensures { (step : Option Step) → MatchOption next.entry (step ≡ None) (λ piece. step ≡ Some (step_of piece.now))
        → IsPiece step result at.old at.new len.old len.new }
{
    match next {
        Some(Piece::Write { at: place, bytes }) => {
            *at = *place;
            *len = bytes.len() as u64;
            WRITE
        }
        Some(Piece::Barrier) => BARRIER,
        None => NOTHING,
    }
}

/// Tells the bytes of the next piece from `skip` on, as many as there is room for, and how many there are, if it is a write. Else it answers `none`.
pub fn tell_write(next: Option<&Piece>, none: i32, skip: u64, room: &mut [u8], len: &mut u64) -> i32
    ensures { (step : Option Step) → MatchOption next.entry (step ≡ None) (λ piece. step ≡ Some (step_of piece.now))
        → IsWrite none step skip result room.old room.new len.old len.new }
{
    match next {
        Some(Piece::Write { at: _, bytes }) => {
            put_out(from(bytes, skip), room, len);
            0
        }
        _ => none,
    }
}

// The bytes from `skip` on.
fn from(bytes: &[u8], skip: u64) -> &[u8]
    ensures { result.now ≡ drop skip bytes.now }
{
    if skip >= bytes.len() as u64 {
        return &[];
    }
    &bytes[skip as usize..]
}
