// What C calls to take the tape of an open array down. `mars_array.h` says what it owes.
ghost use Rattle.std.specs.Prelude.{◌≡◌, pos, true, None};
ghost use Rattle.tape_media.specs.Tape.{next_of};
ghost use Rattle.taped_calls.specs.Asked.{Looks, Changes};
ghost use Rattle.taped_calls.specs.Told.{IsPutOut, IsPiece, IsWrite};
ghost use Rattle.taped_array.specs.Shown.{tape_of};
ghost use Rattle.taped_array.specs.Status.{is_closed, no_piece};
ghost use Rattle.taped_array.specs.Tells.{IsDone, IsMoment, IsDoneUpTo, GoesOn};

use crate::kept::Kept;
use box_parts::ask;
use std::alloc::Global;
use taped_array::{IS_CLOSED, OK};
use taped_calls::NOTHING;

/// What is to be done next on the device: nothing (0), a write of `len` bytes at the place `at` (1), or a barrier (2).
#[unsafe(no_mangle)]
pub extern "C" fn mars_array_piece(alloc: Global, a: &mut Kept, at: &mut u64, len: &mut u64) -> i32
    ensures { Looks (λ array. IsPiece (next_of (tape_of array)) result at.old at.new len.old len.new)
        (IsPiece None result at.old at.new len.old len.new) a.old.held.array a.new.held.array }
{
    ask!(a, alloc, array => array.piece(at, len), else NOTHING)
}

/// The bytes of the next write from `skip` on: as many as there is room for, and how many there are.
#[unsafe(no_mangle)]
pub extern "C" fn mars_array_piece_bytes(
    alloc: Global,
    a: &mut Kept,
    skip: u64,
    room: &mut [u8],
    len: &mut u64,
) -> i32
    ensures { Looks (λ array. IsWrite no_piece (next_of (tape_of array)) skip result room.old room.new len.old len.new)
        ((result ≡ is_closed) × IsPutOut None room.old room.new len.old len.new) a.old.held.array a.new.held.array }
{
    ask!(a, alloc, array => array.piece_bytes(skip, room, len), else IS_CLOSED)
}

/// The next piece was done on the device. It is forgotten.
#[unsafe(no_mangle)]
pub extern "C" fn mars_array_piece_done(alloc: Global, a: &mut Kept) -> i32
    ensures { Changes (λ old new. IsDone (next_of (tape_of old)) old new result) (result ≡ is_closed) a.old.held.array a.new.held.array }
{
    ask!(a, alloc, array => array.piece_done(), else IS_CLOSED)
}

/// The next piece failed on the device. From now on each call that writes fails, and no piece is given out.
#[unsafe(no_mangle)]
pub extern "C" fn mars_array_piece_failed(alloc: Global, a: &mut Kept) -> i32
    ensures { Changes (λ old new. (result ≡ pos 0) × GoesOn (record (tape_of old) { has_failed = true }) old new) (result ≡ is_closed)
        a.old.held.array a.new.held.array }
{
    ask!(a, alloc, array => {
        array.piece_failed();
        OK
    }, else IS_CLOSED)
}

/// The moment of the last call.
#[unsafe(no_mangle)]
pub extern "C" fn mars_array_moment(alloc: Global, a: &mut Kept) -> u64
    ensures { Looks (IsMoment result) (result ≡ 0) a.old.held.array a.new.held.array }
{
    ask!(a, alloc, array => array.moment(), else 0)
}

/// The moment up to which the pieces of all calls were done.
#[unsafe(no_mangle)]
pub extern "C" fn mars_array_done_up_to(alloc: Global, a: &mut Kept) -> u64
    ensures { Looks (IsDoneUpTo result) (result ≡ 0) a.old.held.array a.new.held.array }
{
    ask!(a, alloc, array => array.done_up_to(), else 0)
}
