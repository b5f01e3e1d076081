// What C calls to read an open array, and to take its tape down. `mars.h` says what it owes.
ghost use Rattle.std.specs.Prelude.{◌≡◌, pos, true, None, slice_get};
ghost use Rattle.tape_media.specs.Tape.{next_of};
ghost use Rattle.taped_calls.specs.Asked.{Looks, Changes};
ghost use Rattle.taped_calls.specs.Told.{IsPutOut, IsPiece, IsWrite};
ghost use Rattle.taped_records.specs.Shown.{tape_of, core_in};
ghost use Rattle.taped_records.specs.Status.{is_closed, no_piece};
ghost use Rattle.taped_records.specs.Tells.{IsRow, IsTold, IsDone, IsDoneUpTo, GoesOn};

use crate::kept::Kept;
use box_parts::ask;
use std::alloc::Global;
use taped_calls::NOTHING;
use taped_records::{IS_CLOSED, OK};

/// A row of the last scan, counted from 0: its key, as much of its value as there is room for, and how long that is.
#[unsafe(no_mangle)]
pub extern "C" fn mars_row(
    alloc: Global,
    m: &mut Kept,
    at: u64,
    key: &mut u64,
    room: &mut [u8],
    len: &mut u64,
) -> i32
    ensures { Looks (λ array. IsRow (slice_get array.rows at) result key.old key.new room.old room.new len.old len.new)
        ((result ≡ is_closed) × (key.new ≡ key.old) × IsPutOut None room.old room.new len.old len.new) m.old.held.array m.new.held.array }
{
    ask!(m, alloc, array => array.row(at, key, room, len), else IS_CLOSED)
}

/// The name of a table by its number, counted from 0: as much of it as there is room for, and its length.
#[unsafe(no_mangle)]
pub extern "C" fn mars_table(
    alloc: Global,
    m: &mut Kept,
    number: u8,
    room: &mut [u8],
    len: &mut u64,
) -> i32
    ensures { Looks (λ array. IsTold (slice_get (core_in array).state.names number) result room.old room.new len.old len.new)
        ((result ≡ is_closed) × IsPutOut None room.old room.new len.old len.new) m.old.held.array m.new.held.array }
{
    ask!(m, alloc, array => array.table(number, room, len), else IS_CLOSED)
}

/// What is to be done next on the device: nothing (0), a write of `len` bytes at the place `at` (1), or a barrier (2).
#[unsafe(no_mangle)]
pub extern "C" fn mars_piece(alloc: Global, m: &mut Kept, at: &mut u64, len: &mut u64) -> i32
    ensures { Looks (λ array. IsPiece (next_of (tape_of array)) result at.old at.new len.old len.new)
        (IsPiece None result at.old at.new len.old len.new) m.old.held.array m.new.held.array }
{
    ask!(m, alloc, array => array.piece(at, len), else NOTHING)
}

/// The bytes of the next write from `skip` on: as many as there is room for, and how many there are.
#[unsafe(no_mangle)]
pub extern "C" fn mars_piece_bytes(
    alloc: Global,
    m: &mut Kept,
    skip: u64,
    room: &mut [u8],
    len: &mut u64,
) -> i32
    ensures { Looks (λ array. IsWrite no_piece (next_of (tape_of array)) skip result room.old room.new len.old len.new)
        ((result ≡ is_closed) × IsPutOut None room.old room.new len.old len.new) m.old.held.array m.new.held.array }
{
    ask!(m, alloc, array => array.piece_bytes(skip, room, len), else IS_CLOSED)
}

/// The next piece was done on the device. It is forgotten.
#[unsafe(no_mangle)]
pub extern "C" fn mars_piece_done(alloc: Global, m: &mut Kept) -> i32
    ensures { Changes (λ old new. IsDone (next_of (tape_of old)) old new result) (result ≡ is_closed) m.old.held.array m.new.held.array }
{
    ask!(m, alloc, array => array.piece_done(), else IS_CLOSED)
}

/// The next piece failed on the device. From now on each call that writes fails, and no piece is given out.
#[unsafe(no_mangle)]
pub extern "C" fn mars_piece_failed(alloc: Global, m: &mut Kept) -> i32
    ensures { Changes (λ old new. (result ≡ pos 0) × GoesOn (record (tape_of old) { has_failed = true }) old new) (result ≡ is_closed)
        m.old.held.array m.new.held.array }
{
    ask!(m, alloc, array => {
        array.piece_failed();
        OK
    }, else IS_CLOSED)
}

/// The moment of the last call.
#[unsafe(no_mangle)]
pub extern "C" fn mars_moment(alloc: Global, m: &mut Kept) -> u64
    ensures { Looks (λ array. result ≡ (core_in array).moment) (result ≡ 0) m.old.held.array m.new.held.array }
{
    ask!(m, alloc, array => array.moment(), else 0)
}

/// The moment up to which the pieces of all calls were done.
#[unsafe(no_mangle)]
pub extern "C" fn mars_done_up_to(alloc: Global, m: &mut Kept) -> u64
    ensures { Looks (IsDoneUpTo result) (result ≡ 0) m.old.held.array m.new.held.array }
{
    ask!(m, alloc, array => array.done_up_to(), else 0)
}
