// The commands, as C calls them. `mars_array.h` says what it owes.
ghost use Rattle.std.specs.Prelude.{◌≡◌, length};
ghost use Rattle.array_shape.specs.NumberSet.{numbers_in};
ghost use Rattle.eaw_face.specs.Command.{log_write, log_edit, commit, commit_group, abort, nested_top, partial_abort, atomic_write, log_read, read};
ghost use Rattle.taped_array.specs.Refusals.{always, is_inside, is_write, is_own_write, has_parts, has_part, is_within};
ghost use Rattle.taped_array.specs.Told.{IsRead, IsPart, count_in};
ghost use Rattle.array_c.specs.Asks.{Commands, CommandsOnly};

use crate::kept::Kept;
use box_parts::ask;
use std::alloc::Global;
use taped_array::IS_CLOSED;

/// Logs a write of these bytes at this address under the number, and tells how many parts the number has logged by now.
#[unsafe(no_mangle)]
pub extern "C" fn mars_array_log_write(
    alloc: Global,
    a: &mut Kept,
    number: u8,
    at: u64,
    bytes: &[u8],
    parts: &mut u64,
) -> i32
    ensures { Commands (is_write at (length bytes.now)) (log_write number at bytes.now)
        (λ _ told. parts.new ≡ count_in parts.old told) (parts.new ≡ parts.old) a.old.held.array a.new.held.array result }
{
    ask!(a, alloc, array => array.log_write(number, at, bytes, parts), else IS_CLOSED)
}

/// Writes all that the number has logged into the data at once, and frees the number.
#[unsafe(no_mangle)]
pub extern "C" fn mars_array_commit(alloc: Global, a: &mut Kept, number: u8) -> i32
    ensures { CommandsOnly always (commit number) a.old.held.array a.new.held.array result }
{
    ask!(a, alloc, array => array.commit(number), else IS_CLOSED)
}

/// Commits several numbers at once: number t is one of them where bit t of the set is 1.
#[unsafe(no_mangle)]
pub extern "C" fn mars_array_commit_group(alloc: Global, a: &mut Kept, set: u64) -> i32
    ensures { CommandsOnly always (commit_group (numbers_in set)) a.old.held.array a.new.held.array result }
{
    ask!(a, alloc, array => array.commit_group(set), else IS_CLOSED)
}

/// Drops all that the number has logged, and frees the number.
#[unsafe(no_mangle)]
pub extern "C" fn mars_array_abort(alloc: Global, a: &mut Kept, number: u8) -> i32
    ensures { CommandsOnly always (abort number) a.old.held.array a.new.held.array result }
{
    ask!(a, alloc, array => array.abort(number), else IS_CLOSED)
}

/// Commits the parts of a log from an offset on. The number keeps those before it.
#[unsafe(no_mangle)]
pub extern "C" fn mars_array_nested_top(alloc: Global, a: &mut Kept, number: u8, offset: u32) -> i32
    ensures { CommandsOnly (has_parts number offset) (nested_top number offset) a.old.held.array a.new.held.array result }
{
    ask!(a, alloc, array => array.nested_top(number, offset), else IS_CLOSED)
}

/// Drops the parts of a log from an offset on.
#[unsafe(no_mangle)]
pub extern "C" fn mars_array_partial_abort(
    alloc: Global,
    a: &mut Kept,
    number: u8,
    offset: u32,
) -> i32
    ensures { CommandsOnly (has_parts number offset) (partial_abort number offset) a.old.held.array a.new.held.array result }
{
    ask!(a, alloc, array => array.partial_abort(number, offset), else IS_CLOSED)
}

/// A transaction of one write, under a number that has no log.
#[unsafe(no_mangle)]
pub extern "C" fn mars_array_atomic_write(
    alloc: Global,
    a: &mut Kept,
    number: u8,
    at: u64,
    bytes: &[u8],
) -> i32
    ensures { CommandsOnly (is_own_write number at (length bytes.now)) (atomic_write number at bytes.now) a.old.held.array a.new.held.array result }
{
    ask!(a, alloc, array => array.atomic_write(number, at, bytes), else IS_CLOSED)
}

/// Tells a part of a log by its position: its address, as many of its bytes as there is room for, and how many it has.
#[unsafe(no_mangle)]
pub extern "C" fn mars_array_log_read(
    alloc: Global,
    a: &mut Kept,
    number: u8,
    pos: u32,
    at: &mut u64,
    room: &mut [u8],
    len: &mut u64,
) -> i32
    ensures { Commands (has_part number pos) (log_read number) (IsPart number pos at.old at.new room.old room.new len.old len.new)
        ((at.new ≡ at.old) × (room.new ≡ room.old) × (len.new ≡ len.old)) a.old.held.array a.new.held.array result }
{
    ask!(a, alloc, array => array.log_read(number, pos, at, room, len), else IS_CLOSED)
}

/// Replaces bytes within a part of a log, from byte `at` of the part on.
#[unsafe(no_mangle)]
pub extern "C" fn mars_array_log_edit(
    alloc: Global,
    a: &mut Kept,
    number: u8,
    pos: u32,
    at: u32,
    bytes: &[u8],
) -> i32
    ensures { CommandsOnly (is_within number pos at (length bytes.now)) (log_edit number pos at bytes.now) a.old.held.array a.new.held.array result }
{
    ask!(a, alloc, array => array.log_edit(number, pos, at, bytes), else IS_CLOSED)
}

/// Fills the room with the data from an address on.
#[unsafe(no_mangle)]
pub extern "C" fn mars_array_read(alloc: Global, a: &mut Kept, at: u64, room: &mut [u8]) -> i32
    ensures { Commands (is_inside at (length room.old)) (read at (length room.old))
        (IsRead at room.old room.new) (room.new ≡ room.old) a.old.held.array a.new.held.array result }
{
    ask!(a, alloc, array => array.read(at, room), else IS_CLOSED)
}
