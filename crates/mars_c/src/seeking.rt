// What C calls to read records one by one. `mars.h` says what it owes.
ghost use Rattle.std.specs.Prelude.{◌≡◌, None};
ghost use Rattle.taped_calls.specs.Asked.{Changes};
ghost use Rattle.taped_calls.specs.Told.{IsPutOut};
ghost use Rattle.taped_records.specs.Cursor.{AsksNext};
ghost use Rattle.taped_records.specs.Status.{is_closed};

use crate::kept::Kept;
use box_parts::ask;
use std::alloc::Global;
use taped_records::IS_CLOSED;

/// The first record from one key to another, both included: its key, as much of its value as there is room for, and how long that is.
#[unsafe(no_mangle)]
pub extern "C" fn mars_next(
    alloc: Global,
    m: &mut Kept,
    caller: u8,
    table: &[u8],
    from: u64,
    to: u64,
    key: &mut u64,
    room: &mut [u8],
    len: &mut u64,
) -> i32
    ensures { Changes (λ was now. AsksNext table.now from to caller key.old key.new room.old room.new len.old len.new was now result)
        ((result ≡ is_closed) × (key.new ≡ key.old) × IsPutOut None room.old room.new len.old len.new) m.old.held.array m.new.held.array }
{
    ask!(m, alloc, array => array.next(caller, table, from, to, key, room, len), else IS_CLOSED)
}
