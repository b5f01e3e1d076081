// What C calls to put, read and remove long bytes. `mars.h` says what it owes.
ghost use Rattle.std.specs.Prelude.{◌≡◌, None};
ghost use Rattle.taped_calls.specs.Asked.{Changes};
ghost use Rattle.taped_calls.specs.Told.{IsPutOut};
ghost use Rattle.taped_records.specs.Long.{AsksToPut, AsksToGet, AsksToDel, AsksLength};
ghost use Rattle.taped_records.specs.Status.{is_closed};

use crate::kept::Kept;
use box_parts::ask;
use std::alloc::Global;
use taped_records::IS_CLOSED;

/// Puts the bytes under the key, in the place of those that were there.
#[unsafe(no_mangle)]
pub extern "C" fn mars_put_bytes(
    alloc: Global,
    m: &mut Kept,
    caller: u8,
    table: &[u8],
    key: u64,
    bytes: &[u8],
) -> i32
    ensures { Changes (λ was now. AsksToPut table.now key bytes.now caller was now result) (result ≡ is_closed) m.old.held.array m.new.held.array }
{
    ask!(m, alloc, array => array.put_bytes(caller, table, key, bytes), else IS_CLOSED)
}

/// The bytes under the key: as many as there is room for, and how many there are.
#[unsafe(no_mangle)]
pub extern "C" fn mars_get_bytes(
    alloc: Global,
    m: &mut Kept,
    caller: u8,
    table: &[u8],
    key: u64,
    room: &mut [u8],
    len: &mut u64,
) -> i32
    ensures { Changes (λ was now. AsksToGet table.now key caller room.old room.new len.old len.new was now result)
        ((result ≡ is_closed) × IsPutOut None room.old room.new len.old len.new) m.old.held.array m.new.held.array }
{
    ask!(m, alloc, array => array.get_bytes(alloc, caller, table, key, room, len), else IS_CLOSED)
}

/// Removes them.
#[unsafe(no_mangle)]
pub extern "C" fn mars_del_bytes(
    alloc: Global,
    m: &mut Kept,
    caller: u8,
    table: &[u8],
    key: u64,
) -> i32
    ensures { Changes (λ was now. AsksToDel table.now key caller was now result) (result ≡ is_closed) m.old.held.array m.new.held.array }
{
    ask!(m, alloc, array => array.del_bytes(caller, table, key), else IS_CLOSED)
}

/// How many there are.
#[unsafe(no_mangle)]
pub extern "C" fn mars_bytes_length(
    alloc: Global,
    m: &mut Kept,
    caller: u8,
    table: &[u8],
    key: u64,
    len: &mut u64,
) -> i32
    ensures { Changes (λ was now. AsksLength table.now key caller len.old len.new was now result)
        ((result ≡ is_closed) × (len.new ≡ len.old)) m.old.held.array m.new.held.array }
{
    ask!(m, alloc, array => array.bytes_length(caller, table, key, len), else IS_CLOSED)
}
