// What C calls of transactions. `mars.h` says what it owes.
ghost use Rattle.std.specs.Prelude.{◌≡◌};
ghost use Rattle.history.specs.declared.call.Call.TheVariants.{Begin, Table, Control};
ghost use Rattle.history.specs.declared.call.TableCall.TheVariants.{Get, Put, Del, Scan, Save, Back};
ghost use Rattle.history.specs.declared.call.Control.TheVariants.{Commit, Abort, Offer, Settle, Purge};
ghost use Rattle.taped_calls.specs.Told.{IsPutOut};
ghost use Rattle.taped_records.specs.Calls.{Fits, IsBadName, IsBadRecord};
ghost use Rattle.taped_records.specs.Told.{Nothing, same_rows, rows_in, number_in, count_in, value_in};
ghost use Rattle.mars_c.specs.Calls.{Calls};

use crate::kept::Kept;
use box_parts::ask;
use std::alloc::Global;
use taped_records::IS_CLOSED;

/// Begins a transaction of the caller's.
#[unsafe(no_mangle)]
pub extern "C" fn mars_begin(alloc: Global, m: &mut Kept, caller: u8) -> i32
    ensures { Calls same_rows Fits Nothing caller Begin m.old.held.array m.new.held.array result }
{
    ask!(m, alloc, array => array.begin(caller), else IS_CLOSED)
}

/// The value of a key: as much of it as there is room for, and its length.
#[unsafe(no_mangle)]
pub extern "C" fn mars_get(
    alloc: Global,
    m: &mut Kept,
    caller: u8,
    table: &[u8],
    key: u64,
    room: &mut [u8],
    len: &mut u64,
) -> i32
    ensures { Calls same_rows (IsBadName table.now) (λ told. IsPutOut (value_in told) room.old room.new len.old len.new) caller (Table (Get table.now key)) m.old.held.array m.new.held.array result }
{
    ask!(m, alloc, array => array.get(caller, table, key, room, len), else IS_CLOSED)
}

/// Gives a key this value.
#[unsafe(no_mangle)]
pub extern "C" fn mars_put(
    alloc: Global,
    m: &mut Kept,
    caller: u8,
    table: &[u8],
    key: u64,
    value: &[u8],
) -> i32
    ensures { Calls same_rows (IsBadRecord table.now value.now) Nothing caller (Table (Put table.now key value.now)) m.old.held.array m.new.held.array result }
{
    ask!(m, alloc, array => array.put(caller, table, key, value), else IS_CLOSED)
}

/// Removes the record of a key.
#[unsafe(no_mangle)]
pub extern "C" fn mars_del(alloc: Global, m: &mut Kept, caller: u8, table: &[u8], key: u64) -> i32
    ensures { Calls same_rows (IsBadName table.now) Nothing caller (Table (Del table.now key)) m.old.held.array m.new.held.array result }
{
    ask!(m, alloc, array => array.del(caller, table, key), else IS_CLOSED)
}

/// Reads the records from one key to another, both included, and tells how many there are. `mars_row` tells each, until the next scan.
#[unsafe(no_mangle)]
pub extern "C" fn mars_scan(
    alloc: Global,
    m: &mut Kept,
    caller: u8,
    table: &[u8],
    low: u64,
    high: u64,
    count: &mut u64,
) -> i32
    ensures { Calls rows_in (IsBadName table.now) (λ told. count.new ≡ count_in count.old told) caller (Table (Scan table.now low high)) m.old.held.array m.new.held.array result }
{
    ask!(m, alloc, array => array.scan(caller, table, low, high, count), else IS_CLOSED)
}

/// Makes a save, and tells its number, counted from 1.
#[unsafe(no_mangle)]
pub extern "C" fn mars_save(alloc: Global, m: &mut Kept, caller: u8, number: &mut u64) -> i32
    ensures { Calls same_rows Fits (λ told. number.new ≡ number_in number.old told) caller (Table Save) m.old.held.array m.new.held.array result }
{
    ask!(m, alloc, array => array.save(caller, number), else IS_CLOSED)
}

/// Goes back to a save.
#[unsafe(no_mangle)]
pub extern "C" fn mars_back(alloc: Global, m: &mut Kept, caller: u8, save: u32) -> i32
    ensures { Calls same_rows Fits Nothing caller (Table (Back save)) m.old.held.array m.new.held.array result }
{
    ask!(m, alloc, array => array.back(caller, save), else IS_CLOSED)
}

/// Commits the transaction, and tells its number since the opening, counted from 1.
#[unsafe(no_mangle)]
pub extern "C" fn mars_commit(alloc: Global, m: &mut Kept, caller: u8, number: &mut u64) -> i32
    ensures { Calls same_rows Fits (λ told. number.new ≡ number_in number.old told) caller (Control Commit) m.old.held.array m.new.held.array result }
{
    ask!(m, alloc, array => array.commit(caller, number), else IS_CLOSED)
}

/// Drops the transaction.
#[unsafe(no_mangle)]
pub extern "C" fn mars_abort(alloc: Global, m: &mut Kept, caller: u8) -> i32
    ensures { Calls same_rows Fits Nothing caller (Control Abort) m.old.held.array m.new.held.array result }
{
    ask!(m, alloc, array => array.abort(caller), else IS_CLOSED)
}

/// Gives the transaction to the next group that is settled.
#[unsafe(no_mangle)]
pub extern "C" fn mars_offer(alloc: Global, m: &mut Kept, caller: u8) -> i32
    ensures { Calls same_rows Fits Nothing caller (Control Offer) m.old.held.array m.new.held.array result }
{
    ask!(m, alloc, array => array.offer(caller), else IS_CLOSED)
}

/// Commits all transactions that were offered as one group, unless one has done so, and tells the number of the caller's own.
#[unsafe(no_mangle)]
pub extern "C" fn mars_settle(alloc: Global, m: &mut Kept, caller: u8, number: &mut u64) -> i32
    ensures { Calls same_rows Fits (λ told. number.new ≡ number_in number.old told) caller (Control Settle) m.old.held.array m.new.held.array result }
{
    ask!(m, alloc, array => array.settle(caller, number), else IS_CLOSED)
}

/// Takes keys without records out of the index, and tells how many.
#[unsafe(no_mangle)]
pub extern "C" fn mars_purge(alloc: Global, m: &mut Kept, caller: u8, number: &mut u64) -> i32
    ensures { Calls same_rows Fits (λ told. number.new ≡ number_in number.old told) caller (Control Purge) m.old.held.array m.new.held.array result }
{
    ask!(m, alloc, array => array.purge(caller, number), else IS_CLOSED)
}
