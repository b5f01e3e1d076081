// Takes keys without records out of the index, but those that live transactions touch.
ghost use Rattle.std.specs.Prelude.{◌≡◌, ◌<◌, Some, IsTrue, length, slice_get};
ghost use Rattle.history.specs.Key.{of_table};
ghost use Rattle.page_store.specs.Shown.{pages_of};
ghost use Rattle.record_table.specs.Removing.{IsAbsent};
ghost use Rattle.mars_core.specs.Purging.{MayPurge, IsOfTable, IsOfFirst, Tries, Clears};

use crate::masks::Masks;
use crate::seats::Seats;
use eaw_face::EawStore;
use history::TableCall;
use noted::Keeper;
use page_store::KeyIndex;
use record_slots::Name;
use record_table::{Records, TableFault};

// Tries a key without a record, unless a live transaction touches its stripe. Returns whether it was taken out.
fn try_key<S: EawStore, K: KeyIndex, H: Keeper>(
    records: &mut Records<S, K>,
    seats: &Seats<H>,
    caller: u8,
    table: u8,
    name: &Name,
    key: u64,
) -> Result<bool, TableFault>
    requires may { MayPurge S.tells K.index seats.now caller (pages_of (S.view records.old.store) records.old) }
    requires table { table < 8 }
    requires named { slice_get seats.now.names table ≡ Some name.now }
    requires absent { IsTrue S.tells → IsAbsent K.index (S.view records.old.store).state.bytes (of_table name.now key) }
    ensures tries { Tries S.tells (S.opens (S.view records.old.store).shape) K.index seats.now table (of_table name.now key)
        (pages_of (S.view records.old.store) records.old) (pages_of (S.view records.new.store) records.new) result }
{
    let asked = TableCall::Del { table: *name, key };
    let number = seats.number_for(&asked).unwrap_or(seats.names().count());
    match seats.holder(caller, Masks::touched_by(number, &asked)) {
        Some(_) => Ok(false),
        None => records.remove(caller, table, key),
    }
}

// The same with each key of a table, by rising key. Returns how many were taken out.
fn clear_table<S: EawStore, K: KeyIndex, H: Keeper>(
    records: &mut Records<S, K>,
    seats: &Seats<H>,
    caller: u8,
    table: u8,
    name: &Name,
) -> Result<u32, TableFault>
    requires may { MayPurge S.tells K.index seats.now caller (pages_of (S.view records.old.store) records.old) }
    requires table { table < 8 }
    requires named { slice_get seats.now.names table ≡ Some name.now }
    ensures clears { Clears S.tells (S.opens (S.view records.old.store).shape) K.index seats.now caller (IsOfTable name.now)
        (pages_of (S.view records.old.store) records.old) (pages_of (S.view records.new.store) records.new) result }
{
    let mut taken: u32 = 0;
    let mut from = 0;
    loop {
        let Some(key) = records.next_absent(table, from)? else {
            return Ok(taken);
        };
        let was = try_key(records, seats, caller, table, name, key)?;
        taken = taken.saturating_add(u32::from(was));
        if key == u64::MAX {
            return Ok(taken);
        }
        from = key + 1;
    }
}

/// Tries each key that has no record, and whose stripe no live transaction touches, once, by rising table and key, as this caller's number.
/// Returns how many were taken out.
pub fn clear<S: EawStore, K: KeyIndex, H: Keeper>(
    records: &mut Records<S, K>,
    seats: &Seats<H>,
    caller: u8,
) -> Result<u32, TableFault>
    requires { MayPurge S.tells K.index seats.now caller (pages_of (S.view records.old.store) records.old) }
    ensures clears { Clears S.tells (S.opens (S.view records.old.store).shape) K.index seats.now caller (IsOfFirst seats.now.names (length seats.now.names))
        (pages_of (S.view records.old.store) records.old) (pages_of (S.view records.new.store) records.new) result }
{
    let mut taken: u32 = 0;
    for table in 0..seats.names().count() {
        let Some(name) = seats.names().name(table) else {
            unreachable!();
        };
        let more = clear_table(records, seats, caller, table, &name)?;
        taken = taken.saturating_add(more);
    }
    Ok(taken)
}
