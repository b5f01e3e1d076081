// Makes the calls of a transaction on the records.
ghost use Rattle.std.specs.Prelude.{◌≡◌, ◌<◌, ◌≤◌, ◌⊎◌, length, Some, IfSome, IfNone, IsTrue};
ghost use Rattle.eaw_face.specs.Causes.{IsAlive};
ghost use Rattle.page_store.specs.Shown.{counts_in, pages_of};
ghost use Rattle.history.specs.Locks.{has_table};
ghost use Rattle.caller_steps.specs.Locked.{IsFree};
ghost use Rattle.mars_core.specs.declared.locks.Locks.TheVariants.{Held};
ghost use Rattle.record_table.specs.Names.{KeepsNames, names_of};
ghost use Rattle.mars_core.specs.Seats.{bare, IsMasked};
ghost use Rattle.mars_core.specs.TableCall.{number_for};
ghost use Rattle.mars_core.specs.Works.{Works, HasSaves, IsSaveRefusal, Unmade, Made};

use crate::live::Live;
use crate::locks::Locks;
use crate::replies::{found, removed};
use crate::seats::Seats;
use eaw_face::EawStore;
use history::{Reply, TableCall};
use noted::{Keeper, LiveCalls};
use page_store::KeyIndex;
use record_table::{Records, TableFault};
use std::alloc::Global;

// How many saves a transaction may have.
const MOST_SAVES: u32 = 32;

// The refusal of a call because of the saves of its transaction, of which there are this many.
pub fn refused_save(saves: u32, asked: &TableCall) -> Option<Reply>
    ensures refused { IfSome result (IsSaveRefusal saves asked.now) }
    ensures has { IfNone result (HasSaves saves asked.now) }
{
    match asked {
        TableCall::Save => {
            if saves >= MOST_SAVES {
                return Some(Reply::SavesFull);
            }
            None
        }
        TableCall::Back { save } => {
            if *save == 0 || *save > saves {
                return Some(Reply::NoSave { save: *save });
            }
            None
        }
        _ => None,
    }
}

/// Makes a call of a transaction as this number, on the table with that number.
pub fn work<S: EawStore, K: KeyIndex>(
    alloc: Global,
    records: &mut Records<S, K>,
    tid: u8,
    table: u8,
    asked: &TableCall,
) -> Result<Reply, TableFault>
    requires tid { tid < (S.view records.old.store).shape.numbers }
    requires table { table < 8 }
    requires asked { IsTrue S.tells → IsAlive (S.view records.old.store) → number_for (names_of (S.view records.old.store).state.bytes) asked.now ≡ Some table }
    requires saves { HasSaves (length (counts_in records.old.marks tid)) asked.now }
    ensures works { Works S.tells (S.opens (S.view records.old.store).shape) K.index table tid asked.now
        (pages_of (S.view records.old.store) records.old) (pages_of (S.view records.new.store) records.new) result }
{
    match asked {
        TableCall::Get { table: _, key } => Ok(found(&records.get(tid, table, *key)?)),
        TableCall::Put {
            table: _,
            key,
            value,
        } => {
            records.put(tid, table, *key, *value)?;
            Ok(Reply::Fine)
        }
        TableCall::Del { table: _, key } => Ok(removed(records.del(tid, table, *key)?)),
        TableCall::Scan {
            table: _,
            low,
            high,
        } => Ok(Reply::Listed(records.scan(alloc, tid, table, *low, *high)?)),
        TableCall::Save => Ok(Reply::Saved(records.save(tid)?)),
        TableCall::Back { save } => {
            records.back(tid, *save)?;
            Ok(Reply::Fine)
        }
    }
}

/// Answers a call of a live transaction, which comes back, with the call if it was granted. `seats` has the transactions of the others,
/// which are not asked for locks if none of them is known to stand in the way.
pub fn answer<S: EawStore, K: KeyIndex, H: Keeper>(
    alloc: Global,
    records: &mut Records<S, K>,
    seats: &Seats<H>,
    caller: u8,
    live: Live<LiveCalls<H>>,
    asked: &TableCall,
    locks: Locks,
) -> (Live<LiveCalls<H>>, Reply)
    requires inside { caller < (S.view records.old.store).shape.numbers }
    requires few { length seats.now.places ≤ 64 }
    requires named { KeepsNames S.tells (pages_of (S.view records.old.store) records.old) seats.now.names }
    requires masked { IsMasked seats.now.names live }
    requires locked { locks ≡ Held → IsTrue (has_table seats.now.names asked.now) → IsFree (bare seats.now) caller asked.now }
    ensures answered { ((records.new ≡ records.old) × (result.0.calls ≡ live.calls) × Unmade (length (counts_in records.old.marks caller)) seats.now caller asked.now result.1)
        ⊎ Made S.tells (S.opens (S.view records.old.store).shape) K.index (length (counts_in records.old.marks caller)) seats.now caller live.calls asked.now
        (pages_of (S.view records.old.store) records.old) (pages_of (S.view records.new.store) records.new) result.0.calls result.1 }
    ensures masked { IsMasked seats.now.names result.0 }
{
    if let Some(refusal) = refused_save(records.saves(caller), asked) {
        return (live, refusal);
    }
    let Some(table) = seats.number_for(asked) else {
        return (live, Reply::NoTable);
    };
    let Live { calls, masks } = live;
    // Room is reserved before the call is made, so that nothing is written that there is no memory to keep.
    let calls = match calls.with_room() {
        Ok(calls) => calls,
        Err(calls) => return (Live { calls, masks }, Reply::NoMemory),
    };
    let touches = match seats.stripes_for(locks, caller, table, asked) {
        Ok(touches) => touches,
        Err(holder) => {
            let calls = calls.into_calls();
            return (Live { calls, masks }, Reply::Busy { holder });
        }
    };
    match work(alloc, records, caller, table, asked) {
        Ok(reply) => match calls.push(asked, &reply) {
            Ok(calls) => {
                let masks = masks.merged(touches);
                (Live { calls, masks }, reply)
            }
            Err(calls) => (Live { calls, masks }, Reply::NoMemory),
        },
        Err(fault) => {
            let calls = calls.into_calls();
            (Live { calls, masks }, Reply::from(fault))
        }
    }
}
