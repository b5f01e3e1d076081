// Keys of a table that have no record any more: the next of them, and the removal of one from the index.
ghost use Rattle.std.specs.Prelude.{[], ◌≡◌, ◌+◌, ◌≤◌, ◌<◌, ◌⊎◌, true, Some, IfOk, IfErr, IfSome, OnOk, IsErrOf, IsTrue, length};
ghost use Rattle.array_shape.specs.Places.{page_count};
ghost use Rattle.mars_base.specs.Costs.{Costs};
ghost use Rattle.eaw_face.specs.Causes.{IsAlive};
ghost use Rattle.eaw_face.specs.Command.{Command};
ghost use Rattle.record_slots.specs.Slots.{slot_said};
ghost use Rattle.record_slots.specs.Places.{slot_of, version_of};
ghost use Rattle.page_store.specs.Index.{IsTable, slots_of};
ghost use Rattle.page_store.specs.Looks.{Looks, LookCause, is_failed};
ghost use Rattle.page_store.specs.Pairs.{next};
ghost use Rattle.page_store.specs.Shown.{pages_of};
ghost use Rattle.record_table.specs.Blames.{BlamesOne};
ghost use Rattle.record_table.specs.Works.{RemovesFrom};
ghost use Rattle.record_table.specs.Faults.{told_as};
ghost use Rattle.record_table.specs.Hearing.{HearsOne, HearsAbsent};
ghost use Rattle.record_table.specs.Invariant.{Holds};
ghost use Rattle.record_table.specs.Removing.{IsAbsent, IsUnwritten, IsNextAbsent, ComesNext, Removes};
ghost use Rattle.record_table.specs.Names.{name_at, key_in};
ghost use Rattle.record_table.specs.Walked.{AreSteady, LooksOnce, Walked, data_cost};

use crate::hearings::Hearings;
use crate::scanning::Next;
use crate::slots::{SLOTS_IN_PAGE, heard, page_of, slot_count, value_in};
use eaw_face::EawStore;
use page_store::{KeyIndex, PageFault, Pages};
use record_slots::{SLOT_LEN, Slot, read_slot};

// What the data says in a slot.
fn read_said<S: EawStore>(pages: &mut Pages<S>, slot: u32) -> Result<Option<Slot>, PageFault>
    requires { slot < slots_of (S.view pages.old.store).shape }
    ensures looks { Looks S.tells (S.opens (S.view pages.old.store).shape) (is_failed result)
        (pages_of (S.view pages.old.store) pages.old) (pages_of (S.view pages.new.store) pages.new) }
    ensures cause { LookCause S.tells (S.view pages.old.store) result }
    ensures said { IsTrue S.tells → IfOk result (λ said. said ≡ slot_said (slot_of (S.view pages.old.store).state.bytes slot)) }
    ensures costs { Costs true (data_cost (S.calls pages.old.store) (S.view pages.old.store).shape slot) (S.view pages.old.store).moment (S.view pages.new.store).moment result }
    ensures steady { OnOk result ((command : Command) → S.calls pages.new.store command ≡ S.calls pages.old.store command) }
    ensures faults { IfErr result (λ fault. (fault ≡ PageFault.Media) ⊎ (fault ≡ PageFault.Dead)) }
    ensures dead { IsErrOf result PageFault.Dead → pages.new ≡ pages.old }
{
    let page = page_of(pages, slot);
    let mut bytes = [0; SLOT_LEN];
    pages.read(page, slot % SLOTS_IN_PAGE * 64, &mut bytes)?;
    Ok(read_slot(&bytes))
}

// The least key of a table from `from` on, with the record that the data has of it.
fn next_in_data<S: EawStore, K: KeyIndex>(
    pages: &mut Pages<S>,
    table: u8,
    root: u32,
    from: u64,
    hearings: &mut Hearings,
) -> Result<Option<Next>, PageFault>
    requires table { table < 8 }
    requires root { root < page_count (S.view pages.old.store).shape }
    requires named { IsTrue S.tells → IsAlive (S.view pages.old.store) → IsTable (S.view pages.old.store).state.bytes table root }
    requires holds { Holds S.tells K.index (pages_of (S.view pages.old.store) pages.old) }
    ensures looks { Looks S.tells (S.opens (S.view pages.old.store).shape) (is_failed result)
        (pages_of (S.view pages.old.store) pages.old) (pages_of (S.view pages.new.store) pages.new) }
    ensures cause { LookCause S.tells (S.view pages.old.store) result }
    ensures comes { IsTrue S.tells → IfOk result (ComesNext K.index (S.view pages.old.store).state.bytes (name_at (S.view pages.old.store).state.bytes table) from) }
    ensures inside { IfOk result (λ next. IfSome next (λ next. from ≤ next.key)) }
    ensures next { IsTrue S.tells → IfOk result (λ found. IfSome found (λ found. next (K.index.pairs (S.view pages.old.store).state.bytes root) from ≡ Some (found.key, found.slot))) }
    ensures slot { IfOk result (λ found. IfSome found (λ found. found.slot < slots_of (S.view pages.old.store).shape)) }
    ensures few { length hearings.new.said ≤ length hearings.old.said + 1 }
    ensures looked { LooksOnce (K.access.nexting root from) (S.calls pages.old.store) (data_cost (S.calls pages.old.store) (S.view pages.old.store).shape) (S.view pages.old.store).shape
        (is_failed result) (S.view pages.old.store).moment (S.view pages.new.store).moment hearings.old.said hearings.new.said }
    ensures steady { AreSteady (is_failed result) (S.calls pages.old.store) (S.calls pages.new.store) }
    ensures hears { HearsOne (S.view pages.old.store).shape hearings.old.said hearings.new.said result }
    ensures dead { IsErrOf result PageFault.Dead → pages.new ≡ pages.old }
{
    let some = K::next_pairs(pages, root, table, from)?;
    let some = some.as_slice();
    if some.is_empty() {
        return Ok(None);
    }
    let (key, slot) = some[0];
    let page = page_of(pages, slot);
    let said = read_said(pages, slot)?;
    let held = heard(hearings, key, slot, said, page)?;
    Ok(Some(Next {
        key,
        slot,
        value: value_in(&held),
    }))
}

/// The least key of a table from `from` on whose slot is absent in the data.
pub fn next_absent<S: EawStore, K: KeyIndex>(
    pages: &mut Pages<S>,
    table: u8,
    root: u32,
    from: u64,
    hearings: &mut Hearings,
) -> Result<Option<u64>, PageFault>
    requires table { table < 8 }
    requires root { root < page_count (S.view pages.old.store).shape }
    requires named { IsTrue S.tells → IsAlive (S.view pages.old.store) → IsTable (S.view pages.old.store).state.bytes table root }
    requires alive { IsAlive (S.view pages.old.store) }
    requires unheard { hearings.old.said ≡ [] }
    requires holds { Holds S.tells K.index (pages_of (S.view pages.old.store) pages.old) }
    ensures looks { Looks S.tells (S.opens (S.view pages.old.store).shape) (is_failed result)
        (pages_of (S.view pages.old.store) pages.old) (pages_of (S.view pages.new.store) pages.new) }
    ensures cause { LookCause S.tells (S.view pages.old.store) result }
    ensures next { IsTrue S.tells → IfOk result (IsNextAbsent K.index (S.view pages.old.store).state.bytes (name_at (S.view pages.old.store).state.bytes table) from) }
    ensures inside { IfOk result (λ key. IfSome key (λ key. from ≤ key)) }
    ensures hears { HearsAbsent (S.view pages.old.store).shape hearings.new.said (told_as result) }
    ensures walks { Walked K.access root (S.calls pages.old.store) (data_cost (S.calls pages.old.store) (S.view pages.old.store).shape) (S.view pages.old.store).shape
        (is_failed result) (S.view pages.old.store).moment (S.view pages.new.store).moment hearings.new.said }
{
    let mut low = from;
    let mut left = slot_count(pages);
    loop {
        let Some(next) = next_in_data::<S, K>(pages, table, root, low, hearings)? else {
            return Ok(None);
        };
        if next.value.is_none() {
            return Ok(Some(next.key));
        }
        if next.key == u64::MAX {
            return Ok(None);
        }
        if left == 0 {
            // More keys than slots: a file may make up pages without end.
            let page = page_of(pages, next.slot);
            return Err(PageFault::Damaged { page });
        }
        left -= 1;
        low = next.key + 1;
    }
}

/// Takes a key without a record out of the index of its table, as this number, and frees its slot. `false` is returned where the key's pair
/// is the last that its page keeps.
pub fn remove<S: EawStore, K: KeyIndex>(
    pages: &mut Pages<S>,
    tid: u8,
    table: u8,
    root: u32,
    key: u64,
) -> Result<bool, PageFault>
    requires tid { tid < (S.view pages.old.store).shape.numbers }
    requires table { table < 8 }
    requires root { root < page_count (S.view pages.old.store).shape }
    requires named { IsTrue S.tells → IsAlive (S.view pages.old.store) → IsTable (S.view pages.old.store).state.bytes table root }
    requires holds { Holds S.tells K.index (pages_of (S.view pages.old.store) pages.old) }
    requires lists { IsTrue S.tells → IsAlive (S.view pages.old.store) → version_of (S.view pages.old.store).state.bytes ≡ 2 }
    requires absent { IsTrue S.tells → IsAlive (S.view pages.old.store) → IsAbsent K.index (S.view pages.old.store).state.bytes (key_in (S.view pages.old.store).state.bytes table key) }
    requires unwritten { IsTrue S.tells → IsAlive (S.view pages.old.store) → IsUnwritten K.index (pages_of (S.view pages.old.store) pages.old) (key_in (S.view pages.old.store).state.bytes table key) }
    ensures removes { Removes S.tells (S.opens (S.view pages.old.store).shape) K.index table tid key
        (pages_of (S.view pages.old.store) pages.old) (pages_of (S.view pages.new.store) pages.new) (told_as result) }
    ensures blames { BlamesOne (S.view pages.old.store).shape (told_as result) }
    ensures works { RemovesFrom S.tells S.view S.calls K.index K.access tid root key (S.view pages.old.store) (S.view pages.new.store) (told_as result) }
    ensures holds { Holds S.tells K.index (pages_of (S.view pages.new.store) pages.new) }
    ensures dead { IsErrOf result PageFault.Dead → pages.new ≡ pages.old }
{
    K::remove(pages, tid, root, table, key)
}
