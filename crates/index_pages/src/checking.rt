// The tests of what all indexes stand on: slots that pairs name, and the lists of what is free.
ghost use Rattle.std.specs.Prelude.{◌≡◌, ◌≤◌, ◌↔◌, ◌++◌, OnOk, IsErrOf, IsTrue};
ghost use Rattle.mars_base.specs.Check.{both};
ghost use Rattle.eaw_face.specs.Causes.{IsAlive};
ghost use Rattle.record_slots.specs.Places.{next_slot, page_bytes, IsOfKey};
ghost use Rattle.record_slots.specs.Super.{SaysSuper};
ghost use Rattle.page_store.specs.Index.{index_pages_of, slots_of};
ghost use Rattle.page_store.specs.Looks.{Looks, is_check_failed};
ghost use Rattle.page_store.specs.Records.{value_of, row_at, row_of};
ghost use Rattle.page_store.specs.Shown.{pages_of};
ghost use Rattle.index_pages.specs.Fetched.{IsFront};
ghost use Rattle.index_pages.specs.Held.{IsHeld};
ghost use Rattle.index_pages.specs.Plans.{Tries, free_pages_plan, free_slots_plan, held_after, held_of, lists_plan, slot_plan};
ghost use Rattle.index_pages.specs.Slots.{slot_check, slots_check, pages_check, IsVerdict};

use crate::fetch::{SLOTS_IN_PAGE, fetch_free_page, fetch_free_slot, index_page_count};
use crate::held::{HeldPage, fetch_held_slot};
use crate::taking::ranked;
use eaw_face::EawStore;
use mars_base::NoMemory;
use noted::{Keeper, NotedRows};
use page_store::{CheckFault, Pages};
use record_slots::{Slot, Super};

/// Tests the slot of a pair of a table on a page of leaves, where so many slots are given out: it is one of them and carries the key for
/// that table. The record that it holds, if any, comes behind the rows.
///
/// If it is not given out, the pair's page is damaged. If it carries another key, or none, or is another table's, the slot's own page is.
/// That page is read unless it is held, and is held then.
#[inline(always)]
pub fn check_slot<S: EawStore, H: Keeper>(
    pages: &mut Pages<S>,
    held: &mut HeldPage,
    rows: &mut NotedRows<H>,
    table: u8,
    page: u32,
    pair: (u64, u64),
    slots: u32,
) -> Result<(), CheckFault>
    requires alive { IsAlive (S.view pages.old.store) }
    requires slots { slots ≤ slots_of (S.view pages.old.store).shape }
    requires held { IsTrue S.tells → IsHeld (S.view pages.old.store).state.bytes held.old }
    ensures looks { Looks S.tells (S.opens (S.view pages.old.store).shape) (is_check_failed result)
        (pages_of (S.view pages.old.store) pages.old) (pages_of (S.view pages.new.store) pages.new) }
    ensures cause { IsTrue S.tells → slots ≡ next_slot (S.view pages.old.store).state.bytes
        → IsVerdict (slot_check (S.view pages.old.store).state.bytes table page pair) result }
    ensures tests { Tries S.tells (S.calls pages.old.store) (S.calls pages.new.store)
        (slot_plan (index_pages_of (S.view pages.old.store).shape) slots table page (held_of held.old) pair (held_after result held.new))
        (S.view pages.old.store) (S.view pages.new.store) result }
    ensures rows { IsTrue S.tells → OnOk result (rows.new ≡ rows.old ++ row_of (S.view pages.old.store).state.bytes pair) }
    ensures held { IsTrue S.tells → OnOk result (IsHeld (S.view pages.old.store).state.bytes held.new) }
    ensures dead { IsErrOf result CheckFault.Dead → ⊥ }
{
    if pair.1 >= u64::from(slots) {
        return Err(CheckFault::Damaged { page });
    }
    let slot = pair.1 as u32;
    let count = index_page_count(pages);
    let said = fetch_held_slot(pages, held, slot)?;
    if !is_of_key(&said, table, pair.0) {
        return Err(CheckFault::Damaged {
            page: count + slot / SLOTS_IN_PAGE,
        });
    }
    push_record(rows, pair.0, &said)?;
    Ok(())
}

// Adds the record of a key if its slot holds one.
#[inline(always)]
fn push_record<H: Keeper>(
    rows: &mut NotedRows<H>,
    key: u64,
    said: &Option<Slot>,
) -> Result<(), NoMemory>
    ensures { OnOk result (rows.new ≡ rows.old ++ row_at key (value_of said.now)) }
{
    match said {
        Some(Slot::Present { value, .. }) => rows.push(key, *value),
        _ => Ok(()),
    }
}

// Whether what was read is a slot of this table and key.
#[inline(always)]
fn is_of_key(said: &Option<Slot>, table: u8, key: u64) -> bool
    ensures { IsTrue result ↔ IsOfKey table key said.now }
{
    match said {
        None => false,
        Some(
            Slot::Absent {
                table: of,
                key: other,
            },
        ) => *of == table && *other == key,
        Some(
            Slot::Present {
                table: of,
                key: other,
                ..
            },
        ) => *of == table && *other == key,
    }
}

/// Tests the lists of free slots and free pages, one after another, each along its members.
///
/// Whoever names a wrong member is damaged, at first the super page; a member that is not free, or of a wrong rank, is damaged itself.
pub fn check_lists<S: EawStore>(pages: &mut Pages<S>, front: &Super) -> Result<(), CheckFault>
    requires alive { IsAlive (S.view pages.old.store) }
    requires front { IsFront (S.view pages.old.store).shape front.now }
    ensures looks { Looks S.tells (S.opens (S.view pages.old.store).shape) (is_check_failed result)
        (pages_of (S.view pages.old.store) pages.old) (pages_of (S.view pages.new.store) pages.new) }
    ensures cause { IsTrue S.tells → SaysSuper (page_bytes (S.view pages.old.store).state.bytes 0) front.now
        → IsVerdict (both (slots_check (S.view pages.old.store).state.bytes) (pages_check (S.view pages.old.store).state.bytes)) result }
    ensures tests { Tries S.tells (S.calls pages.old.store) (S.calls pages.new.store) (lists_plan (index_pages_of (S.view pages.old.store).shape) front.now)
        (S.view pages.old.store) (S.view pages.new.store) result }
    ensures dead { IsErrOf result CheckFault.Dead → ⊥ }
{
    check_free_slots(pages, front)?;
    check_free_pages(pages, front)
}

// Tests the list of free slots.
fn check_free_slots<S: EawStore>(pages: &mut Pages<S>, front: &Super) -> Result<(), CheckFault>
    requires alive { IsAlive (S.view pages.old.store) }
    requires front { IsFront (S.view pages.old.store).shape front.now }
    ensures looks { Looks S.tells (S.opens (S.view pages.old.store).shape) (is_check_failed result)
        (pages_of (S.view pages.old.store) pages.old) (pages_of (S.view pages.new.store) pages.new) }
    ensures cause { IsTrue S.tells → SaysSuper (page_bytes (S.view pages.old.store).state.bytes 0) front.now
        → IsVerdict (slots_check (S.view pages.old.store).state.bytes) result }
    ensures tests { Tries S.tells (S.calls pages.old.store) (S.calls pages.new.store) (free_slots_plan (index_pages_of (S.view pages.old.store).shape) front.now)
        (S.view pages.old.store) (S.view pages.new.store) result }
    ensures dead { IsErrOf result CheckFault.Dead → ⊥ }
{
    let count = index_page_count(pages);
    let mut named = front.free_slot;
    let mut page = 0;
    for done in 0..front.free_slots {
        if named == 0 {
            return Err(CheckFault::Damaged { page });
        }
        if named > front.next_slot {
            return Err(CheckFault::Damaged { page });
        }
        page = count + (named - 1) / SLOTS_IN_PAGE;
        let said = fetch_free_slot(pages, named - 1)?;
        let Some(free) = ranked(&said, front.free_slots - done) else {
            return Err(CheckFault::Damaged { page });
        };
        named = free.next;
    }
    if named != 0 {
        return Err(CheckFault::Damaged { page });
    }
    Ok(())
}

// Tests the list of free pages.
fn check_free_pages<S: EawStore>(pages: &mut Pages<S>, front: &Super) -> Result<(), CheckFault>
    requires alive { IsAlive (S.view pages.old.store) }
    requires front { IsFront (S.view pages.old.store).shape front.now }
    ensures looks { Looks S.tells (S.opens (S.view pages.old.store).shape) (is_check_failed result)
        (pages_of (S.view pages.old.store) pages.old) (pages_of (S.view pages.new.store) pages.new) }
    ensures cause { IsTrue S.tells → SaysSuper (page_bytes (S.view pages.old.store).state.bytes 0) front.now
        → IsVerdict (pages_check (S.view pages.old.store).state.bytes) result }
    ensures tests { Tries S.tells (S.calls pages.old.store) (S.calls pages.new.store) (free_pages_plan front.now)
        (S.view pages.old.store) (S.view pages.new.store) result }
    ensures dead { IsErrOf result CheckFault.Dead → ⊥ }
{
    let mut named = front.free_page;
    let mut page = 0;
    for done in 0..front.free_pages {
        if named <= 2 {
            return Err(CheckFault::Damaged { page });
        }
        if named > front.next_page {
            return Err(CheckFault::Damaged { page });
        }
        page = named - 1;
        let said = fetch_free_page(pages, page)?;
        let Some(free) = ranked(&said, front.free_pages - done) else {
            return Err(CheckFault::Damaged { page });
        };
        named = free.next;
    }
    if named != 0 {
        return Err(CheckFault::Damaged { page });
    }
    Ok(())
}
