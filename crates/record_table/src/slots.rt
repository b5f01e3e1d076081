// Slots of keys, read and written as a number.
ghost use Rattle.std.specs.Prelude.{ℕ, List, ◌∷◌, ◌≡◌, ◌≢◌, ◌⊎◌, ◌/◌, true, None, ◌+◌, ◌*◌, ◌%◌, ◌<◌, Some, IfOk, IfErr, IfSome, OnOk, IsErrOf, IsTrue, length};
ghost use Rattle.history.specs.Key.{of_table};
ghost use Rattle.mars_base.specs.Bytes.{range};
ghost use Rattle.mars_base.specs.Costs.{Costs};
ghost use Rattle.array_shape.specs.Places.{page_count};
ghost use Rattle.eaw_face.specs.Causes.{IsAlive};
ghost use Rattle.eaw_face.specs.Command.{Command};
ghost use Rattle.record_slots.specs.Slots.{slot_said, slot_bytes, table_of_slot};
ghost use Rattle.page_store.specs.Command.{write_as};
ghost use Rattle.page_store.specs.Does.{Does};
ghost use Rattle.page_store.specs.Index.{IsTable, slots_of, index_pages_of};
ghost use Rattle.page_store.specs.Looks.{LookCause, is_failed};
ghost use Rattle.page_store.specs.Kept.{IsOrdered};
ghost use Rattle.page_store.specs.Records.{value_of};
ghost use Rattle.page_store.specs.Shown.{pages_of, outline_of, state_of};
ghost use Rattle.page_store.specs.State.{view_of};
ghost use Rattle.record_table.specs.Invariant.{Holds};
ghost use Rattle.record_table.specs.Names.{IsCalled};
ghost use Rattle.record_table.specs.Seeks.{Seeks, slot_cost};
ghost use Rattle.record_table.specs.Sought.{LooksAs, Finds, value_at};

use crate::hearings::Hearings;
use eaw_face::EawStore;
use ghost_notes::Notes;
use page_store::{KeyIndex, PageFault, Pages};
use record_slots::{SLOT_LEN, Slot, Value, read_slot, write_slot};

pub const SLOTS_IN_PAGE: u32 = 8;

/// The slot of a key and the value that a number sees there.
#[derive(Drop)]
pub struct Place {
    pub slot: u32,
    pub value: Option<Value>,
}

// The page of a slot. There are eight in a page, after the pages of the index.
pub fn page_of<S: EawStore>(pages: &Pages<S>, slot: u32) -> u32
    requires { slot < slots_of (S.view pages.now.store).shape }
    ensures at { 512 * result + slot % 8 * 64 ≡ 64 * (slots_of (S.view pages.now.store).shape + slot) }
    ensures page { result ≡ index_pages_of (S.view pages.now.store).shape + slot / 8 }
    ensures inside { result < page_count (S.view pages.now.store).shape }
{
    let shape = pages.shape();
    let half = (u64::from(shape.loggers) * u64::from(shape.pages) / 2) as u32;
    half + slot / SLOTS_IN_PAGE
}

// How many slots there are: four for each page of the array. No sound index has more keys.
pub fn slot_count<S: EawStore>(pages: &Pages<S>) -> u64
    ensures { result ≡ slots_of (S.view pages.now.store).shape }
{
    let shape = pages.shape();
    let pages = u64::from(shape.loggers) * u64::from(shape.pages);
    4 * pages
}

// Reads what the number sees in a slot.
#[inline(always)]
pub fn read_as<S: EawStore>(
    pages: &mut Pages<S>,
    tid: u8,
    slot: u32,
) -> Result<Option<Slot>, PageFault>
    requires tid { tid < (S.view pages.old.store).shape.numbers }
    requires slot { slot < slots_of (S.view pages.old.store).shape }
    ensures looks { LooksAs S.tells (S.opens (S.view pages.old.store).shape) tid (is_failed result)
        (pages_of (S.view pages.old.store) pages.old) (pages_of (S.view pages.new.store) pages.new) }
    ensures cause { LookCause S.tells (S.view pages.old.store) result }
    ensures said { IsTrue S.tells → IfOk result (λ said. said ≡
        slot_said (range (view_of tid (state_of (pages_of (S.view pages.old.store) pages.old))) (64 * (slots_of (S.view pages.old.store).shape + slot)) 64)) }
    ensures costs { Costs true (slot_cost (S.calls pages.old.store) tid (S.view pages.old.store) (Some slot)) (S.view pages.old.store).moment (S.view pages.new.store).moment result }
    ensures steady { OnOk result ((command : Command) → S.calls pages.new.store command ≡ S.calls pages.old.store command) }
    ensures faults { IfErr result (λ fault. (fault ≡ PageFault.Media) ⊎ (fault ≡ PageFault.Dead)) }
    ensures dead { IsErrOf result PageFault.Dead → pages.new ≡ pages.old }
{
    let page = page_of(pages, slot);
    let mut bytes = [0; SLOT_LEN];
    pages.read_as(tid, page, slot % SLOTS_IN_PAGE * 64, &mut bytes)?;
    Ok(read_slot(&bytes))
}

// Writes a whole slot as the number.
pub fn write_as<S: EawStore>(
    pages: &mut Pages<S>,
    tid: u8,
    slot: u32,
    said: &Slot,
) -> Result<(), PageFault>
    requires tid { tid < (S.view pages.old.store).shape.numbers }
    requires slot { slot < slots_of (S.view pages.old.store).shape }
    requires named { table_of_slot said.now < 8 }
    ensures does { Does S.tells (S.opens (S.view pages.old.store).shape)
        (write_as tid (64 * (slots_of (S.view pages.old.store).shape + slot)) (slot_bytes said.now))
        (pages_of (S.view pages.old.store) pages.old) (pages_of (S.view pages.new.store) pages.new) result }
    ensures ordered { IsAlive (S.view pages.old.store) → IsOrdered (outline_of (pages_of (S.view pages.old.store) pages.old)) }
    ensures reads_back { IsAlive (S.view pages.old.store) → slot_said (slot_bytes said.now) ≡ Some said.now }
    ensures whole { IsAlive (S.view pages.old.store) → length (slot_bytes said.now) ≡ 64 }
    ensures refused { IfErr result (λ fault. fault ≢ PageFault.Media → pages.new ≡ pages.old) }
{
    if pages.is_dead() {
        return Err(PageFault::Dead);
    }
    let page = page_of(pages, slot);
    let mut bytes = [0; SLOT_LEN];
    write_slot(said, &mut bytes);
    pages.write_as(tid, page, slot % SLOTS_IN_PAGE * 64, &bytes)
}

// What the slot of a key says, which is put before these. It is damage of the slot's page if it says nothing.
pub fn heard(
    hearings: &mut Hearings,
    key: u64,
    slot: u32,
    said: Option<Slot>,
    page: u32,
) -> Result<Slot, PageFault>
    ensures slot { IfOk result (λ slot. said ≡ Some slot) }
    ensures none { IfErr result (λ fault. (fault ≡ PageFault.Damaged page) × (said ≡ None)) }
    ensures hears { hearings.new.said ≡ (key, slot, said) ∷ hearings.old.said }
{
    *hearings = Notes::of(&(&*hearings, key, slot, &said));
    said.ok_or(PageFault::Damaged { page })
}

// Looks up a key in the index of its table, and then reads its slot.
#[inline(always)]
pub fn seek<S: EawStore, K: KeyIndex>(
    pages: &mut Pages<S>,
    tid: u8,
    table: u8,
    root: u32,
    key: u64,
    hearings: &mut Hearings,
) -> Result<Option<Place>, PageFault>
    requires tid { tid < (S.view pages.old.store).shape.numbers }
    requires table { table < 8 }
    requires root { root < page_count (S.view pages.old.store).shape }
    requires named { IsTrue S.tells → IsAlive (S.view pages.old.store) → IsTable (S.view pages.old.store).state.bytes table root }
    requires holds { Holds S.tells K.index (pages_of (S.view pages.old.store) pages.old) }
    ensures looks { LooksAs S.tells (S.opens (S.view pages.old.store).shape) tid (is_failed result)
        (pages_of (S.view pages.old.store) pages.old) (pages_of (S.view pages.new.store) pages.new) }
    ensures cause { LookCause S.tells (S.view pages.old.store) result }
    ensures seeks { Seeks (K.access.finding root key) key tid (S.calls pages.old.store) hearings.old.said hearings.new.said
        (S.view pages.old.store) (S.view pages.new.store).moment result }
    ensures finds { IsTrue S.tells → (name : List ℕ) → IsCalled (S.view pages.old.store).state.bytes table name → IfOk result (Finds K.index tid (of_table name key) (pages_of (S.view pages.old.store) pages.old)) }
    ensures inside { IfOk result (λ place. IfSome place (λ place. place.slot < slots_of (S.view pages.old.store).shape)) }
    ensures dead { IsErrOf result PageFault.Dead → pages.new ≡ pages.old }
{
    let Some(slot) = K::find(pages, root, table, key)? else {
        return Ok(None);
    };
    let page = page_of(pages, slot);
    let said = read_as(pages, tid, slot)?;
    let held = heard(hearings, key, slot, said, page)?;
    Ok(Some(Place {
        slot,
        value: value_in(&held),
    }))
}

// The value that was found.
pub fn value_at(found: &Option<Place>) -> Option<Value>
    ensures { result ≡ value_at found.now }
{
    match found {
        Some(place) => place.value,
        None => None,
    }
}

// The value that a slot holds.
pub fn value_in(said: &Slot) -> Option<Value>
    ensures { result ≡ value_of (Some said.now) }
{
    match said {
        Slot::Present { value, .. } => Some(*value),
        Slot::Absent { .. } => None,
    }
}
