// Reads of the pages of an index, and of slots.
ghost use Rattle.std.specs.Prelude.{◌≡◌, ◌<◌, ◌≤◌, ◌↔◌, ◌+◌, ◌*◌, ◌/◌, ◌%◌, ℕ, List, true, IfOk, OnOk, IsErrOf, IsTrue};
ghost use Rattle.array_shape.specs.Places.{page_count};
ghost use Rattle.eaw_face.specs.Command as model;
ghost use Rattle.mars_base.specs.Costs.{Costs};
ghost use Rattle.record_slots.specs.Places.{page_bytes, slot_of, free_slot_of, free_page_of, IsSuper};
ghost use Rattle.record_slots.specs.Free.{free_said};
ghost use Rattle.record_slots.specs.Slots.{slot_said};
ghost use Rattle.record_slots.specs.Super.{SaysSuper, HasTables};
ghost use Rattle.page_store.specs.Follows.{HasRead, one_reading};
ghost use Rattle.page_store.specs.Index.{slots_of, index_pages_of};
ghost use Rattle.page_store.specs.Looks.{Looks, is_failed};
ghost use Rattle.page_store.specs.Shown.{address, pages_of};
ghost use Rattle.page_store.specs.Tested.{HasReadBytes};
ghost use Rattle.index_pages.specs.Fetched.{ReadCause, TestCause, IsFront};
ghost use Rattle.index_pages.specs.Plans.{IsFrontOf, IsTested, one_excerpt};

use crate::page::PAGE_LEN;
use eaw_face::EawStore;
use page_store::{PageFault, Pages};
use record_slots::{
    Free, SLOT_LEN, Slot, Super, has_tables, read_free_page, read_free_slot, read_slot, read_super,
};

/// How many slots a page has.
pub const SLOTS_IN_PAGE: u32 = PAGE_LEN as u32 / SLOT_LEN as u32;

/// How many pages an index has, among them the super page: half of the array's.
pub fn index_page_count<S: EawStore>(pages: &Pages<S>) -> u32
    ensures count { result ≡ index_pages_of (S.view pages.now.store).shape }
    ensures some { 2 ≤ result }
    ensures most { result ≤ 16384 }
    ensures all { result + result ≡ page_count (S.view pages.now.store).shape }
{
    let shape = pages.shape();
    (u64::from(shape.loggers) * u64::from(shape.pages) / 2) as u32
}

/// Reads a page.
pub fn fetch_page<S: EawStore>(
    pages: &mut Pages<S>,
    page: u32,
    bytes: &mut [u8; PAGE_LEN],
) -> Result<(), PageFault>
    requires { page < page_count (S.view pages.old.store).shape }
    ensures looks { Looks S.tells (S.opens (S.view pages.old.store).shape) (is_failed result)
        (pages_of (S.view pages.old.store) pages.old) (pages_of (S.view pages.new.store) pages.new) }
    ensures cause { ReadCause (S.view pages.old.store) result }
    ensures reads { HasRead S.tells (is_failed result) (S.calls pages.old.store) (S.calls pages.new.store) (S.view pages.old.store) (S.view pages.new.store)
        (one_reading page bytes.new (page_bytes (S.view pages.old.store).state.bytes page) result) }
    ensures bytes { IsTrue S.tells → OnOk result (bytes.new ≡ page_bytes (S.view pages.old.store).state.bytes page) }
    ensures dead { IsErrOf result PageFault.Dead → pages.new ≡ pages.old }
{
    pages.read(page, 0, bytes)
}

/// Reads what a slot says.
pub fn fetch_slot<S: EawStore>(pages: &mut Pages<S>, slot: u32) -> Result<Option<Slot>, PageFault>
    requires { slot < slots_of (S.view pages.old.store).shape }
    ensures looks { Looks S.tells (S.opens (S.view pages.old.store).shape) (is_failed result)
        (pages_of (S.view pages.old.store) pages.old) (pages_of (S.view pages.new.store) pages.new) }
    ensures cause { ReadCause (S.view pages.old.store) result }
    ensures said { IsTrue S.tells → IfOk result (λ said. said ≡ slot_said (slot_of (S.view pages.old.store).state.bytes slot)) }
    ensures dead { IsErrOf result PageFault.Dead → pages.new ≡ pages.old }
{
    let page = index_page_count(pages) + slot / SLOTS_IN_PAGE;
    let mut bytes = [0; SLOT_LEN];
    pages.read(page, slot % SLOTS_IN_PAGE * SLOT_LEN as u32, &mut bytes)?;
    Ok(read_slot(&bytes))
}

// Reads the bytes of a slot.
fn fetch_slot_bytes<S: EawStore>(
    pages: &mut Pages<S>,
    slot: u32,
    bytes: &mut [u8; SLOT_LEN],
) -> Result<(), PageFault>
    requires { slot < slots_of (S.view pages.old.store).shape }
    ensures looks { Looks S.tells (S.opens (S.view pages.old.store).shape) (is_failed result)
        (pages_of (S.view pages.old.store) pages.old) (pages_of (S.view pages.new.store) pages.new) }
    ensures cause { ReadCause (S.view pages.old.store) result }
    ensures bytes { IsTrue S.tells → OnOk result (bytes.new ≡ slot_of (S.view pages.old.store).state.bytes slot) }
    ensures costs { Costs true (S.calls pages.old.store (model.read (address (index_pages_of (S.view pages.old.store).shape + slot / 8) (slot % 8 * 64)) 64))
        (S.view pages.old.store).moment (S.view pages.new.store).moment result }
    ensures reads { HasReadBytes S.tells (is_failed result) (S.calls pages.old.store) (S.calls pages.new.store) (S.view pages.old.store) (S.view pages.new.store)
        (one_excerpt (index_pages_of (S.view pages.old.store).shape + slot / 8) (slot % 8 * 64) 64 bytes.new (slot_of (S.view pages.old.store).state.bytes slot) result) }
    ensures dead { IsErrOf result PageFault.Dead → pages.new ≡ pages.old }
{
    let page = index_page_count(pages) + slot / SLOTS_IN_PAGE;
    pages.read(page, slot % SLOTS_IN_PAGE * SLOT_LEN as u32, bytes)
}

/// Reads what a slot says if it is free.
pub fn fetch_free_slot<S: EawStore>(
    pages: &mut Pages<S>,
    slot: u32,
) -> Result<Option<Free>, PageFault>
    requires { slot < slots_of (S.view pages.old.store).shape }
    ensures looks { Looks S.tells (S.opens (S.view pages.old.store).shape) (is_failed result)
        (pages_of (S.view pages.old.store) pages.old) (pages_of (S.view pages.new.store) pages.new) }
    ensures cause { ReadCause (S.view pages.old.store) result }
    ensures said { IsTrue S.tells → IfOk result (λ said. said ≡ free_slot_of (S.view pages.old.store).state.bytes slot) }
    ensures costs { Costs true (S.calls pages.old.store (model.read (address (index_pages_of (S.view pages.old.store).shape + slot / 8) (slot % 8 * 64)) 64))
        (S.view pages.old.store).moment (S.view pages.new.store).moment result }
    ensures reads { (said : List ℕ) × HasReadBytes S.tells (is_failed result) (S.calls pages.old.store) (S.calls pages.new.store) (S.view pages.old.store)
        (S.view pages.new.store) (one_excerpt (index_pages_of (S.view pages.old.store).shape + slot / 8) (slot % 8 * 64) 64 said
        (slot_of (S.view pages.old.store).state.bytes slot) result) × IfOk result (λ free. free ≡ free_said 0xF0 2 said) }
    ensures dead { IsErrOf result PageFault.Dead → pages.new ≡ pages.old }
{
    let mut bytes = [0; SLOT_LEN];
    fetch_slot_bytes(pages, slot, &mut bytes)?;
    Ok(read_free_slot(&bytes))
}

/// Reads what a page says if it is free.
pub fn fetch_free_page<S: EawStore>(
    pages: &mut Pages<S>,
    page: u32,
) -> Result<Option<Free>, PageFault>
    requires { page < page_count (S.view pages.old.store).shape }
    ensures looks { Looks S.tells (S.opens (S.view pages.old.store).shape) (is_failed result)
        (pages_of (S.view pages.old.store) pages.old) (pages_of (S.view pages.new.store) pages.new) }
    ensures cause { ReadCause (S.view pages.old.store) result }
    ensures said { IsTrue S.tells → IfOk result (λ said. said ≡ free_page_of (S.view pages.old.store).state.bytes page) }
    ensures reads { (said : List ℕ) × HasRead S.tells (is_failed result) (S.calls pages.old.store) (S.calls pages.new.store) (S.view pages.old.store)
        (S.view pages.new.store) (one_reading page said (page_bytes (S.view pages.old.store).state.bytes page) result)
        × IfOk result (λ free. free ≡ free_said 0xFF 4 said) }
    ensures dead { IsErrOf result PageFault.Dead → pages.new ≡ pages.old }
{
    let mut bytes = [0; PAGE_LEN];
    fetch_page(pages, page, &mut bytes)?;
    Ok(read_free_page(&bytes))
}

/// Reads the super page. It is damaged if its counts are not those of an index of this form. Its entries are not tested.
pub fn fetch_super<S: EawStore>(pages: &mut Pages<S>, form: u8) -> Result<Super, PageFault>
    ensures looks { Looks S.tells (S.opens (S.view pages.old.store).shape) (is_failed result)
        (pages_of (S.view pages.old.store) pages.old) (pages_of (S.view pages.new.store) pages.new) }
    ensures cause { TestCause S.tells (IsSuper form (S.view pages.old.store).state.bytes) 0 (S.view pages.old.store) result }
    ensures front { IfOk result (IsFront (S.view pages.old.store).shape) }
    ensures form { IfOk result (λ front. front.form ≡ form) }
    ensures reads { (said : List ℕ) × HasRead S.tells (is_failed result) (S.calls pages.old.store) (S.calls pages.new.store) (S.view pages.old.store)
        (S.view pages.new.store) (one_reading 0 said (page_bytes (S.view pages.old.store).state.bytes 0) result)
        × IsFrontOf form (S.view pages.old.store).shape said result }
    ensures says { IsTrue S.tells → IfOk result (SaysSuper (page_bytes (S.view pages.old.store).state.bytes 0)) }
    ensures dead { IsErrOf result PageFault.Dead → pages.new ≡ pages.old }
{
    let count = index_page_count(pages);
    let mut bytes = [0; PAGE_LEN];
    fetch_page(pages, 0, &mut bytes)?;
    let Some(front) = read_super(&bytes) else {
        return Err(PageFault::Damaged { page: 0 });
    };
    if is_front(&front, form, count) {
        Ok(front)
    } else {
        Err(PageFault::Damaged { page: 0 })
    }
}

/// Reads the super page. It is damaged if it is not that of an index of this form, with its entries.
pub fn check_super<S: EawStore>(pages: &mut Pages<S>, form: u8) -> Result<Super, PageFault>
    ensures looks { Looks S.tells (S.opens (S.view pages.old.store).shape) (is_failed result)
        (pages_of (S.view pages.old.store) pages.old) (pages_of (S.view pages.new.store) pages.new) }
    ensures cause { TestCause S.tells (IsSuper form (S.view pages.old.store).state.bytes) 0 (S.view pages.old.store) result }
    ensures front { IfOk result (IsFront (S.view pages.old.store).shape) }
    ensures reads { (said : List ℕ) × HasRead S.tells (is_failed result) (S.calls pages.old.store) (S.calls pages.new.store) (S.view pages.old.store)
        (S.view pages.new.store) (one_reading 0 said (page_bytes (S.view pages.old.store).state.bytes 0) result)
        × IsTested form (S.view pages.old.store).shape said result }
    ensures tables { IfOk result (λ front. HasTables front.version front.next_page front.entries) }
    ensures sound { IsTrue S.tells → OnOk result (IsSuper form (S.view pages.old.store).state.bytes) }
    ensures says { IsTrue S.tells → IfOk result (SaysSuper (page_bytes (S.view pages.old.store).state.bytes 0)) }
    ensures dead { IsErrOf result PageFault.Dead → pages.new ≡ pages.old }
{
    let front = fetch_super(pages, form)?;
    if has_tables(&front) {
        Ok(front)
    } else {
        Err(PageFault::Damaged { page: 0 })
    }
}

// Whether the form is this one, and the counts are those of an index of `count` pages.
fn is_front(front: &Super, form: u8, count: u32) -> bool
    requires { count ≤ 16384 }
    ensures { IsTrue result ↔ (front.now.form ≡ form) × (front.now.next_slot ≤ 8 * count) × (2 ≤ front.now.next_page) × (front.now.next_page ≤ count) }
{
    front.form == form
        && front.next_slot <= SLOTS_IN_PAGE * count
        && 2 <= front.next_page
        && front.next_page <= count
}
