// Reads of slots that lie beside each other, by whole pages.
ghost use Rattle.std.specs.Prelude.{◌≡◌, ◌+◌, ◌*◌, ◌/◌, ◌%◌, ◌<◌, ◌↔◌, None, Some, IfOk, OnOk, IsErrOf, IsTrue};
ghost use Rattle.mars_base.specs.Bytes.{range};
ghost use Rattle.array_shape.specs.Places.{page_count};
ghost use Rattle.eaw_face.specs.Causes.{IsAlive};
ghost use Rattle.record_slots.specs.Places.{page_bytes, slot_of};
ghost use Rattle.record_slots.specs.Slots.{slot_said};
ghost use Rattle.page_store.specs.Index.{slots_of, index_pages_of};
ghost use Rattle.page_store.specs.Looks.{Looks, is_failed};
ghost use Rattle.page_store.specs.Shown.{pages_of};
ghost use Rattle.index_pages.specs.Fetched.{ReadCause};
ghost use Rattle.index_pages.specs.Held.{IsHeld};
ghost use Rattle.index_pages.specs.Plans.{Holds};

use crate::fetch::{SLOTS_IN_PAGE, fetch_page, index_page_count};
use crate::page::PAGE_LEN;
use eaw_face::EawStore;
use page_store::{PageFault, Pages};
use record_slots::{SLOT_LEN, Slot, read_slot};

/// The page that was read last, so that slots which lie beside each other are read together.
#[derive(Clone, Copy, Debug)]
pub struct HeldPage {
    /// Its number, or `None` if no page is held.
    pub page: Option<u32>,
    pub bytes: [u8; PAGE_LEN],
}

impl HeldPage {
    /// No page is held.
    pub fn none() -> HeldPage
        ensures { result.page ≡ None }
    {
        HeldPage {
            page: None,
            bytes: [0; PAGE_LEN],
        }
    }
}

/// Reads what a slot says: nothing is read if its page is held, and else that page is, once.
#[inline(always)]
pub fn fetch_held_slot<S: EawStore>(
    pages: &mut Pages<S>,
    held: &mut HeldPage,
    slot: u32,
) -> Result<Option<Slot>, PageFault>
    requires alive { IsAlive (S.view pages.old.store) }
    requires slot { slot < slots_of (S.view pages.old.store).shape }
    requires held { IsTrue S.tells → IsHeld (S.view pages.old.store).state.bytes held.old }
    ensures looks { Looks S.tells (S.opens (S.view pages.old.store).shape) (is_failed result)
        (pages_of (S.view pages.old.store) pages.old) (pages_of (S.view pages.new.store) pages.new) }
    ensures cause { ReadCause (S.view pages.old.store) result }
    ensures said { IsTrue S.tells → IfOk result (λ said. said ≡ slot_said (slot_of (S.view pages.old.store).state.bytes slot)) }
    ensures held { IsTrue S.tells → OnOk result (IsHeld (S.view pages.old.store).state.bytes held.new) }
    ensures page { OnOk result (held.new.page ≡ Some (index_pages_of (S.view pages.old.store).shape + slot / 8)) }
    ensures unread { held.old.page ≡ Some (index_pages_of (S.view pages.old.store).shape + slot / 8) → pages.new ≡ pages.old }
    ensures slot { IfOk result (λ said. said ≡ slot_said (range held.new.bytes (64 * (slot % 8)) 64)) }
    ensures holds { Holds S.tells (S.calls pages.old.store) (S.calls pages.new.store) (index_pages_of (S.view pages.old.store).shape + slot / 8)
        held.old held.new (S.view pages.old.store) (S.view pages.new.store) result }
    ensures dead { IsErrOf result PageFault.Dead → pages.new ≡ pages.old }
{
    let page = index_page_count(pages) + slot / SLOTS_IN_PAGE;
    hold(pages, held, page)?;
    Ok(slot_in(&held.bytes, slot % SLOTS_IN_PAGE))
}

// Reads the page unless it is held.
fn hold<S: EawStore>(pages: &mut Pages<S>, held: &mut HeldPage, page: u32) -> Result<(), PageFault>
    requires alive { IsAlive (S.view pages.old.store) }
    requires page { page < page_count (S.view pages.old.store).shape }
    requires held { IsTrue S.tells → IsHeld (S.view pages.old.store).state.bytes held.old }
    ensures looks { Looks S.tells (S.opens (S.view pages.old.store).shape) (is_failed result)
        (pages_of (S.view pages.old.store) pages.old) (pages_of (S.view pages.new.store) pages.new) }
    ensures cause { ReadCause (S.view pages.old.store) result }
    ensures page { OnOk result (held.new.page ≡ Some page) }
    ensures bytes { IsTrue S.tells → OnOk result (held.new.bytes ≡ page_bytes (S.view pages.old.store).state.bytes page) }
    ensures unread { held.old.page ≡ Some page → pages.new ≡ pages.old }
    ensures holds { Holds S.tells (S.calls pages.old.store) (S.calls pages.new.store) page held.old held.new (S.view pages.old.store) (S.view pages.new.store) result }
    ensures dead { IsErrOf result PageFault.Dead → pages.new ≡ pages.old }
{
    if is_page(held.page, page) {
        return Ok(());
    }
    held.page = None;
    fetch_page(pages, page, &mut held.bytes)?;
    held.page = Some(page);
    Ok(())
}

// Whether this page is held.
fn is_page(held: Option<u32>, page: u32) -> bool
    ensures { IsTrue result ↔ held ≡ Some page }
{
    match held {
        Some(other) => other == page,
        None => false,
    }
}

// What slot `i` of a page says.
#[inline(always)]
fn slot_in(page: &[u8; PAGE_LEN], i: u32) -> Option<Slot>
    requires { i < 8 }
    ensures { result ≡ slot_said (range page.now (64 * i) 64) }
{
    let at = i as usize * SLOT_LEN;
    read_slot(page[at..at + SLOT_LEN].first_chunk().unwrap())
}
