// The slot and the pages that an insertion takes: free ones first.
ghost use Rattle.std.specs.Prelude.{◌≡◌, ◌+◌, ◌<◌, ◌≤◌, None, Some, IfOk, IfSome, IfNone, IsErrOf, IsTrue};
ghost use Rattle.eaw_face.specs.Causes.{IsAlive};
ghost use Rattle.record_slots.specs.Places.{slot_page, free_slot_of, free_page_of};
ghost use Rattle.page_store.specs.Index.{slots_of, index_pages_of};
ghost use Rattle.page_store.specs.Looks.{Looks, LookCause, is_failed};
ghost use Rattle.page_store.specs.Shown.{pages_of};
ghost use Rattle.index_pages.specs.Adding.{TakesSlot, TakesPage, with_slot_taken, with_page_taken};
ghost use Rattle.index_pages.specs.Fetched.{IsFront};
ghost use Rattle.index_pages.specs.Peeks.{Peeks};
ghost use Rattle.index_pages.specs.Slots.{HasRank, list_check};

use crate::fetch::{SLOTS_IN_PAGE, fetch_free_page, fetch_free_slot, index_page_count};
use eaw_face::EawStore;
use page_store::{PageFault, Pages};
use record_slots::{Free, Super};

/// A slot or a page that is claimed, and what the super page is to say then.
#[derive(Clone, Copy, Debug)]
pub struct Claim {
    pub number: u32,
    pub front: Super,
}

/// Takes the slot that is due: the first free one, or the next if none is free. Nothing is written yet.
pub fn take_slot<S: EawStore>(pages: &mut Pages<S>, front: &Super) -> Result<Claim, PageFault>
    requires alive { IsAlive (S.view pages.old.store) }
    requires front { IsFront (S.view pages.old.store).shape front.now }
    requires left { front.now.free_slots ≡ 0 → front.now.next_slot < slots_of (S.view pages.old.store).shape }
    requires sound { IsTrue S.tells → list_check (free_slot_of (S.view pages.old.store).state.bytes) (slot_page (S.view pages.old.store).state.bytes)
        0 front.now.next_slot front.now.free_slots front.now.free_slot 0 None }
    ensures looks { Looks S.tells (S.opens (S.view pages.old.store).shape) (is_failed result)
        (pages_of (S.view pages.old.store) pages.old) (pages_of (S.view pages.new.store) pages.new) }
    ensures cause { LookCause S.tells (S.view pages.old.store) result }
    ensures peeks { Peeks S.tells S.view S.calls (S.view pages.old.store) (S.view pages.new.store) result }
    ensures takes { IsTrue S.tells → IfOk result (λ taken. TakesSlot (S.view pages.old.store).state.bytes front.now taken.number taken.front) }
    ensures inside { IfOk result (λ taken. taken.number < slots_of (S.view pages.old.store).shape) }
    ensures dead { IsErrOf result PageFault.Dead → ⊥ }
{
    if front.free_slots == 0 {
        return Ok(Claim {
            number: front.next_slot,
            front: with_next_slot(front),
        });
    }
    if front.free_slot == 0 {
        return Err(PageFault::Damaged { page: 0 });
    }
    if front.free_slot > front.next_slot {
        return Err(PageFault::Damaged { page: 0 });
    }
    let slot = front.free_slot - 1;
    let page = index_page_count(pages) + slot / SLOTS_IN_PAGE;
    let said = fetch_free_slot(pages, slot)?;
    let Some(free) = ranked(&said, front.free_slots) else {
        return Err(PageFault::Damaged { page });
    };
    Ok(Claim {
        number: slot,
        front: with_free_slot(front, &free),
    })
}

/// Takes the page that is due: the first free one, or the next if none is free. Nothing is written yet.
pub fn take_page<S: EawStore>(pages: &mut Pages<S>, front: &Super) -> Result<Claim, PageFault>
    requires alive { IsAlive (S.view pages.old.store) }
    requires front { IsFront (S.view pages.old.store).shape front.now }
    requires left { front.now.free_pages ≡ 0 → front.now.next_page < index_pages_of (S.view pages.old.store).shape }
    requires sound { IsTrue S.tells → list_check (free_page_of (S.view pages.old.store).state.bytes) (λ page. page)
        2 front.now.next_page front.now.free_pages front.now.free_page 0 None }
    ensures looks { Looks S.tells (S.opens (S.view pages.old.store).shape) (is_failed result)
        (pages_of (S.view pages.old.store) pages.old) (pages_of (S.view pages.new.store) pages.new) }
    ensures cause { LookCause S.tells (S.view pages.old.store) result }
    ensures peeks { Peeks S.tells S.view S.calls (S.view pages.old.store) (S.view pages.new.store) result }
    ensures takes { IsTrue S.tells → IfOk result (λ taken. TakesPage (S.view pages.old.store).state.bytes front.now taken.number taken.front) }
    ensures inside { IfOk result (λ taken. (2 ≤ taken.number) × (taken.number < index_pages_of (S.view pages.old.store).shape)) }
    ensures front { IfOk result (λ taken. IsFront (S.view pages.old.store).shape taken.front) }
    ensures slots { IfOk result (λ taken. (taken.front.next_slot ≡ front.now.next_slot) × (taken.front.free_slots ≡ front.now.free_slots)) }
    ensures pages { IfOk result (λ taken. taken.front.free_pages + 1 + front.now.next_page ≡ front.now.free_pages + taken.front.next_page) }
    ensures dead { IsErrOf result PageFault.Dead → ⊥ }
{
    if front.free_pages == 0 {
        return Ok(Claim {
            number: front.next_page,
            front: with_next_page(front),
        });
    }
    if front.free_page <= 2 {
        return Err(PageFault::Damaged { page: 0 });
    }
    if front.free_page > front.next_page {
        return Err(PageFault::Damaged { page: 0 });
    }
    let page = front.free_page - 1;
    let said = fetch_free_page(pages, page)?;
    let Some(free) = ranked(&said, front.free_pages) else {
        return Err(PageFault::Damaged { page });
    };
    Ok(Claim {
        number: page,
        front: with_free_page(front, &free),
    })
}

// What is said, if it is free and has this rank.
pub fn ranked(said: &Option<Free>, rank: u32) -> Option<Free>
    ensures some { IfSome result (λ free. (said.now ≡ Some free) × (free.rank ≡ rank)) }
    ensures none { IfNone result (¬ HasRank rank said.now) }
{
    match said {
        Some(free) if free.rank == rank => Some(*free),
        _ => None,
    }
}

fn with_next_slot(front: &Super) -> Super
    requires { front.now.next_slot < 0xFFFFFFFF }
    ensures { result ≡ with_slot_taken None front.now }
{
    let mut after = *front;
    after.next_slot += 1;
    after
}

fn with_free_slot(front: &Super, free: &Free) -> Super
    requires { 0 < front.now.free_slots }
    ensures { result ≡ with_slot_taken (Some free.now) front.now }
{
    let mut after = *front;
    after.free_slot = free.next;
    after.free_slots -= 1;
    after
}

fn with_next_page(front: &Super) -> Super
    requires { front.now.next_page < 0xFFFFFFFF }
    ensures { result ≡ with_page_taken None front.now }
{
    let mut after = *front;
    after.next_page += 1;
    after
}

fn with_free_page(front: &Super, free: &Free) -> Super
    requires { 0 < front.now.free_pages }
    ensures { result ≡ with_page_taken (Some free.now) front.now }
{
    let mut after = *front;
    after.free_page = free.next;
    after.free_pages -= 1;
    after
}
