// The slot and the page that a removal gives back, and the action that takes a pair out.
ghost use Rattle.std.specs.Prelude.{◌≡◌, ◌<◌, ◌↔◌, IsTrue, None, Some, IfSome, IfNone, IsErrOf};
ghost use Rattle.eaw_face.specs.Causes.{IsAlive};
ghost use Rattle.eaw_face.specs.StoreView.{log_len};
ghost use Rattle.page_store.specs.Index.{slots_of, index_pages_of};
ghost use Rattle.page_store.specs.Pairs.{removed};
ghost use Rattle.page_store.specs.Runs.{Runs, acting_of};
ghost use Rattle.page_store.specs.Shown.{pages_of, top_in};
ghost use Rattle.index_pages.specs.Acts.{Acts};
ghost use Rattle.index_pages.specs.Giving.{MayGive, GivesSlot, GivesPage, removing_pages, removing_parts, with_slot_given, with_page_given};

use crate::adding::act_on_leaf;
use crate::page::Pairs;
use crate::place::place_found;
use eaw_face::EawStore;
use page_store::{LeafPage, PageFault, Pages};
use record_slots::{Free, SLOT_LEN, Super, VERSION, write_free_slot};

/// A slot or a page that is given back: its number, what it is to say, and what the super page is to say then.
#[derive(Clone, Copy, Debug)]
pub struct Release {
    pub number: u32,
    pub free: Free,
    pub front: Super,
}

/// Gives back a slot, which is the first free one then. Nothing is written yet. `None` exactly when the super page has no lists, the slot
/// was not given out, or as many are free as were given out.
pub fn give_slot(front: &Super, slot: u32) -> Option<Release>
    ensures gives { IfSome result (λ given. (given.number ≡ slot) × GivesSlot front.now slot given.free given.front) }
    ensures none { IfNone result (¬ MayGive front.now.version slot front.now.next_slot front.now.free_slots) }
{
    if !may_give(front, slot, front.next_slot, front.free_slots) {
        return None;
    }
    Some(Release {
        number: slot,
        free: Free {
            next: front.free_slot,
            rank: front.free_slots + 1,
        },
        front: with_slot(front, slot),
    })
}

/// Gives back a page, which is the first free one then. Nothing is written yet. `None` exactly when the super page has no lists, the page
/// was not given out, or as many are free as were given out.
pub fn give_page(front: &Super, page: u32) -> Option<Release>
    ensures gives { IfSome result (λ given. (given.number ≡ page) × GivesPage front.now page given.free given.front) }
    ensures none { IfNone result (¬ MayGive front.now.version page front.now.next_page front.now.free_pages) }
{
    if !may_give(front, page, front.next_page, front.free_pages) {
        return None;
    }
    Some(Release {
        number: page,
        free: Free {
            next: front.free_page,
            rank: front.free_pages + 1,
        },
        front: with_page(front, page),
    })
}

// Whether there are lists, this number is below the next one, and not all below it are free.
fn may_give(front: &Super, number: u32, next: u32, free: u32) -> bool
    ensures { IsTrue result ↔ MayGive front.now.version number next free }
{
    front.version == VERSION && number < next && free < next
}

fn with_slot(front: &Super, slot: u32) -> Super
    requires slot { slot < 0xFFFFFFFF }
    requires free { front.now.free_slots < 0xFFFFFFFF }
    ensures { result ≡ with_slot_given slot front.now }
{
    let mut after = *front;
    after.free_slot = slot + 1;
    after.free_slots += 1;
    after
}

fn with_page(front: &Super, page: u32) -> Super
    requires page { page < 0xFFFFFFFF }
    requires free { front.now.free_pages < 0xFFFFFFFF }
    ensures { result ≡ with_page_given page front.now }
{
    let mut after = *front;
    after.free_page = page + 1;
    after.free_pages += 1;
    after
}

/// Takes the pair of a key out of a page of level 0 and gives its slot back, as one nested top action of three parts: the slot, which says
/// that it is free, the page without the pair, and the super page, whose list of free slots begins with the slot.
pub fn remove_pair<S: EawStore>(
    pages: &mut Pages<S>,
    tid: u8,
    key: u64,
    released: &Release,
    leaf: LeafPage,
) -> Result<(), PageFault>
    requires tid { tid < (S.view pages.old.store).shape.numbers }
    requires closed { IsAlive (S.view pages.old.store) → top_in pages.old.marks tid ≡ None }
    requires inside { leaf.page < index_pages_of (S.view pages.old.store).shape }
    requires slot { released.now.number < slots_of (S.view pages.old.store).shape }
    ensures acts { Acts S.tells (S.opens (S.view pages.old.store).shape) tid (removing_pages (index_pages_of (S.view pages.old.store).shape) released.now.number leaf.page)
        (removing_parts (index_pages_of (S.view pages.old.store).shape) released.now.front released.now.number released.now.free leaf.page leaf.link leaf.pairs.items key)
        (pages_of (S.view pages.old.store) pages.old) (pages_of (S.view pages.new.store) pages.new) result }
    ensures runs { Runs S.tells S.view S.calls (acting_of tid (log_len (S.view pages.old.store) tid)
        (removing_parts (index_pages_of (S.view pages.old.store).shape) released.now.front released.now.number released.now.free leaf.page leaf.link leaf.pairs.items key))
        (S.view pages.old.store) (S.view pages.new.store) result }
    ensures dead { IsErrOf result PageFault.Dead → pages.new ≡ pages.old }
{
    let mut leaf = leaf;
    remove_of(&mut leaf.pairs, key);
    let mut slot = [0; SLOT_LEN];
    write_free_slot(&released.free, &mut slot);
    act_on_leaf(pages, tid, released.number, &slot, &leaf, &released.front)
}

/// The pairs of a page without that of a key.
pub fn without_pair(pairs: Pairs, key: u64) -> Pairs
    ensures { result.items ≡ removed pairs.items key }
{
    let mut pairs = pairs;
    remove_of(&mut pairs, key);
    pairs
}

// Takes the pair of a key out of those of a page.
fn remove_of(pairs: &mut Pairs, key: u64)
    ensures { pairs.new.items ≡ removed pairs.old.items key }
{
    if let Some(place) = place_found(pairs.as_slice(), key) {
        pairs.remove(place);
    }
}
