// The nested top actions of a removal that leaves a leaf without pairs.
ghost use Rattle.std.specs.Prelude.{◌≡◌, ◌<◌, ◌≤◌, None, IsErrOf, length};
ghost use Rattle.eaw_face.specs.Causes.{IsAlive};
ghost use Rattle.eaw_face.specs.StoreView.{log_len};
ghost use Rattle.page_store.specs.Index.{slots_of, index_pages_of};
ghost use Rattle.page_store.specs.Runs.{Runs, acting_of};
ghost use Rattle.page_store.specs.Shown.{pages_of, top_in};
ghost use Rattle.index_pages.specs.Acts.{Acts};
ghost use Rattle.btree_pages.specs.Writes.{joining_pages, joining_parts, leaving_pages, leaving_parts};

use crate::write::NO_LINK;
use eaw_face::EawStore;
use index_pages::{
    PAGE_LEN, Pairs, Release, act_all, front_part, slot_part, whole_page, write_page,
};
use page_store::{PageFault, Pages};
use record_slots::{PART_LEN, SLOT_LEN, write_free_page, write_free_slot, write_super_part};

/// A page that is to have other pairs.
#[derive(Drop)]
pub struct NewPairs {
    pub page: u32,
    pub pairs: Pairs,
}

// Gives the leaf the pairs of the page to its right, which is given back. Their parent names it no more.
pub fn join_leaves<S: EawStore>(
    pages: &mut Pages<S>,
    tid: u8,
    slot: &Release,
    right: &Release,
    leaf: NewPairs,
    parent: NewPairs,
) -> Result<(), PageFault>
    requires tid { tid < (S.view pages.old.store).shape.numbers }
    requires closed { IsAlive (S.view pages.old.store) → top_in pages.old.marks tid ≡ None }
    requires slot { slot.now.number < slots_of (S.view pages.old.store).shape }
    requires right { right.now.number < index_pages_of (S.view pages.old.store).shape }
    requires leaf { leaf.page < index_pages_of (S.view pages.old.store).shape }
    requires few { length leaf.pairs.items ≤ 30 }
    requires parent { parent.page < index_pages_of (S.view pages.old.store).shape }
    requires fewer { length parent.pairs.items ≤ 30 }
    ensures acts { Acts S.tells (S.opens (S.view pages.old.store).shape) tid
        (joining_pages (index_pages_of (S.view pages.old.store).shape) slot.now.number leaf.page parent.page right.now.number)
        (joining_parts (index_pages_of (S.view pages.old.store).shape) right.now.front slot.now.number slot.now.free leaf.page leaf.pairs.items
        parent.page parent.pairs.items right.now.number right.now.free)
        (pages_of (S.view pages.old.store) pages.old) (pages_of (S.view pages.new.store) pages.new) result }
    ensures runs { Runs S.tells S.view S.calls (acting_of tid (log_len (S.view pages.old.store) tid)
        (joining_parts (index_pages_of (S.view pages.old.store).shape) right.now.front slot.now.number slot.now.free leaf.page leaf.pairs.items
        parent.page parent.pairs.items right.now.number right.now.free))
        (S.view pages.old.store) (S.view pages.new.store) result }
    ensures dead { IsErrOf result PageFault.Dead → pages.new ≡ pages.old }
{
    let mut free = [0; SLOT_LEN];
    write_free_slot(&slot.free, &mut free);
    let mut joined = [0; PAGE_LEN];
    write_page(0, NO_LINK, leaf.pairs.as_slice(), &mut joined);
    let mut named = [0; PAGE_LEN];
    write_page(1, NO_LINK, parent.pairs.as_slice(), &mut named);
    let mut given = [0; PAGE_LEN];
    write_free_page(&right.free, &mut given);
    let mut part = [0; PART_LEN];
    write_super_part(&right.front, &mut part);
    let parts = [
        slot_part(pages, slot.number, &free),
        whole_page(leaf.page, &joined),
        whole_page(parent.page, &named),
        whole_page(right.number, &given),
        front_part(&part),
    ];
    act_all(pages, tid, &parts)
}

// Gives back the last leaf of a parent, which names it no more.
pub fn drop_leaf<S: EawStore>(
    pages: &mut Pages<S>,
    tid: u8,
    slot: &Release,
    leaf: &Release,
    parent: NewPairs,
) -> Result<(), PageFault>
    requires tid { tid < (S.view pages.old.store).shape.numbers }
    requires closed { IsAlive (S.view pages.old.store) → top_in pages.old.marks tid ≡ None }
    requires slot { slot.now.number < slots_of (S.view pages.old.store).shape }
    requires leaf { leaf.now.number < index_pages_of (S.view pages.old.store).shape }
    requires parent { parent.page < index_pages_of (S.view pages.old.store).shape }
    requires fewer { length parent.pairs.items ≤ 30 }
    ensures acts { Acts S.tells (S.opens (S.view pages.old.store).shape) tid
        (leaving_pages (index_pages_of (S.view pages.old.store).shape) slot.now.number parent.page leaf.now.number)
        (leaving_parts (index_pages_of (S.view pages.old.store).shape) leaf.now.front slot.now.number slot.now.free parent.page parent.pairs.items
        leaf.now.number leaf.now.free)
        (pages_of (S.view pages.old.store) pages.old) (pages_of (S.view pages.new.store) pages.new) result }
    ensures runs { Runs S.tells S.view S.calls (acting_of tid (log_len (S.view pages.old.store) tid)
        (leaving_parts (index_pages_of (S.view pages.old.store).shape) leaf.now.front slot.now.number slot.now.free parent.page parent.pairs.items
        leaf.now.number leaf.now.free))
        (S.view pages.old.store) (S.view pages.new.store) result }
    ensures dead { IsErrOf result PageFault.Dead → pages.new ≡ pages.old }
{
    let mut free = [0; SLOT_LEN];
    write_free_slot(&slot.free, &mut free);
    let mut rest = [0; PAGE_LEN];
    write_page(1, NO_LINK, parent.pairs.as_slice(), &mut rest);
    let mut given = [0; PAGE_LEN];
    write_free_page(&leaf.free, &mut given);
    let mut part = [0; PART_LEN];
    write_super_part(&leaf.front, &mut part);
    let parts = [
        slot_part(pages, slot.number, &free),
        whole_page(parent.page, &rest),
        whole_page(leaf.number, &given),
        front_part(&part),
    ];
    act_all(pages, tid, &parts)
}
