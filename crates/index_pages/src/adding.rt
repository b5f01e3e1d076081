// The action that adds a pair, and the parts that other actions share with it.
ghost use Rattle.std.specs.Prelude.{◌≡◌, ◌+◌, ◌*◌, ◌/◌, ◌%◌, ◌<◌, None, IsErrOf, length};
ghost use Rattle.eaw_face.specs.Causes.{IsAlive};
ghost use Rattle.eaw_face.specs.StoreView.{log_len};
ghost use Rattle.page_store.specs.Index.{slots_of, index_pages_of};
ghost use Rattle.page_store.specs.Pairs.{inserted};
ghost use Rattle.page_store.specs.Runs.{Runs, acting_of};
ghost use Rattle.page_store.specs.Shown.{pages_of, top_in};
ghost use Rattle.index_pages.specs.Acts.{Acts};
ghost use Rattle.index_pages.specs.Adding.{adding_pages, adding_parts, leaf_parts};

use crate::action::{PagePart, act_all};
use crate::fetch::{SLOTS_IN_PAGE, index_page_count};
use crate::page::{PAGE_LEN, Pairs, write_page};
use crate::place::place_of;
use crate::taking::Claim;
use eaw_face::EawStore;
use page_store::{LeafPage, PageFault, Pages};
use record_slots::{PART_AT, PART_LEN, SLOT_LEN, Slot, Super, write_slot, write_super_part};

/// Adds a pair of the key of a table and a slot that is taken to a page of level 0 that has room, as one nested top action of three parts:
/// the slot, which is absent under the key, the page, and the super page, which says that the slot is in use.
pub fn add_pair<S: EawStore>(
    pages: &mut Pages<S>,
    tid: u8,
    table: u8,
    key: u64,
    taken: &Claim,
    leaf: LeafPage,
) -> Result<(), PageFault>
    requires tid { tid < (S.view pages.old.store).shape.numbers }
    requires closed { IsAlive (S.view pages.old.store) → top_in pages.old.marks tid ≡ None }
    requires table { table < 8 }
    requires inside { leaf.page < index_pages_of (S.view pages.old.store).shape }
    requires room { length leaf.pairs.items < 30 }
    requires slot { taken.now.number < slots_of (S.view pages.old.store).shape }
    ensures acts { Acts S.tells (S.opens (S.view pages.old.store).shape) tid (adding_pages (index_pages_of (S.view pages.old.store).shape) taken.now.number leaf.page)
        (adding_parts (index_pages_of (S.view pages.old.store).shape) taken.now.front taken.now.number leaf.page leaf.link leaf.pairs.items table key)
        (pages_of (S.view pages.old.store) pages.old) (pages_of (S.view pages.new.store) pages.new) result }
    ensures runs { Runs S.tells S.view S.calls (acting_of tid (log_len (S.view pages.old.store) tid)
        (adding_parts (index_pages_of (S.view pages.old.store).shape) taken.now.front taken.now.number leaf.page leaf.link leaf.pairs.items table key))
        (S.view pages.old.store) (S.view pages.new.store) result }
    ensures dead { IsErrOf result PageFault.Dead → pages.new ≡ pages.old }
{
    let mut leaf = leaf;
    insert_pair(&mut leaf.pairs, key, taken.number);
    let mut slot = [0; SLOT_LEN];
    write_slot(&Slot::Absent { table, key }, &mut slot);
    act_on_leaf(pages, tid, taken.number, &slot, &leaf, &taken.front)
}

/// Writes a slot, a page of level 0, and the part of the super page that changes, as one nested top action.
pub fn act_on_leaf<S: EawStore>(
    pages: &mut Pages<S>,
    tid: u8,
    number: u32,
    slot: &[u8; SLOT_LEN],
    leaf: &LeafPage,
    front: &Super,
) -> Result<(), PageFault>
    requires tid { tid < (S.view pages.old.store).shape.numbers }
    requires closed { IsAlive (S.view pages.old.store) → top_in pages.old.marks tid ≡ None }
    requires inside { leaf.now.page < index_pages_of (S.view pages.old.store).shape }
    requires slot { number < slots_of (S.view pages.old.store).shape }
    ensures acts { Acts S.tells (S.opens (S.view pages.old.store).shape) tid (adding_pages (index_pages_of (S.view pages.old.store).shape) number leaf.now.page)
        (leaf_parts (index_pages_of (S.view pages.old.store).shape) front.now number slot.now leaf.now.page leaf.now.link leaf.now.pairs.items)
        (pages_of (S.view pages.old.store) pages.old) (pages_of (S.view pages.new.store) pages.new) result }
    ensures runs { Runs S.tells S.view S.calls (acting_of tid (log_len (S.view pages.old.store) tid)
        (leaf_parts (index_pages_of (S.view pages.old.store).shape) front.now number slot.now leaf.now.page leaf.now.link leaf.now.pairs.items))
        (S.view pages.old.store) (S.view pages.new.store) result }
    ensures dead { IsErrOf result PageFault.Dead → pages.new ≡ pages.old }
{
    let mut bytes = [0; PAGE_LEN];
    write_page(0, leaf.link, leaf.pairs.as_slice(), &mut bytes);
    let mut part = [0; PART_LEN];
    write_super_part(front, &mut part);
    let parts = [
        slot_part(pages, number, slot),
        whole_page(leaf.page, &bytes),
        front_part(&part),
    ];
    act_all(pages, tid, &parts)
}

/// The pairs of a page that has room, with one more in its place.
pub fn with_pair(mut pairs: Pairs, key: u64, to: u32) -> Pairs
    requires { length pairs.items < 30 }
    ensures { result.items ≡ inserted pairs.items key to }
{
    insert_pair(&mut pairs, key, to);
    pairs
}

// Adds a pair, in its place, to those of a page that has room.
fn insert_pair(pairs: &mut Pairs, key: u64, to: u32)
    requires { length pairs.old.items < 30 }
    ensures { pairs.new.items ≡ inserted pairs.old.items key to }
{
    let place = place_of(pairs.as_slice(), key);
    pairs.insert(place, (key, u64::from(to)));
}

/// A slot as a part.
pub fn slot_part<'a, S: EawStore>(
    pages: &Pages<S>,
    slot: u32,
    bytes: &'a [u8; SLOT_LEN],
) -> PagePart<'a>
    requires { slot < slots_of (S.view pages.now.store).shape }
    ensures page { result.page ≡ index_pages_of (S.view pages.now.store).shape + slot / 8 }
    ensures at { result.at ≡ slot % 8 * 64 }
    ensures bytes { result.bytes.now ≡ bytes.now }
{
    PagePart {
        page: index_page_count(pages) + slot / SLOTS_IN_PAGE,
        at: slot % SLOTS_IN_PAGE * SLOT_LEN as u32,
        bytes,
    }
}

/// A whole page as a part.
pub fn whole_page(page: u32, bytes: &[u8; PAGE_LEN]) -> PagePart<'_>
    ensures page { result.page ≡ page }
    ensures at { result.at ≡ 0 }
    ensures bytes { result.bytes.now ≡ bytes.now }
{
    PagePart { page, at: 0, bytes }
}

/// The part of the super page that changes.
pub fn front_part(part: &[u8; PART_LEN]) -> PagePart<'_>
    ensures page { result.page ≡ 0 }
    ensures at { result.at ≡ 8 }
    ensures bytes { result.bytes.now ≡ part.now }
{
    PagePart {
        page: 0,
        at: PART_AT as u32,
        bytes: part,
    }
}
