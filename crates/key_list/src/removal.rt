// Removals from the chain of a table.
ghost use Rattle.std.specs.Prelude.{◌≡◌, ◌<◌, ◌≤◌, ℕ, [], ◌∷◌, None, Some, IfSome, IfNone, IsErrOf, IsTrue, length};
ghost use Rattle.record_slots.specs.Places.{version_of};
ghost use Rattle.page_store.specs.Pairs.{found};
ghost use Rattle.page_store.specs.Removes.{HasAbsent, Removes};
ghost use Rattle.page_store.specs.Shown.{pages_of};
ghost use Rattle.page_store.specs.Works.{WorksFrom, blamed, is_done, removal_actions};
ghost use Rattle.index_pages.specs.May.{MayAct};
ghost use Rattle.key_list.specs.Index.{chain, chain_removal, keeps_last};
ghost use Rattle.key_list.specs.Finds.{limits_here, no_way};
ghost use Rattle.key_list.specs.Located.{IsLocated, Locates};

use crate::change::Change;
use crate::place::Located;
use eaw_face::EawStore;
use index_pages::{
    LeafPage, Pairs, SLOTS_IN_PAGE, give_slot, index_page_count, place_found, remove_pair,
};
use page_store::{PageFault, Pages};

// Takes the pair out of its page, unless it is the last one and stays there.
pub fn remove_here<S: EawStore>(
    pages: &mut Pages<S>,
    change: Change,
    at: Located,
) -> Result<bool, PageFault>
    requires may { MayAct S.tells chain change.tid change.table change.root (pages_of (S.view pages.old.store) pages.old) }
    requires lists { IsTrue S.tells → version_of (S.view pages.old.store).state.bytes ≡ 2 }
    requires absent { IsTrue S.tells → HasAbsent chain change.root change.table change.key (S.view pages.old.store).state.bytes }
    requires located { IsLocated (S.view pages.old.store).shape at.front at.page at.link at.pairs.items }
    requires said { IsTrue S.tells → Locates (S.view pages.old.store).state.bytes change.root change.key at.front at.page at.link at.pairs.items }
    ensures removes { Removes S.tells (S.opens (S.view pages.old.store).shape) chain change.tid change.root change.key
        (pages_of (S.view pages.old.store) pages.old) (pages_of (S.view pages.new.store) pages.new) result }
    ensures works { WorksFrom (0 ∷ at.page ∷ []) (Unit {0}) S.tells (is_done result) S.view S.calls change.tid no_way
        limits_here (removal_actions (chain_removal (S.view pages.old.store).state.bytes change.root change.key))
        (blamed result) (S.view pages.old.store) (S.view pages.new.store) }
    ensures dead { IsErrOf result PageFault.Dead → ⊥ }
{
    if keeps_last(&at, change.root) {
        return Ok(false);
    }
    let slots = SLOTS_IN_PAGE * index_page_count(pages);
    let Some(slot) = slot_found(&at.pairs, change.key, slots) else {
        return Err(PageFault::Damaged { page: at.page });
    };
    let Some(released) = give_slot(&at.front, slot) else {
        return Err(PageFault::Damaged { page: 0 });
    };
    let leaf = LeafPage {
        page: at.page,
        link: at.link,
        pairs: at.pairs,
    };
    remove_pair(pages, change.tid, change.key, &released, leaf)?;
    Ok(true)
}

// Whether a page has one pair at most and keeps it, since it is not the root, or pages follow it.
fn keeps_last(at: &Located, root: u32) -> bool
    ensures { result ≡ keeps_last root at.now.page at.now.link (length at.now.pairs.items) }
{
    at.pairs.len() < 2 && !(at.page == root && at.link == 0)
}

// The slot of a key, if it is there and one of so many.
fn slot_found(pairs: &Pairs, key: u64, slots: u32) -> Option<u32>
    ensures some { IfSome result (λ slot. (slot < slots) × (found pairs.now.items key ≡ Some slot)) }
    ensures none { IfNone result ((slot : ℕ) → found pairs.now.items key ≡ Some slot → slots ≤ slot) }
{
    let pairs = pairs.as_slice();
    let Some(place) = place_found(pairs, key) else {
        return None;
    };
    let slot = pairs[place].1;
    if slot < u64::from(slots) {
        Some(slot as u32)
    } else {
        None
    }
}
