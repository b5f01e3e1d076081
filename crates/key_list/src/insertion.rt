// Insertions into the chain of a table.
ghost use Rattle.std.specs.Prelude.{false, ◌≡◌, ◌<◌, ◌≤◌, ◌↔◌, [], ◌∷◌, IsErrOf, IsTrue, length};
ghost use Rattle.page_store.specs.Inserts.{Inserts, are_slots_full};
ghost use Rattle.page_store.specs.Shown.{pages_of};
ghost use Rattle.page_store.specs.Works.{WorksFrom, blamed_index, is_done};
ghost use Rattle.key_list.specs.Index.{chain, chain_actions, chain_within};
ghost use Rattle.key_list.specs.Finds.{limits_here, limits_cut, no_way};
ghost use Rattle.index_pages.specs.May.{MayAct};
ghost use Rattle.key_list.specs.Located.{MayAdd};

use crate::change::Change;
use crate::place::Located;
use crate::write::{cut_page, half_of};
use eaw_face::EawStore;
use index_pages::{LeafPage, add_pair, index_page_count, take_page, take_slot};
use page_store::{IndexFault, Pages};
use record_slots::Super;

// Whether a slot is left of so many.
pub fn has_slot(front: &Super, slots: u32) -> bool
    requires { front.now.next_slot ≤ slots }
    ensures { IsTrue result ↔ (front.now.free_slots ≡ 0 → front.now.next_slot < slots) }
{
    front.free_slots > 0 || front.next_slot < slots
}

// Whether a page is left of so many.
fn has_page(front: &Super, pages: u32) -> bool
    requires { front.now.next_page ≤ pages }
    ensures { IsTrue result ↔ (front.now.free_pages ≡ 0 → front.now.next_page < pages) }
{
    front.free_pages > 0 || front.next_page < pages
}

// Takes a slot and adds the pair to a page that has room.
pub fn insert_here<S: EawStore>(
    pages: &mut Pages<S>,
    change: Change,
    at: Located,
) -> Result<u32, IndexFault>
    requires may { MayAct S.tells chain change.tid change.table change.root (pages_of (S.view pages.old.store) pages.old) }
    requires place { MayAdd S.tells (S.view pages.old.store) change.root change.key at.front at.page at.link at.pairs.items }
    requires room { length at.pairs.items < 30 }
    ensures inserts { Inserts S.tells (S.opens (S.view pages.old.store).shape) (chain_within at.front.next_page) change.tid change.root change.table change.key
        (pages_of (S.view pages.old.store) pages.old) (pages_of (S.view pages.new.store) pages.new) result }
    ensures works { WorksFrom (0 ∷ []) (IsTrue S.tells) S.tells (is_done result) S.view S.calls change.tid no_way
        limits_here (chain_actions (S.view pages.old.store).state.bytes change.root change.key)
        (blamed_index result) (S.view pages.old.store) (S.view pages.new.store) }
    ensures left { are_slots_full result ≡ false }
    ensures dead { IsErrOf result IndexFault.Dead → ⊥ }
{
    let taken = take_slot(pages, &at.front)?;
    let leaf = LeafPage {
        page: at.page,
        link: at.link,
        pairs: at.pairs,
    };
    add_pair(pages, change.tid, change.table, change.key, &taken, leaf)?;
    Ok(taken.number)
}

// Takes a page, cuts the full page, and goes on with the half that has the key.
pub fn insert_cut<S: EawStore>(
    pages: &mut Pages<S>,
    change: Change,
    at: Located,
) -> Result<u32, IndexFault>
    requires may { MayAct S.tells chain change.tid change.table change.root (pages_of (S.view pages.old.store) pages.old) }
    requires place { MayAdd S.tells (S.view pages.old.store) change.root change.key at.front at.page at.link at.pairs.items }
    requires full { length at.pairs.items ≡ 30 }
    ensures inserts { Inserts S.tells (S.opens (S.view pages.old.store).shape) chain change.tid change.root change.table change.key
        (pages_of (S.view pages.old.store) pages.old) (pages_of (S.view pages.new.store) pages.new) result }
    ensures works { WorksFrom (0 ∷ []) (IsTrue S.tells) S.tells (is_done result) S.view S.calls change.tid no_way
        limits_cut (chain_actions (S.view pages.old.store).state.bytes change.root change.key)
        (blamed_index result) (S.view pages.old.store) (S.view pages.new.store) }
    ensures left { are_slots_full result ≡ false }
    ensures dead { IsErrOf result IndexFault.Dead → ⊥ }
{
    let count = index_page_count(pages);
    if !has_page(&at.front, count) {
        return Err(IndexFault::PagesFull { pages: count - 1 });
    }
    let taken = take_page(pages, &at.front)?;
    cut_page(pages, change.tid, &taken, &at)?;
    let half = half_of(&at, &taken, change.key);
    insert_here(pages, change, half)
}
