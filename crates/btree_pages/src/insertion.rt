// Insertions into the tree of a table: each full page on the way down is split, and then the pair goes to its leaf.
ghost use Rattle.std.specs.Prelude.{false, ◌≡◌, ◌≢◌, ◌↔◌, ◌+◌, ◌-◌, ◌*◌, ◌<◌, ◌≤◌, [], ◌∷◌, IsErrOf, IsTrue, length};
ghost use Rattle.page_store.specs.Inserts.{Inserts, are_slots_full};
ghost use Rattle.page_store.specs.Shown.{pages_of};
ghost use Rattle.page_store.specs.Works.{WorksFrom, blamed_index, is_done};
ghost use Rattle.index_pages.specs.May.{MayInsert};
ghost use Rattle.index_pages.specs.Page.{level_of, page_pairs};
ghost use Rattle.btree_pages.specs.Downward.{below};
ghost use Rattle.btree_pages.specs.Index.{tree, tree_below, tree_actions, actions_below};
ghost use Rattle.btree_pages.specs.OnWay.{IsReached};
ghost use Rattle.btree_pages.specs.Steps.{known_from, limits_above, limits_below};
ghost use Rattle.btree_pages.specs.Writes.{IsRead};

use crate::change::Change;
use crate::node::{Node, fetch_child};
use crate::write::{NO_LINK, cut_page, grow_root, half_of};
use eaw_face::EawStore;
use index_pages::{
    LEVEL_MAX, PAIRS_MAX, SLOTS_IN_PAGE, add_pair, index_page_count, take_page, take_slot,
};
use page_store::{IndexFault, LeafPage, Pages};
use record_slots::Super;

// Splits the full root, and goes on from the half that has the key.
pub fn insert_above<S: EawStore>(
    pages: &mut Pages<S>,
    change: Change,
    front: Super,
    top: Node,
) -> Result<u32, IndexFault>
    requires may { MayInsert S.tells tree change.tid change.root.table change.root.page change.key front (pages_of (S.view pages.old.store) pages.old) }
    requires page { top.page ≡ change.root.page }
    requires read { IsRead (S.view pages.old.store).shape top.page top.level top.pairs.items }
    requires full { length top.pairs.items ≡ 30 }
    requires level { IsTrue S.tells → top.level ≡ level_of (S.view pages.old.store).state.bytes change.root.page }
    requires pairs { IsTrue S.tells → top.pairs.items ≡ page_pairs (S.view pages.old.store).state.bytes change.root.page }
    ensures inserts { Inserts S.tells (S.opens (S.view pages.old.store).shape) tree change.tid change.root.page change.root.table change.key
        (pages_of (S.view pages.old.store) pages.old) (pages_of (S.view pages.new.store) pages.new) result }
    ensures works { WorksFrom (0 ∷ change.root.page ∷ []) (IsTrue S.tells) S.tells (is_done result) S.view S.calls change.tid (below change.key top.level top.pairs.items) (limits_above top.level)
        (tree_actions (S.view pages.old.store).state.bytes change.root.page change.key) (blamed_index result) (S.view pages.old.store) (S.view pages.new.store) }
    ensures left { are_slots_full result ≡ false }
    ensures dead { IsErrOf result IndexFault.Dead → ⊥ }
{
    let count = index_page_count(pages);
    if top.level == LEVEL_MAX {
        return Err(IndexFault::PagesFull { pages: count - 1 });
    }
    if !are_pages_left(&front, count, 2) {
        return Err(IndexFault::PagesFull { pages: count - 1 });
    }
    let left = take_page(pages, &front)?;
    let right = take_page(pages, &left.front)?;
    grow_root(pages, change.tid, left.number, &right, &top, change.key)?;
    let half = half_of(&top, left.number, right.number, change.key);
    insert_below(pages, change, right.front, half)
}

// A place as a page that was read.
pub fn node_of(leaf: LeafPage) -> Node
    ensures page { result.page ≡ leaf.page }
    ensures level { result.level ≡ 0 }
    ensures pairs { result.pairs.items ≡ leaf.pairs.items }
{
    let LeafPage {
        page,
        link: _,
        pairs,
    } = leaf;
    Node {
        page,
        level: 0,
        pairs,
    }
}

// Whether a page is one of so many, and not the super page.
pub fn is_index_page(page: u32, count: u32) -> bool
    ensures { IsTrue result ↔ (1 ≤ page) × (page < count) }
{
    page != 0 && page < count
}

// Whether a slot is free, or one is left to give out.
pub fn is_slot_left(front: &Super, count: u32) -> bool
    requires { count ≤ 16384 }
    ensures { IsTrue result ↔ (front.now.free_slots ≡ 0 → front.now.next_slot ≢ 8 * count) }
{
    front.free_slots != 0 || front.next_slot != SLOTS_IN_PAGE * count
}

// Whether so many pages are left of `count`: free ones, and those to give out.
fn are_pages_left(front: &Super, count: u32, pages: u64) -> bool
    requires { front.now.next_page ≤ count }
    ensures { IsTrue result ↔ (pages ≤ front.now.free_pages + (count - front.now.next_page)) }
{
    u64::from(front.free_pages) + u64::from(count - front.next_page) >= pages
}

// Inserts a key, going on from a page on its way that has room.
pub fn insert_below<S: EawStore>(
    pages: &mut Pages<S>,
    change: Change,
    front: Super,
    node: Node,
) -> Result<u32, IndexFault>
    requires may { MayInsert S.tells tree change.tid change.root.table change.root.page change.key front (pages_of (S.view pages.old.store) pages.old) }
    requires read { IsRead (S.view pages.old.store).shape node.page node.level node.pairs.items }
    requires some { node.level ≢ 0 → 1 ≤ length node.pairs.items }
    requires room { length node.pairs.items < 30 }
    requires reached { IsTrue S.tells → IsReached change.root (S.view pages.old.store).state.bytes change.key node.page node.level node.pairs.items }
    ensures inserts { Inserts S.tells (S.opens (S.view pages.old.store).shape) (tree_below node.page node.level (front.next_page + node.level)) change.tid change.root.page change.root.table change.key
        (pages_of (S.view pages.old.store) pages.old) (pages_of (S.view pages.new.store) pages.new) result }
    ensures works { WorksFrom (known_from node.level node.page) (IsTrue S.tells) S.tells (is_done result) S.view S.calls change.tid (below change.key node.level node.pairs.items) (limits_below node.level)
        (actions_below node.level (S.view pages.old.store).state.bytes node.page node.page 0 change.key) (blamed_index result) (S.view pages.old.store) (S.view pages.new.store) }
    ensures left { are_slots_full result ≡ false }
    ensures dead { IsErrOf result IndexFault.Dead → ⊥ }
{
    let count = index_page_count(pages);
    let mut front = front;
    let mut node = node;
    while node.level > 0 {
        let child = fetch_child(pages, change.root, &node, change.key)?;
        if child.pairs.len() < PAIRS_MAX {
            node = child;
            continue;
        }
        if !are_pages_left(&front, count, 1) {
            return Err(IndexFault::PagesFull { pages: count - 1 });
        }
        let taken = take_page(pages, &front)?;
        cut_page(pages, change.tid, &taken, &child, node, change.key)?;
        node = half_of(&child, child.page, taken.number, change.key);
        front = taken.front;
    }
    let slot = take_slot(pages, &front)?;
    let Node { page, pairs, .. } = node;
    let leaf = LeafPage {
        page,
        link: NO_LINK,
        pairs,
    };
    add_pair(
        pages,
        change.tid,
        change.root.table,
        change.key,
        &slot,
        leaf,
    )?;
    Ok(slot.number)
}
