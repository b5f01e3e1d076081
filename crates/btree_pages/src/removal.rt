// Removals from the tree of a table: the pair leaves its leaf, and a leaf that has no other is joined with a neighbour.
ghost use Rattle.std.specs.Prelude.{◌≡◌, ◌≢◌, ◌<◌, ◌≤◌, ℕ, [], ◌∷◌, Some, IsSome, IfOk, IfErr, IfSome, IfNone, IsErrOf, IsTrue, length, get_or};
ghost use Rattle.std.specs.List.{remove};
ghost use Rattle.eaw_face.specs.Causes.{IsAlive};
ghost use Rattle.record_slots.specs.Places.{page_bytes, version_of};
ghost use Rattle.record_slots.specs.Super.{SaysSuper};
ghost use Rattle.page_store.specs.Index.{IsTable, slots_of};
ghost use Rattle.page_store.specs.Looks.{Looks, LookCause, is_failed};
ghost use Rattle.page_store.specs.Pairs.{found};
ghost use Rattle.page_store.specs.Removes.{Removes};
ghost use Rattle.page_store.specs.Shown.{pages_of};
ghost use Rattle.page_store.specs.Works.{WorksFrom, blamed, is_done, removal_actions};
ghost use Rattle.index_pages.specs.Fetched.{IsFront};
ghost use Rattle.index_pages.specs.Giving.{MayGive, GivesSlot};
ghost use Rattle.index_pages.specs.May.{MayAct};
ghost use Rattle.index_pages.specs.Page.{page_pairs};
ghost use Rattle.btree_laws.specs.Removals.{right_of, without_right};
ghost use Rattle.btree_laws.specs.Tree.{pairs_of_tree};
ghost use Rattle.btree_pages.specs.Downward.{below};
ghost use Rattle.btree_pages.specs.Index.{tree, tree_removal, AreSoundTrees};
ghost use Rattle.btree_pages.specs.May.{IsLone};
ghost use Rattle.btree_pages.specs.OnWay.{IsReached};
ghost use Rattle.btree_pages.specs.Steps.{CameDown, FailsDown, ReadsNamed, limits_down};
ghost use Rattle.btree_pages.specs.Writes.{IsRead, Releases};

use crate::change::Change;
use crate::emptied::{NewPairs, drop_leaf, join_leaves};
use crate::node::{Node, fetch_child, fetch_node};
use crate::parents::{place_behind, without_end, without_place};
use crate::write::NO_LINK;
use btree_laws::Root;
use eaw_face::EawStore;
use index_pages::{
    LeafPage, Release, give_page, give_slot, index_page_count, place_found, remove_pair,
};
use page_store::{PageFault, Pages};
use record_slots::Super;

// Goes on below the root, to the leaf of the key and the parent of that leaf.
pub fn remove_below<S: EawStore>(
    pages: &mut Pages<S>,
    change: Change,
    front: &Super,
    top: Node,
) -> Result<bool, PageFault>
    requires may { MayAct S.tells tree change.tid change.root.table change.root.page (pages_of (S.view pages.old.store) pages.old) }
    requires lists { IsTrue S.tells → version_of (S.view pages.old.store).state.bytes ≡ 2 }
    requires there { IsTrue S.tells → IsSome (found (pairs_of_tree (S.view pages.old.store).state.bytes change.root.page) change.key) }
    requires front { IsFront (S.view pages.old.store).shape front.now }
    requires says { IsTrue S.tells → SaysSuper (page_bytes (S.view pages.old.store).state.bytes 0) front.now }
    requires read { IsRead (S.view pages.old.store).shape top.page top.level top.pairs.items }
    requires some { 1 ≤ length top.pairs.items }
    requires inner { top.level ≢ 0 }
    requires reached { IsTrue S.tells → IsReached change.root (S.view pages.old.store).state.bytes change.key top.page top.level top.pairs.items }
    ensures removes { Removes S.tells (S.opens (S.view pages.old.store).shape) tree change.tid change.root.page change.key
        (pages_of (S.view pages.old.store) pages.old) (pages_of (S.view pages.new.store) pages.new) result }
    ensures works { WorksFrom (0 ∷ top.page ∷ []) (Unit {0}) S.tells (is_done result) S.view S.calls change.tid (below change.key top.level top.pairs.items) (limits_down top.level)
        (removal_actions (tree_removal (S.view pages.old.store).state.bytes change.root.page change.key)) (blamed result) (S.view pages.old.store) (S.view pages.new.store) }
    ensures dead { IsErrOf result PageFault.Dead → ⊥ }
{
    let parent = fetch_parent(pages, change.root, change.key, top)?;
    let leaf = fetch_child(pages, change.root, &parent, change.key)?;
    let Some(slot) = release_slot(front, &leaf, change.key) else {
        return Err(PageFault::Damaged { page: leaf.page });
    };
    if leaf.pairs.len() > 1 {
        return lose_pair(pages, change, &slot, leaf);
    }
    if let Some(place) = place_behind(parent.pairs.as_slice(), change.key) {
        return join_right(pages, change, &slot, leaf.page, parent, place);
    }
    if parent.pairs.len() > 1 {
        return leave_parent(pages, change, &slot, leaf.page, parent);
    }
    Ok(false)
}

// Goes down from an inner page on the way of a key to the parent of the key's leaf.
fn fetch_parent<S: EawStore>(
    pages: &mut Pages<S>,
    root: Root,
    key: u64,
    top: Node,
) -> Result<Node, PageFault>
    requires alive { IsAlive (S.view pages.old.store) }
    requires sound { IsTrue S.tells → AreSoundTrees (S.view pages.old.store).state.bytes }
    requires named { IsTrue S.tells → IsTable (S.view pages.old.store).state.bytes root.table root.page }
    requires read { IsRead (S.view pages.old.store).shape top.page top.level top.pairs.items }
    requires some { 1 ≤ length top.pairs.items }
    requires inner { top.level ≢ 0 }
    requires reached { IsTrue S.tells → IsReached root (S.view pages.old.store).state.bytes key top.page top.level top.pairs.items }
    ensures looks { Looks S.tells (S.opens (S.view pages.old.store).shape) (is_failed result)
        (pages_of (S.view pages.old.store) pages.old) (pages_of (S.view pages.new.store) pages.new) }
    ensures cause { LookCause S.tells (S.view pages.old.store) result }
    ensures read { IfOk result (λ node. IsRead (S.view pages.old.store).shape node.page node.level node.pairs.items) }
    ensures some { IfOk result (λ node. 1 ≤ length node.pairs.items) }
    ensures level { IfOk result (λ node. node.level ≡ 1) }
    ensures reached { IsTrue S.tells → IfOk result (λ node. IsReached root (S.view pages.old.store).state.bytes key node.page node.level node.pairs.items) }
    ensures down { IfOk result (λ node. CameDown S.tells S.view S.calls key top.page top.level top.pairs.items (S.view pages.old.store) (S.view pages.new.store)
        node.page node.level node.pairs.items) }
    ensures fails { IfErr result (FailsDown S.tells S.view S.calls key top.page top.level top.pairs.items (S.view pages.old.store) (S.view pages.new.store)) }
    ensures dead { IsErrOf result PageFault.Dead → ⊥ }
{
    let mut node = top;
    while node.level > 1 {
        node = fetch_child(pages, root, &node, key)?;
    }
    Ok(node)
}

// Gives back the slot of the key's pair in its leaf. Nothing is written yet. `None` exactly when the leaf has no such pair, or its slot
// cannot be given back.
pub fn release_slot(front: &Super, leaf: &Node, key: u64) -> Option<Release>
    ensures gives { IfSome result (λ slot. GivesSlot front.now slot.number slot.free slot.front) }
    ensures finds { IfSome result (λ slot. found leaf.now.pairs.items key ≡ Some slot.number) }
    ensures none { IfNone result ((slot : ℕ) → found leaf.now.pairs.items key ≡ Some slot → ¬ MayGive front.now.version slot front.now.next_slot front.now.free_slots) }
{
    let place = place_found(leaf.pairs.as_slice(), key)?;
    let slot = below(leaf.pairs.as_slice()[place].1, front.next_slot)?;
    give_slot(front, slot)
}

// A number, if it is below this one.
fn below(number: u64, end: u32) -> Option<u32>
    ensures some { IfSome result (λ small. small ≡ number) }
    ensures none { IfNone result (end ≤ number) }
{
    if number >= u64::from(end) {
        return None;
    }
    Some(number as u32)
}

// Takes the pair out of a leaf that keeps others, or is the root.
pub fn lose_pair<S: EawStore>(
    pages: &mut Pages<S>,
    change: Change,
    slot: &Release,
    leaf: Node,
) -> Result<bool, PageFault>
    requires may { MayAct S.tells tree change.tid change.root.table change.root.page (pages_of (S.view pages.old.store) pages.old) }
    requires slot { slot.now.number < slots_of (S.view pages.old.store).shape }
    requires released { IsTrue S.tells → Releases (S.view pages.old.store).state.bytes slot.now.number slot.now.free slot.now.front }
    requires leaf { IsRead (S.view pages.old.store).shape leaf.page leaf.level leaf.pairs.items }
    requires bottom { leaf.level ≡ 0 }
    requires reached { IsTrue S.tells → IsReached change.root (S.view pages.old.store).state.bytes change.key leaf.page leaf.level leaf.pairs.items }
    requires finds { found leaf.pairs.items change.key ≡ Some slot.now.number }
    requires more { IsTrue S.tells → leaf.page ≢ change.root.page → 2 ≤ length leaf.pairs.items }
    ensures removes { Removes S.tells (S.opens (S.view pages.old.store).shape) tree change.tid change.root.page change.key
        (pages_of (S.view pages.old.store) pages.old) (pages_of (S.view pages.new.store) pages.new) result }
    ensures works { WorksFrom ([]) (Unit {0}) S.tells (is_done result) S.view S.calls change.tid (below change.key 0 []) (limits_down 0)
        (removal_actions (tree_removal (S.view pages.old.store).state.bytes change.root.page change.key)) (blamed result) (S.view pages.old.store) (S.view pages.new.store) }
    ensures dead { IsErrOf result PageFault.Dead → ⊥ }
{
    let Node { page, pairs, .. } = leaf;
    let leaf = LeafPage {
        page,
        link: NO_LINK,
        pairs,
    };
    remove_pair(pages, change.tid, change.key, slot, leaf)?;
    Ok(true)
}

// The leaf, which has no other pair, takes those of the page to its right.
fn join_right<S: EawStore>(
    pages: &mut Pages<S>,
    change: Change,
    slot: &Release,
    leaf: u32,
    parent: Node,
    place: usize,
) -> Result<bool, PageFault>
    requires may { MayAct S.tells tree change.tid change.root.table change.root.page (pages_of (S.view pages.old.store) pages.old) }
    requires slot { slot.now.number < slots_of (S.view pages.old.store).shape }
    requires released { IsTrue S.tells → Releases (S.view pages.old.store).state.bytes slot.now.number slot.now.free slot.now.front }
    requires lone { IsLone S.tells (S.view pages.old.store) change.root change.key slot.now.number leaf parent.page parent.level parent.pairs.items }
    requires place { place < length parent.pairs.items }
    requires names { right_of parent.pairs.items change.key ≡ (get_or parent.pairs.items place (0, 0)).1 }
    requires leaves { remove parent.pairs.items place ≡ without_right parent.pairs.items change.key }
    ensures removes { Removes S.tells (S.opens (S.view pages.old.store).shape) tree change.tid change.root.page change.key
        (pages_of (S.view pages.old.store) pages.old) (pages_of (S.view pages.new.store) pages.new) result }
    ensures works { WorksFrom (parent.page ∷ []) (Unit {0}) S.tells (is_done result) S.view S.calls change.tid (below change.key 0 []) (limits_down 0)
        (removal_actions (tree_removal (S.view pages.old.store).state.bytes change.root.page change.key)) (blamed result) (S.view pages.old.store) (S.view pages.new.store) }
    ensures dead { IsErrOf result PageFault.Dead → ⊥ }
{
    let right = fetch_right(pages, change.root, change.key, &parent, place)?;
    let Some(freed) = give_page(&slot.front, right.page) else {
        return Err(PageFault::Damaged { page: right.page });
    };
    let leaf = NewPairs {
        page: leaf,
        pairs: right.pairs,
    };
    let parent = NewPairs {
        page: parent.page,
        pairs: without_place(parent.pairs, place),
    };
    join_leaves(pages, change.tid, slot, &freed, leaf, parent)?;
    Ok(true)
}

// Reads the leaf to the right of that of the key, which this entry of their parent names.
fn fetch_right<S: EawStore>(
    pages: &mut Pages<S>,
    root: Root,
    key: u64,
    parent: &Node,
    place: usize,
) -> Result<Node, PageFault>
    requires alive { IsAlive (S.view pages.old.store) }
    requires sound { IsTrue S.tells → AreSoundTrees (S.view pages.old.store).state.bytes }
    requires named { IsTrue S.tells → IsTable (S.view pages.old.store).state.bytes root.table root.page }
    requires level { parent.now.level ≡ 1 }
    requires reached { IsTrue S.tells → IsReached root (S.view pages.old.store).state.bytes key parent.now.page parent.now.level parent.now.pairs.items }
    requires place { place < length parent.now.pairs.items }
    requires names { right_of parent.now.pairs.items key ≡ (get_or parent.now.pairs.items place (0, 0)).1 }
    ensures looks { Looks S.tells (S.opens (S.view pages.old.store).shape) (is_failed result)
        (pages_of (S.view pages.old.store) pages.old) (pages_of (S.view pages.new.store) pages.new) }
    ensures cause { LookCause S.tells (S.view pages.old.store) result }
    ensures page { IfOk result (λ right. right.page ≡ right_of parent.now.pairs.items key) }
    ensures read { IfOk result (λ right. IsRead (S.view pages.old.store).shape right.page right.level right.pairs.items) }
    ensures level { IfOk result (λ right. right.level ≡ 0) }
    ensures pairs { IsTrue S.tells → IfOk result (λ right. right.pairs.items ≡ page_pairs (S.view pages.old.store).state.bytes right.page) }
    ensures reads { ReadsNamed S.tells (S.calls pages.old.store) (S.calls pages.new.store) parent.now.page (right_of parent.now.pairs.items key)
        (S.view pages.old.store) (S.view pages.new.store) result }
    ensures dead { IsErrOf result PageFault.Dead → ⊥ }
{
    let count = index_page_count(pages);
    let page = parent.pairs.as_slice()[place].1;
    if page == 0 {
        return Err(PageFault::Damaged { page: parent.page });
    }
    if page >= u64::from(count) {
        return Err(PageFault::Damaged { page: parent.page });
    }
    let right = fetch_node(pages, page as u32)?;
    if right.level != 0 {
        return Err(PageFault::Damaged { page: right.page });
    }
    Ok(right)
}

// The leaf, which has no other pair and is the last of several, goes.
fn leave_parent<S: EawStore>(
    pages: &mut Pages<S>,
    change: Change,
    slot: &Release,
    leaf: u32,
    parent: Node,
) -> Result<bool, PageFault>
    requires may { MayAct S.tells tree change.tid change.root.table change.root.page (pages_of (S.view pages.old.store) pages.old) }
    requires slot { slot.now.number < slots_of (S.view pages.old.store).shape }
    requires released { IsTrue S.tells → Releases (S.view pages.old.store).state.bytes slot.now.number slot.now.free slot.now.front }
    requires lone { IsLone S.tells (S.view pages.old.store) change.root change.key slot.now.number leaf parent.page parent.level parent.pairs.items }
    requires last { right_of parent.pairs.items change.key ≡ 0 }
    requires several { 2 ≤ length parent.pairs.items }
    ensures removes { Removes S.tells (S.opens (S.view pages.old.store).shape) tree change.tid change.root.page change.key
        (pages_of (S.view pages.old.store) pages.old) (pages_of (S.view pages.new.store) pages.new) result }
    ensures works { WorksFrom (leaf ∷ []) (Unit {0}) S.tells (is_done result) S.view S.calls change.tid (below change.key 0 []) (limits_down 0)
        (removal_actions (tree_removal (S.view pages.old.store).state.bytes change.root.page change.key)) (blamed result) (S.view pages.old.store) (S.view pages.new.store) }
    ensures dead { IsErrOf result PageFault.Dead → ⊥ }
{
    let Some(freed) = give_page(&slot.front, leaf) else {
        return Err(PageFault::Damaged { page: leaf });
    };
    let parent = NewPairs {
        page: parent.page,
        pairs: without_end(parent.pairs),
    };
    drop_leaf(pages, change.tid, slot, &freed, parent)?;
    Ok(true)
}
