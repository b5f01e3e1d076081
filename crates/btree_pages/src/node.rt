// Pages of the tree, as an insertion reads them.
ghost use Rattle.std.specs.Prelude.{◌≡◌, ◌≢◌, ◌+◌, ◌<◌, ◌≤◌, IfOk, IsErrOf, IsTrue, length};
ghost use Rattle.eaw_face.specs.Causes.{IsAlive};
ghost use Rattle.record_slots.specs.Places.{page_bytes};
ghost use Rattle.page_store.specs.Index.{IsTable, index_pages_of};
ghost use Rattle.page_store.specs.Looks.{Looks, LookCause, is_failed};
ghost use Rattle.page_store.specs.Shown.{pages_of};
ghost use Rattle.index_pages.specs.Fetched.{TestCause};
ghost use Rattle.index_pages.specs.Page.{level_of, page_pairs};
ghost use Rattle.btree_laws.specs.Descent.{child_for};
ghost use Rattle.btree_pages.specs.Index.{AreSoundTrees};
ghost use Rattle.btree_pages.specs.Node.{IsNode};
ghost use Rattle.btree_pages.specs.OnWay.{IsReached};
ghost use Rattle.btree_pages.specs.Steps.{ReadsNamed, ReadsPage};
ghost use Rattle.btree_pages.specs.Writes.{IsRead};

use crate::look::read_node;
use btree_laws::Root;
use eaw_face::EawStore;
use index_pages::{PAGE_LEN, Pairs, index_page_count, read_pairs};
use page_store::{PageFault, Pages};

/// A page as it was read.
#[derive(Drop)]
pub struct Node {
    pub page: u32,
    pub level: u8,
    pub pairs: Pairs,
}

// Reads a page and its pairs.
pub fn fetch_node<S: EawStore>(pages: &mut Pages<S>, page: u32) -> Result<Node, PageFault>
    requires some { 1 ≤ page }
    requires inside { page < index_pages_of (S.view pages.old.store).shape }
    ensures looks { Looks S.tells (S.opens (S.view pages.old.store).shape) (is_failed result)
        (pages_of (S.view pages.old.store) pages.old) (pages_of (S.view pages.new.store) pages.new) }
    ensures cause { TestCause S.tells (IsNode (page_bytes (S.view pages.old.store).state.bytes page)) page (S.view pages.old.store) result }
    ensures reads { ReadsPage S.tells (S.calls pages.old.store) (S.calls pages.new.store) page (page_bytes (S.view pages.old.store).state.bytes page)
        (S.view pages.old.store) (S.view pages.new.store) result }
    ensures page { IfOk result (λ node. node.page ≡ page) }
    ensures read { IfOk result (λ node. IsRead (S.view pages.old.store).shape page node.level node.pairs.items) }
    ensures some { IfOk result (λ node. node.level ≢ 0 → 1 ≤ length node.pairs.items) }
    ensures level { IsTrue S.tells → IfOk result (λ node. node.level ≡ level_of (S.view pages.old.store).state.bytes page) }
    ensures pairs { IsTrue S.tells → IfOk result (λ node. node.pairs.items ≡ page_pairs (S.view pages.old.store).state.bytes page) }
    ensures dead { IsErrOf result PageFault.Dead → pages.new ≡ pages.old }
{
    let mut bytes = [0; PAGE_LEN];
    let head = read_node(pages, page, &mut bytes)?;
    Ok(Node {
        page,
        level: head.level,
        pairs: read_pairs(&bytes, head.count),
    })
}

// The child whose range has the key.
pub fn child_of(pairs: &[(u64, u64)], key: u64) -> u64
    requires { 1 ≤ length pairs.now }
    ensures { result ≡ child_for pairs.now key }
{
    let mut child = pairs[0].1;
    for i in 1..pairs.len() {
        if key < pairs[i].0 {
            return child;
        }
        child = pairs[i].1;
    }
    child
}

// Reads the child of an inner page whose range has the key.
pub fn fetch_child<S: EawStore>(
    pages: &mut Pages<S>,
    root: Root,
    node: &Node,
    key: u64,
) -> Result<Node, PageFault>
    requires alive { IsAlive (S.view pages.old.store) }
    requires sound { IsTrue S.tells → AreSoundTrees (S.view pages.old.store).state.bytes }
    requires named { IsTrue S.tells → IsTable (S.view pages.old.store).state.bytes root.table root.page }
    requires reached { IsTrue S.tells → IsReached root (S.view pages.old.store).state.bytes key node.now.page node.now.level node.now.pairs.items }
    requires inner { node.now.level ≢ 0 }
    requires some { 1 ≤ length node.now.pairs.items }
    ensures looks { Looks S.tells (S.opens (S.view pages.old.store).shape) (is_failed result)
        (pages_of (S.view pages.old.store) pages.old) (pages_of (S.view pages.new.store) pages.new) }
    ensures cause { LookCause S.tells (S.view pages.old.store) result }
    ensures reads { ReadsNamed S.tells (S.calls pages.old.store) (S.calls pages.new.store) node.now.page (child_for node.now.pairs.items key)
        (S.view pages.old.store) (S.view pages.new.store) result }
    ensures child { IfOk result (λ child. child.page ≡ child_for node.now.pairs.items key) }
    ensures read { IfOk result (λ child. IsRead (S.view pages.old.store).shape child.page child.level child.pairs.items) }
    ensures some { IfOk result (λ child. child.level ≢ 0 → 1 ≤ length child.pairs.items) }
    ensures level { IfOk result (λ child. child.level + 1 ≡ node.now.level) }
    ensures pairs { IsTrue S.tells → IfOk result (λ child. child.pairs.items ≡ page_pairs (S.view pages.old.store).state.bytes child.page) }
    ensures dead { IsErrOf result PageFault.Dead → ⊥ }
{
    let count = index_page_count(pages);
    let page = child_of(node.pairs.as_slice(), key);
    if page == 0 {
        return Err(PageFault::Damaged { page: node.page });
    }
    if page >= u64::from(count) {
        return Err(PageFault::Damaged { page: node.page });
    }
    let child = fetch_node(pages, page as u32)?;
    if child.level + 1 != node.level {
        return Err(PageFault::Damaged { page: child.page });
    }
    Ok(child)
}
