// What a page of the tree says.
ghost use Rattle.std.specs.Prelude.{◌≡◌, ◌<◌, ◌≤◌, IfSome, IfNone};
ghost use Rattle.page_store.specs.Pairs.{found};
ghost use Rattle.index_pages.specs.Page.{count_said, pairs_said};
ghost use Rattle.btree_laws.specs.Descent.{child_for};
ghost use Rattle.btree_pages.specs.Leaf.{behind_in};
ghost use Rattle.btree_pages.specs.Node.{IsNode, SaysNode};

use index_pages::{Head, PAGE_LEN, read_head, read_pair};

// The head of a page, or `None` exactly when the page is neither a leaf nor an inner page with a child, or has a link.
pub fn read_node_head(page: &[u8; PAGE_LEN]) -> Option<Head>
    ensures says { IfSome result (SaysNode page.now) }
    ensures other { IfNone result (¬ IsNode page.now) }
{
    let head = read_head(page)?;
    if head.link != 0 {
        return None;
    }
    if head.level == 0 {
        return Some(head);
    }
    if head.count == 0 {
        return None;
    }
    Some(head)
}

// The child whose range has the key, and the next entry.
pub fn child_in(page: &[u8; PAGE_LEN], count: u16, key: u64) -> (u64, Option<(u64, u64)>)
    requires count { count ≡ count_said page.now }
    requires some { 1 ≤ count }
    requires most { count ≤ 30 }
    ensures child { result.0 ≡ child_for (pairs_said page.now) key }
    ensures behind { result.1 ≡ behind_in (pairs_said page.now) key }
    ensures above { IfSome result.1 (λ entry. key < entry.0) }
{
    for i in 1..count {
        let next = read_pair(page, i);
        if key < next.0 {
            return (read_pair(page, i - 1).1, Some(next));
        }
    }
    (read_pair(page, count - 1).1, None)
}

// What a key leads to in a page.
pub fn slot_in(page: &[u8; PAGE_LEN], count: u16, key: u64) -> Option<u64>
    requires count { count ≡ count_said page.now }
    requires most { count ≤ 30 }
    ensures { result ≡ found (pairs_said page.now) key }
{
    for i in 0..count {
        let (other, slot) = read_pair(page, i);
        if other == key {
            return Some(slot);
        }
    }
    None
}
