// The head of a page of the chain.
ghost use Rattle.std.specs.Prelude.{IfSome, IfNone};
ghost use Rattle.key_list.specs.Linked.{IsLeaf, SaysLeaf};

use index_pages::{Head, PAGE_LEN, read_head};

// The head of a page, or `None` exactly when the page is not one of level 0.
pub fn read_leaf_head(page: &[u8; PAGE_LEN]) -> Option<Head>
    ensures says { IfSome result (SaysLeaf page.now) }
    ensures other { IfNone result (¬ IsLeaf page.now) }
{
    let head = read_head(page)?;
    if head.level != 0 {
        return None;
    }
    Some(head)
}
