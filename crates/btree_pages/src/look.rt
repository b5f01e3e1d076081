// Look-ups from the root down.
ghost use Rattle.std.specs.Prelude.{◌≡◌, ◌<◌, ◌≤◌, ◌^◌, ◌↔◌, ◌||◌, nat_le, false, [], IfOk, IfErr, IfSome, OnOk, IsErrOf, IsTrue, length};
ghost use Rattle.array_shape.specs.Places.{page_count};
ghost use Rattle.record_slots.specs.Places.{page_bytes};
ghost use Rattle.page_store.specs.Follows.{HasRead, Walks, one_reading};
ghost use Rattle.page_store.specs.Index.{slots_of};
ghost use Rattle.page_store.specs.Looks.{Looks, LookCause, is_failed};
ghost use Rattle.page_store.specs.Pairs.{AreInside};
ghost use Rattle.page_store.specs.Shown.{pages_of};
ghost use Rattle.index_pages.specs.Fetched.{TestCause};
ghost use Rattle.index_pages.specs.Page.{count_said};
ghost use Rattle.btree_pages.specs.Downward.{Descended, Gathered, down};
ghost use Rattle.btree_pages.specs.Start.{Arrives, Gives, IsLater, IsStart, start_behind};
ghost use Rattle.btree_pages.specs.Crowded.{is_crowded};
ghost use Rattle.btree_pages.specs.May.{MayStart};
ghost use Rattle.btree_pages.specs.Node.{IsNode, SaysNode};
ghost use Rattle.btree_laws.specs.Descent.{leaf_for};

use crate::page::{child_in, read_node_head};
use btree_laws::Root;
use eaw_face::EawStore;
use index_pages::{
    Head, LEVEL_MAX, PAGE_LEN, PAIRS_MAX, SLOTS_IN_PAGE, fetch_page, index_page_count, rest_of,
};
use page_store::{NextPairs, PageFault, Pages};

// The most pages on the way from the root to a leaf.
pub const WAY_MAX: u32 = LEVEL_MAX as u32 + 1;

/// A page on the way to a key, and how many may be read from it on, as far as the leaf of the key.
#[derive(Clone, Copy)]
pub struct Start {
    pub page: u32,
    pub key: u64,
    pub most: u32,
}

/// A leaf on the way to a key.
#[derive(Clone, Copy)]
pub struct Leaf {
    pub page: u32,
    pub count: u16,
    /// Where the way to what comes after it leaves its own.
    pub behind: Option<Start>,
    /// Whether it is full, or a page on the way to it.
    pub full: bool,
}

// The way to what an entry leads to begins at its child.
fn at_entry(entry: Option<(u64, u64)>, most: u32) -> Option<Start>
    requires small { IfSome entry (λ e. e.1 < 2 ^ 32) }
    ensures { result ≡ start_behind most entry }
{
    match entry {
        None => None,
        Some((key, page)) => Some(Start {
            page: page as u32,
            key,
            most,
        }),
    }
}

// Whether a child, and that of the next entry, are pages of an index of so many.
fn are_inside(child: u64, entry: Option<(u64, u64)>, count: u32) -> bool
    ensures { IsTrue result ↔ ((child < count) × IfSome entry (λ e. e.1 < count)) }
{
    if child >= u64::from(count) {
        return false;
    }
    match entry {
        None => true,
        Some((_, page)) => page < u64::from(count),
    }
}

// Reads a page of the tree.
#[inline(always)]
pub fn read_node<S: EawStore>(
    pages: &mut Pages<S>,
    page: u32,
    bytes: &mut [u8; PAGE_LEN],
) -> Result<Head, PageFault>
    requires { page < page_count (S.view pages.old.store).shape }
    ensures looks { Looks S.tells (S.opens (S.view pages.old.store).shape) (is_failed result)
        (pages_of (S.view pages.old.store) pages.old) (pages_of (S.view pages.new.store) pages.new) }
    ensures cause { TestCause S.tells (IsNode (page_bytes (S.view pages.old.store).state.bytes page)) page (S.view pages.old.store) result }
    ensures reads { HasRead S.tells (is_failed result) (S.calls pages.old.store) (S.calls pages.new.store) (S.view pages.old.store) (S.view pages.new.store)
        (one_reading page bytes.new (page_bytes (S.view pages.old.store).state.bytes page) result) }
    ensures head { IfOk result (SaysNode bytes.new) }
    ensures bytes { IsTrue S.tells → OnOk result (bytes.new ≡ page_bytes (S.view pages.old.store).state.bytes page) }
    ensures dead { IsErrOf result PageFault.Dead → pages.new ≡ pages.old }
{
    fetch_page(pages, page, bytes)?;
    let Some(head) = read_node_head(bytes) else {
        return Err(PageFault::Damaged { page });
    };
    Ok(head)
}

// Goes down to the leaf of a key.
#[inline(always)]
pub fn descend<S: EawStore>(
    pages: &mut Pages<S>,
    root: Root,
    start: Start,
    bytes: &mut [u8; PAGE_LEN],
) -> Result<Leaf, PageFault>
    requires may { MayStart S.tells root start (S.view pages.old.store) }
    ensures looks { Looks S.tells (S.opens (S.view pages.old.store).shape) (is_failed result)
        (pages_of (S.view pages.old.store) pages.old) (pages_of (S.view pages.new.store) pages.new) }
    ensures cause { LookCause S.tells (S.view pages.old.store) result }
    ensures walks { Walks S.tells (S.calls pages.old.store) (S.calls pages.new.store) (down start.page start.key) start.most (Descended start.key bytes.new)
        (S.view pages.old.store) (S.view pages.new.store) result }
    ensures leaf { IsTrue S.tells → IfOk result (λ leaf. Arrives root (S.view pages.old.store).state.bytes start leaf.behind bytes.new) }
    ensures count { IfOk result (λ leaf. leaf.count ≡ count_said bytes.new) }
    ensures most { IfOk result (λ leaf. leaf.count ≤ 30) }
    ensures behind { IfOk result (λ leaf. IfSome leaf.behind (IsLater (S.view pages.old.store).shape start)) }
    ensures begins { IsTrue S.tells → IfOk result (λ leaf. IfSome leaf.behind (IsStart root (S.view pages.old.store).state.bytes)) }
    ensures page { IsTrue S.tells → IfOk result (λ leaf. leaf.page ≡ leaf_for (S.view pages.old.store).state.bytes root.page start.key) }
    ensures full { IsTrue S.tells → start.most ≡ 8 → IfOk result (λ leaf. leaf.full ≡ is_crowded (S.view pages.old.store).state.bytes root.page start.key) }
    ensures room { IfOk result (λ leaf. leaf.full ≡ false → leaf.count < 30) }
    ensures dead { IsErrOf result PageFault.Dead → pages.new ≡ pages.old }
{
    let count = index_page_count(pages);
    let mut page = start.page;
    let mut last = page;
    let mut behind = None;
    let mut full = false;
    for step in 0..start.most {
        let head = read_node(pages, page, bytes)?;
        full = or_full(full, head.count);
        if head.level == 0 {
            return Ok(Leaf {
                page,
                count: head.count,
                behind,
                full,
            });
        }
        let (child, entry) = child_in(bytes, head.count, start.key);
        if !are_inside(child, entry, count) {
            return Err(PageFault::Damaged { page });
        }
        last = page;
        page = child as u32;
        behind = at_entry(entry, start.most - 1 - step).or(behind);
    }
    Err(PageFault::Damaged { page: last })
}

// Whether a page was full before, or one with so many pairs is.
fn or_full(full: bool, count: u16) -> bool
    ensures { result ≡ (full || nat_le 30 count) }
{
    full || usize::from(count) >= PAIRS_MAX
}

// The pairs of the leaf of a key from that key on, and where the way to the next leaf begins.
#[derive(Drop)]
pub struct Reached {
    pub page: u32,
    pub some: NextPairs,
    pub behind: Option<Start>,
}

// Finds the pairs from a key on in the leaf of that key.
pub fn reach<S: EawStore>(
    pages: &mut Pages<S>,
    root: Root,
    start: Start,
) -> Result<Reached, PageFault>
    requires may { MayStart S.tells root start (S.view pages.old.store) }
    ensures looks { Looks S.tells (S.opens (S.view pages.old.store).shape) (is_failed result)
        (pages_of (S.view pages.old.store) pages.old) (pages_of (S.view pages.new.store) pages.new) }
    ensures cause { LookCause S.tells (S.view pages.old.store) result }
    ensures walks { Walks S.tells (S.calls pages.old.store) (S.calls pages.new.store) (down start.page start.key) start.most (Gathered start.key)
        (S.view pages.old.store) (S.view pages.new.store) result }
    ensures reaches { IsTrue S.tells → IfOk result (λ at. Gives root (S.view pages.old.store).state.bytes start at.some.items at.behind) }
    ensures inside { IfOk result (λ at. AreInside start.key (slots_of (S.view pages.old.store).shape) at.some.items) }
    ensures behind { IfOk result (λ at. IfSome at.behind (IsLater (S.view pages.old.store).shape start)) }
    ensures begins { IsTrue S.tells → IfOk result (λ at. IfSome at.behind (IsStart root (S.view pages.old.store).state.bytes)) }
    ensures dead { IsErrOf result PageFault.Dead → pages.new ≡ pages.old }
{
    let slots = SLOTS_IN_PAGE * index_page_count(pages);
    let mut bytes = [0; PAGE_LEN];
    let leaf = descend(pages, root, start, &mut bytes)?;
    let Leaf {
        page,
        count,
        behind,
        ..
    } = leaf;
    let Some(some) = rest_of(&bytes, count, start.key, slots) else {
        return Err(PageFault::Damaged { page });
    };
    Ok(Reached { page, some, behind })
}

// The pairs of a leaf from its beginning on. It is damaged if it has none.
pub fn begun(at: Reached) -> Result<NextPairs, PageFault>
    ensures some { IfOk result (λ some. (some ≡ at.some) × (1 ≤ length some.items)) }
    ensures none { IfErr result (λ fault. (fault ≡ PageFault.Damaged at.page) × (at.some.items ≡ [])) }
{
    let Reached { page, some, .. } = at;
    if some.is_empty() {
        return Err(PageFault::Damaged { page });
    }
    Ok(some)
}
