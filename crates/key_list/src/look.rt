// Look-ups along the chain.
ghost use Rattle.std.specs.Prelude.{◌≡◌, ◌↔◌, ◌≢◌, ◌<◌, ◌≤◌, None, IfOk, IfSome, IfNone, OnOk, IsErrOf, IsTrue};
ghost use Rattle.array_shape.specs.Places.{page_count};
ghost use Rattle.record_slots.specs.Places.{page_bytes};
ghost use Rattle.page_store.specs.Follows.{HasRead, Walks, one_reading};
ghost use Rattle.page_store.specs.Index.{index_pages_of};
ghost use Rattle.page_store.specs.Looks.{Looks, LookCause, is_failed};
ghost use Rattle.page_store.specs.Pairs.{next};
ghost use Rattle.page_store.specs.Shown.{pages_of};
ghost use Rattle.key_list.specs.Along.{Arrives, Stays, along, ends_at};
ghost use Rattle.key_list.specs.Chain.{first_key, pairs_of_chain, page_of_key};
ghost use Rattle.index_pages.specs.Fetched.{TestCause};
ghost use Rattle.index_pages.specs.May.{MayLook};
ghost use Rattle.index_pages.specs.Page.{count_said, pairs_said};
ghost use Rattle.key_list.specs.Index.{chain};
ghost use Rattle.key_list.specs.Linked.{IsLinked, Reaches, SaysLeaf};

use crate::page::read_leaf_head;
use eaw_face::EawStore;
use index_pages::{Head, PAGE_LEN, fetch_page, index_page_count, next_pair, read_pair};
use page_store::{PageFault, Pages};

// Reads a page of the chain.
pub fn read_page<S: EawStore>(
    pages: &mut Pages<S>,
    page: u32,
    bytes: &mut [u8; PAGE_LEN],
) -> Result<Head, PageFault>
    requires { page < page_count (S.view pages.old.store).shape }
    ensures looks { Looks S.tells (S.opens (S.view pages.old.store).shape) (is_failed result)
        (pages_of (S.view pages.old.store) pages.old) (pages_of (S.view pages.new.store) pages.new) }
    ensures cause { TestCause S.tells (IsLinked (index_pages_of (S.view pages.old.store).shape) (page_bytes (S.view pages.old.store).state.bytes page)) page
        (S.view pages.old.store) result }
    ensures reads { HasRead S.tells (is_failed result) (S.calls pages.old.store) (S.calls pages.new.store) (S.view pages.old.store) (S.view pages.new.store)
        (one_reading page bytes.new (page_bytes (S.view pages.old.store).state.bytes page) result) }
    ensures head { IfOk result (SaysLeaf bytes.new) }
    ensures link { IfOk result (λ head. head.link < index_pages_of (S.view pages.old.store).shape) }
    ensures bytes { IsTrue S.tells → OnOk result (bytes.new ≡ page_bytes (S.view pages.old.store).state.bytes page) }
    ensures dead { IsErrOf result PageFault.Dead → pages.new ≡ pages.old }
{
    let count = index_page_count(pages);
    fetch_page(pages, page, bytes)?;
    let Some(head) = read_leaf_head(bytes) else {
        return Err(PageFault::Damaged { page });
    };
    if head.link >= count {
        return Err(PageFault::Damaged { page });
    }
    Ok(head)
}

// A page of the chain on the way to a key, and how many pairs it has.
#[derive(Clone, Copy)]
pub struct Reached {
    pub page: u32,
    pub count: u16,
}

// Goes along to the first page that has a pair from a key on, if there is one.
pub fn reach<S: EawStore>(
    pages: &mut Pages<S>,
    root: u32,
    table: u8,
    from: u64,
    bytes: &mut [u8; PAGE_LEN],
) -> Result<Option<Reached>, PageFault>
    requires may { MayLook S.tells chain table root (S.view pages.old.store) }
    ensures looks { Looks S.tells (S.opens (S.view pages.old.store).shape) (is_failed result)
        (pages_of (S.view pages.old.store) pages.old) (pages_of (S.view pages.new.store) pages.new) }
    ensures cause { LookCause S.tells (S.view pages.old.store) result }
    ensures walks { Walks S.tells (S.calls pages.old.store) (S.calls pages.new.store) (along root from) (index_pages_of (S.view pages.old.store).shape) (Arrives from bytes.new)
        (S.view pages.old.store) (S.view pages.new.store) result }
    ensures reaches { IsTrue S.tells → IfOk result (λ at. IfSome at (λ at. Reaches (S.view pages.old.store).state.bytes root table from bytes.new)) }
    ensures end { IsTrue S.tells → IfOk result (λ at. IfNone at (next (pairs_of_chain (S.view pages.old.store).state.bytes root) from ≡ None)) }
    ensures some { IfOk result (λ at. IfSome at (λ at. (at.count ≡ count_said bytes.new) × (at.count ≤ 30) × (next (pairs_said bytes.new) from ≢ None))) }
    ensures none { IfOk result (λ at. IfNone at (next (pairs_said bytes.new) from ≡ None)) }
    ensures dead { IsErrOf result PageFault.Dead → pages.new ≡ pages.old }
{
    let count = index_page_count(pages);
    let mut page = root;
    let mut last = root;
    for _step in 0..count {
        let head = read_page(pages, page, bytes)?;
        if next_pair(bytes, head.count, from).is_some() {
            return Ok(Some(Reached {
                page,
                count: head.count,
            }));
        }
        if head.link == 0 {
            return Ok(None);
        }
        last = page;
        page = head.link;
    }
    Err(PageFault::Damaged { page: last })
}

// A page of the chain, and what its head says.
#[derive(Clone, Copy)]
pub struct KeyPage {
    pub page: u32,
    pub head: Head,
}

// Goes along just as a look-up of the key does, to the page that the key is in or goes into: the last one whose first key is not above it,
// or the root if there is none. Its bytes are kept.
pub fn page_for<S: EawStore>(
    pages: &mut Pages<S>,
    root: u32,
    table: u8,
    key: u64,
    bytes: &mut [u8; PAGE_LEN],
) -> Result<KeyPage, PageFault>
    requires may { MayLook S.tells chain table root (S.view pages.old.store) }
    ensures looks { Looks S.tells (S.opens (S.view pages.old.store).shape) (is_failed result)
        (pages_of (S.view pages.old.store) pages.old) (pages_of (S.view pages.new.store) pages.new) }
    ensures cause { LookCause S.tells (S.view pages.old.store) result }
    ensures walks { Walks S.tells (S.calls pages.old.store) (S.calls pages.new.store) (along root key) (index_pages_of (S.view pages.old.store).shape) (Stays key bytes.new)
        (S.view pages.old.store) (S.view pages.new.store) result }
    ensures page { IsTrue S.tells → IfOk result (λ at. at.page ≡ page_of_key (S.view pages.old.store).state.bytes root key) }
    ensures some { IfOk result (λ at. 1 ≤ at.page) }
    ensures inside { IfOk result (λ at. at.page < index_pages_of (S.view pages.old.store).shape) }
    ensures head { IfOk result (λ at. SaysLeaf bytes.new at.head) }
    ensures bytes { IsTrue S.tells → IfOk result (λ at. bytes.new ≡ page_bytes (S.view pages.old.store).state.bytes at.page) }
    ensures dead { IsErrOf result PageFault.Dead → pages.new ≡ pages.old }
{
    let count = index_page_count(pages);
    let mut page = root;
    let mut head = read_page(pages, page, bytes)?;
    if root == 0 {
        return Err(PageFault::Damaged { page: root });
    }
    if root >= count {
        return Err(PageFault::Damaged { page: root });
    }
    let mut ahead = [0; PAGE_LEN];
    for _step in 1..count {
        if ends_at(bytes, &head, key) {
            return Ok(KeyPage { page, head });
        }
        let behind = read_page(pages, head.link, &mut ahead)?;
        if is_past(&ahead, behind.count, key) {
            return Ok(KeyPage { page, head });
        }
        page = head.link;
        head = behind;
        *bytes = ahead;
    }
    if ends_at(bytes, &head, key) {
        return Ok(KeyPage { page, head });
    }
    Err(PageFault::Damaged { page })
}

// Whether the way of a key ends at a page: it has a pair from the key on, or no page follows it.
fn ends_at(bytes: &[u8; PAGE_LEN], head: &Head, key: u64) -> bool
    requires { SaysLeaf bytes.now head.now }
    ensures { result ≡ ends_at key bytes.now }
{
    next_pair(bytes, head.count, key).is_some() || head.link == 0
}

// Whether the pairs of a page, if it has any, begin above a key.
fn is_past(bytes: &[u8; PAGE_LEN], count: u16, key: u64) -> bool
    requires { count ≡ count_said bytes.now }
    ensures { IsTrue result ↔ (count_said bytes.now ≢ 0) × (key < first_key (pairs_said bytes.now)) }
{
    count > 0 && key < read_pair(bytes, 0).0
}
