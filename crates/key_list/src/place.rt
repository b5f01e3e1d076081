// The page that a key is in or goes into, for insertions and removals, and for a look-up that an insertion follows.
ghost use Rattle.std.specs.Prelude.{◌≡◌, ◌<◌, IfOk, IfSome, IsErrOf, IsTrue, is_some, length};
ghost use Rattle.eaw_face.specs.Causes.{IsAlive};
ghost use Rattle.page_store.specs.Index.{index_pages_of};
ghost use Rattle.page_store.specs.Looks.{Looks, LookCause, is_failed};
ghost use Rattle.page_store.specs.Pairs.{AreSmall, next};
ghost use Rattle.page_store.specs.Placed.{IsPlaceIn};
ghost use Rattle.page_store.specs.Shown.{pages_of};
ghost use Rattle.page_store.specs.Works.{IsMet};
ghost use Rattle.index_pages.specs.May.{MayLook};
ghost use Rattle.index_pages.specs.Page.{pairs_said};
ghost use Rattle.key_list.specs.Along.{led_to};
ghost use Rattle.key_list.specs.Finds.{Finds, most_read};
ghost use Rattle.key_list.specs.Index.{chain, IsPlaceOf};
ghost use Rattle.key_list.specs.Linked.{SaysLeaf};
ghost use Rattle.key_list.specs.Located.{IsLocated, Locates, IsRoomIn};

use crate::look::{KeyPage, page_for};
use eaw_face::EawStore;
use index_pages::{PAGE_LEN, PAIRS_MAX, Pairs, fetch_super, next_pair, read_pairs};
use page_store::{LeafPage, PageFault, Pages, Sought};
use record_slots::Super;

/// The form of the index that the super page of a chain says.
pub const FORM: u8 = 0;

/// The page of a key, its link and its pairs, and what the super page says.
#[derive(Drop)]
pub struct Located {
    pub front: Super,
    pub page: u32,
    pub link: u32,
    pub pairs: Pairs,
}

// What a page leads a key to.
pub fn slot_in(at: &KeyPage, bytes: &[u8; PAGE_LEN], key: u64) -> Option<u64>
    requires { SaysLeaf bytes.now at.now.head }
    ensures { result ≡ led_to key (next (pairs_said bytes.now) key) }
{
    let Some((least, slot)) = next_pair(bytes, at.head.count, key) else {
        return None;
    };
    if least == key { Some(slot) } else { None }
}

// The page as a place for one more pair, if it has room.
pub fn room_in(at: &KeyPage, bytes: &[u8; PAGE_LEN]) -> Sought
    requires { SaysLeaf bytes.now at.now.head }
    ensures { IsRoomIn at.now bytes.now result }
{
    if usize::from(at.head.count) >= PAIRS_MAX {
        return Sought::Split;
    }
    Sought::Place(leaf_of(at, bytes))
}

// The page as it was read.
fn leaf_of(at: &KeyPage, bytes: &[u8; PAGE_LEN]) -> LeafPage
    requires { SaysLeaf bytes.now at.now.head }
    ensures page { result.page ≡ at.now.page }
    ensures link { result.link ≡ at.now.head.link }
    ensures pairs { result.pairs.items ≡ pairs_said bytes.now }
    ensures small { AreSmall result.pairs.items }
{
    LeafPage {
        page: at.page,
        link: at.head.link,
        pairs: read_pairs(bytes, at.head.count),
    }
}

// Finds the page of a key for an insertion, unless it is known already.
pub fn locate_for<S: EawStore>(
    pages: &mut Pages<S>,
    root: u32,
    table: u8,
    key: u64,
    place: Option<LeafPage>,
) -> Result<Located, PageFault>
    requires may { MayLook S.tells chain table root (S.view pages.old.store) }
    requires place { IfSome place (λ leaf. IsPlaceIn (S.view pages.old.store).shape leaf.page leaf.pairs.items) }
    requires fits { IsTrue S.tells → IsAlive (S.view pages.old.store)
        → IfSome place (λ leaf. IsPlaceOf (S.view pages.old.store).state.bytes root key leaf.page leaf.link leaf.pairs.items) }
    ensures looks { Looks S.tells (S.opens (S.view pages.old.store).shape) (is_failed result)
        (pages_of (S.view pages.old.store) pages.old) (pages_of (S.view pages.new.store) pages.new) }
    ensures cause { LookCause S.tells (S.view pages.old.store) result }
    ensures finds { Finds S.tells S.view S.calls root key (most_read (is_some place) (S.view pages.old.store).shape) (λ at steps. IsMet 0 steps)
        (S.view pages.old.store) (S.view pages.new.store) result }
    ensures located { IfOk result (λ at. IsLocated (S.view pages.old.store).shape at.front at.page at.link at.pairs.items) }
    ensures said { IsTrue S.tells → IfOk result (λ at. Locates (S.view pages.old.store).state.bytes root key at.front at.page at.link at.pairs.items) }
    ensures room { IsTrue (is_some place) → IfOk result (λ at. length at.pairs.items < 30) }
    ensures dead { IsErrOf result PageFault.Dead → pages.new ≡ pages.old }
{
    match place {
        Some(leaf) => locate_known(pages, root, table, key, leaf),
        None => locate(pages, root, table, key),
    }
}

// Reads the super page, for a page that was found before.
fn locate_known<S: EawStore>(
    pages: &mut Pages<S>,
    root: u32,
    table: u8,
    key: u64,
    leaf: LeafPage,
) -> Result<Located, PageFault>
    requires may { MayLook S.tells chain table root (S.view pages.old.store) }
    requires place { IsPlaceIn (S.view pages.old.store).shape leaf.page leaf.pairs.items }
    requires fits { IsTrue S.tells → IsAlive (S.view pages.old.store) → IsPlaceOf (S.view pages.old.store).state.bytes root key leaf.page leaf.link leaf.pairs.items }
    ensures looks { Looks S.tells (S.opens (S.view pages.old.store).shape) (is_failed result)
        (pages_of (S.view pages.old.store) pages.old) (pages_of (S.view pages.new.store) pages.new) }
    ensures cause { LookCause S.tells (S.view pages.old.store) result }
    ensures finds { Finds S.tells S.view S.calls root key 0 (λ at steps. IsMet 0 steps) (S.view pages.old.store) (S.view pages.new.store) result }
    ensures located { IfOk result (λ at. IsLocated (S.view pages.old.store).shape at.front at.page at.link at.pairs.items) }
    ensures said { IsTrue S.tells → IfOk result (λ at. Locates (S.view pages.old.store).state.bytes root key at.front at.page at.link at.pairs.items) }
    ensures room { IfOk result (λ at. length at.pairs.items < 30) }
    ensures dead { IsErrOf result PageFault.Dead → pages.new ≡ pages.old }
{
    let front = fetch_super(pages, FORM)?;
    Ok(with_front(front, leaf))
}

// Reads the super page, and finds the page of a key.
pub fn locate<S: EawStore>(
    pages: &mut Pages<S>,
    root: u32,
    table: u8,
    key: u64,
) -> Result<Located, PageFault>
    requires may { MayLook S.tells chain table root (S.view pages.old.store) }
    ensures looks { Looks S.tells (S.opens (S.view pages.old.store).shape) (is_failed result)
        (pages_of (S.view pages.old.store) pages.old) (pages_of (S.view pages.new.store) pages.new) }
    ensures cause { LookCause S.tells (S.view pages.old.store) result }
    ensures finds { Finds S.tells S.view S.calls root key (index_pages_of (S.view pages.old.store).shape) (λ at steps. IsMet 0 steps × IsMet at.page steps)
        (S.view pages.old.store) (S.view pages.new.store) result }
    ensures located { IfOk result (λ at. IsLocated (S.view pages.old.store).shape at.front at.page at.link at.pairs.items) }
    ensures said { IsTrue S.tells → IfOk result (λ at. Locates (S.view pages.old.store).state.bytes root key at.front at.page at.link at.pairs.items) }
    ensures dead { IsErrOf result PageFault.Dead → pages.new ≡ pages.old }
{
    let front = fetch_super(pages, FORM)?;
    let mut bytes = [0; PAGE_LEN];
    let at = page_for(pages, root, table, key, &mut bytes)?;
    Ok(with_front(front, leaf_of(&at, &bytes)))
}

fn with_front(front: Super, leaf: LeafPage) -> Located
    ensures front { result.front ≡ front }
    ensures page { result.page ≡ leaf.page }
    ensures link { result.link ≡ leaf.link }
    ensures pairs { result.pairs.items ≡ leaf.pairs.items }
{
    Located {
        front,
        page: leaf.page,
        link: leaf.link,
        pairs: leaf.pairs,
    }
}
