// Tests the whole tree.
ghost use Rattle.std.specs.Prelude.{◌≡◌, ◌≢◌, ◌<◌, ◌≤◌, ◌-◌, ◌^◌, ◌↔◌, ◌++◌, suc, None, OnOk, IsErrOf, IsTrue};
ghost use Rattle.mars_base.specs.Check.{each};
ghost use Rattle.eaw_face.specs.Causes.{IsAlive};
ghost use Rattle.record_slots.specs.Places.{next_slot, page_bytes, tables_of, IsSuper};
ghost use Rattle.record_slots.specs.Super.{SaysSuper, tables_in};
ghost use Rattle.page_store.specs.Index.{slots_of, index_pages_of};
ghost use Rattle.page_store.specs.Looks.{Looks, is_check_failed};
ghost use Rattle.page_store.specs.Shown.{pages_of};
ghost use Rattle.page_store.specs.Pairs.{Rise};
ghost use Rattle.page_store.specs.Records.{rows_of, records_of};
ghost use Rattle.index_pages.specs.Fetched.{IsFront};
ghost use Rattle.index_pages.specs.Page.{count_said, level_said, pairs_said, pairs_from};
ghost use Rattle.btree_pages.specs.Checked.{high_of, least_of, IsFrontOf};
ghost use Rattle.index_pages.specs.Keys.{key_end};
ghost use Rattle.index_pages.specs.Pieces.{joined};
ghost use Rattle.index_pages.specs.Plans.{Tries, slots_plan, tables_plan};
ghost use Rattle.index_pages.specs.Slots.{slot_check, tables_check, IsVerdict};
ghost use Rattle.btree_pages.specs.Index.{tree, tree_of};
ghost use Rattle.btree_pages.specs.Testing.{children_plan, page_plan, tree_plan, under_plan};
ghost use Rattle.btree_laws.specs.Tree.{AreChildren, next_low, children_check, tree_from, tree_check, pieces_with, pairs_under, pairs_of_tree};

use crate::page::read_node_head;
use btree_laws::Root;
use eaw_face::EawStore;
use index_pages::{HeldPage, LEVEL_MAX, PAGE_LEN, check_slot, fetch_page, read_pair};
use noted::{Keeper, NotedRows};
use page_store::{CheckFault, Pages, TableRows};
use record_slots::{Super, TABLES_MAX, table_root};
use std::alloc::Global;

// The form that the super page of trees names.
pub const FORM: u8 = 1;

const FIRST_CHILD: u64 = 2;

// A page of a tree and the range of its keys.
#[derive(Clone, Copy)]
struct Spot {
    page: u32,
    low: u64,
    /// Above all its keys, or `None` if no key is.
    high: Option<u64>,
}

// Tests the tree of each table by its number.
pub fn check_tables<S: EawStore, H: Keeper>(
    alloc: Global,
    pages: &mut Pages<S>,
    tables: &mut TableRows<H>,
    front: &Super,
) -> Result<(), CheckFault>
    requires alive { IsAlive (S.view pages.old.store) }
    requires front { IsFront (S.view pages.old.store).shape front.now }
    requires sound { IsTrue S.tells → IsSuper 1 (S.view pages.old.store).state.bytes }
    ensures looks { Looks S.tells (S.opens (S.view pages.old.store).shape) (is_check_failed result)
        (pages_of (S.view pages.old.store) pages.old) (pages_of (S.view pages.new.store) pages.new) }
    ensures cause { IsTrue S.tells → SaysSuper (page_bytes (S.view pages.old.store).state.bytes 0) front.now
        → IsVerdict (tables_check (tree_of (S.view pages.old.store).state.bytes) 0 (tables_of (S.view pages.old.store).state.bytes)) result }
    ensures records { IsTrue S.tells → SaysSuper (page_bytes (S.view pages.old.store).state.bytes 0) front.now
        → OnOk result (tables.new ≡ tables.old ++ records_of tree (S.view pages.old.store).state.bytes) }
    ensures tests { Tries S.tells (S.calls pages.old.store) (S.calls pages.new.store) (tables_plan front.now.next_page (tree_plan (S.view pages.old.store).shape front.now) 0 (tables_in front.now.version front.now.entries))
        (S.view pages.old.store) (S.view pages.new.store) result }
    ensures dead { IsErrOf result CheckFault.Dead → ⊥ }
{
    for table in 0..TABLES_MAX as u8 {
        let Some(page) = table_root(front, table) else {
            return Ok(());
        };
        if page >= front.next_page {
            return Err(CheckFault::Damaged { page: 0 });
        }
        let mut rows = NotedRows::new(alloc);
        check_tree(pages, &mut rows, front, Root { page, table })?;
        tables.push(rows)?;
    }
    Ok(())
}

// Tests the pages of a tree from the root down, children from left to right.
fn check_tree<S: EawStore, H: Keeper>(
    pages: &mut Pages<S>,
    rows: &mut NotedRows<H>,
    front: &Super,
    root: Root,
) -> Result<(), CheckFault>
    requires alive { IsAlive (S.view pages.old.store) }
    requires front { IsFront (S.view pages.old.store).shape front.now }
    requires root { root.page < index_pages_of (S.view pages.old.store).shape }
    ensures looks { Looks S.tells (S.opens (S.view pages.old.store).shape) (is_check_failed result)
        (pages_of (S.view pages.old.store) pages.old) (pages_of (S.view pages.new.store) pages.new) }
    ensures cause { IsTrue S.tells → IsFrontOf (S.view pages.old.store).state.bytes front.now
        → IsVerdict (tree_check root (S.view pages.old.store).state.bytes) result }
    ensures rows { IsTrue S.tells → OnOk result (rows.new ≡ rows.old ++ rows_of (S.view pages.old.store).state.bytes (pairs_of_tree (S.view pages.old.store).state.bytes root.page)) }
    ensures tests { Tries S.tells (S.calls pages.old.store) (S.calls pages.new.store) (tree_plan (S.view pages.old.store).shape front.now root.page root.table)
        (S.view pages.old.store) (S.view pages.new.store) result }
    ensures dead { IsErrOf result CheckFault.Dead → ⊥ }
{
    let page = root.page;
    let mut bytes = [0; PAGE_LEN];
    fetch_page(pages, page, &mut bytes)?;
    let level = level_in(&bytes);
    if level > LEVEL_MAX {
        return Err(CheckFault::Damaged { page });
    }
    let top = Spot {
        page,
        low: 0,
        high: None,
    };
    check_page(pages, rows, front, root, level, top, &bytes)
}

fn level_in(page: &[u8; PAGE_LEN]) -> u8
    ensures { result ≡ level_said page.now }
{
    page[1]
}

// Reads a page of this level and tests it and all pages below it.
#[cycle(under)]
fn check_under<S: EawStore, H: Keeper>(
    pages: &mut Pages<S>,
    rows: &mut NotedRows<H>,
    front: &Super,
    root: Root,
    level: u8,
    spot: Spot,
) -> Result<(), CheckFault>
    requires alive { IsAlive (S.view pages.old.store) }
    requires front { IsFront (S.view pages.old.store).shape front.now }
    requires page { spot.page < index_pages_of (S.view pages.old.store).shape }
    requires level { level ≤ 7 }
    ensures looks { Looks S.tells (S.opens (S.view pages.old.store).shape) (is_check_failed result)
        (pages_of (S.view pages.old.store) pages.old) (pages_of (S.view pages.new.store) pages.new) }
    ensures cause { IsTrue S.tells → IsFrontOf (S.view pages.old.store).state.bytes front.now
        → IsVerdict (tree_from root level (S.view pages.old.store).state.bytes spot.page spot.low (high_of spot.high)) result }
    ensures rows { IsTrue S.tells → OnOk result (rows.new ≡ rows.old ++ rows_of (S.view pages.old.store).state.bytes (pairs_under level (S.view pages.old.store).state.bytes spot.page)) }
    ensures tests { Tries S.tells (S.calls pages.old.store) (S.calls pages.new.store) (under_plan (S.view pages.old.store).shape front.now root.page root.table level spot.page spot.low (high_of spot.high))
        (S.view pages.old.store) (S.view pages.new.store) result }
    ensures dead { IsErrOf result CheckFault.Dead → ⊥ }
{
    let mut bytes = [0; PAGE_LEN];
    fetch_page(pages, spot.page, &mut bytes)?;
    check_page(pages, rows, front, root, level, spot, &bytes)
}

// Tests a page of this level that has been read and all pages below it.
#[cycle(under)]
fn check_page<S: EawStore, H: Keeper>(
    pages: &mut Pages<S>,
    rows: &mut NotedRows<H>,
    front: &Super,
    root: Root,
    level: u8,
    spot: Spot,
    bytes: &[u8; PAGE_LEN],
) -> Result<(), CheckFault>
    requires alive { IsAlive (S.view pages.old.store) }
    requires front { IsFront (S.view pages.old.store).shape front.now }
    requires level { level ≤ 7 }
    ensures looks { Looks S.tells (S.opens (S.view pages.old.store).shape) (is_check_failed result)
        (pages_of (S.view pages.old.store) pages.old) (pages_of (S.view pages.new.store) pages.new) }
    ensures cause { IsTrue S.tells → IsFrontOf (S.view pages.old.store).state.bytes front.now → bytes.now ≡ page_bytes (S.view pages.old.store).state.bytes spot.page
        → IsVerdict (tree_from root level (S.view pages.old.store).state.bytes spot.page spot.low (high_of spot.high)) result }
    ensures rows { IsTrue S.tells → bytes.now ≡ page_bytes (S.view pages.old.store).state.bytes spot.page
        → OnOk result (rows.new ≡ rows.old ++ rows_of (S.view pages.old.store).state.bytes (pairs_under level (S.view pages.old.store).state.bytes spot.page)) }
    ensures tests { Tries S.tells (S.calls pages.old.store) (S.calls pages.new.store) (page_plan (S.view pages.old.store).shape front.now root.page root.table level spot.page spot.low (high_of spot.high) bytes.now)
        (S.view pages.old.store) (S.view pages.new.store) result }
    ensures dead { IsErrOf result CheckFault.Dead → ⊥ }
{
    let page = spot.page;
    let Some(head) = read_node_head(bytes) else {
        return Err(CheckFault::Damaged { page });
    };
    if head.level != level {
        return Err(CheckFault::Damaged { page });
    }
    if level == 0 {
        if !is_leaf(bytes, head.count, root.page, &spot) {
            return Err(CheckFault::Damaged { page });
        }
        return check_slots(
            pages,
            rows,
            root.table,
            page,
            bytes,
            head.count,
            front.next_slot,
        );
    }
    if !is_inner(bytes, head.count, spot.low, front.next_page) {
        return Err(CheckFault::Damaged { page });
    }
    check_children(
        pages, rows, front, root, level, bytes, head.count, spot.high,
    )
}

// Tests the children of a page of this level, one after another.
#[cycle(under)]
fn check_children<S: EawStore, H: Keeper>(
    pages: &mut Pages<S>,
    rows: &mut NotedRows<H>,
    front: &Super,
    root: Root,
    level: u8,
    bytes: &[u8; PAGE_LEN],
    count: u16,
    high: Option<u64>,
) -> Result<(), CheckFault>
    requires alive { IsAlive (S.view pages.old.store) }
    requires front { IsFront (S.view pages.old.store).shape front.now }
    requires level { level ≤ 7 }
    requires inner { 1 ≤ level }
    requires count { count ≡ count_said bytes.now }
    requires most { count ≤ 30 }
    requires named { AreChildren front.now.next_page (pairs_said bytes.now) }
    ensures looks { Looks S.tells (S.opens (S.view pages.old.store).shape) (is_check_failed result)
        (pages_of (S.view pages.old.store) pages.old) (pages_of (S.view pages.new.store) pages.new) }
    ensures cause { IsTrue S.tells → IsFrontOf (S.view pages.old.store).state.bytes front.now
        → IsVerdict (children_check (tree_from root (level - 1) (S.view pages.old.store).state.bytes) (pairs_said bytes.now) (high_of high)) result }
    ensures rows { IsTrue S.tells → OnOk result (rows.new ≡ rows.old ++ rows_of (S.view pages.old.store).state.bytes
        (joined (pieces_with (pairs_under (level - 1) (S.view pages.old.store).state.bytes) (pairs_said bytes.now)))) }
    ensures tests { Tries S.tells (S.calls pages.old.store) (S.calls pages.new.store) (children_plan (under_plan (S.view pages.old.store).shape front.now root.page root.table (level - 1)) (pairs_said bytes.now) (high_of high))
        (S.view pages.old.store) (S.view pages.new.store) result }
    ensures dead { IsErrOf result CheckFault.Dead → ⊥ }
{
    for i in 0..count {
        let (low, child) = read_pair(bytes, i);
        let spot = Spot {
            page: child as u32,
            low,
            high: end_of(bytes, count, i, high),
        };
        check_under(pages, rows, front, root, level - 1, spot)?;
    }
    Ok(())
}

// Where the range of child `i` ends: at the next low key, or else where the page's own range ends.
fn end_of(bytes: &[u8; PAGE_LEN], count: u16, i: u16, high: Option<u64>) -> Option<u64>
    requires count { count ≡ count_said bytes.now }
    requires most { count ≤ 30 }
    requires i { i < count }
    ensures { high_of result ≡ next_low (pairs_from bytes.now (suc i) (count - suc i)) (high_of high) }
{
    if i + 1 < count {
        Some(read_pair(bytes, i + 1).0)
    } else {
        high
    }
}

// The tests of a leaf before its slots.
fn is_leaf(bytes: &[u8; PAGE_LEN], count: u16, root: u32, spot: &Spot) -> bool
    requires count { count ≡ count_said bytes.now }
    requires most { count ≤ 30 }
    ensures { IsTrue result ↔ (spot.now.page ≢ root → 1 ≤ count) × Rise spot.now.low (high_of spot.now.high) (pairs_said bytes.now) }
{
    if spot.page != root && count == 0 {
        return false;
    }
    rises(bytes, count, spot.low, spot.high)
}

// The tests of an inner page: its low keys rise from the lower bound on, and its children are pages that are given out.
fn is_inner(bytes: &[u8; PAGE_LEN], count: u16, low: u64, pages: u32) -> bool
    requires count { count ≡ count_said bytes.now }
    requires some { 1 ≤ count }
    requires most { count ≤ 30 }
    ensures { IsTrue result ↔ (next_low (pairs_said bytes.now) low ≡ low) × Rise low key_end (pairs_said bytes.now) × AreChildren pages (pairs_said bytes.now) }
{
    if read_pair(bytes, 0).0 != low {
        return false;
    }
    if !rises(bytes, count, low, None) {
        return false;
    }
    are_named(bytes, count, pages)
}

// The keys of a page rise strictly, from the lower bound on and below the upper bound.
fn rises(bytes: &[u8; PAGE_LEN], count: u16, low: u64, high: Option<u64>) -> bool
    requires count { count ≡ count_said bytes.now }
    requires most { count ≤ 30 }
    ensures { IsTrue result ↔ Rise low (high_of high) (pairs_said bytes.now) }
{
    let mut last = None;
    for i in 0..count {
        let key = read_pair(bytes, i).0;
        if !is_above(low, last, key) {
            return false;
        }
        last = Some(key);
    }
    is_below(low, last, high)
}

// Whether the key may follow the last one.
fn is_above(low: u64, last: Option<u64>, key: u64) -> bool
    ensures { IsTrue result ↔ (least_of low last ≤ key) }
{
    match last {
        None => low <= key,
        Some(last) => last < key,
    }
}

// Whether the last key is below the upper bound.
fn is_below(low: u64, last: Option<u64>, high: Option<u64>) -> bool
    requires { least_of low last ≤ 2 ^ 64 }
    ensures { IsTrue result ↔ (least_of low last ≤ high_of high) }
{
    match (last, high) {
        (_, None) => true,
        (None, Some(high)) => low <= high,
        (Some(last), Some(high)) => last < high,
    }
}

// Whether the children of a page are pages that are given out.
fn are_named(bytes: &[u8; PAGE_LEN], count: u16, pages: u32) -> bool
    requires count { count ≡ count_said bytes.now }
    requires most { count ≤ 30 }
    ensures { IsTrue result ↔ AreChildren pages (pairs_said bytes.now) }
{
    for i in 0..count {
        let child = read_pair(bytes, i).1;
        if child < FIRST_CHILD {
            return false;
        }
        if child >= u64::from(pages) {
            return false;
        }
    }
    true
}

// Tests the slots of a leaf, and gathers what they hold.
fn check_slots<S: EawStore, H: Keeper>(
    pages: &mut Pages<S>,
    rows: &mut NotedRows<H>,
    table: u8,
    page: u32,
    bytes: &[u8; PAGE_LEN],
    count: u16,
    slots: u32,
) -> Result<(), CheckFault>
    requires alive { IsAlive (S.view pages.old.store) }
    requires count { count ≡ count_said bytes.now }
    requires most { count ≤ 30 }
    requires slots { slots ≤ slots_of (S.view pages.old.store).shape }
    ensures looks { Looks S.tells (S.opens (S.view pages.old.store).shape) (is_check_failed result)
        (pages_of (S.view pages.old.store) pages.old) (pages_of (S.view pages.new.store) pages.new) }
    ensures cause { IsTrue S.tells → slots ≡ next_slot (S.view pages.old.store).state.bytes
        → IsVerdict (each (slot_check (S.view pages.old.store).state.bytes table page) (pairs_said bytes.now)) result }
    ensures rows { IsTrue S.tells → OnOk result (rows.new ≡ rows.old ++ rows_of (S.view pages.old.store).state.bytes (pairs_said bytes.now)) }
    ensures tests { Tries S.tells (S.calls pages.old.store) (S.calls pages.new.store) (slots_plan (index_pages_of (S.view pages.old.store).shape) slots table page None (pairs_said bytes.now))
        (S.view pages.old.store) (S.view pages.new.store) result }
    ensures dead { IsErrOf result CheckFault.Dead → ⊥ }
{
    let mut held = HeldPage::none();
    for i in 0..count {
        let pair = read_pair(bytes, i);
        check_slot(pages, &mut held, rows, table, page, pair, slots)?;
    }
    Ok(())
}
