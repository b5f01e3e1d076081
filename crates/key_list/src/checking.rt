// The test of the whole chain.
ghost use Rattle.std.specs.Prelude.{◌≡◌, ◌<◌, ◌≤◌, ◌↔◌, ◌^◌, ◌++◌, None, IfOk, IfSome, IfNone, OnOk, IsErrOf, IsTrue};
ghost use Rattle.eaw_face.specs.Causes.{IsAlive};
ghost use Rattle.array_shape.specs.Places.{page_count};
ghost use Rattle.record_slots.specs.Places.{next_slot, page_bytes, tables_of, IsSuper};
ghost use Rattle.record_slots.specs.Super.{SaysSuper, tables_in};
ghost use Rattle.page_store.specs.Index.{slots_of, index_pages_of};
ghost use Rattle.page_store.specs.Looks.{Looks, is_check_failed};
ghost use Rattle.page_store.specs.Records.{row_of, rows_of, records_of};
ghost use Rattle.page_store.specs.Shown.{pages_of};
ghost use Rattle.page_store.specs.Tested.{holding};
ghost use Rattle.index_pages.specs.Fetched.{IsFront};
ghost use Rattle.index_pages.specs.Held.{IsHeld};
ghost use Rattle.index_pages.specs.Page.{count_said, pairs_said};
ghost use Rattle.index_pages.specs.Plans.{Tries, held_after, held_of, slot_plan, tables_plan};
ghost use Rattle.key_list.specs.Linked.{SaysLeaf};
ghost use Rattle.index_pages.specs.Slots.{IsVerdict, tables_check};
ghost use Rattle.key_list.specs.Chain.{behind, IsChainHead, pair_check, pairs_check, chain_check, pairs_of_chain};
ghost use Rattle.key_list.specs.Checked.{low_of};
ghost use Rattle.key_list.specs.Index.{chain};
ghost use Rattle.key_list.specs.Tried.{chain_plan, pairs_plan};

use crate::page::read_leaf_head;
use eaw_face::EawStore;
use index_pages::{Head, HeldPage, PAGE_LEN, check_slot, fetch_page, read_pair};
use noted::{Keeper, NotedRows};
use page_store::{CheckFault, Pages, TableRows};
use record_slots::{Super, TABLES_MAX, table_root};
use std::alloc::Global;

// Tests the chain of each table by its number.
pub fn check_tables<S: EawStore, H: Keeper>(
    alloc: Global,
    pages: &mut Pages<S>,
    tables: &mut TableRows<H>,
    front: &Super,
) -> Result<(), CheckFault>
    requires alive { IsAlive (S.view pages.old.store) }
    requires front { IsFront (S.view pages.old.store).shape front.now }
    requires sound { IsTrue S.tells → IsSuper 0 (S.view pages.old.store).state.bytes }
    ensures looks { Looks S.tells (S.opens (S.view pages.old.store).shape) (is_check_failed result)
        (pages_of (S.view pages.old.store) pages.old) (pages_of (S.view pages.new.store) pages.new) }
    ensures cause { IsTrue S.tells → SaysSuper (page_bytes (S.view pages.old.store).state.bytes 0) front.now
        → IsVerdict (tables_check (chain_check (S.view pages.old.store).state.bytes) 0 (tables_of (S.view pages.old.store).state.bytes)) result }
    ensures records { IsTrue S.tells → SaysSuper (page_bytes (S.view pages.old.store).state.bytes 0) front.now
        → OnOk result (tables.new ≡ tables.old ++ records_of chain (S.view pages.old.store).state.bytes) }
    ensures tests { Tries S.tells (S.calls pages.old.store) (S.calls pages.new.store) (tables_plan front.now.next_page (chain_plan (S.view pages.old.store).shape front.now) 0 (tables_in front.now.version front.now.entries))
        (S.view pages.old.store) (S.view pages.new.store) result }
    ensures dead { IsErrOf result CheckFault.Dead → ⊥ }
{
    for table in 0..TABLES_MAX as u8 {
        let Some(root) = table_root(front, table) else {
            return Ok(());
        };
        if root >= front.next_page {
            return Err(CheckFault::Damaged { page: 0 });
        }
        let mut rows = NotedRows::new(alloc);
        check_table(pages, &mut rows, root, table, front)?;
        tables.push(rows)?;
    }
    Ok(())
}

// Tests the pages of the chain of a table one after another.
fn check_table<S: EawStore, H: Keeper>(
    pages: &mut Pages<S>,
    rows: &mut NotedRows<H>,
    root: u32,
    table: u8,
    front: &Super,
) -> Result<(), CheckFault>
    requires alive { IsAlive (S.view pages.old.store) }
    requires root { root < page_count (S.view pages.old.store).shape }
    requires front { IsFront (S.view pages.old.store).shape front.now }
    ensures looks { Looks S.tells (S.opens (S.view pages.old.store).shape) (is_check_failed result)
        (pages_of (S.view pages.old.store) pages.old) (pages_of (S.view pages.new.store) pages.new) }
    ensures cause { IsTrue S.tells → SaysSuper (page_bytes (S.view pages.old.store).state.bytes 0) front.now
        → IsVerdict (chain_check (S.view pages.old.store).state.bytes root table) result }
    ensures rows { IsTrue S.tells → SaysSuper (page_bytes (S.view pages.old.store).state.bytes 0) front.now
        → OnOk result (rows.new ≡ rows.old ++ rows_of (S.view pages.old.store).state.bytes (pairs_of_chain (S.view pages.old.store).state.bytes root)) }
    ensures tests { Tries S.tells (S.calls pages.old.store) (S.calls pages.new.store) (chain_plan (S.view pages.old.store).shape front.now root table)
        (S.view pages.old.store) (S.view pages.new.store) result }
    ensures dead { IsErrOf result CheckFault.Dead → ⊥ }
{
    let mut page = root;
    let mut last = None;
    let mut bytes = [0; PAGE_LEN];
    for _step in 0..front.next_page {
        fetch_page(pages, page, &mut bytes)?;
        let Some(head) = chain_head(&bytes, last) else {
            return Err(CheckFault::Damaged { page });
        };
        last = check_pairs(
            pages,
            rows,
            table,
            page,
            &bytes,
            head.count,
            last,
            front.next_slot,
        )?;
        if head.link == 0 {
            return Ok(());
        }
        if head.link < 2 {
            return Err(CheckFault::Damaged { page });
        }
        if head.link >= front.next_page {
            return Err(CheckFault::Damaged { page });
        }
        page = head.link;
    }
    // More pages than there are: this one was met before. It is read, so that each page that is named was read.
    fetch_page(pages, page, &mut bytes)?;
    Err(CheckFault::Damaged { page })
}

// The head of a page of the chain after a last key. It may be without pairs only if there is no such key, and then it is the last one too.
fn chain_head(bytes: &[u8; PAGE_LEN], last: Option<u64>) -> Option<Head>
    ensures says { IfSome result (SaysLeaf bytes.now) }
    ensures head { IfSome result (λ head. IsChainHead (low_of last) bytes.now) }
    ensures other { IfNone result (¬ IsChainHead (low_of last) bytes.now) }
{
    let head = read_leaf_head(bytes)?;
    if head.count > 0 {
        return Some(head);
    }
    if last.is_some() {
        return None;
    }
    if head.link != 0 {
        return None;
    }
    Some(head)
}

// Tests the pairs of a page after a last key, and returns the new last key.
fn check_pairs<S: EawStore, H: Keeper>(
    pages: &mut Pages<S>,
    rows: &mut NotedRows<H>,
    table: u8,
    page: u32,
    bytes: &[u8; PAGE_LEN],
    count: u16,
    last: Option<u64>,
    slots: u32,
) -> Result<Option<u64>, CheckFault>
    requires alive { IsAlive (S.view pages.old.store) }
    requires count { count ≡ count_said bytes.now }
    requires most { count ≤ 30 }
    requires slots { slots ≤ slots_of (S.view pages.old.store).shape }
    requires low { low_of last ≤ 2 ^ 64 }
    ensures looks { Looks S.tells (S.opens (S.view pages.old.store).shape) (is_check_failed result)
        (pages_of (S.view pages.old.store) pages.old) (pages_of (S.view pages.new.store) pages.new) }
    ensures low { IfOk result (λ last. low_of last ≤ 2 ^ 64) }
    ensures cause { IsTrue S.tells → slots ≡ next_slot (S.view pages.old.store).state.bytes
        → IsVerdict (pairs_check (S.view pages.old.store).state.bytes table page (low_of last) (pairs_said bytes.now)) result }
    ensures rows { IsTrue S.tells → OnOk result (rows.new ≡ rows.old ++ rows_of (S.view pages.old.store).state.bytes (pairs_said bytes.now)) }
    ensures behind { IfOk result (λ key. low_of key ≡ behind (low_of last) (pairs_said bytes.now)) }
    ensures tests { Tries S.tells (S.calls pages.old.store) (S.calls pages.new.store)
        (pairs_plan (index_pages_of (S.view pages.old.store).shape) slots table page (low_of last) None (pairs_said bytes.now))
        (S.view pages.old.store) (S.view pages.new.store) result }
    ensures dead { IsErrOf result CheckFault.Dead → ⊥ }
{
    let mut last = last;
    let mut held = HeldPage::none();
    for i in 0..count {
        let (key, slot) = read_pair(bytes, i);
        check_pair(
            pages,
            &mut held,
            rows,
            table,
            page,
            (key, slot),
            last,
            slots,
        )?;
        last = Some(key);
    }
    Ok(last)
}

// Tests a pair of a page after a last key: its key, its slot, and what that slot says.
fn check_pair<S: EawStore, H: Keeper>(
    pages: &mut Pages<S>,
    held: &mut HeldPage,
    rows: &mut NotedRows<H>,
    table: u8,
    page: u32,
    pair: (u64, u64),
    last: Option<u64>,
    slots: u32,
) -> Result<(), CheckFault>
    requires alive { IsAlive (S.view pages.old.store) }
    requires slots { slots ≤ slots_of (S.view pages.old.store).shape }
    requires held { IsTrue S.tells → IsHeld (S.view pages.old.store).state.bytes held.old }
    ensures looks { Looks S.tells (S.opens (S.view pages.old.store).shape) (is_check_failed result)
        (pages_of (S.view pages.old.store) pages.old) (pages_of (S.view pages.new.store) pages.new) }
    ensures held { IsTrue S.tells → OnOk result (IsHeld (S.view pages.old.store).state.bytes held.new) }
    ensures rows { IsTrue S.tells → OnOk result (rows.new ≡ rows.old ++ row_of (S.view pages.old.store).state.bytes pair) }
    ensures cause { IsTrue S.tells → slots ≡ next_slot (S.view pages.old.store).state.bytes
        → IsVerdict (pair_check (S.view pages.old.store).state.bytes table page (low_of last) pair) result }
    ensures tests { Tries S.tells (S.calls pages.old.store) (S.calls pages.new.store) (holding (low_of last ≤ pair.0) page
        (slot_plan (index_pages_of (S.view pages.old.store).shape) slots table page (held_of held.old) pair (held_after result held.new)))
        (S.view pages.old.store) (S.view pages.new.store) result }
    ensures dead { IsErrOf result CheckFault.Dead → ⊥ }
{
    if !is_above(last, pair.0) {
        return Err(CheckFault::Damaged { page });
    }
    check_slot(pages, held, rows, table, page, pair, slots)
}

// Whether the key may follow the last one.
fn is_above(last: Option<u64>, key: u64) -> bool
    ensures { IsTrue result ↔ (low_of last ≤ key) }
{
    match last {
        None => true,
        Some(last) => last < key,
    }
}
