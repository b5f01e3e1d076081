// Gathers the records from one key to another along the index.
ghost use Rattle.std.specs.Prelude.{ℕ, List, ◌≡◌, ◌+◌, ◌≤◌, ◌<◌, [], ◌++◌, Some, IfOk, IfSome, OnOk, IsTrue, length};
ghost use Rattle.array_shape.specs.Places.{page_count};
ghost use Rattle.eaw_face.specs.Causes.{IsAlive};
ghost use Rattle.page_store.specs.Index.{IsTable, slots_of};
ghost use Rattle.page_store.specs.Looks.{LookCause, is_failed};
ghost use Rattle.page_store.specs.Pairs.{AreInside, InTurn, next};
ghost use Rattle.page_store.specs.Records.{row_at};
ghost use Rattle.page_store.specs.Shown.{pages_of};
ghost use Rattle.record_table.specs.Does as answers;
ghost use Rattle.record_table.specs.Hearing.{AllSpoke, HearsNext, HearsRows, rows_heard};
ghost use Rattle.record_table.specs.Invariant.{Holds};
ghost use Rattle.record_table.specs.Scanned.{rows_seen, rows_left, Follows, ScanCause};
ghost use Rattle.record_table.specs.Names.{IsCalled};
ghost use Rattle.record_table.specs.Sought.{LooksAs};
ghost use Rattle.record_table.specs.Seeks.{row_cost};
ghost use Rattle.record_table.specs.Walked.{ArePaid, AreSteady, Walked, behind};

use crate::fault::TableFault;
use crate::hearings::Hearings;
use crate::slots::{heard, page_of, read_as, slot_count, value_in};
use eaw_face::EawStore;
use history::Rows;
use mars_base::NoMemory;
use page_store::{KeyIndex, PageFault, Pages};
use record_slots::Value;

/// A key of the index, its slot, and the value that is seen for it.
#[derive(Drop)]
pub struct Next {
    pub key: u64,
    pub slot: u32,
    pub value: Option<Value>,
}

/// Keys of a table, from one to another, and the root of its index.
#[derive(Clone, Copy)]
struct Span {
    table: u8,
    root: u32,
    low: u64,
    high: u64,
}

// Reads what the number sees under the pair with the least key of these.
fn read_row<S: EawStore, K: KeyIndex>(
    pages: &mut Pages<S>,
    tid: u8,
    span: Span,
    pair: (u64, u32),
    hearings: &mut Hearings,
) -> Result<Next, PageFault>
    requires tid { tid < (S.view pages.old.store).shape.numbers }
    requires table { span.table < 8 }
    requires named { IsTrue S.tells → IsAlive (S.view pages.old.store) → IsTable (S.view pages.old.store).state.bytes span.table span.root }
    requires holds { Holds S.tells K.index (pages_of (S.view pages.old.store) pages.old) }
    requires alive { IsAlive (S.view pages.old.store) }
    requires next { IsTrue S.tells → next (K.index.pairs (S.view pages.old.store).state.bytes span.root) span.low ≡ Some pair }
    requires slot { pair.1 < slots_of (S.view pages.old.store).shape }
    requires most { pair.0 ≤ span.high }
    ensures looks { LooksAs S.tells (S.opens (S.view pages.old.store).shape) tid (is_failed result)
        (pages_of (S.view pages.old.store) pages.old) (pages_of (S.view pages.new.store) pages.new) }
    ensures cause { LookCause S.tells (S.view pages.old.store) result }
    ensures follows { IsTrue S.tells → (name : List ℕ) → IsCalled (S.view pages.old.store).state.bytes span.table name → IfOk result (λ row. Follows K.index tid name span.low span.high (pages_of (S.view pages.old.store) pages.old) (Some row)) }
    ensures key { IfOk result (λ row. row.key ≡ pair.0) }
    ensures hears { HearsNext (S.view pages.old.store).shape pair hearings.old.said hearings.new.said result }
    ensures costs { ArePaid (is_failed result) (row_cost (S.calls pages.old.store) tid (S.view pages.old.store)) (S.view pages.old.store).moment (S.view pages.new.store).moment hearings.old.said hearings.new.said }
    ensures steady { AreSteady (is_failed result) (S.calls pages.old.store) (S.calls pages.new.store) }
{
    let (key, slot) = pair;
    let page = page_of(pages, slot);
    let said = read_as(pages, tid, slot)?;
    let held = heard(hearings, key, slot, said, page)?;
    Ok(Next {
        key,
        slot,
        value: value_in(&held),
    })
}

// Appends a row if there is a record.
fn push_row(rows: &mut Rows, next: &Next) -> Result<(), NoMemory>
    ensures { OnOk result (rows.new ≡ rows.old ++ row_at next.now.key next.now.value) }
{
    match next.value {
        Some(value) => rows.push(next.key, value),
        None => Ok(()),
    }
}

// Appends the rows of pairs that come next, as far as their keys are among these. Returns the key from which on there may be more.
fn push_rows<S: EawStore, K: KeyIndex>(
    pages: &mut Pages<S>,
    tid: u8,
    span: Span,
    pairs: &[(u64, u32)],
    rows: &mut Rows,
    hearings: &mut Hearings,
) -> Result<Option<u64>, TableFault>
    requires tid { tid < (S.view pages.old.store).shape.numbers }
    requires table { span.table < 8 }
    requires named { IsTrue S.tells → IsAlive (S.view pages.old.store) → IsTable (S.view pages.old.store).state.bytes span.table span.root }
    requires holds { Holds S.tells K.index (pages_of (S.view pages.old.store) pages.old) }
    requires alive { IsAlive (S.view pages.old.store) }
    requires some { 1 ≤ length pairs.now }
    requires order { span.low ≤ span.high }
    requires turn { IsTrue S.tells → InTurn (K.index.pairs (S.view pages.old.store).state.bytes span.root) span.low pairs.now }
    requires inside { AreInside span.low (slots_of (S.view pages.old.store).shape) pairs.now }
    requires spoke { AllSpoke hearings.old.said }
    requires heard { rows.old ≡ rows_heard hearings.old.said }
    ensures looks { LooksAs S.tells (S.opens (S.view pages.old.store).shape) tid (answers.is_failed result)
        (pages_of (S.view pages.old.store) pages.old) (pages_of (S.view pages.new.store) pages.new) }
    ensures cause { ScanCause S.tells result }
    ensures rows { IsTrue S.tells → (name : List ℕ) → IsCalled (S.view pages.old.store).state.bytes span.table name → IfOk result (λ from.
        rows.new ++ rows_left K.index tid name (pages_of (S.view pages.old.store) pages.old) from span.high
        ≡ rows.old ++ rows_seen K.index tid name (pages_of (S.view pages.old.store) pages.old) span.low span.high) }
    ensures further { IfOk result (λ from. IfSome from (λ from. (span.low < from) × (from ≤ span.high))) }
    ensures all { IfOk result (λ from. IfSome from (λ from. (from ≡ behind span.low pairs.now) × (length hearings.new.said ≡ length hearings.old.said + length pairs.now))) }
    ensures few { length hearings.new.said ≤ length hearings.old.said + length pairs.now }
    ensures costs { ArePaid (answers.is_failed result) (row_cost (S.calls pages.old.store) tid (S.view pages.old.store)) (S.view pages.old.store).moment (S.view pages.new.store).moment hearings.old.said hearings.new.said }
    ensures steady { AreSteady (answers.is_failed result) (S.calls pages.old.store) (S.calls pages.new.store) }
    ensures hears { HearsRows (S.view pages.old.store).shape hearings.new.said (λ done. rows.new) result }
{
    let mut from = span.low;
    for pair in pairs {
        if pair.0 > span.high {
            return Ok(None);
        }
        let row = read_row::<S, K>(pages, tid, Span { low: from, ..span }, *pair, hearings)?;
        push_row(rows, &row)?;
        if row.key == span.high {
            return Ok(None);
        }
        from = row.key + 1;
    }
    Ok(Some(from))
}

// The records of a table from one key to another, as the number sees them.
pub fn gather<S: EawStore, K: KeyIndex>(
    pages: &mut Pages<S>,
    tid: u8,
    table: u8,
    root: u32,
    low: u64,
    high: u64,
    rows: &mut Rows,
    hearings: &mut Hearings,
) -> Result<(), TableFault>
    requires tid { tid < (S.view pages.old.store).shape.numbers }
    requires table { table < 8 }
    requires root { root < page_count (S.view pages.old.store).shape }
    requires named { IsTrue S.tells → IsAlive (S.view pages.old.store) → IsTable (S.view pages.old.store).state.bytes table root }
    requires alive { IsAlive (S.view pages.old.store) }
    requires holds { Holds S.tells K.index (pages_of (S.view pages.old.store) pages.old) }
    requires empty { rows.old ≡ [] }
    requires unheard { hearings.old.said ≡ [] }
    ensures looks { LooksAs S.tells (S.opens (S.view pages.old.store).shape) tid (answers.is_failed result)
        (pages_of (S.view pages.old.store) pages.old) (pages_of (S.view pages.new.store) pages.new) }
    ensures cause { ScanCause S.tells result }
    ensures rows { IsTrue S.tells → (name : List ℕ) → IsCalled (S.view pages.old.store).state.bytes table name → OnOk result (rows.new ≡ rows_seen K.index tid name (pages_of (S.view pages.old.store) pages.old) low high) }
    ensures hears { HearsRows (S.view pages.old.store).shape hearings.new.said (λ done. rows.new) result }
    ensures walks { Walked K.access root (S.calls pages.old.store) (row_cost (S.calls pages.old.store) tid (S.view pages.old.store)) (S.view pages.old.store).shape
        (answers.is_failed result) (S.view pages.old.store).moment (S.view pages.new.store).moment hearings.new.said }
{
    let mut from = low;
    let mut left = slot_count(pages);
    while from <= high {
        let pairs = K::next_pairs(pages, root, table, from)?;
        if pairs.is_empty() {
            return Ok(());
        }
        let span = Span {
            table,
            root,
            low: from,
            high,
        };
        let pairs = pairs.as_slice();
        let Some(next) = push_rows::<S, K>(pages, tid, span, pairs, rows, hearings)? else {
            return Ok(());
        };
        let met = pairs.len() as u64;
        if met > left {
            // More keys than slots: a file may make up pages without end.
            let (_, slot) = pairs[pairs.len() - 1];
            let page = page_of(pages, slot);
            return Err(TableFault::Damaged { page });
        }
        left -= met;
        from = next;
    }
    Ok(())
}
