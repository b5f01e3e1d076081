// The records of all tables, read at once.
ghost use Rattle.std.specs.Prelude.{◌≡◌, ◌≤◌, IfErr, IfOk, IsErrOf, IsTrue, length};
ghost use Rattle.std.specs.FinMap.{entries};
ghost use Rattle.std.specs.List.{zip};
ghost use Rattle.array_shape.specs.Places.{page_count};
ghost use Rattle.page_store.specs.Looks.{Looks, is_check_failed};
ghost use Rattle.record_table.specs.Attached.{BlamesTested};
ghost use Rattle.record_table.specs.Names.{names_of, AreRootsOf, ArePages, BeginsWithMain};
ghost use Rattle.page_store.specs.Shown.{pages_of};
ghost use Rattle.record_table.specs.AllTables.{place, by_name, ReadCause};
ghost use Rattle.history.specs.Rows.{records_in};
ghost use Rattle.record_table.specs.Shown.{table_of};

use crate::names::{Roots, names_and_roots};
use eaw_face::EawStore;
use history::Rows;
use mars_base::NoMemory;
use noted::{Keeper, KeepsAll, NotedRows};
use page_store::{CheckFault, KeyIndex, Pages, TableRows};
use record_slots::{Name, Names};
use std::alloc::Global;

/// What the super page and a test of the whole index tell of the tables.
#[derive(Drop)]
pub struct Whole<H: Keeper> {
    pub names: Names,
    pub roots: Roots,
    pub tables: Vec<(Name, NotedRows<H>)>,
}

/// Tests the whole index and reads all tables: their names, the roots of their indexes, and their records, each table's name with its rows,
/// in the order of the names. Nothing is written.
pub fn read_whole<S: EawStore, K: KeyIndex, H: Keeper>(
    alloc: Global,
    pages: &mut Pages<S>,
) -> Result<Whole<H>, CheckFault>
    ensures records { IsTrue S.tells → IfOk result (λ whole. records_in whole.tables.items ≡ entries (table_of K.index (S.view pages.old.store).state.bytes)) }
    ensures names { IsTrue S.tells → IfOk result (λ whole. whole.names ≡ names_of (S.view pages.old.store).state.bytes) }
    ensures main { IfOk result (λ whole. BeginsWithMain whole.names) }
    ensures roots { IsTrue S.tells → IfOk result (λ whole. AreRootsOf (S.view pages.old.store).state.bytes whole.roots.at) }
    ensures long { IfOk result (λ whole. length whole.roots.at ≡ 8) }
    ensures inside { IfOk result (λ whole. ArePages (page_count (S.view pages.old.store).shape) whole.roots.at) }
    ensures cause { ReadCause S.tells K.index (S.view pages.old.store) result }
    ensures blames { IfErr result (BlamesTested S.tells (S.calls pages.old.store) K.access (S.view pages.old.store)) }
    ensures looks { Looks S.tells (S.opens (S.view pages.old.store).shape) (is_check_failed result)
        (pages_of (S.view pages.old.store) pages.old) (pages_of (S.view pages.new.store) pages.new) }
    ensures dead { IsErrOf result CheckFault.Dead → pages.new ≡ pages.old }
{
    let mut tables = TableRows::new(alloc);
    K::check(alloc, pages, &mut tables)?;
    let (names, roots) = names_and_roots(pages)?;
    let rows = tables.into_rows();
    // The super page was read twice. A store that tells its data says the same both times.
    if usize::from(names.count()) != rows.len() {
        return Err(CheckFault::Damaged { page: 0 });
    }
    let tables = with_names(alloc, &names, rows)?;
    Ok(Whole {
        names,
        roots,
        tables,
    })
}

/// The records of all tables, once the whole index has been tested: each table's name and its rows, in the order of the names. Nothing is
/// written.
pub fn read_tables<S: EawStore, K: KeyIndex>(
    alloc: Global,
    pages: &mut Pages<S>,
) -> Result<Vec<(Name, Rows)>, CheckFault>
    ensures records { IsTrue S.tells → IfOk result (λ tables. records_in tables.items ≡ entries (table_of K.index (S.view pages.old.store).state.bytes)) }
    ensures cause { ReadCause S.tells K.index (S.view pages.old.store) result }
    ensures blames { IfErr result (BlamesTested S.tells (S.calls pages.old.store) K.access (S.view pages.old.store)) }
    ensures looks { Looks S.tells (S.opens (S.view pages.old.store).shape) (is_check_failed result)
        (pages_of (S.view pages.old.store) pages.old) (pages_of (S.view pages.new.store) pages.new) }
    ensures dead { IsErrOf result CheckFault.Dead → pages.new ≡ pages.old }
{
    let whole = read_whole::<S, K, KeepsAll>(alloc, pages)?;
    Ok(kept_rows(alloc, whole.tables)?)
}

// The rows of each table, which are kept, as they stand.
fn kept_rows(
    alloc: Global,
    tables: Vec<(Name, NotedRows<KeepsAll>)>,
) -> Result<Vec<(Name, Rows)>, NoMemory>
    ensures { IfOk result (λ all. all.items ≡ tables.items) }
{
    let mut all = Vec::new(alloc);
    for (name, rows) in tables {
        let Some(rows) = rows.into_rows() else {
            unreachable!();
        };
        all.push((name, rows))?;
    }
    Ok(all)
}

// Each table's rows with its name, in the order of the names.
fn with_names<H: Keeper>(
    alloc: Global,
    names: &Names,
    tables: Vec<NotedRows<H>>,
) -> Result<Vec<(Name, NotedRows<H>)>, NoMemory>
    requires each { length names.now ≡ length tables.items }
    requires few { length names.now ≤ 8 }
    ensures { IfOk result (λ named. named.items ≡ by_name (zip names.now tables.items)) }
{
    let mut left = tables;
    let mut named = Vec::new(alloc);
    while let Some(rows) = left.pop() {
        // As many are left as come before this table.
        if let Some(name) = names.name(left.len() as u8) {
            let at = place_of(&named, &name);
            named.insert(at, (name, rows))?;
        }
    }
    Ok(named)
}

// How many tables, which are in the order of their names, come before this name.
fn place_of<H: Keeper>(tables: &[(Name, NotedRows<H>)], name: &Name) -> usize
    ensures { result ≡ place name.now tables.now }
{
    for (at, table) in tables.iter().enumerate() {
        if name.as_bytes().cmp(table.0.as_bytes()).is_lt() {
            return at;
        }
    }
    tables.len()
}
