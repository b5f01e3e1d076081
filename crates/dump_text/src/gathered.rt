// The records of lines, table by table.
ghost use Rattle.std.specs.Prelude.{◌≡◌, ◌<◌, ℕ, List, [], ◌∷◌, Some, false, IfOk, IfSome, IfNone, length, slice_get};
ghost use Rattle.std.specs.List.{All, list_any};
ghost use Rattle.history.specs.Key.{main_name};
ghost use Rattle.history.specs.Rows.{NamedRows};
ghost use Rattle.dump_text.specs.Dump.{AreRising, is_same_name};
ghost use Rattle.dump_text.specs.Gathering.{Adds, IsPlaced, IsPut, names_of};

use crate::fault::LineFault;
use crate::keyed_rows::KeyedRows;
use history::{Key, Tables, main_table};
use mars_base::NoMemory;
use record_slots::{Name, Value};
use std::alloc::Global;
use std::marker::Model;

// The most tables that an array has.
const TABLES_MAX: usize = 8;

type Table = (Name, KeyedRows);

/// The records of lines, table by table. The first table is `main`. Contracts see them as tables.
#[derive(Drop)]
pub struct Gathered {
    tables: Vec<Table>,
}

impl Model for Gathered {
    ghost use Rattle.std.specs.Prelude.{List};
    ghost use Rattle.history.specs.Rows.{NamedRows};

    ghost Value = { List NamedRows };

    ghost view = { λ g. g.tables.items };
}

impl Gathered {
    /// The table `main`, with no records.
    pub fn new(alloc: Global) -> Result<Gathered, NoMemory>
        ensures { IfOk result (λ gathered. gathered ≡ (main_name, []) ∷ []) }
    {
        let mut tables = Vec::new(alloc);
        tables.push((main_table(), KeyedRows::new(alloc)))?;
        Ok(Gathered { tables })
    }

    /// Adds a record, unless its key is there or its table is one too many.
    pub fn add(
        &mut self,
        alloc: Global,
        key: &Key,
        value: Value,
    ) -> Result<Result<(), LineFault>, NoMemory>
        ensures { IfOk result (λ added. Adds self.old (key.now, value) added self.new) }
    {
        let Some(place) = self.place(alloc, &key.table)? else {
            return Ok(Err(LineFault::NinthTable));
        };
        let had = put(alloc, &mut self.tables, place, key.key, value)?;
        if had.is_some() {
            return Ok(Err(LineFault::Twice));
        }
        Ok(Ok(()))
    }

    // The place of the table of this name, which is added if there is room for it.
    fn place(&mut self, alloc: Global, name: &Name) -> Result<Option<usize>, NoMemory>
        ensures { IfOk result (IsPlaced self.old name.now self.new) }
    {
        if let Some(place) = find(&self.tables, name) {
            return Ok(Some(place));
        }
        let count = self.tables.len();
        if count == TABLES_MAX {
            return Ok(None);
        }
        self.tables.push((*name, KeyedRows::new(alloc)))?;
        Ok(Some(count))
    }

    /// The tables, each with its rows by rising key.
    pub fn into_tables(self, alloc: Global) -> Result<Tables, NoMemory>
        ensures same { IfOk result (λ tables. tables ≡ self) }
        ensures rising { IfOk result (λ tables. All AreRising tables) }
    {
        let Gathered { tables: gathered } = self;
        let mut tables = Tables::new(alloc);
        for (name, rows) in gathered {
            tables.push(name, rows.into_rows(alloc)?)?;
        }
        Ok(tables)
    }
}

// The place of the table of this name, if there is one.
fn find(tables: &[Table], name: &Name) -> Option<usize>
    ensures some { IfSome result (λ i. (i < length tables.now) × (slice_get (names_of tables.now) i ≡ Some name.now)) }
    ensures none { IfNone result (list_any (is_same_name name.now) (names_of tables.now) ≡ false) }
{
    for i in 0..tables.len() {
        if name.as_bytes() == tables[i].0.as_bytes() {
            return Some(i);
        }
    }
    None
}

// Puts a row into a table, and returns what stood under its key.
fn put(
    alloc: Global,
    tables: &mut Vec<Table>,
    place: usize,
    key: u64,
    value: Value,
) -> Result<Option<Value>, NoMemory>
    requires { place < length tables.old.items }
    ensures names { names_of tables.new.items ≡ names_of tables.old.items }
    ensures put { IfOk result (λ had. (name : List ℕ) → slice_get (names_of tables.old.items) place ≡ Some name
        → IsPut tables.old.items name (key, value) had tables.new.items) }
{
    let had = tables[place].1.insert(alloc, key, value)?;
    Ok(had)
}
