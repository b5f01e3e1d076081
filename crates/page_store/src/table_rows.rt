// The records of tables.
ghost use Rattle.std.specs.Prelude.{◌≡◌, [], ◌∷◌, ◌++◌, slice_get, OnOk};

use mars_base::NoMemory;
use noted::{Keeper, NotedRows};
use std::alloc::Global;
use std::marker::Model;

/// The records of each table of an array, by its number. The keeper says whether they stay in memory.
#[derive(Drop)]
pub struct TableRows<H: Keeper> {
    tables: Vec<NotedRows<H>>,
}

impl<H: Keeper> Model for TableRows<H> {
    ghost use Rattle.std.specs.Prelude.{List, ℕ};

    ghost Value = { List (List (ℕ × List ℕ)) };

    ghost view = { λ r. r.tables.items };
}

impl<H: Keeper> TableRows<H> {
    /// Those of no table.
    pub fn new(alloc: Global) -> TableRows<H>
        ensures { result ≡ [] }
    {
        TableRows {
            tables: Vec::new(alloc),
        }
    }

    /// Adds the records of the next table.
    pub fn push(&mut self, rows: NotedRows<H>) -> Result<(), NoMemory>
        ensures { OnOk result (self.new ≡ self.old ++ rows ∷ []) }
    {
        self.tables.push(rows)?;
        Ok(())
    }

    /// Those of each table.
    pub fn into_rows(self) -> Vec<NotedRows<H>>
        ensures { result.items ≡ self }
    {
        self.tables
    }

    /// Those of the first table, if there is one.
    pub fn into_first(self) -> Option<NotedRows<H>>
        ensures { result ≡ slice_get self 0 }
    {
        let TableRows { mut tables } = self;
        if tables.is_empty() {
            return None;
        }
        Some(tables.remove(0))
    }
}
