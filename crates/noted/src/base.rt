// The records at an opening.
ghost use Rattle.std.specs.Prelude.{◌≡◌, [], ◌∷◌, ◌++◌, IsTrue, IsSome, IfSome, OnOk};

use crate::keeper::Keeper;
use crate::rows::NotedRows;
use ghost_notes::Notes;
use history::{Rows, Tables};
use mars_base::NoMemory;
use record_slots::Name;
use std::alloc::Global;
use std::marker::{Model, PhantomData};

/// Records of tables: for each its name and its rows. They are kept in memory, or not.
#[derive(Drop)]
pub struct Base<H: Keeper> {
    kept: Option<Tables>,
    notes: Notes<(Name, Rows)>,
    keeper: PhantomData<H>,
}

impl<H: Keeper> Model for Base<H> {
    ghost use Rattle.std.specs.Prelude.{List, ◌≡◌, IsTrue, IsSome, IfSome};
    ghost use Rattle.history.specs.Rows.{NamedRows};

    ghost Value = { List NamedRows };

    ghost view = { λ b. b.notes.said };

    ghost invariant = { λ b. IfSome b.kept (λ tables. tables ≡ b.notes.said) × (IsTrue H.keeps → IsSome b.kept) };
}

impl<H: Keeper> Base<H> {
    pub fn new(alloc: Global) -> Base<H>
        ensures { result ≡ [] }
    {
        let kept = if H::keeps() {
            Some(Tables::new(alloc))
        } else {
            None
        };
        Base {
            kept,
            notes: Notes::new(),
            keeper: PhantomData,
        }
    }

    /// Adds a table behind the others.
    pub fn push(&mut self, name: Name, rows: NotedRows<H>) -> Result<(), NoMemory>
        ensures ok { OnOk result (self.new ≡ self.old ++ (name, rows) ∷ []) }
    {
        let (rows, told) = rows.into_parts();
        let told = self.notes.then(&(&name, &told));
        match rows {
            Some(rows) => {
                if let Some(tables) = &mut self.kept {
                    if tables.push(name, rows).is_err() {
                        return Err(NoMemory);
                    }
                }
            }
            None => self.kept = None,
        }
        self.notes = told;
        Ok(())
    }

    /// All of them, if they are kept.
    pub fn tables(&self) -> Option<&Tables>
        ensures tables { IfSome result (λ tables. tables.now ≡ self.now) }
        ensures kept { IsTrue H.keeps → IsSome result }
    {
        match &self.kept {
            Some(tables) => Some(tables),
            None => None,
        }
    }
}
