// The rows of a table.
ghost use Rattle.std.specs.Prelude.{◌≡◌, [], ◌∷◌, ◌++◌, List, ℕ, IsTrue, IsSome, IfSome, OnOk, OnErr};

use crate::keeper::Keeper;
use ghost_notes::Notes;
use history::Rows;
use mars_base::NoMemory;
use record_slots::Value;
use std::alloc::Global;
use std::marker::{Model, PhantomData};

/// Rows of a table, each a key with its value. They are kept in memory, or not.
#[derive(Drop)]
pub struct NotedRows<H: Keeper> {
    kept: Option<Rows>,
    notes: Notes<(u64, Value)>,
    keeper: PhantomData<H>,
}

impl<H: Keeper> Model for NotedRows<H> {
    ghost use Rattle.std.specs.Prelude.{List, ℕ, ◌≡◌, ◌↔◌, IsTrue, IsSome, IfSome};

    ghost Value = { List (ℕ × List ℕ) };

    ghost view = { λ r. r.notes.said };

    ghost invariant = { λ r. IfSome r.kept (λ rows. rows ≡ r.notes.said) × (IsSome r.kept ↔ IsTrue H.keeps) };
}

impl<H: Keeper> NotedRows<H> {
    pub fn new(alloc: Global) -> NotedRows<H>
        ensures { result ≡ [] }
    {
        let kept = if H::keeps() {
            Some(Rows::new(alloc))
        } else {
            None
        };
        NotedRows {
            kept,
            notes: Notes::new(),
            keeper: PhantomData,
        }
    }

    /// Adds a row behind the others.
    pub fn push(&mut self, key: u64, value: Value) -> Result<(), NoMemory>
        ensures ok { OnOk result (self.new ≡ self.old ++ (key, value) ∷ []) }
        ensures err { OnErr result (self.new ≡ self.old) }
    {
        let told = self.notes.then(&(key, &value));
        // Whether rows are kept is known as the program is built, and where none are, nothing is left of this.
        if H::keeps() {
            if let Some(rows) = &mut self.kept {
                if rows.push(key, value).is_err() {
                    return Err(NoMemory);
                }
            }
        }
        self.notes = told;
        Ok(())
    }

    /// All of them, if they are kept.
    pub fn into_rows(self) -> Option<Rows>
        ensures rows { IfSome result (λ rows. rows ≡ self) }
        ensures kept { IsTrue H.keeps → IsSome result }
    {
        let NotedRows {
            kept,
            notes: _,
            keeper: _,
        } = self;
        kept
    }

    /// What is kept of them, if anything is, and what proofs know.
    pub(crate) fn into_parts(self) -> (Option<Rows>, Notes<(u64, Value)>)
        ensures rows { IfSome result.0 (λ rows. rows ≡ self) }
        ensures kept { IsTrue H.keeps → IsSome result.0 }
        ensures notes { result.1.said ≡ self }
    {
        let NotedRows {
            kept,
            notes,
            keeper: _,
        } = self;
        (kept, notes)
    }
}
