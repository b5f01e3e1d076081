ghost use Rattle.std.specs.Prelude.{◌≡◌, [], ◌∷◌, ◌++◌, OnOk, OnErr};
ghost use Rattle.history.specs.Key.{of_table};
ghost use Rattle.history.specs.Rows.{is_same_row, are_same_rows, records_in};

use mars_base::NoMemory;
use record_slots::{Name, Value};
use std::alloc::Global;
use std::marker::Model;

/// Records in the order of their keys, each a key and its value.
#[derive(Debug, Drop)]
pub struct Rows {
    rows: Vec<(u64, Value)>,
}

impl Model for Rows {
    ghost use Rattle.std.specs.Prelude.{List, ℕ};

    ghost Value = { List (ℕ × List ℕ) };

    ghost view = { λ r. r.rows.items };
}

impl Rows {
    pub fn new(alloc: Global) -> Rows
        ensures { result ≡ [] }
    {
        Rows {
            rows: Vec::new(alloc),
        }
    }

    pub fn push(&mut self, key: u64, value: Value) -> Result<(), NoMemory>
        ensures ok { OnOk result (self.new ≡ self.old ++ (key, value) ∷ []) }
        ensures err { OnErr result (self.new ≡ self.old) }
    {
        self.rows.push((key, value))?;
        Ok(())
    }

    pub fn as_slice(&self) -> &[(u64, Value)]
        ensures { result.now ≡ self.now }
    {
        &self.rows
    }
}

impl PartialEq for Rows {
    ghost use Rattle.std.specs.Prelude.{ℕ, List};
    ghost use Rattle.std.specs.Cmp.{partial_equiv_from_equiv};
    ghost use Rattle.std.proofs.lemmas.Cmp.{lists_equiv, and_equiv, on_equiv, nat_eq_equiv, nat_list_eq_equiv};
    ghost use Rattle.history.specs.Rows.{are_same_rows};

    ghost eq = { are_same_rows };

    ghost laws = { partial_equiv_from_equiv (lists_equiv (and_equiv (on_equiv (λ (row : ℕ × List ℕ). row.0) nat_eq_equiv) (on_equiv (λ (row : ℕ × List ℕ). row.1) nat_list_eq_equiv))) };

    fn eq(&self, other: &Rows) -> bool {
        are_same(&self.rows, &other.rows)
    }
}

impl Eq for Rows {
    ghost use Rattle.std.specs.Prelude.{ℕ, List};
    ghost use Rattle.std.proofs.lemmas.Cmp.{lists_equiv, and_equiv, on_equiv, nat_eq_equiv, nat_list_eq_equiv};

    ghost laws = { lists_equiv (and_equiv (on_equiv (λ (row : ℕ × List ℕ). row.0) nat_eq_equiv) (on_equiv (λ (row : ℕ × List ℕ). row.1) nat_list_eq_equiv)) };
}

fn is_same(one: &(u64, Value), other: &(u64, Value)) -> bool
    ensures { result ≡ is_same_row one.now other.now }
{
    one.0 == other.0 && one.1.as_bytes() == other.1.as_bytes()
}

fn are_same(one: &[(u64, Value)], other: &[(u64, Value)]) -> bool
    ensures { result ≡ are_same_rows one.now other.now }
{
    if one.len() != other.len() {
        return false;
    }
    for i in 0..one.len() {
        if !is_same(&one[i], &other[i]) {
            return false;
        }
    }
    true
}

/// Records of tables: for each its name and its rows.
#[derive(Debug, Drop)]
pub struct Tables {
    tables: Vec<(Name, Rows)>,
}

impl Model for Tables {
    ghost use Rattle.std.specs.Prelude.{List};
    ghost use Rattle.history.specs.Rows.{NamedRows};

    ghost Value = { List NamedRows };

    ghost view = { λ t. t.tables.items };
}

impl Tables {
    pub fn new(alloc: Global) -> Tables
        ensures { result ≡ [] }
    {
        Tables {
            tables: Vec::new(alloc),
        }
    }

    /// Adds a table behind the others.
    pub fn push(&mut self, name: Name, rows: Rows) -> Result<(), NoMemory>
        ensures ok { OnOk result (self.new ≡ self.old ++ (name, rows) ∷ []) }
        ensures err { OnErr result (self.new ≡ self.old) }
    {
        self.tables.push((name, rows))?;
        Ok(())
    }

    /// Adds a record behind the others: to the last table, if that has its name, or else to a table more.
    pub fn add(
        &mut self,
        alloc: Global,
        table: Name,
        key: u64,
        value: Value,
    ) -> Result<(), NoMemory>
        ensures { OnOk result (records_in self.new ≡ records_in self.old ++ (of_table table key, value) ∷ []) }
    {
        let count = self.tables.len();
        if count > 0 && self.tables[count - 1].0.as_bytes() == table.as_bytes() {
            return self.tables[count - 1].1.push(key, value);
        }
        let mut rows = Rows::new(alloc);
        rows.push(key, value)?;
        self.push(table, rows)
    }

    pub fn as_slice(&self) -> &[(Name, Rows)]
        ensures { result.now ≡ self.now }
    {
        &self.tables
    }
}
