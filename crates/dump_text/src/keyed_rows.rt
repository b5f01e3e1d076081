// Rows by rising key, in whatever order they come.
ghost use Rattle.std.specs.Prelude.{◌≡◌, [], IsTrue, IfOk, OnOk};
ghost use Rattle.std.specs.BTreeMap.{insert_entry, is_at};
ghost use Rattle.std.specs.Map.{lookup};
ghost use Rattle.std.specs.Ordering.{nat_cmp};
ghost use Rattle.history.specs.Key.{main_name};
ghost use Rattle.dump_text.specs.Dump.{AreRising};
ghost use Rattle.dump_text.specs.Keyed.{AreBelow};

use history::Rows;
use mars_base::NoMemory;
use record_slots::Value;
use std::alloc::Global;
use std::collections::BTreeMap;
use std::marker::Model;

/// Rows by rising key. As long as each comes behind all before it they are a list, and from the first that does not on a map.
#[derive(Drop)]
pub struct KeyedRows {
    list: Rows,
    map: Option<BTreeMap<u64, Value>>,
}

impl Model for KeyedRows {
    ghost use Rattle.std.specs.Prelude.{List, ℕ};
    ghost use Rattle.history.specs.Key.{main_name};
    ghost use Rattle.dump_text.specs.Dump.{AreRising};
    ghost use Rattle.dump_text.specs.Keyed.{kept_rows};

    ghost Value = { List (ℕ × List ℕ) };

    ghost view = { λ r. kept_rows r.list r.map };

    ghost invariant = { λ r. AreRising (main_name, r.list) };
}

impl KeyedRows {
    pub fn new(alloc: Global) -> KeyedRows
        ensures { result ≡ [] }
    {
        KeyedRows {
            list: Rows::new(alloc),
            map: None,
        }
    }

    /// Puts a row in its place, and returns what stood under its key.
    pub fn insert(
        &mut self,
        alloc: Global,
        key: u64,
        value: Value,
    ) -> Result<Option<Value>, NoMemory>
        ensures had { IfOk result (λ had. had ≡ lookup (is_at (nat_cmp key)) self.old) }
        ensures rows { OnOk result (self.new ≡ insert_entry nat_cmp self.old key value) }
    {
        if let Some(map) = &mut self.map {
            return Ok(map.insert(key, value)?);
        }
        if is_behind(self.list.as_slice(), key) {
            self.list.push(key, value)?;
            return Ok(None);
        }
        let mut map = map_of(alloc, self.list.as_slice())?;
        let had = map.insert(key, value)?;
        self.list = Rows::new(alloc);
        self.map = Some(map);
        Ok(had)
    }

    pub fn into_rows(self, alloc: Global) -> Result<Rows, NoMemory>
        ensures same { IfOk result (λ rows. rows ≡ self) }
        ensures rising { IfOk result (λ rows. AreRising (main_name, rows)) }
    {
        let KeyedRows { list, map } = self;
        match map {
            None => Ok(list),
            Some(map) => rows_of(alloc, &map),
        }
    }
}

// Whether a key comes behind those of rows that rise.
fn is_behind(rows: &[(u64, Value)], key: u64) -> bool
    requires { AreRising (main_name, rows.now) }
    ensures { IsTrue result → AreBelow key rows.now }
{
    match rows.last() {
        None => true,
        Some(row) => row.0 < key,
    }
}

// The same rows as a map.
fn map_of(alloc: Global, rows: &[(u64, Value)]) -> Result<BTreeMap<u64, Value>, NoMemory>
    requires { AreRising (main_name, rows.now) }
    ensures { IfOk result (λ map. map.entries ≡ rows.now) }
{
    let mut map = BTreeMap::new(alloc);
    for row in rows {
        map.insert(row.0, row.1)?;
    }
    Ok(map)
}

// The rows of a map.
fn rows_of(alloc: Global, map: &BTreeMap<u64, Value>) -> Result<Rows, NoMemory>
    ensures same { IfOk result (λ rows. rows ≡ map.now.entries) }
    ensures rising { IfOk result (λ rows. AreRising (main_name, rows)) }
{
    let mut rows = Rows::new(alloc);
    for (key, value) in map.iter() {
        rows.push(*key, *value)?;
    }
    Ok(rows)
}
