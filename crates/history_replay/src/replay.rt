// Replays a history on a table in memory.
ghost use Rattle.std.specs.Prelude.{◌≡◌, ◌↔◌, ◌+◌, length, IsTrue, IfOk, OnOk};
ghost use Rattle.std.specs.FinMap.{get, entries, insert, remove};
ghost use Rattle.history.specs.Key.{of_table};
ghost use Rattle.history.specs.Writes.{rows_within};
ghost use Rattle.history.specs.Table.{Answers, after, begun, worked, IsRight, left_by, found, removed, has_save};
ghost use Rattle.history.specs.Legal.{records, IsLegal};
ghost use Rattle.history.specs.declared.call.TableCall.TheVariants.{Save, Back};
ghost use Rattle.history.specs.declared.call.Reply.TheVariants.{Fine, Found, Absent, Listed, Saved};
ghost use Rattle.history.specs.Rows.{records_in, table_of};
ghost use Rattle.history_replay.specs.Replay.{table_in, work_in, with_rows, is_listed};

use history::{Calls, Done, Key, Reply, Rows, TableCall, Tables};
use mars_base::NoMemory;
use record_slots::{Name, Value};
use std::alloc::Global;
use std::collections::BTreeMap;

/// A table and its copies at the saves of a transaction, the first save first.
#[derive(Drop)]
struct Replay {
    table: BTreeMap<Key, Value>,
    saves: Vec<BTreeMap<Key, Value>>,
}

/// The records after a history, by rising key. If a key stands twice in `base`, the first record counts.
pub fn play(alloc: Global, history: &[Done], base: &Tables) -> Result<Tables, NoMemory>
    ensures { IfOk result (λ tables. records_in tables ≡ entries (records (table_of base.now) history.now)) }
{
    let mut replay = Replay::new(base, alloc)?;
    for done in history {
        replay.make_all(&done.calls)?;
    }
    replay.tables(alloc)
}

/// Whether the history is legal on the records of `base`: each transaction has the next number, and its replies are those of a table that
/// has been through the transactions before it.
pub fn is_legal(alloc: Global, history: &[Done], base: &Tables) -> Result<bool, NoMemory>
    ensures { IfOk result (λ legal. IsTrue legal ↔ IsLegal (table_of base.now) history.now) }
{
    let mut replay = Replay::new(base, alloc)?;
    for i in 0..history.len() {
        let done = &history[i];
        if done.at != i as u64 + 1 {
            return Ok(false);
        }
        if !replay.is_right(&done.calls, alloc)? {
            return Ok(false);
        }
    }
    Ok(true)
}

impl Replay {
    fn new(base: &Tables, alloc: Global) -> Result<Replay, NoMemory>
        ensures { IfOk result (λ replay. work_in replay ≡ begun (table_of base.now)) }
    {
        Ok(Replay {
            table: table_from(base.as_slice(), alloc)?,
            saves: Vec::new(alloc),
        })
    }

    // Makes the calls of a transaction.
    fn make_all(&mut self, calls: &Calls) -> Result<(), NoMemory>
        ensures { OnOk result (work_in self.new ≡ worked (begun (work_in self.old).table) calls.now) }
    {
        self.begin();
        let mut left = calls.entries();
        while let Some((call, _told, rest)) = left.next() {
            self.make(&call)?;
            left = rest;
        }
        Ok(())
    }

    // Makes the calls of a transaction as long as their replies are those of the table, and returns whether all are.
    fn is_right(&mut self, calls: &Calls, alloc: Global) -> Result<bool, NoMemory>
        ensures right { IfOk result (λ right. IsTrue right ↔ IsRight (work_in self.old).table calls.now) }
        ensures made { IfOk result (λ right. IsTrue right → (work_in self.new).table ≡ left_by (work_in self.old).table calls.now) }
    {
        self.begin();
        let mut left = calls.entries();
        while let Some((call, told, rest)) = left.next() {
            let reply = told.into_reply(alloc)?;
            if !self.answers(&call, &reply, alloc)? {
                return Ok(false);
            }
            self.make(&call)?;
            left = rest;
        }
        Ok(true)
    }

    // Whether this is the table's reply to the call.
    fn answers(&self, call: &TableCall, reply: &Reply, alloc: Global) -> Result<bool, NoMemory>
        ensures { IfOk result (λ right. IsTrue right ↔ Answers (work_in self.now) call.now reply.now) }
    {
        match call {
            TableCall::Get { table, key } => Ok(self.finds(&placed(table, *key), reply)),
            TableCall::Put { .. } => Ok(is_fine(reply)),
            TableCall::Del { table, key } => Ok(self.removes(&placed(table, *key), reply)),
            TableCall::Scan { table, low, high } => self.lists(table, *low, *high, reply, alloc),
            TableCall::Save => Ok(self.saves_as(reply)),
            TableCall::Back { save } => Ok(self.has_save(*save) && is_fine(reply)),
        }
    }

    fn finds(&self, key: &Key, reply: &Reply) -> bool
        ensures { IsTrue result ↔ (reply.now ≡ found (get (work_in self.now).table key.now)) }
    {
        match self.table.get(key) {
            None => is_absent(reply),
            Some(value) => is_found(reply, value),
        }
    }

    fn removes(&self, key: &Key, reply: &Reply) -> bool
        ensures { IsTrue result ↔ (reply.now ≡ removed (get (work_in self.now).table key.now)) }
    {
        match self.table.get(key) {
            None => is_absent(reply),
            Some(_) => is_fine(reply),
        }
    }

    fn lists(
        &self,
        table: &Name,
        low: u64,
        high: u64,
        reply: &Reply,
        alloc: Global,
    ) -> Result<bool, NoMemory>
        ensures { IfOk result (λ right. IsTrue right ↔ (reply.now ≡ Listed (rows_within table.now low high (work_in self.now).table))) }
    {
        let Reply::Listed(told) = reply else {
            return Ok(false);
        };
        let rows = self.rows_within(table, low, high, alloc)?;
        Ok(rows == *told)
    }

    fn rows_within(
        &self,
        table: &Name,
        low: u64,
        high: u64,
        alloc: Global,
    ) -> Result<Rows, NoMemory>
        ensures { IfOk result (λ rows. rows ≡ rows_within table.now low high (work_in self.now).table) }
    {
        let mut rows = Rows::new(alloc);
        for (key, value) in self.table.iter() {
            if is_listed(key, table, low, high) {
                rows.push(key.key, *value)?;
            }
        }
        Ok(rows)
    }

    fn saves_as(&self, reply: &Reply) -> bool
        ensures { IsTrue result ↔ (reply.now ≡ Saved (length (work_in self.now).saves + 1)) }
    {
        match reply {
            Reply::Saved(count) => *count != 0 && *count as usize - 1 == self.saves.len(),
            _ => false,
        }
    }

    fn has_save(&self, save: u32) -> bool
        ensures { result ≡ has_save (work_in self.now).saves save }
    {
        save != 0 && save as usize <= self.saves.len()
    }

    fn begin(&mut self)
        ensures { work_in self.new ≡ begun (work_in self.old).table }
    {
        self.saves.truncate(0);
    }

    fn make(&mut self, call: &TableCall) -> Result<(), NoMemory>
        ensures { OnOk result (work_in self.new ≡ after (work_in self.old) call.now) }
    {
        match call {
            TableCall::Put { table, key, value } => self.put(placed(table, *key), *value),
            TableCall::Del { table, key } => {
                self.del(&placed(table, *key));
                Ok(())
            }
            TableCall::Save => self.save(),
            TableCall::Back { save } => self.back(*save),
            TableCall::Get { .. } | TableCall::Scan { .. } => Ok(()),
        }
    }

    fn put(&mut self, key: Key, value: Value) -> Result<(), NoMemory>
        ensures { OnOk result (work_in self.new ≡ record { table = insert (work_in self.old).table key value; saves = (work_in self.old).saves }) }
    {
        self.table.insert(key, value)?;
        Ok(())
    }

    fn del(&mut self, key: &Key)
        ensures { work_in self.new ≡ record { table = remove (work_in self.old).table key.now; saves = (work_in self.old).saves } }
    {
        self.table.remove(key);
    }

    fn save(&mut self) -> Result<(), NoMemory>
        ensures { OnOk result (work_in self.new ≡ after (work_in self.old) Save) }
    {
        self.saves.push(copy_of(&self.table)?)?;
        Ok(())
    }

    fn back(&mut self, save: u32) -> Result<(), NoMemory>
        ensures { OnOk result (work_in self.new ≡ after (work_in self.old) (Back save)) }
    {
        if !self.has_save(save) {
            return Ok(());
        }
        let count = save as usize;
        self.table = copy_of(&self.saves[count - 1])?;
        self.saves.truncate(count);
        Ok(())
    }

    fn tables(&self, alloc: Global) -> Result<Tables, NoMemory>
        ensures { IfOk result (λ tables. records_in tables ≡ entries (work_in self.now).table) }
    {
        let mut tables = Tables::new(alloc);
        for (key, value) in self.table.iter() {
            tables.add(alloc, key.table, key.key, *value)?;
        }
        Ok(tables)
    }
}

fn is_fine(reply: &Reply) -> bool
    ensures { IsTrue result ↔ (reply.now ≡ Fine) }
{
    matches!(reply, Reply::Fine)
}

fn is_absent(reply: &Reply) -> bool
    ensures { IsTrue result ↔ (reply.now ≡ Absent) }
{
    matches!(reply, Reply::Absent)
}

fn is_found(reply: &Reply, value: &Value) -> bool
    ensures { IsTrue result ↔ (reply.now ≡ Found value.now) }
{
    match reply {
        Reply::Found(told) => told.as_bytes() == value.as_bytes(),
        _ => false,
    }
}

fn table_from(tables: &[(Name, Rows)], alloc: Global) -> Result<BTreeMap<Key, Value>, NoMemory>
    ensures { IfOk result (λ table. table_in table ≡ table_of tables.now) }
{
    // From the last table on, so that of two records with one key the first stays.
    let mut table = BTreeMap::new(alloc);
    for i in 0..tables.len() {
        let rows = &tables[tables.len() - 1 - i];
        put_rows(&mut table, &rows.0, rows.1.as_slice())?;
    }
    Ok(table)
}

// Puts the rows of a table, from the last one on.
fn put_rows(
    table: &mut BTreeMap<Key, Value>,
    name: &Name,
    rows: &[(u64, Value)],
) -> Result<(), NoMemory>
    ensures { OnOk result (table_in table.new ≡ with_rows (table_in table.old) name.now rows.now) }
{
    for i in 0..rows.len() {
        let row = &rows[rows.len() - 1 - i];
        table.insert(placed(name, row.0), row.1)?;
    }
    Ok(())
}

fn placed(table: &Name, key: u64) -> Key
    ensures { result ≡ of_table table.now key }
{
    Key { table: *table, key }
}

// The key is one of the table of this name, and within the bounds.
fn is_listed(key: &Key, table: &Name, low: u64, high: u64) -> bool
    ensures { result ≡ is_listed table.now low high key.now }
{
    table.as_bytes() == key.table.as_bytes() && (low <= key.key && key.key <= high)
}

fn copy_of(table: &BTreeMap<Key, Value>) -> Result<BTreeMap<Key, Value>, NoMemory>
    ensures { IfOk result (λ copy. copy.entries ≡ table.now.entries) }
{
    Ok(table.clone()?)
}
