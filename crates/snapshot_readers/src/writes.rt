// What transactions write, as a list that is the same on every table.
ghost use Rattle.std.specs.Prelude.{◌≡◌, [], IfOk, OnOk};
ghost use Rattle.history.specs.Writes.{Table, all_written};
ghost use Rattle.history.specs.Table.{Work, after, begun, left_by, has_save};
ghost use Rattle.history.specs.Legal.{records};
ghost use Rattle.history.specs.declared.call.TableCall.TheVariants.{Back};
ghost use Rattle.snapshot_readers.specs.Writing.{Writes};

use crate::records::Write;
use history::{Calls, Done, Key, TableCall};
use mars_base::NoMemory;
use std::alloc::Global;

// The writes so far, and how many there were at each save, the first save first.
#[derive(Drop)]
struct Writing {
    writes: Vec<Write>,
    saves: Vec<usize>,
}

/// Written into any table, the list gives what the transactions leave of it.
pub(crate) fn writes_of(dones: &[Done], alloc: Global) -> Result<Vec<Write>, NoMemory>
    ensures { IfOk result (λ writes. (table : Table) → records table dones.now ≡ all_written table writes.items) }
{
    let mut writing = Writing {
        writes: Vec::new(alloc),
        saves: Vec::new(alloc),
    };
    for done in dones {
        writing.make_all(&done.calls)?;
    }
    let Writing { writes, saves: _ } = writing;
    Ok(writes)
}

impl Writing {
    // Makes the calls of one transaction.
    fn make_all(&mut self, calls: &Calls) -> Result<(), NoMemory>
        ensures { OnOk result ((table : Table) → all_written table self.new.writes.items ≡ left_by (all_written table self.old.writes.items) calls.now) }
    {
        self.saves.truncate(0);
        let mut left = calls.entries();
        while let Some((call, _told, rest)) = left.next() {
            self.make(&call)?;
            left = rest;
        }
        Ok(())
    }

    fn make(&mut self, call: &TableCall) -> Result<(), NoMemory>
        ensures { OnOk result ((table : Table) (work : Work) → Writes table self.old.writes.items self.old.saves.items work → Writes table self.new.writes.items self.new.saves.items (after work call.now)) }
    {
        match call {
            TableCall::Put { table, key, value } => {
                let key = Key {
                    table: *table,
                    key: *key,
                };
                self.writes.push((key, Some(*value)))?
            }
            TableCall::Del { table, key } => {
                let key = Key {
                    table: *table,
                    key: *key,
                };
                self.writes.push((key, None))?
            }
            TableCall::Save => self.saves.push(self.writes.len())?,
            TableCall::Back { save } => self.back(*save),
            TableCall::Get { .. } | TableCall::Scan { .. } => (),
        }
        Ok(())
    }

    fn back(&mut self, save: u32)
        ensures { (table : Table) (work : Work) → Writes table self.old.writes.items self.old.saves.items work → Writes table self.new.writes.items self.new.saves.items (after work (Back save)) }
    {
        if !self.has_save(save) {
            return;
        }
        let count = save as usize;
        self.writes.truncate(self.saves[count - 1]);
        self.saves.truncate(count);
    }

    fn has_save(&self, save: u32) -> bool
        ensures { result ≡ has_save self.now.saves.items save }
    {
        save != 0 && save as usize <= self.saves.len()
    }
}
