// The readers of a script before their work.
ghost use Rattle.std.specs.Prelude.{◌≡◌, ◌<◌, ◌≤◌, All, length, IfOk};
ghost use Rattle.logbook.specs.Pages.{Book};
ghost use Rattle.history.specs.Writes.{Table};
ghost use Rattle.history.specs.Rows.{table_of};
ghost use Rattle.snapshot_readers.specs.Feeds.{IsFresh};
ghost use Rattle.reader_work.specs.Readership.{keys_of, asks_with, passes_for, IsReady, IsOpenWith};

use crate::reading::ReadWorker;
use caller_plans::Keys;
use ghost_notes::Notes;
use history::Tables;
use mars_base::NoMemory;
use record_slots::Names;
use snapshot_readers::{Feed, Readers, open_readers};
use std::alloc::Global;
use std::sync::Wait;

/// Readers with what they ask for, and their feed. It is not `Drop`: `work_with` takes it.
pub struct Readership {
    pub(crate) feed: Feed,
    pub(crate) workers: Vec<ReadWorker>,
}

// Gives each list of keys to a reader of its own, with the names of the tables and room for the answers.
fn hire_readers(
    alloc: Global,
    names: &Names,
    mut readers: Readers,
    asks: Vec<Keys>,
) -> Result<Vec<ReadWorker>, NoMemory>
    requires few { length asks.items ≤ 8 }
    requires enough { length readers ≡ length asks.items }
    ensures keys { IfOk result (λ workers. keys_of workers.items ≡ asks.items) }
    ensures ready { IfOk result (λ workers. (book : Book) (base : Table) → All (IsFresh book base) readers → All (IsReady names.now book base) workers.items) }
{
    let mut workers = Vec::with_capacity(alloc, asks.len())?;
    for keys in asks {
        let answers = Vec::with_capacity(alloc, keys.len())?;
        let number = workers.len() as u8;
        let reader = readers.pop().unwrap();
        workers.push_reserved(ReadWorker {
            number,
            reader,
            names: names.copy(),
            keys,
            answers,
            told: Notes::new(),
        });
    }
    Ok(workers)
}

/// Makes a reader for each list of keys, over the records of tables of these names. There are none if nothing is asked. If a key stands
/// twice among the records, the first counts.
pub fn open_readership<R: Wait>(
    rt: &R,
    alloc: Global,
    names: &Names,
    base: &Tables,
    asks: Vec<Keys>,
) -> Result<Option<Readership>, NoMemory>
    requires few { length asks.items ≤ 8 }
    ensures asks { IfOk result (λ made. asks_with made ≡ asks.items) }
    ensures open { IfOk result (IsOpenWith names.now (table_of base.now)) }
{
    if asks.is_empty() {
        return Ok(None);
    }
    let (feed, readers) = open_readers(rt, alloc, base, asks.len() as u8)?;
    match hire_readers(alloc, names, readers, asks) {
        Ok(workers) => Ok(Some(Readership { feed, workers })),
        Err(NoMemory) => {
            feed.close(rt);
            Err(NoMemory)
        }
    }
}

/// How many passes so many callers and readers need.
pub fn passes_for(callers: u8, readers: u8) -> u8
    requires { callers ≤ 32 }
    ensures { result ≡ passes_for callers readers }
{
    if readers == 0 { callers } else { callers + 1 }
}
