// Tells the records of an array.
ghost use Rattle.std.specs.Prelude.{◌≡◌, IfOk};
ghost use Rattle.history.specs.Rows.{records_in};
ghost use Rattle.told_commands.specs.Dump.{records_text};

use crate::told_work::{Told, ToldWork};
use array_runs::{Status, served_status};
use eaw_face::EawStore;
use history::Rows;
use history_text::{append_number, count_records, write_tables};
use mars_base::NoMemory;
use mars_core::{CoreFault, read_records};
use page_store::{KeyIndex, SaveRoom};
use pcm_media::Media;
use record_slots::Name;
use std::alloc::Global;

/// The records of all tables are told, and how many there are. The data is left as it is, in the version that it has.
#[derive(Drop)]
pub struct Dump;

impl ToldWork for Dump {
    ghost use Rattle.std.specs.Prelude.{true};
    ghost use Rattle.array_runs.specs.Outcome.{OutcomeOf};
    ghost use Rattle.told_commands.specs.Dump.{LeavesRead, DumpsRecords};

    ghost spares = { true };

    ghost leaves = { λ work. LeavesRead };

    ghost comes = { λ work old status new cut text. OutcomeOf true true 0 (DumpsRecords old new cut text) old status new cut text };

    // The text is formed in full before any of it is written.
    fn work_on<S: EawStore, I: KeyIndex>(
        &self,
        alloc: Global,
        room: SaveRoom,
        store: S,
    ) -> (Result<Told, Status>, S) {
        let (read, store) = read_records::<S, I>(alloc, room, store);
        let tables = match read {
            Ok(tables) => tables,
            Err(fault) => return (Err(served_status(Err(fault))), store),
        };
        match dump_lines(alloc, &tables) {
            Ok(text) => (Ok(Told::Lines(text)), store),
            Err(NoMemory) => (Err(served_status(Err(CoreFault::NoMemory))), store),
        }
    }

    fn laws<S: EawStore, M: Media>(&self) {}
}

// The lines of the records, and of their count.
fn dump_lines(alloc: Global, tables: &[(Name, Rows)]) -> Result<Vec<u8>, NoMemory>
    ensures { IfOk result (λ text. text.items ≡ records_text (records_in tables.now)) }
{
    let mut text = Vec::new(alloc);
    write_tables(&mut text, tables)?;
    let count = count_records(tables)?;
    append_number(&mut text, b"records", count)?;
    Ok(text)
}
