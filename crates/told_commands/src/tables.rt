// Makes a table in the array that a medium holds, and tells its number.
ghost use Rattle.std.specs.Prelude.{◌≡◌};
ghost use Rattle.told_commands.specs.Tables.{made_status, table_line};

use crate::told_work::{Told, ToldWork};
use array_runs::{Refusal, Status, served_status};
use eaw_face::EawStore;
use mars_core::make_table;
use page_store::{KeyIndex, SaveRoom};
use pcm_media::Media;
use record_slots::Name;
use record_table::MakeFault;
use std::alloc::Global;
use texts::{Piece, ShortText};

/// A table of this name is made. A line with its number is told.
#[derive(Drop)]
pub struct NewTable {
    pub name: Name,
}

impl ToldWork for NewTable {
    ghost use Rattle.std.specs.Prelude.{◌≡◌, ◌⊎◌, true};
    ghost use Rattle.array_runs.specs.Outcome.{OutcomeOf};
    ghost use Rattle.told_commands.specs.Told.{ByEnd};
    ghost use Rattle.array_runs.specs.declared.status.Refusal.{Refusal};
    ghost use Rattle.array_runs.specs.declared.status.Status.TheVariants.{Refused};
    ghost use Rattle.told_commands.specs.Tables.{LeavesTable, MakesTable, Refuses, Tries};

    ghost spares = { true };

    ghost leaves = { λ work. LeavesTable work.name };

    ghost comes = { λ work old status new cut text. OutcomeOf true true 0 (ByEnd (λ shape. Tries work.name shape old new) (MakesTable work.name old new cut text) cut text) old status new cut text
        ⊎ ((refusal : Refusal) × (status ≡ Refused refusal) × Refuses work.name refusal old new cut text) };

    fn work_on<S: EawStore, I: KeyIndex>(
        &self,
        alloc: Global,
        room: SaveRoom,
        store: S,
    ) -> (Result<Told, Status>, S) {
        let (made, store) = make_table::<S, I>(alloc, room, store, &self.name);
        match made {
            Ok(Ok(number)) => (Ok(Told::Line(table_line(number, &self.name))), store),
            Ok(Err(fault)) => (Err(made_status(fault, &self.name)), store),
            Err(fault) => (Err(served_status(Err(fault))), store),
        }
    }

    fn laws<S: EawStore, M: Media>(&self) {}
}

// The status of a table of this name that was not made. A store that met no fault before gives no `Dead`.
fn made_status(fault: MakeFault, name: &Name) -> Status
    ensures { result ≡ made_status fault name.now }
{
    match fault {
        MakeFault::Exists => Status::Refused(Refusal::Exists(*name)),
        MakeFault::TablesFull => Status::Refused(Refusal::TablesFull),
        MakeFault::PagesFull { pages } => Status::Refused(Refusal::PagesFull { pages }),
        MakeFault::Media | MakeFault::Dead => Status::MediaFault,
        MakeFault::Damaged { page } => Status::Damaged { page },
    }
}

// The line of a new table. It is formed without memory, so the status does not depend on memory.
fn table_line(number: u8, name: &Name) -> ShortText
    ensures { result ≡ table_line number name.now }
{
    ShortText::of(&[
        Piece::Words(b"table "),
        Piece::Number(u64::from(number)),
        Piece::Words(b" "),
        Piece::Words(name.as_bytes()),
        Piece::Words(b"\n"),
    ])
}
