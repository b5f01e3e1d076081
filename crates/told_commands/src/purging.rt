// Takes keys without records out of the index of an array's records, and tells how many.
ghost use Rattle.std.specs.Prelude.{◌≡◌, codes};
ghost use Rattle.history_text.specs.Text.{number_line};
ghost use Rattle.told_commands.specs.Purge.{IsAnswer, cleared};

use crate::told_work::{Told, ToldWork};
use array_runs::{Status, served_status};
use caller_steps::Core as Steps;
use eaw_face::EawStore;
use history::{Call, Control, Reply};
use mars_core::{Core, CoreFault};
use noted::KeepsNothing;
use page_store::{KeyIndex, SaveRoom};
use pcm_media::Media;
use std::alloc::Global;
use texts::{Piece, ShortText};

// The caller that purges: nobody else calls.
const CALLER: u8 = 0;

/// The keys without records are taken out of the index. A line says how many they were. A key stays that its page keeps as the last one.
#[derive(Drop)]
pub struct Purge;

impl ToldWork for Purge {
    ghost use Rattle.std.specs.Prelude.{true, false};
    ghost use Rattle.array_runs.specs.Outcome.{OutcomeOf};
    ghost use Rattle.told_commands.specs.Purge.{LeavesPurged, PurgesRecords};
    ghost use Rattle.told_commands.specs.Told.{ByEnd, HasRecords, names_on, WorksOn};

    ghost spares = { false };

    ghost leaves = { λ work. LeavesPurged };

    ghost comes = { λ work old status new cut text. OutcomeOf false true 0 (ByEnd (λ shape. WorksOn shape (HasRecords shape old (names_on shape old)) old new) (PurgesRecords old new cut text) cut text) old status new cut text };

    fn work_on<S: EawStore, I: KeyIndex>(
        &self,
        alloc: Global,
        room: SaveRoom,
        store: S,
    ) -> (Result<Told, Status>, S) {
        let mut core = match Core::<S, I, KeepsNothing>::attach(alloc, room, store) {
            Ok(core) => core,
            Err((fault, store)) => return (Err(served_status(Err(fault))), store),
        };
        let purged = cleared(&core.step(CALLER, &Call::Control(Control::Purge)));
        let store = core.into_store();
        match purged {
            Ok(count) => (Ok(Told::Line(purged_line(count))), store),
            Err(fault) => (Err(served_status(Err(fault))), store),
        }
    }

    fn laws<S: EawStore, M: Media>(&self) {}
}

// How many keys were taken out, or what stopped the purge of a core that nobody else calls: the medium, or a page that says something else
// when it is read again.
fn cleared(reply: &Reply) -> Result<u32, CoreFault>
    requires { IsAnswer reply.now }
    ensures { result ≡ cleared reply.now }
{
    match reply {
        Reply::Purged(count) => Ok(*count),
        Reply::Media => Err(CoreFault::Media),
        Reply::Damaged { page } => Err(CoreFault::Damaged { page: *page }),
        _ => unreachable!(),
    }
}

// The line of so many keys. It is formed without memory, so the status does not depend on memory.
fn purged_line(count: u32) -> ShortText
    ensures { result ≡ number_line (codes "purged") count }
{
    ShortText::of(&[
        Piece::Words(b"purged "),
        Piece::Number(u64::from(count)),
        Piece::Words(b"\n"),
    ])
}
