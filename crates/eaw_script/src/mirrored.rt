// The run of a script of raw commands, with frames or without.
ghost use Rattle.std.specs.Prelude.{◌≡◌, false, IsTrue};
ghost use Rattle.texts.specs.Written.{Wrote};
ghost use Rattle.script_run.specs.Lines.{lines_of};
ghost use Rattle.script_run.specs.Counts.{Counts};
ghost use Rattle.eaw_face.specs.Causes.{IsAlive};
ghost use Rattle.mirror.specs.Applying.{IsFree};
ghost use Rattle.eaw_script.specs.Mirrored.{RanAs};

use crate::commands::Commands;
use crate::run::answer_commands;
use eaw_face::EawStore;
use frame_lines::Framed;
use mirror::{MemoryLink, Primary};
use outside::Sink;
use script_run::{Ended, answer_lines};
use std::alloc::Global;

/// Answers the lines of a script of raw commands, over a store that is not dead and has no number live: as `answer_commands` does, or so
/// that before each answer stands a line for each frame that the command sends. Returns the store.
pub fn answer_script<K: Sink, S: EawStore>(
    alloc: Global,
    frames: bool,
    input: &[u8],
    sink: &mut K,
    store: S,
) -> (Ended, S)
    requires alive { IsAlive (S.view store) }
    requires free { IsFree (S.view store) }
    // The frames are in sequence from 1, and at each whole answer those so far, applied in order to the data at first, give the committed
    // data.
    ensures ran { Wrote K.tells (K.written sink.old) (K.written sink.new) (K.faults sink.old) (K.faults sink.new)
        (λ cut text. IsTrue S.tells → RanAs frames S.opens (S.view store) (S.view result.1) (lines_of input.now) result.0 cut text) }
    ensures alive { result.0 ≡ Ended.All → (S.view result.1).is_dead ≡ false }
    // A count rose only if the script ended for that reason.
    ensures counts { Counts result.0 (K.faults sink.old) (K.faults sink.new) (S.view store).faults (S.view result.1).faults }
{
    if !frames {
        return answer_commands(alloc, input, sink, store);
    }
    let primary = match Primary::attach(alloc, store, MemoryLink::new(alloc)) {
        Ok(primary) => primary,
        Err((_, store, _)) => return (Ended::NoMemory, store),
    };
    let mut framed = Framed::new(alloc, Commands { store: primary });
    let ended = answer_lines(alloc, input, sink, &mut framed);
    let Framed {
        responder,
        reply: _,
    } = framed;
    let (store, _link) = responder.store.into_parts();
    (ended, store)
}
