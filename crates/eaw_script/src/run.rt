// The run of a script of raw commands.
ghost use Rattle.std.specs.Prelude.{◌≡◌, ◌≢◌, false, IsTrue};
ghost use Rattle.script_run.specs.Lines.{lines_of};
ghost use Rattle.texts.specs.Written.{Wrote};
ghost use Rattle.script_run.specs.Counts.{Counts};
ghost use Rattle.script_run.specs.Transcript.{Ran};
ghost use Rattle.eaw_script.specs.Lines.{raw_script};
ghost use Rattle.eaw_script.specs.Progress.{Shows, Comes, begun};

use crate::commands::Commands;
use eaw_face::EawStore;
use outside::Sink;
use script_run::{Ended, answer_lines};
use std::alloc::Global;

/// Answers the lines of a script of raw commands over a store that is not dead, until all are answered or one ends the script, and returns
/// the store.
///
/// Each command is tested before the store is asked. Each answer is written in full before the next line is read.
pub fn answer_commands<K: Sink, S: EawStore>(
    alloc: Global,
    input: &[u8],
    sink: &mut K,
    store: S,
) -> (Ended, S)
    requires { (S.view store).is_dead ≡ false }
    // The text answers the lines one by one, and the store is left as it says. Whenever power is lost, the data is that at some point along
    // the lines.
    ensures ran { Wrote K.tells (K.written sink.old) (K.written sink.new) (K.faults sink.old) (K.faults sink.new)
        (λ cut text. let first = begun (S.view store).shape (S.view store).state in IsTrue S.tells
        → Ran raw_script (Shows (S.view result.1)) (Comes S.opens (S.view store) first (S.view result.1)) first (lines_of input.now) result.0 cut text) }
    ensures alive { result.0 ≡ Ended.All → (S.view result.1).is_dead ≡ false }
    // A count rose only if the script ended for that reason.
    ensures counts { Counts result.0 (K.faults sink.old) (K.faults sink.new) (S.view store).faults (S.view result.1).faults }
{
    let mut commands = Commands { store };
    let ended = answer_lines(alloc, input, sink, &mut commands);
    let Commands { store } = commands;
    (ended, store)
}
