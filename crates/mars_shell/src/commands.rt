// A run of raw commands.
ghost use Rattle.std.specs.Prelude.{◌≡◌, ℕ, List, IsTrue};
ghost use Rattle.command_words.specs.declared.words.Words.TheVariants.{Eaw};
ghost use Rattle.mars_shell.specs.Contract.{Wrote, InputSays, Counts, OutcomeFor, Spares};

use array_runs::{Status, open, script_status};
use command_words::EawOptions;
use eaw_script::answer_script;
use outside::{Sink, Source};
use pcm_media::Media;
use std::alloc::Global;
use std::marker::Brand;

/// Answers the raw commands of the source over the array that the medium holds, whatever its records are, and writes the frames that they
/// send if that is asked for.
pub(crate) fn run_commands<S: Source, K: Sink, M: Media>(
    alloc: Global,
    source: &mut S,
    sink: &mut K,
    media: M,
    options: EawOptions,
) -> (Status, M)
    ensures spares { Spares result.0 (result.1 ≡ media) (sink.new ≡ sink.old) }
    ensures counts { Counts result.0 (S.faults source.old) (S.faults source.new) (K.faults sink.old) (K.faults sink.new) (M.view media).faults (M.view result.1).faults }
    ensures steady { IsTrue (S.steady source.old) → result.0 ≡ Status.ReadFault → ⊥ }
    ensures input { IsTrue S.tells → InputSays result.0 (S.left source.old) (S.left source.new) }
    ensures ran { Wrote K.tells (K.written sink.old) (K.written sink.new) (K.faults sink.old) (K.faults sink.new)
        (λ cut text. (input : List ℕ) × (IsTrue S.tells → S.left source.old ≡ input) × (IsTrue M.tells → OutcomeFor (Eaw options) (λ place. Unit {0}) (M.view media) result.0 (M.view result.1) input cut text)) }
{
    let (input, store) = match open::<S, M, Brand>(alloc, true, source, media, 0) {
        Ok(opened) => opened,
        Err(ended) => return ended,
    };
    let (ended, store) = answer_script(alloc, options.frames, &input, sink, store);
    (script_status(ended), store.into_media())
}
