// Callers that take turns by the lines of the input.
ghost use Rattle.std.specs.Prelude.{◌≡◌, ℕ, List, IsTrue};
ghost use Rattle.command_words.specs.declared.words.Words.TheVariants.{Run};
ghost use Rattle.mars_shell.specs.Contract.{Wrote, InputSays, Counts, depth_of, HasDepth, OutcomeFor, Spares};

use crate::core_work::CoreWork;
use crate::framed_run::run_framed;
use crate::records::over_records;
use crate::responder::LineCore;
use array_runs::Status;
use command_words::RunOptions;
use eaw_device::Depth;
use eaw_face::EawStore;
use mars_base::NoMemory;
use mars_core::Core;
use noted::{Keeper, KeepsNothing};
use outside::{Sink, Source};
use page_store::KeyIndex;
use pcm_media::Media;
use script_run::{Ended, answer_lines};
use std::alloc::Global;

/// Answers the lines of callers over the records of the array that the medium holds, if they are sound, and writes the frames that it sends
/// if that is asked for.
pub(crate) fn run_lines<S: Source, K: Sink, M: Media + Drop + Send, D: Depth + Send>(
    alloc: Global,
    source: &mut S,
    sink: &mut K,
    media: M,
    options: RunOptions,
) -> (Status, M)
    requires depth { HasDepth options.writing }
    requires of_type { (D.least ≡ depth_of options.writing) × (D.most ≡ depth_of options.writing) }
    ensures spares { Spares result.0 (result.1 ≡ media) (sink.new ≡ sink.old) }
    ensures counts { Counts result.0 (S.faults source.old) (S.faults source.new) (K.faults sink.old) (K.faults sink.new) (M.view media).faults (M.view result.1).faults }
    ensures steady { IsTrue (S.steady source.old) → result.0 ≡ Status.ReadFault → ⊥ }
    ensures input { IsTrue S.tells → InputSays result.0 (S.left source.old) (S.left source.new) }
    ensures ran { Wrote K.tells (K.written sink.old) (K.written sink.new) (K.faults sink.old) (K.faults sink.new)
        (λ cut text. (input : List ℕ) × (IsTrue S.tells → S.left source.old ≡ input) × (IsTrue M.tells → OutcomeFor (Run options) (λ place. Unit {0}) (M.view media) result.0 (M.view result.1) input cut text)) }
{
    let writing = options.writing;
    if options.frames {
        return run_framed::<S, K, M, D>(alloc, source, sink, media, writing);
    }
    over_records::<S, K, M, D, KeepsNothing, ByTurns>(alloc, source, sink, media, writing, &ByTurns)
}

/// The lines of the input are answered one by one.
#[derive(Drop)]
pub struct ByTurns;

impl CoreWork for ByTurns {
    ghost use Rattle.std.specs.Prelude.{[], true, false};
    ghost use Rattle.mars_shell.specs.Lines.{call_script};
    ghost use Rattle.mars_shell.specs.Run.{AnswersLines};

    ghost reads = { true };

    ghost can_be_done = { λ work. Unit {0} };

    ghost at_once = { false };

    ghost does = { λ work input ended cut text limits turns final. AnswersLines (call_script limits.callers) [] [] input ended cut text turns };

    fn reads(&self) -> bool {
        true
    }

    fn work_on<K: Sink, S: EawStore + Drop + Send, I: KeyIndex + Send, H: Keeper>(
        &self,
        alloc: Global,
        input: &[u8],
        numbers: u8,
        sink: &mut K,
        core: Core<S, I, H>,
    ) -> (Result<Ended, NoMemory>, Core<S, I, H>) {
        let mut lines = LineCore {
            core,
            callers: numbers,
        };
        let ended = answer_lines(alloc, input, sink, &mut lines);
        let LineCore { core, callers: _ } = lines;
        (Ok(ended), core)
    }
}
