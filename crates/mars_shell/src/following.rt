// A run of lines that say frames.
ghost use Rattle.std.specs.Prelude.{◌≡◌, ℕ, List, IsTrue};
ghost use Rattle.command_words.specs.declared.words.Words.TheVariants.{Follow};
ghost use Rattle.mars_shell.specs.Contract.{Wrote, InputSays, Counts, OutcomeFor, Spares};
ghost use Rattle.mars_shell.specs.Follow.{follow_status};

use array_runs::{Status, open};
use frame_lines::{FollowEnd, follow_lines};
use outside::{Sink, Source};
use pcm_media::Media;
use std::alloc::Global;
use std::marker::Brand;

/// Applies the frames that lines of the source say to the array that the medium holds, whatever its records are.
pub(crate) fn run_follow<S: Source, K: Sink, M: Media>(
    alloc: Global,
    source: &mut S,
    sink: &mut K,
    media: M,
) -> (Status, M)
    ensures spares { Spares result.0 (result.1 ≡ media) (sink.new ≡ sink.old) }
    ensures counts { Counts result.0 (S.faults source.old) (S.faults source.new) (K.faults sink.old) (K.faults sink.new) (M.view media).faults (M.view result.1).faults }
    ensures steady { IsTrue (S.steady source.old) → result.0 ≡ Status.ReadFault → ⊥ }
    ensures input { IsTrue S.tells → InputSays result.0 (S.left source.old) (S.left source.new) }
    ensures ran { Wrote K.tells (K.written sink.old) (K.written sink.new) (K.faults sink.old) (K.faults sink.new)
        (λ cut text. (input : List ℕ) × (IsTrue S.tells → S.left source.old ≡ input) × (IsTrue M.tells → OutcomeFor Follow (λ place. Unit {0}) (M.view media) result.0 (M.view result.1) input cut text)) }
{
    let (input, store) = match open::<S, M, Brand>(alloc, true, source, media, 0) {
        Ok(opened) => opened,
        Err(ended) => return ended,
    };
    let (ended, store) = follow_lines(alloc, &input, sink, store);
    (follow_status(ended), store.into_media())
}

// The status of lines that say frames.
fn follow_status(ended: FollowEnd) -> Status
    ensures { result ≡ follow_status ended }
{
    match ended {
        FollowEnd::All => Status::Good,
        FollowEnd::BadFrame { line } => Status::BadFrame { line },
        FollowEnd::Gap { expected, got } => Status::Gap { expected, got },
        FollowEnd::WriteFault => Status::WriteFault,
        FollowEnd::MediaFault => Status::MediaFault,
        FollowEnd::NoMemory => Status::NoMemory,
    }
}
