// A run of lines that say frames.
ghost use Rattle.std.specs.Prelude.{◌≡◌, IsTrue, OnOk, IfErr, is_err};
ghost use Rattle.texts.specs.Written.{Wrote, IsWritten};
ghost use Rattle.script_run.specs.Lines.{lines_of};
ghost use Rattle.eaw_face.specs.Causes.{IsAlive};
ghost use Rattle.eaw_face.specs.StoreView.{LeavesOnly};
ghost use Rattle.mirror.specs.Applying.{IsFree};
ghost use Rattle.frame_lines.specs.Lines.{applied_line};
ghost use Rattle.frame_lines.specs.Taken.{IsBetween, FollowedLine, OpensTaken, ending};
ghost use Rattle.frame_lines.specs.Followed.{FollowedLines, LeavesStore, OpensFirst, Counts};

use crate::ended::FollowEnd;
use crate::take::take_line;
use array_shape::Shape;
use eaw_face::EawStore;
use mirror::Follower;
use outside::Sink;
use script_run::next_line;
use std::alloc::Global;
use texts::{Piece, ShortText, write_whole};

/// Follows the lines of an input that say frames, over a store that is not dead and has no number live, and returns the store. A line that
/// begins with `frame ` is to say one frame in hexadecimal, in lower case, and any other line is passed over. Of each frame that is applied
/// is told how many are by then, before the next line is read.
pub fn follow_lines<K: Sink, S: EawStore>(
    alloc: Global,
    input: &[u8],
    sink: &mut K,
    store: S,
) -> (FollowEnd, S)
    requires alive { IsAlive (S.view store) }
    requires free { IsFree (S.view store) }
    ensures ran { Wrote K.tells (K.written sink.old) (K.written sink.new) (K.faults sink.old) (K.faults sink.new)
        (λ cut text. FollowedLines (S.view store).shape (LeavesStore S.tells S.opens (S.view store) (S.view result.1) result.0) (lines_of input.now) result.0 cut text) }
    // At each moment a loss of power leaves the data with some first of these frames applied.
    ensures moments { IsTrue S.tells → LeavesOnly (OpensFirst S.opens (S.view store).shape (S.view store).state.bytes (lines_of input.now)) (S.view store) (S.view result.1) }
    ensures counts { Counts result.0 (K.faults sink.old) (K.faults sink.new) (S.view store).faults (S.view result.1).faults }
{
    let shape = store.shape();
    let mut follower = match Follower::attach(alloc, store) {
        Ok(follower) => follower,
        Err((_, store)) => return (FollowEnd::NoMemory, store),
    };
    let ended = follow_all(alloc, shape, input, sink, &mut follower);
    (ended, follower.into_store())
}

// Follows the lines with a follower that has applied no frame.
fn follow_all<K: Sink, S: EawStore>(
    alloc: Global,
    shape: Shape,
    input: &[u8],
    sink: &mut K,
    follower: &mut Follower<S>,
) -> FollowEnd
    requires between { IsBetween follower.old }
    requires first { follower.old.applied ≡ 0 }
    requires alive { IsAlive (S.view follower.old.store) }
    requires shape { (S.view follower.old.store).shape ≡ shape }
    ensures ran { Wrote K.tells (K.written sink.old) (K.written sink.new) (K.faults sink.old) (K.faults sink.new)
        (λ cut text. FollowedLines (S.view follower.old.store).shape (LeavesStore S.tells S.opens (S.view follower.old.store) (S.view follower.new.store) result) (lines_of input.now) result cut text) }
    ensures moments { IsTrue S.tells → LeavesOnly (OpensFirst S.opens (S.view follower.old.store).shape (S.view follower.old.store).state.bytes (lines_of input.now)) (S.view follower.old.store) (S.view follower.new.store) }
    ensures counts { Counts result (K.faults sink.old) (K.faults sink.new) (S.view follower.old.store).faults (S.view follower.new.store).faults }
{
    let mut bytes = Vec::new(alloc);
    let mut rest = input;
    let mut n: u64 = 1;
    while let Some((line, after)) = next_line(rest) {
        match follow_line(shape, line, n, sink, follower, &mut bytes) {
            Ok(()) => {}
            Err(ended) => return ended,
        }
        n += 1;
        rest = after;
    }
    FollowEnd::All
}

// Follows the `n`-th line. An error says how the run ends.
fn follow_line<K: Sink, S: EawStore>(
    shape: Shape,
    line: &[u8],
    n: u64,
    sink: &mut K,
    follower: &mut Follower<S>,
    bytes: &mut Vec<u8>,
) -> Result<(), FollowEnd>
    requires between { IsBetween follower.old }
    requires shape { (S.view follower.old.store).shape ≡ shape }
    ensures ran { Wrote K.tells (K.written sink.old) (K.written sink.new) (K.faults sink.old) (K.faults sink.new)
        (λ cut text. FollowedLine S.tells S.view shape n line.now follower.old follower.new result cut text) }
    ensures between { OnOk result (IsBetween follower.new) }
    ensures moments { IsTrue S.tells → LeavesOnly (OpensTaken S.view S.opens shape line.now follower.old) (S.view follower.old.store) (S.view follower.new.store) }
    ensures counts { Counts (ending result) (K.faults sink.old) (K.faults sink.new) (S.view follower.old.store).faults (S.view follower.new.store).faults }
{
    match take_line(follower, shape, line, n, bytes) {
        Ok(None) => Ok(()),
        Ok(Some(count)) => tell(sink, count),
        Err(ended) => Err(ended),
    }
}

// Tells how many frames are applied.
fn tell<K: Sink>(sink: &mut K, count: u64) -> Result<(), FollowEnd>
    ensures told { Wrote K.tells (K.written sink.old) (K.written sink.new) (K.faults sink.old) (K.faults sink.new)
        (λ cut text. IsWritten cut text (applied_line count) × (cut ≡ is_err result)) }
    ensures cause { IfErr result (λ ended. ended ≡ FollowEnd.WriteFault) }
{
    let text = ShortText::of(&[
        Piece::Words(b"applied "),
        Piece::Number(count),
        Piece::Words(b"\n"),
    ]);
    match write_whole(sink, text.as_bytes()) {
        Ok(()) => Ok(()),
        Err(_) => Err(FollowEnd::WriteFault),
    }
}
