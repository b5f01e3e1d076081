// The lines of a script over a store that mirrors, after the frames that were sent before it.
ghost use Rattle.std.specs.Prelude.{◌≡◌, ◌<◌, [], true, false, All, IsTrue, OnOk, length};
ghost use Rattle.texts.specs.Written.{Wrote};
ghost use Rattle.script_run.specs.Lines.{lines_of};
ghost use Rattle.script_run.specs.Answers.{ending};
ghost use Rattle.script_run.specs.Counts.{Counts};
ghost use Rattle.frame_lines.specs.Framed.{Framed as FramedState, HasSent, IsBut, KeepsFrames, StandsOn};
ghost use Rattle.frame_lines.specs.Begun.{HasBegun, FrontWritten, RanFramed};

use crate::framed::{Framed, write_frames};
use crate::mirrored::Mirrored;
use outside::Sink;
use script_run::{Ended, answer_lines};
use std::alloc::Global;
use texts::write_whole;

/// Writes a line for each frame that the store still keeps, and then answers the lines of a script, each after the lines of the frames that
/// it sends. Returns the responder.
pub fn answer_framed<K: Sink, R: Mirrored>(
    alloc: Global,
    input: &[u8],
    sink: &mut K,
    responder: R,
) -> (Ended, R)
    requires ready { R.is_ready responder }
    requires mirrors { (R.view responder).sending.mirrors ≡ true }
    requires told { IsTrue (R.view responder).sending.told }
    requires some { All (λ frame. 0 < length frame) (R.view responder).sending.frames }
    ensures ran { Wrote K.tells (K.written sink.old) (K.written sink.new) (K.faults sink.old) (K.faults sink.new)
        (λ cut text. IsTrue R.tells → (state : FramedState R.State) → R.stands responder state.inner → HasBegun (R.view responder) state
        → RanFramed R.script R.holds (λ after. R.stands result.1 after.inner × HasSent (R.view result.1) after) (λ after. R.comes responder state.inner result.1 after.inner)
        (R.view responder) state (lines_of input.now) result.0 cut text) }
    // A count rose only if the script ended for that reason.
    ensures counts { Counts result.0 (K.faults sink.old) (K.faults sink.new) (R.faults responder) (R.faults result.1) }
{
    let mut responder = responder;
    match write_begun(alloc, sink, &mut responder) {
        Ok(()) => {}
        Err(ended) => return (ended, responder),
    }
    let mut framed = Framed::new(alloc, responder);
    let ended = answer_lines(alloc, input, sink, &mut framed);
    let Framed {
        responder,
        reply: _,
    } = framed;
    (ended, responder)
}

// Writes a line for each frame that the store keeps, and gives them up. An error says how the script ends before its first line.
fn write_begun<K: Sink, R: Mirrored>(
    alloc: Global,
    sink: &mut K,
    responder: &mut R,
) -> Result<(), Ended>
    requires ready { R.is_ready responder.old }
    requires frames { KeepsFrames (R.view responder.old) }
    ensures stands { StandsOn R.tells R.is_ready R.stands R.comes R.faults responder.old responder.new }
    ensures is_but { IsBut (R.view responder.old) (R.view responder.new) }
    ensures none { OnOk result ((R.view responder.new).sending.frames ≡ []) }
    ensures wrote { Wrote K.tells (K.written sink.old) (K.written sink.new) (K.faults sink.old) (K.faults sink.new) (FrontWritten (R.view responder.old) result) }
    ensures counts { Counts (ending result) (K.faults sink.old) (K.faults sink.new) (R.faults responder.old) (R.faults responder.new) }
{
    if responder.link_down() {
        return Err(Ended::NoMemory);
    }
    let mut out = Vec::new(alloc);
    match write_frames(responder, &mut out) {
        Ok(()) => {}
        Err(_) => return Err(Ended::NoMemory),
    }
    match write_whole(sink, &out) {
        Ok(()) => Ok(()),
        Err(_) => Err(Ended::WriteFault),
    }
}
