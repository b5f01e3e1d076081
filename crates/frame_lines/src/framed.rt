// Answers with the lines of frames before them.
ghost use Rattle.std.specs.Prelude.{◌≡◌, ◌++◌, [], OnOk, flat_map};
ghost use Rattle.frame_lines.specs.Framed.{bytes_line, KeepsFrames, StandsOn, IsBut};

use crate::mirrored::Mirrored;
use mars_base::NoMemory;
use script_run::{Responder, Stop};
use script_text::append_hex;
use std::alloc::Global;

/// A responder over a store that mirrors. The frames that the store sent for a line are written before its answer, and are given up. If the
/// sending ends, so does the script, as if memory had run out: a frame that was not kept is the reason.
#[derive(Drop)]
pub struct Framed<R> {
    pub responder: R,
    pub reply: Vec<u8>,
}

impl<R: Mirrored> Framed<R> {
    ghost use Rattle.std.specs.Prelude.{◌≡◌};

    pub fn new(alloc: Global, responder: R) -> Framed<R>
        ensures { result.responder ≡ responder }
    {
        Framed {
            responder,
            reply: Vec::new(alloc),
        }
    }
}

impl<R: Mirrored> Responder for Framed<R> {
    ghost use Rattle.frame_lines.specs.Framed.{Framed as State, framed as framed_script, IsSending, HasSent};

    ghost tells = { R.tells };

    ghost State = { State R.State };

    ghost script = { framed_script R.holds R.script };

    ghost is_ready = { λ framed. R.is_ready framed.responder × IsSending (R.view framed.responder) };

    ghost stands = { λ framed state. R.stands framed.responder state.inner × HasSent (R.view framed.responder) state };

    ghost comes = { λ old before new after. R.comes old.responder before.inner new.responder after.inner };

    ghost faults = { λ framed. R.faults framed.responder };

    ghost holds = { λ state. R.holds state.inner };

    ghost sends = { λ old new. Unit {0} };

    ghost comes_none = { λ framed state told ready stands. R.comes_none framed.responder state.inner told ready.0 stands.0 };

    ghost comes_on = { λ first mid last s t u told ready stands. R.comes_on first.responder mid.responder last.responder s.inner t.inner u.inner told ready.0 stands.0 };

    fn answer(&mut self, line: &[u8], n: u64, out: &mut Vec<u8>) -> Result<(), Stop> {
        self.responder.answer(line, n, &mut self.reply)?;
        if self.responder.link_down() {
            return Err(Stop::NoMemory);
        }
        out.clear();
        match write_answer(&mut self.responder, &self.reply, out) {
            Ok(()) => Ok(()),
            Err(_) => Err(Stop::NoMemory),
        }
    }
}

// Writes the frames that were sent, and then a reply.
fn write_answer<R: Mirrored>(
    responder: &mut R,
    reply: &[u8],
    out: &mut Vec<u8>,
) -> Result<(), NoMemory>
    requires frames { KeepsFrames (R.view responder.old) }
    requires ready { R.is_ready responder.old }
    ensures stands { StandsOn R.tells R.is_ready R.stands R.comes R.faults responder.old responder.new }
    ensures is_but { IsBut (R.view responder.old) (R.view responder.new) }
    ensures none { OnOk result ((R.view responder.new).sending.frames ≡ []) }
    ensures written { OnOk result (out.new.items ≡ (out.old.items ++ flat_map bytes_line (R.view responder.old).sending.frames) ++ reply.now) }
{
    write_frames(responder, out)?;
    out.extend_from_slice(reply)?;
    Ok(())
}

// Writes a line for each frame that was sent, the oldest first, and gives them up.
pub(crate) fn write_frames<R: Mirrored>(
    responder: &mut R,
    out: &mut Vec<u8>,
) -> Result<(), NoMemory>
    requires frames { KeepsFrames (R.view responder.old) }
    requires ready { R.is_ready responder.old }
    ensures stands { StandsOn R.tells R.is_ready R.stands R.comes R.faults responder.old responder.new }
    ensures is_but { IsBut (R.view responder.old) (R.view responder.new) }
    ensures none { OnOk result ((R.view responder.new).sending.frames ≡ []) }
    ensures written { OnOk result (out.new.items ≡ out.old.items ++ flat_map bytes_line (R.view responder.old).sending.frames) }
{
    'frames: loop {
        let frame = responder.first_frame();
        if frame.is_empty() {
            return Ok(());
        }
        append_line(out, frame)?;
        responder.drop_frame();
    }
}

// Appends the line of a frame.
fn append_line(out: &mut Vec<u8>, frame: &[u8]) -> Result<(), NoMemory>
    ensures { OnOk result (out.new.items ≡ out.old.items ++ bytes_line frame.now) }
{
    out.extend_from_slice(b"frame ")?;
    append_hex(out, frame)?;
    out.extend_from_slice(b"\n")?;
    Ok(())
}
