// The run of a script: each line is done and its answer is written.
ghost use Rattle.std.specs.Prelude.{◌≡◌, OnOk, IsErrOf, IsTrue};
ghost use Rattle.script_run.specs.Lines.{lines_of};
ghost use Rattle.texts.specs.MediaFault.{numbered_media_line};
ghost use Rattle.texts.specs.Written.{IsWritten, Wrote};
ghost use Rattle.script_run.specs.Answers.{LineRan, ending};
ghost use Rattle.script_run.specs.Counts.{Counts};
ghost use Rattle.script_run.specs.Transcript.{Ran};

use crate::ended::Ended;
use crate::lines::next_line;
use crate::responder::{Responder, Stop};
use outside::Sink;
use std::alloc::Global;
use texts::{numbered_media_line, write_front, write_whole};

/// Answers the lines of an input until all are answered or one ends the script. Each answer is written in full before the next line is
/// read.
pub fn answer_lines<K: Sink, R: Responder>(
    alloc: Global,
    input: &[u8],
    sink: &mut K,
    responder: &mut R,
) -> Ended
    requires { R.is_ready responder.old }
    // The text answers the lines one by one. It is cut short only if the sink failed.
    ensures ran { Wrote K.tells (K.written sink.old) (K.written sink.new) (K.faults sink.old) (K.faults sink.new)
        (λ cut text. IsTrue R.tells → (state : R.State) → R.stands responder.old state
        → Ran R.script (R.stands responder.new) (R.comes responder.old state responder.new) state (lines_of input.now) result cut text) }
    ensures ready { result ≡ Ended.All → R.is_ready responder.new }
    // A count rose only if the script ended for that reason.
    ensures counts { Counts result (K.faults sink.old) (K.faults sink.new) (R.faults responder.old) (R.faults responder.new) }
{
    let mut out = Vec::new(alloc);
    let mut rest = input;
    let mut n: u64 = 1;
    while let Some((line, after)) = next_line(rest) {
        match answer_line(line, n, sink, responder, &mut out) {
            Ok(()) => {}
            Err(ended) => return ended,
        }
        n += 1;
        rest = after;
    }
    Ended::All
}

// Answers the `n`-th line. An error says how the script ends.
fn answer_line<K: Sink, R: Responder>(
    line: &[u8],
    n: u64,
    sink: &mut K,
    responder: &mut R,
    out: &mut Vec<u8>,
) -> Result<(), Ended>
    requires { R.is_ready responder.old }
    ensures ready { OnOk result (R.is_ready responder.new) }
    ensures ran { Wrote K.tells (K.written sink.old) (K.written sink.new) (K.faults sink.old) (K.faults sink.new)
        (λ cut text. IsTrue R.tells → (state : R.State) → R.stands responder.old state
        → LineRan R.script (R.stands responder.new) (R.comes responder.old state responder.new) state n line.now result cut text) }
    ensures ended { IsErrOf result Ended.All → ⊥ }
    ensures counts { Counts (ending result) (K.faults sink.old) (K.faults sink.new) (R.faults responder.old) (R.faults responder.new) }
{
    match responder.answer(line, n, out) {
        Ok(()) => match write_whole(sink, out) {
            Ok(()) => Ok(()),
            Err(_) => Err(Ended::WriteFault),
        },
        Err(Stop::Media { number }) => {
            write_media_fault(sink, number);
            Err(Ended::MediaFault)
        }
        Err(Stop::NoMemory) => Err(Ended::NoMemory),
    }
}

// Writes the line of a fault of the medium. It is formed without memory, so how the script ends does not depend on memory.
#[cold]
fn write_media_fault<K: Sink>(sink: &mut K, number: u8)
    ensures { Wrote K.tells (K.written sink.old) (K.written sink.new) (K.faults sink.old) (K.faults sink.new) (λ cut part. IsWritten cut part (numbered_media_line number)) }
{
    let line = numbered_media_line(number);
    write_front(sink, line.as_bytes());
}
