// A run, and the report at its end.
ghost use Rattle.std.specs.Prelude.{◌≡◌, ◌++◌, List, ℕ, Bool, map, IsTrue, string_bytes};
ghost use Rattle.std.specs.Process.{exit_status};
ghost use Rattle.mars_base.specs.Causes.{Rose};
ghost use Rattle.texts.specs.Written.{IsWritten, Wrote};
ghost use Rattle.array_runs.specs.Fault.{status_number};
ghost use Rattle.array_runs.specs.Input.{InputSays};
ghost use Rattle.array_runs.specs.Statuses.{Counts};
ghost use Rattle.mars_shell.specs.Asked.{WordsSay, IfReads, OutcomeFor};
ghost use Rattle.mars.specs.Ending.{IsUnbegun, error_line};

use mars_shell::{OpenDoorway, Status, fault_text, run};
use outside::{Sink, Source};
use pcm_media::Media;
use std::process::{ExitCode, Termination};
use std::sync::Wait;
use std::thread::Threads;
use texts::{Piece, ShortText, write_front};

/// A status that was reported, and the number that the program then ends with.
#[derive(Drop)]
pub struct Told {
    status: Status,
    number: u8,
    pub ghost of_status: { number ≡ status_number status },
}

/// The number that the program ends with. It is made of a status that was told, and of nothing else.
#[derive(Drop)]
pub struct Ending {
    number: u8,
}

impl From<Told> for Ending {
    fn from(told: Told) -> Ending
        ensures { result.number ≡ status_number told.status }
    {
        Ending {
            number: told.number,
        }
    }
}

impl Termination for Ending {
    fn report<R: Eprint>(self, _rt: &R) -> ExitCode
        ensures { exit_status result ≡ self.number }
    {
        ExitCode::from(self.number)
    }
}

/// Does what the words ask for, and reports to `errors` how that ended. Returns the medium too.
pub fn run_told<
    R: AllocGlobal + Threads + Wait + Sync,
    S: Source,
    K: Sink,
    M: Media + Drop + Send,
    E: Sink,
>(rt: &R, words: &[String], source: &mut S, sink: &mut K, media: M, errors: &mut E) -> (Told, M)
    // Of the status that is told holds what the run says of its own.
    ensures counts { Counts result.0.status (S.faults source.old) (S.faults source.new) (K.faults sink.old) (K.faults sink.new) (M.view media).faults (M.view result.1).faults }
    ensures input { WordsSay (map string_bytes words.now) result.0.status (source.new ≡ source.old) (λ asked. IfReads asked
        (source.new ≡ source.old) (IsTrue S.tells → InputSays result.0.status (S.left source.old) (S.left source.new))) }
    ensures ran { WordsSay (map string_bytes words.now) result.0.status ((source.new ≡ source.old) × (sink.new ≡ sink.old) × (result.1 ≡ media)) (λ asked. Wrote K.tells (K.written sink.old) (K.written sink.new) (K.faults sink.old) (K.faults sink.new)
        (λ cut text. (input : List ℕ) × (IsTrue S.tells → S.left source.old ≡ input) × (IsTrue M.tells → OutcomeFor asked (λ place. Unit {0}) (M.view media) result.0.status (M.view result.1) input cut text))) }
{
    let (status, media) = run(rt, words, source, sink, media, &mut OpenDoorway);
    let number = tell(&status, errors);
    (Told { status, number }, media)
}

/// Reports to `errors` why there was no run.
pub fn tell_unbegun<E: Sink>(status: Status, errors: &mut E) -> Told
    requires { IsUnbegun status }
    ensures { result.status ≡ status }
{
    let number = tell(&status, errors);
    Told { status, number }
}

// Writes a status to `errors`, as a line unless it is `Good`, and returns the number that the program ends with.
fn tell<E: Sink>(status: &Status, errors: &mut E) -> u8
    ensures number { result ≡ status_number status.now }
    // The line is cut short only if the sink failed.
    ensures told { (cut : Bool) × (part : List ℕ) × IsWritten cut part (error_line status.now)
        × (IsTrue cut → Rose (E.faults errors.old) (E.faults errors.new))
        × (IsTrue E.tells → E.written errors.new ≡ E.written errors.old ++ part) }
{
    let line = error_line(status);
    write_front(errors, line.as_bytes());
    status.number()
}

// The line is formed without memory, since there may be none left.
fn error_line(status: &Status) -> ShortText
    ensures { result ≡ error_line status.now }
{
    let mut text = [0; 64];
    let len = fault_text(status, &mut text);
    if len == 0 {
        return ShortText::of(&[]);
    }
    ShortText::of(&[
        Piece::Words(b"mars: "),
        Piece::Words(&text[..len]),
        Piece::Words(b"\n"),
    ])
}
