// What is made of one answer of a reader or a writer.
ghost use Rattle.std.specs.Prelude.{◌≡◌, ◌≢◌, ◌≤◌, ◌<◌, IfOk, IfErr};
ghost use Rattle.std.specs.IoError.{error_kind};
ghost use Rattle.outside.specs.Turning.{faults_after_turn};

use std::io;
use std::io::ErrorKind;

/// What comes of one call of a reader or a writer.
#[derive(Clone, Copy)]
pub(crate) enum Turn {
    /// It moved so many bytes.
    Done(usize),
    /// A signal came first: it is to be made again.
    Again,
    /// It failed.
    Failed,
}

/// What comes of a call with this answer, which is to move `least` bytes at least. A failure is counted.
pub(crate) fn turn_of(answer: io::Result<usize>, least: usize, faults: &mut u64) -> Turn
    ensures done { IfOk answer (λ n. least ≤ n → result ≡ Turn.Done n) }
    ensures short { IfOk answer (λ n. n < least → result ≡ Turn.Failed) }
    ensures again { IfErr answer (λ error. error_kind error ≡ ErrorKind.Interrupted → result ≡ Turn.Again) }
    ensures failed { IfErr answer (λ error. error_kind error ≢ ErrorKind.Interrupted → result ≡ Turn.Failed) }
    ensures counted { faults.new ≡ faults_after_turn faults.old result }
    ensures later { faults.old ≤ faults.new }
{
    match answer {
        Ok(count) if count >= least => return Turn::Done(count),
        Err(error) if error.kind() == ErrorKind::Interrupted => return Turn::Again,
        _ => {}
    }
    *faults = faults.saturating_add(1);
    Turn::Failed
}
