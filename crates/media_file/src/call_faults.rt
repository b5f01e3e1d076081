// How often calls of a file failed, and how often they were interrupted.
ghost use Rattle.std.specs.Prelude.{◌≡◌};

use crate::CallFault;

/// How many calls of a file failed, and how many were interrupted. A read or a write that takes none of some bytes has failed too:
/// made again, it might go on for ever. Each count stays at `u64::MAX`.
#[derive(Clone, Copy, Debug, PartialEq, Eq)]
pub struct CallFaults {
    pub failed: u64,
    pub interrupted: u64,
}

impl CallFaults {
    ghost use Rattle.media_file.specs.Counted.{no_faults, after_answer, part_of};

    /// The counts before the first call.
    pub fn new() -> CallFaults
        ensures { result ≡ no_faults }
    {
        CallFaults {
            failed: 0,
            interrupted: 0,
        }
    }

    /// Counts a call that has this answer, and answers so.
    pub fn count<T>(&mut self, answer: Result<T, CallFault>) -> Result<T, CallFault>
        ensures same { result ≡ answer }
        ensures counted { self.new ≡ after_answer answer self.old }
    {
        match &answer {
            Ok(_) => {}
            Err(CallFault::Interrupted) => self.interrupted = self.interrupted.saturating_add(1),
            Err(CallFault::Failed) => self.failed = self.failed.saturating_add(1),
        }
        answer
    }

    /// Counts a read or a write of `len` bytes that has this answer, and answers so.
    pub fn count_part(
        &mut self,
        len: usize,
        answer: Result<usize, CallFault>,
    ) -> Result<usize, CallFault>
        ensures same { result ≡ answer }
        ensures counted { self.new ≡ after_answer (part_of len answer) self.old }
    {
        match &answer {
            Ok(0) if len > 0 => self.failed = self.failed.saturating_add(1),
            Ok(_) => {}
            Err(CallFault::Interrupted) => self.interrupted = self.interrupted.saturating_add(1),
            Err(CallFault::Failed) => self.failed = self.failed.saturating_add(1),
        }
        answer
    }
}
