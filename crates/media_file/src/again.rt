// Calls of a file that are made again when they are interrupted.
ghost use Rattle.std.specs.Prelude.{◌≡◌, ◌+◌, ℕ, IsTrue, MatchResult, IsOk, IfOk, OnOk};
ghost use Rattle.media_file.specs.Counted.{Tried};
ghost use Rattle.media_file.specs.Past.{noted, measured, resized, synced};

use crate::{CallFault, Calls};
use mars_base::Failed;

/// The length of the file in bytes.
pub fn measure<C: Calls>(calls: &mut C, moment: u64) -> Result<u64, Failed>
    ensures noted { IsTrue C.trusted → IfOk result (λ len. C.past calls.new ≡ noted moment (measured len) (C.past calls.old)) }
    ensures tried { Tried 0 (C.faults calls.old) (C.faults calls.new) result }
    ensures steady { (more_calls more : ℕ) → IsTrue (C.steady calls.old (more_calls + 1) more) → IsOk result × IsTrue (C.steady calls.new more_calls more) }
{
    'turns: for _ in 0..u64::MAX {
        match calls.len(moment) {
            Ok(len) => return Ok(len),
            Err(CallFault::Interrupted) => {}
            Err(CallFault::Failed) => return Err(Failed),
        }
    }
    Err(Failed)
}

/// Cuts the file to `len` bytes, or extends it to them with zeros.
pub fn resize<C: Calls>(calls: &mut C, moment: u64, len: u64) -> Result<(), Failed>
    ensures noted { IsTrue C.trusted → OnOk result (C.past calls.new ≡ noted moment (resized len) (C.past calls.old)) }
    ensures tried { Tried 0 (C.faults calls.old) (C.faults calls.new) result }
    ensures steady { (more_calls more : ℕ) → IsTrue (C.steady calls.old (more_calls + 1) more) → IsOk result × IsTrue (C.steady calls.new more_calls more) }
{
    'turns: for _ in 0..u64::MAX {
        match calls.set_len(moment, len) {
            Ok(()) => return Ok(()),
            Err(CallFault::Interrupted) => {}
            Err(CallFault::Failed) => return Err(Failed),
        }
    }
    Err(Failed)
}

/// Waits until all that was written, and the length, are durable.
pub fn sync<C: Calls>(calls: &mut C, moment: u64) -> Result<(), Failed>
    ensures noted { IsTrue C.trusted → MatchResult result
        (λ _. C.past calls.new ≡ noted moment synced (C.past calls.old))
        (λ _. C.past calls.new ≡ C.past calls.old) }
    ensures tried { Tried 0 (C.faults calls.old) (C.faults calls.new) result }
    ensures steady { (more_calls more : ℕ) → IsTrue (C.steady calls.old (more_calls + 1) more) → IsOk result × IsTrue (C.steady calls.new more_calls more) }
{
    'turns: for _ in 0..u64::MAX {
        match calls.sync_data(moment) {
            Ok(()) => return Ok(()),
            Err(CallFault::Interrupted) => {}
            Err(CallFault::Failed) => return Err(Failed),
        }
    }
    Err(Failed)
}
