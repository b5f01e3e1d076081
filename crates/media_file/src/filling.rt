// The zeros of a file that is made longer.
ghost use Rattle.std.specs.Prelude.{◌≡◌, ◌+◌, ◌<◌, ◌^◌, ◌≤◌, ◌⊎◌, ℕ, length, get_or, min, replicate, IsTrue, IsOk, OnOk};
ghost use Rattle.media_file.specs.Counted.{Tried};
ghost use Rattle.media_file.specs.Filled.{pieces};
ghost use Rattle.media_file.specs.Past.{held, AreBefore};

use crate::{CallFault, Calls};
use mars_base::Failed;

const PIECE: u64 = 4096;

const ZEROS: [u8; 4096] = [0; 4096];

// So many zeros, but no more than a piece has.
fn zeros(len: u64) -> &'static [u8]
    ensures { result.now ≡ replicate (min len 4096) 0 }
{
    &ZEROS[..PIECE.min(len) as usize]
}

/// Writes `len` zeros at `at`, in pieces of 4,096 bytes: the system has room for them then, which it need not have for bytes that
/// were never written.
pub fn write_zeros<C: Calls>(calls: &mut C, moment: u64, at: u64, len: u64) -> Result<(), Failed>
    requires fits { at + len < 2 ^ 64 }
    requires within { IsTrue C.trusted → at + len ≤ length (held (C.past calls.old)).bytes }
    requires before { IsTrue C.trusted → AreBefore (moment + 1) (C.past calls.old).calls }
    ensures long { IsTrue C.trusted → length (held (C.past calls.new)).bytes ≡ length (held (C.past calls.old)).bytes }
    ensures zeros { IsTrue C.trusted → OnOk result ((i : ℕ) → i < len → get_or (held (C.past calls.new)).bytes (at + i) 0 ≡ 0) }
    ensures others { IsTrue C.trusted → (i : ℕ) → (i < at) ⊎ (at + len ≤ i) → get_or (held (C.past calls.new)).bytes i 0 ≡ get_or (held (C.past calls.old)).bytes i 0 }
    ensures before { IsTrue C.trusted → AreBefore (moment + 1) (C.past calls.new).calls }
    ensures tried { Tried len (C.faults calls.old) (C.faults calls.new) result }
    ensures steady { (more_calls more : ℕ) → IsTrue (C.steady calls.old (more_calls + pieces len) (len + more)) → IsOk result × IsTrue (C.steady calls.new more_calls more) }
{
    if len == 0 {
        return Ok(());
    }
    let mut done = 0;
    'turns: for _ in 0..u64::MAX {
        match calls.write_at(moment, at + done, zeros(len - done)) {
            Ok(count) => {
                done += count as u64;
                if done == len {
                    return Ok(());
                }
                if count == 0 {
                    return Err(Failed);
                }
            }
            Err(CallFault::Interrupted) => {}
            Err(CallFault::Failed) => return Err(Failed),
        }
    }
    Err(Failed)
}
