// The writes of a file that serve one write of the medium: a part is followed by the rest, and an interrupted call is made again.
ghost use Rattle.std.specs.Prelude.{◌≡◌, ◌+◌, ◌≤◌, ◌<◌, ◌^◌, [], ◌∷◌, ℕ, length, IsTrue, IsOk, OnOk};
ghost use Rattle.pcm_media.specs.Images.{written};
ghost use Rattle.media_file.specs.Counted.{Tried};
ghost use Rattle.media_file.specs.Past.{held, AreBefore};
ghost use Rattle.media_file.specs.Transfer.{Serves};

use crate::{CallFault, Calls};
use mars_base::Failed;

/// Writes all the bytes at `at`.
pub fn write_all<C: Calls>(calls: &mut C, moment: u64, at: u64, bytes: &[u8]) -> Result<(), Failed>
    requires fits { at + length bytes.now < 2 ^ 64 }
    requires within { IsTrue C.trusted → at + length bytes.now ≤ length (held (C.past calls.old)).bytes }
    requires before { IsTrue C.trusted → AreBefore moment (C.past calls.old).calls }
    ensures written { IsTrue C.trusted → OnOk result (held (C.past calls.new) ≡ written at bytes.now (held (C.past calls.old))) }
    ensures serves { IsTrue C.trusted → Serves moment ((at, length bytes.now) ∷ []) (C.past calls.old) (C.past calls.new) }
    ensures tried { Tried (length bytes.now) (C.faults calls.old) (C.faults calls.new) result }
    ensures steady { (more_calls more : ℕ) → IsTrue (C.steady calls.old (more_calls + 1) (length bytes.now + more)) → IsOk result × IsTrue (C.steady calls.new more_calls more) }
{
    let mut done = 0;
    'turns: for _ in 0..u64::MAX {
        match calls.write_at(moment, at + done as u64, &bytes[done..]) {
            Ok(count) => {
                done += count;
                if done == bytes.len() {
                    return Ok(());
                }
                if count == 0 {
                    return Err(Failed);
                }
            }
            Err(CallFault::Interrupted) => {}
            Err(CallFault::Failed) => return Err(Failed),
        }
    }
    Err(Failed)
}
