// The reads of a file that serve one read of the medium: a part is followed by the rest, and an interrupted call is made again.
ghost use Rattle.std.specs.Prelude.{◌≡◌, ◌+◌, ◌≤◌, ◌<◌, ◌^◌, [], ℕ, length, IsTrue, IsOk, OnOk};
ghost use Rattle.mars_base.specs.Bytes.{range};
ghost use Rattle.media_file.specs.Counted.{Tried};
ghost use Rattle.media_file.specs.Past.{held, AreBefore};
ghost use Rattle.media_file.specs.Transfer.{Serves};

use crate::{CallFault, Calls};
use mars_base::Failed;

/// Fills the buffer with the bytes from `at` on. An end of the file before the last of them is a fault.
pub fn read_all<C: Calls>(calls: &mut C, moment: u64, at: u64, buf: &mut [u8]) -> Result<(), Failed>
    requires fits { at + length buf.old < 2 ^ 64 }
    requires within { IsTrue C.trusted → at + length buf.old ≤ length (held (C.past calls.old)).bytes }
    requires before { IsTrue C.trusted → AreBefore moment (C.past calls.old).calls }
    ensures bytes { IsTrue C.trusted → OnOk result (buf.new ≡ range (held (C.past calls.old)).bytes at (length buf.old)) }
    ensures same { IsTrue C.trusted → held (C.past calls.new) ≡ held (C.past calls.old) }
    ensures serves { IsTrue C.trusted → Serves moment [] (C.past calls.old) (C.past calls.new) }
    ensures tried { Tried (length buf.old) (C.faults calls.old) (C.faults calls.new) result }
    ensures steady { (more_calls more : ℕ) → IsTrue (C.steady calls.old (more_calls + 1) more) → IsOk result × IsTrue (C.steady calls.new more_calls more) }
{
    let mut done = 0;
    'turns: for _ in 0..u64::MAX {
        match calls.read_at(moment, at + done as u64, &mut buf[done..]) {
            Ok(count) => {
                done += count;
                if done == buf.len() {
                    return Ok(());
                }
                if count == 0 {
                    return Err(Failed);
                }
            }
            Err(CallFault::Interrupted) => {}
            Err(CallFault::Failed) => return Err(Failed),
        }
    }
    Err(Failed)
}
