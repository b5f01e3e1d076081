// Copies of transactions.
ghost use Rattle.std.specs.Prelude.{◌≡◌, ◌≤◌, drop, length, IfOk};

use crate::{Done, History};
use mars_base::NoMemory;
use std::alloc::Global;

/// A copy of the transactions that come after the first `from`, in their order.
pub fn since(alloc: Global, history: &[Done], from: u64) -> Result<History, NoMemory>
    requires { from ≤ length history.now }
    ensures { IfOk result (λ copy. copy ≡ drop from history.now) }
{
    let mut copy = History::new(alloc);
    let dones = &history[from as usize..];
    for i in 0..dones.len() {
        let done = &dones[i];
        let calls = done.calls.copy()?;
        copy.push(Done {
            caller: done.caller,
            calls,
            at: done.at,
            last: done.last,
        })?;
    }
    Ok(copy)
}
