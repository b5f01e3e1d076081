//! A record that counts, in a transaction for each step.
//!
//! A sample to begin with, over any core of records. What each call of a transaction answers and leaves is said in `transactions`: read its
//! `calls.rt` next. The law behind it is `caller_steps::prefix_law`: a loss of power leaves the records of the first so many commits.
#![tactic(auto)]

ghost use Rattle.std.specs.Prelude.{◌≡◌, ◌<◌, IsTrue};
ghost use Rattle.caller_steps.specs.Sound.{IsSound};

use caller_steps::Core;
use record_slots::Name;
use transactions::{Refusal, begin, commit, get, number_in, put, value_of};

/// Raises the number under a key of a table by one, as a transaction of the caller, which must have none live. It answers the new number.
/// A refusal may leave the transaction live: `abort` it then.
pub fn raise<C: Core>(core: &mut C, caller: u8, table: Name, key: u64) -> Result<u64, Refusal>
    requires inside { caller < (C.view core.old).limits.callers }
    requires sound { IsTrue C.tells → IsSound (C.view core.old).state }
    ensures limits { (C.view core.new).limits ≡ (C.view core.old).limits }
    ensures still { IsTrue C.tells → IsSound (C.view core.new).state }
{
    begin(core, caller)?;
    let found = get(core, caller, table, key)?;
    let was = found.and_then(|value| number_in(&value)).unwrap_or(0);
    put(core, caller, table, key, value_of(was.saturating_add(1)))?;
    commit(core, caller)?;
    Ok(was.saturating_add(1))
}
