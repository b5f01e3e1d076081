// Whole transactions.
ghost use Rattle.std.specs.Prelude.{◌≡◌, ◌≢◌, ◌+◌, ◌<◌, ℕ, None, IsTrue, IfOk, IfErr, OnOk, OnErr};
ghost use Rattle.caller_steps.specs.Core.{Continues};
ghost use Rattle.caller_steps.specs.Sound.{IsSound};
ghost use Rattle.caller_steps.specs.State.{records_of};
ghost use Rattle.transactions.specs.Went.{Went, IsOfCore};
ghost use Rattle.transactions.specs.Tries.{IsOften, WentTries, was_busy};
ghost use Rattle.transactions.specs.Makes.{IsGivenUp, IsMade, IsEnded, IsInDoubt, MayAdd};

use crate::Refusal;
use crate::calls::{abort, begin, commit};
use crate::work::{Stop, Work};
use caller_steps::{Core, prefix_law};

/// Does the work as one transaction of the caller, which must have none live: it is committed if the work is done, and aborted if not.
pub fn transaction<C: Core, T: Drop, E: Drop, W: Work<T, E>>(
    core: &mut C,
    caller: u8,
    work: &W,
) -> Result<T, Stop<E>>
    requires inside { caller < (C.view core.old).limits.callers }
    requires sound { IsTrue C.tells → IsSound (C.view core.old).state }
    ensures limits { (C.view core.new).limits ≡ (C.view core.old).limits }
    ensures goes_on { IsTrue C.tells → Continues (C.view core.old) (C.view core.new) }
    // If it is made, the history has one more transaction, which does the work.
    ensures made { IsTrue C.tells → IfOk result (λ answer. IsMade (W.does work.now answer) caller (C.view core.old) (C.view core.new)) }
    // If not, the history is as it was, and that is so because the core refused a call of it, or as the work says.
    ensures refused { IsTrue C.tells → OnErr result ((C.view core.new).state.history ≡ (C.view core.old).state.history) }
    ensures cause { IsTrue C.tells → IfErr result (IsGivenUp (W.gives_up work.now) (records_of (C.view core.old).state)) }
    ensures of_core { IsTrue C.tells → IfErr result (IsOfCore caller (C.view core.old) (C.view core.new)) }
    // It is one try.
    ensures tries { IsTrue C.tells → WentTries 1 caller (C.view core.old) (C.view core.new) }
    // Afterwards the caller has no live transaction, unless it had one before, or the medium has failed. No other caller's changes, and what
    // callers have offered stays so.
    ensures went { IsTrue C.tells → Went caller (C.view core.old) (C.view core.new) }
    ensures ended { IsTrue C.tells → IsEnded caller (C.view core.old) (C.view core.new) }
    ensures others { IsTrue C.tells → (other : ℕ) → other ≢ caller → (C.view core.new).state.live other ≡ (C.view core.old).state.live other }
    ensures offers { IsTrue C.tells → (C.view core.new).state.offers ≡ (C.view core.old).state.offers }
    // Only one that is answered `Media` may be in doubt, and it does the work too.
    ensures certain { IsTrue C.tells → OnOk result ((C.view core.new).state.doubt ≡ (C.view core.old).state.doubt) }
    ensures doubt { IsTrue C.tells → IfErr result (IsInDoubt (λ answer. W.does work.now answer) caller (C.view core.old) (C.view core.new)) }
    // Together: the transactions that may be left are as they were, or one more that does the work.
    ensures grows { IsTrue C.tells → MayAdd (λ answer. W.does work.now answer) caller (C.view core.old) (C.view core.new) }
{
    prefix_law::<C>();
    begin(core, caller)?;
    match work.make(core, caller) {
        Ok(answer) => match commit(core, caller) {
            Ok(_) => Ok(answer),
            Err(refusal) => {
                let _ = abort(core, caller);
                Err(Stop::Refused(refusal))
            }
        },
        Err(stop) => {
            let _ = abort(core, caller);
            Err(stop)
        }
    }
}

/// Does the work as `transaction` does, and again while it is refused because another caller holds a key: at most so many times more. Each
/// refused try is aborted, so it leaves nothing.
pub fn transaction_retried<C: Core, T: Drop, E: Drop, W: Work<T, E>>(
    core: &mut C,
    caller: u8,
    work: &W,
    retries: u32,
) -> Result<T, Stop<E>>
    requires inside { caller < (C.view core.old).limits.callers }
    requires sound { IsTrue C.tells → IsSound (C.view core.old).state }
    ensures limits { (C.view core.new).limits ≡ (C.view core.old).limits }
    ensures goes_on { IsTrue C.tells → Continues (C.view core.old) (C.view core.new) }
    ensures made { IsTrue C.tells → IfOk result (λ answer. IsMade (W.does work.now answer) caller (C.view core.old) (C.view core.new)) }
    ensures refused { IsTrue C.tells → OnErr result ((C.view core.new).state.history ≡ (C.view core.old).state.history) }
    ensures cause { IsTrue C.tells → IfErr result (IsGivenUp (W.gives_up work.now) (records_of (C.view core.old).state)) }
    ensures of_core { IsTrue C.tells → IfErr result (IsOfCore caller (C.view core.old) (C.view core.new)) }
    // There are at most so many tries, and it is refused as busy only if the core refused a call so in each of them.
    ensures tries { IsTrue C.tells → WentTries (retries + 1) caller (C.view core.old) (C.view core.new) }
    ensures often { IsTrue C.tells → IfErr result (IsOften (retries + 1) caller (C.view core.old) (C.view core.new)) }
    ensures went { IsTrue C.tells → Went caller (C.view core.old) (C.view core.new) }
    ensures ended { IsTrue C.tells → IsEnded caller (C.view core.old) (C.view core.new) }
    ensures others { IsTrue C.tells → (other : ℕ) → other ≢ caller → (C.view core.new).state.live other ≡ (C.view core.old).state.live other }
    ensures offers { IsTrue C.tells → (C.view core.new).state.offers ≡ (C.view core.old).state.offers }
    ensures certain { IsTrue C.tells → OnOk result ((C.view core.new).state.doubt ≡ (C.view core.old).state.doubt) }
    ensures doubt { IsTrue C.tells → IfErr result (IsInDoubt (λ answer. W.does work.now answer) caller (C.view core.old) (C.view core.new)) }
    ensures grows { IsTrue C.tells → MayAdd (λ answer. W.does work.now answer) caller (C.view core.old) (C.view core.new) }
{
    prefix_law::<C>();
    let mut outcome = transaction(core, caller, work);
    for _retry in 0..retries {
        if !is_busy(&outcome) {
            return outcome;
        }
        outcome = transaction(core, caller, work);
    }
    outcome
}

fn is_busy<T, E>(outcome: &Result<T, Stop<E>>) -> bool
    ensures { result ≡ was_busy outcome.now }
{
    matches!(outcome, Err(Stop::Refused(Refusal::Busy { .. })))
}
