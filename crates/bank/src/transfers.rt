// A transfer from one account to another.
ghost use Rattle.std.specs.Prelude.{◌≡◌, ◌≢◌, ◌<◌, [], ℕ, Some, IsTrue, IfOk, IfErr, OnOk, OnErr, decimal};
ghost use Rattle.std.specs.FinMap as map;
ghost use Rattle.history.specs.Key.{of_main};
ghost use Rattle.history.specs.Table.{left_by};
ghost use Rattle.caller_steps.specs.Core.{Continues};
ghost use Rattle.caller_steps.specs.Sound.{IsSound};
ghost use Rattle.caller_steps.specs.State.{records_of};
ghost use Rattle.transactions.specs.Adds.{Stays};
ghost use Rattle.transactions.specs.Went.{WentWithin, IsOfCore};
ghost use Rattle.transactions.specs.Makes.{Holds, IsEnded, IsGivenUp, IsInDoubt, IsMade};
ghost use Rattle.bank.specs.Accounts.{Transfers};
ghost use Rattle.bank.specs.Moves.{IsBalanced, IsOfRead, IsRefused, IsUntold};

use crate::accounts::{Refusal, read, write};
use caller_steps::Core;
use history::what_a_write_shows;
use transactions::{Stop, Work, abort, begin, calls_join, transaction};

// An amount that goes from one account to another.
#[derive(Drop)]
struct Payment {
    from: u64,
    to: u64,
    amount: u64,
}

/// The calls that move the amount.
impl Work<(), Refusal> for Payment {
    ghost does = { λ transfer done table calls. Transfers transfer.from transfer.to transfer.amount table (left_by table calls) };

    ghost gives_up = { λ transfer refusal table. IsRefused transfer.from transfer.to transfer.amount refusal table };

    fn make<C: Core>(&self, core: &mut C, caller: u8) -> Result<(), Stop<Refusal>>
        requires inside { caller < (C.view core.old).limits.callers }
        requires sound { IsTrue C.tells → IsSound (C.view core.old).state }
        requires begun { IsTrue C.tells → (C.view core.old).state.live caller ≡ Some [] }
        ensures limits { (C.view core.new).limits ≡ (C.view core.old).limits }
        ensures stays { IsTrue C.tells → Stays caller (C.view core.old) (C.view core.new) }
        ensures within { IsTrue C.tells → WentWithin caller (C.view core.old) (C.view core.new) }
        ensures done { IsTrue C.tells → IfOk result (λ done. Holds (λ calls. Transfers self.now.from self.now.to self.now.amount (records_of (C.view core.old).state) (left_by (records_of (C.view core.old).state) calls)) caller (C.view core.new)) }
        ensures stopped { IsTrue C.tells → IfErr result (IsGivenUp (IsRefused self.now.from self.now.to self.now.amount) (records_of (C.view core.old).state)) }
        ensures of_core { IsTrue C.tells → IfErr result (IsOfCore caller (C.view core.old) (C.view core.new)) }
    {
        calls_join::<C, Refusal>();
        let paying = read(core, caller, self.from)?;
        let paid = read(core, caller, self.to)?;
        let Some(less) = paying.checked_sub(self.amount) else {
            return Err(Stop::GivenUp(Refusal::Insufficient { balance: paying }));
        };
        let Some(more) = paid.checked_add(self.amount) else {
            return Err(Stop::GivenUp(Refusal::TooMuch { balance: paid }));
        };
        write(core, caller, self.from, less)?;
        write(core, caller, self.to, more)
    }
}

/// Moves an amount from one account to another, as one transaction of the caller, which must have none live.
pub fn transfer<C: Core>(
    core: &mut C,
    caller: u8,
    from: u64,
    to: u64,
    amount: u64,
) -> Result<(), Stop<Refusal>>
    requires inside { caller < (C.view core.old).limits.callers }
    requires apart { from ≢ to }
    requires sound { IsTrue C.tells → IsSound (C.view core.old).state }
    // If it is done, the history has one more transaction, which moves the amount.
    ensures done { IsTrue C.tells → IfOk result (λ done. IsMade (λ table calls. Transfers from to amount table (left_by table calls)) caller (C.view core.old) (C.view core.new)) }
    // If it is refused, the history is as it was.
    ensures refused { IsTrue C.tells → OnErr result ((C.view core.new).state.history ≡ (C.view core.old).state.history) }
    ensures cause { IsTrue C.tells → IfErr result (IsGivenUp (IsRefused from to amount) (records_of (C.view core.old).state)) }
    ensures of_core { IsTrue C.tells → IfErr result (IsOfCore caller (C.view core.old) (C.view core.new)) }
    // Afterwards the caller has no live transaction, unless it had one before, or the medium has failed. No other caller's changes.
    ensures ended { IsTrue C.tells → IsEnded caller (C.view core.old) (C.view core.new) }
    ensures others { IsTrue C.tells → (other : ℕ) → other ≢ caller → (C.view core.new).state.live other ≡ (C.view core.old).state.live other }
    // Only a transfer that is answered `Media` may leave a transaction in doubt, and that one moves just the amount.
    ensures certain { IsTrue C.tells → OnOk result ((C.view core.new).state.doubt ≡ (C.view core.old).state.doubt) }
    ensures doubt { IsTrue C.tells → IfErr result (IsInDoubt (λ (done : Unit {0}) table calls. Transfers from to amount table (left_by table calls)) caller (C.view core.old) (C.view core.new)) }
    // The records of each prefix of the history have the same sum as those at the opening, also with the transaction in doubt.
    ensures balanced { IsTrue C.tells → IsBalanced (C.view core.old).state → IsBalanced (C.view core.new).state }
    // The prefix law still holds: whatever a loss of power leaves has a prefix of the history.
    ensures goes_on { IsTrue C.tells → Continues (C.view core.old) (C.view core.new) }
    ensures limits { (C.view core.new).limits ≡ (C.view core.old).limits }
{
    what_a_write_shows();
    transaction(core, caller, &Payment { from, to, amount })
}

/// The balance of an account, read in a transaction of the caller, which must have none live.
pub fn balance<C: Core>(core: &mut C, caller: u8, account: u64) -> Result<u64, Stop<Refusal>>
    requires inside { caller < (C.view core.old).limits.callers }
    requires sound { IsTrue C.tells → IsSound (C.view core.old).state }
    ensures stays { IsTrue C.tells → Stays caller (C.view core.old) (C.view core.new) }
    ensures ended { IsTrue C.tells → IsEnded caller (C.view core.old) (C.view core.new) }
    ensures says { IsTrue C.tells → IfOk result (λ n. map.get (records_of (C.view core.old).state) (of_main account) ≡ Some (decimal n)) }
    ensures cause { IfErr result (IsOfRead account) }
    ensures untold { IsTrue C.tells → IfErr result (IsGivenUp (IsUntold account) (records_of (C.view core.old).state)) }
    ensures of_core { IsTrue C.tells → IfErr result (IsOfCore caller (C.view core.old) (C.view core.new)) }
    ensures limits { (C.view core.new).limits ≡ (C.view core.old).limits }
{
    calls_join::<C, Refusal>();
    begin(core, caller)?;
    let told = read(core, caller, account);
    let _ = abort(core, caller);
    told
}
