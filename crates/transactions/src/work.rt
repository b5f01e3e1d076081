// The trait of what is done within one transaction.
ghost use Rattle.std.specs.Prelude.{◌≡◌, ◌<◌, [], Some, IsTrue, IfOk, IfErr};
ghost use Rattle.history.specs.Writes.{Table};
ghost use Rattle.history.specs.Table.{Granted};
ghost use Rattle.caller_steps.specs.Sound.{IsSound};
ghost use Rattle.caller_steps.specs.State.{records_of};
ghost use Rattle.transactions.specs.Adds.{Stays};
ghost use Rattle.transactions.specs.Went.{WentWithin, IsOfCore};
ghost use Rattle.transactions.specs.Makes.{Holds, IsGivenUp};

use crate::Refusal;
use caller_steps::Core;

/// Why a transaction was not made.
#[derive(Debug, PartialEq, Eq, Drop)]
pub enum Stop<E> {
    /// The core refused a call of it.
    Refused(Refusal),
    /// The work gave it up.
    GivenUp(E),
}

/// A call that the core refuses stops the work.
impl<E> From<Refusal> for Stop<E> {
    ghost use Rattle.std.specs.Prelude.{◌≡◌};
    ghost use Rattle.transactions.specs.declared.work.Stop.TheVariants.{Refused};

    ghost from_gives = { λ refusal stop. stop ≡ Refused refusal };

    fn from(refusal: Refusal) -> Self {
        Stop::Refused(refusal)
    }
}

/// What is done within one transaction, with an answer, or given up for a reason of its own.
pub trait Work<T, E> {
    /// What the calls of a transaction do that is made with this answer, on the records before it.
    ghost does: { Self → T → Table → Granted → Type 0 };

    /// On which records it is given up for this reason.
    ghost gives_up: { Self → E → Table → Type 0 };

    /// Makes the calls of the caller's transaction, which has just begun. It begins none of its own, and ends or offers none.
    fn make<C: Core>(&self, core: &mut C, caller: u8) -> Result<T, Stop<E>>
        requires inside { caller < (C.view core.old).limits.callers }
        requires sound { IsTrue C.tells → IsSound (C.view core.old).state }
        requires begun { IsTrue C.tells → (C.view core.old).state.live caller ≡ Some [] }
        ensures limits { (C.view core.new).limits ≡ (C.view core.old).limits }
        ensures stays { IsTrue C.tells → Stays caller (C.view core.old) (C.view core.new) }
        ensures within { IsTrue C.tells → WentWithin caller (C.view core.old) (C.view core.new) }
        ensures done { IsTrue C.tells → IfOk result (λ answer. Holds (does self.now answer (records_of (C.view core.old).state)) caller (C.view core.new)) }
        ensures stopped { IsTrue C.tells → IfErr result (IsGivenUp (gives_up self.now) (records_of (C.view core.old).state)) }
        ensures of_core { IsTrue C.tells → IfErr result (IsOfCore caller (C.view core.old) (C.view core.new)) };
}
