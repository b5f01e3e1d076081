// A user comes into a group.
ghost use Rattle.std.specs.Prelude.{◌≡◌, ◌≢◌, ◌<◌, ℕ, IsTrue, IfOk, IfErr, OnOk, OnErr};
ghost use Rattle.history.specs.Key.{main_name};
ghost use Rattle.history.specs.Table.{left_by};
ghost use Rattle.caller_steps.specs.Core.{Continues};
ghost use Rattle.caller_steps.specs.Sound.{IsSound};
ghost use Rattle.caller_steps.specs.State.{records_of};
ghost use Rattle.transactions.specs.Went.{IsOfCore};
ghost use Rattle.transactions.specs.Makes.{IsEnded, IsGivenUp, IsInDoubt, IsMade};
ghost use Rattle.membership.specs.Enrolled.{Enrolls, IsTaken, StaysInStep};

use caller_steps::Core;
use history::{main_table, what_a_write_shows};
use record_slots::Name;
use transactions::{Stop, Work, calls_join, get, put, transaction, value_of};

/// The user has a group already.
#[derive(Clone, Copy, Debug, PartialEq, Eq)]
pub struct Taken;

// A user who is to come into a group.
#[derive(Drop)]
struct Entry {
    groups: Name,
    user: u32,
    group: u32,
}

impl Work<(), Taken> for Entry {
    ghost does = { λ entry done table calls. Enrolls entry.groups entry.user entry.group table (left_by table calls) };

    ghost gives_up = { λ entry taken table. IsTaken entry.user table };

    // It has the clauses of the trait, since it has none of its own.
    fn make<C: Core>(&self, core: &mut C, caller: u8) -> Result<(), Stop<Taken>> {
        calls_join::<C, Taken>();
        let user = u64::from(self.user);
        let group = u64::from(self.group);
        if get(core, caller, main_table(), user)?.is_some() {
            return Err(Stop::GivenUp(Taken));
        }
        put(core, caller, main_table(), user, value_of(group))?;
        put(
            core,
            caller,
            self.groups,
            group * 0x1_0000_0000 + user,
            value_of(1),
        )?;
        Ok(())
    }
}

/// Brings a user who has none into a group, as one transaction of the caller, which must have none live. There must be a table `groups`.
pub fn enroll<C: Core>(
    core: &mut C,
    caller: u8,
    groups: Name,
    user: u32,
    group: u32,
) -> Result<(), Stop<Taken>>
    requires inside { caller < (C.view core.old).limits.callers }
    requires sound { IsTrue C.tells → IsSound (C.view core.old).state }
    // If it is done, the history has one more transaction, which writes both tables.
    ensures done { IsTrue C.tells → IfOk result (λ done. IsMade (λ table calls. Enrolls groups user group table (left_by table calls)) caller (C.view core.old) (C.view core.new)) }
    // If it is refused, the history is as it was.
    ensures refused { IsTrue C.tells → OnErr result ((C.view core.new).state.history ≡ (C.view core.old).state.history) }
    ensures cause { IsTrue C.tells → IfErr result (IsGivenUp (λ taken table. IsTaken user table) (records_of (C.view core.old).state)) }
    ensures of_core { IsTrue C.tells → IfErr result (IsOfCore caller (C.view core.old) (C.view core.new)) }
    // Afterwards the caller has no live transaction, unless it had one before, or the medium has failed. No other caller's changes.
    ensures ended { IsTrue C.tells → IsEnded caller (C.view core.old) (C.view core.new) }
    ensures others { IsTrue C.tells → (other : ℕ) → other ≢ caller → (C.view core.new).state.live other ≡ (C.view core.old).state.live other }
    // Only what is answered `Media` may leave a transaction in doubt, and that one writes just the same.
    ensures certain { IsTrue C.tells → OnOk result ((C.view core.new).state.doubt ≡ (C.view core.old).state.doubt) }
    ensures doubt { IsTrue C.tells → IfErr result (IsInDoubt (λ (done : Unit {0}) table calls. Enrolls groups user group table (left_by table calls)) caller (C.view core.old) (C.view core.new)) }
    // If both tables said the same after each prefix of the history, they still do, also with the transaction in doubt.
    ensures in_step { IsTrue C.tells → groups ≢ main_name → StaysInStep groups (C.view core.old).state → StaysInStep groups (C.view core.new).state }
    // The prefix law still holds: whatever a loss of power leaves has a prefix of the history.
    ensures goes_on { IsTrue C.tells → Continues (C.view core.old) (C.view core.new) }
    ensures limits { (C.view core.new).limits ≡ (C.view core.old).limits }
{
    what_a_write_shows();
    transaction(
        core,
        caller,
        &Entry {
            groups,
            user,
            group,
        },
    )
}
