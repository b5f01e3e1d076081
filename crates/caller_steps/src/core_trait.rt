// The trait of callers by turns.
ghost use Rattle.std.specs.Prelude.{◌≡◌, ◌<◌, ◌≤◌, ℕ, Bool, IsTrue, IsFalse, IsSome, IfSome, length, drop};
ghost use Rattle.history.specs.declared.call.Call.TheVariants.{Control};
ghost use Rattle.history.specs.declared.call.Control.TheVariants.{Purge};
ghost use Rattle.history.specs.declared.call.Reply.TheVariants.{Dead};
ghost use Rattle.caller_steps.specs.Core.{CoreView, Steps};
ghost use Rattle.caller_steps.specs.Fate.{is_busy, is_refusal};
ghost use Rattle.caller_steps.specs.Locked.{IsLocked, finds_table};
ghost use Rattle.caller_steps.specs.Purging.{PurgeCause};

use history::{Call, Done, Reply};
use record_slots::Names;

/// Makes one step at a time: a caller's call on a table of records, with locks on keys that are held until the transaction ends.
pub trait Core {
    /// Whether it tells its records. The clauses on replies and images hold if it does.
    ghost tells: { Bool };

    /// Whether it keeps its history in memory, so that it can be read again.
    ghost keeps: { Bool };

    /// Whether it gives up what need not be kept any longer. Without it what is kept is the whole history.
    ghost forgets: { Bool };

    ghost view: { Self → CoreView };

    /// From a core to the one that a step leaves: what the store below it has sent.
    ghost sends: { Self → Self → Type 0 };

    /// Answers a caller's call. Over any store a purge is refused with `Dead`, then with `Already` exactly if its caller has a
    /// transaction that is live or unsettled; else it is answered with a count, with `Media`, or with `Damaged`.
    fn step(&mut self, caller: u8, call: &Call) -> Reply
        requires { caller < (view self.old).limits.callers }
        ensures steps { Steps tells caller call.now (view self.old) (view self.new) result }
        ensures dead { IsTrue (view self.old).state.is_dead → (result ≡ Dead) × (self.new ≡ self.old) }
        ensures purge { call.now ≡ Control Purge → PurgeCause (view self.old).state caller result }
        ensures sends { sends self.old self.new };

    /// Answers a caller's call that clashes with no other caller's live transaction, as locks outside of the core have made sure. It makes
    /// the step that `step` would make, without a search for a holder. It grants no call on a table that is not there.
    fn step_locked(&mut self, caller: u8, call: &Call) -> Reply
        requires inside { caller < (view self.old).limits.callers }
        requires locked { IsLocked (view self.old).state caller call.now }
        ensures steps { Steps tells caller call.now (view self.old) (view self.new) result }
        ensures dead { IsTrue (view self.old).state.is_dead → (result ≡ Dead) × (self.new ≡ self.old) }
        ensures purge { call.now ≡ Control Purge → PurgeCause (view self.old).state caller result }
        ensures not_busy { IsFalse (is_busy result) }
        ensures tabled { IsFalse (is_refusal result) → IsTrue (finds_table (view self.old).state.names call.now) }
        ensures sends { sends self.old self.new };

    /// The names of the tables, by their numbers.
    fn names(&self) -> &Names
        ensures { result.now ≡ (view self.now).state.names };

    /// How many transactions have committed since the opening.
    fn told(&self) -> u64
        ensures { result ≡ length (view self.now).state.history };

    /// The transactions committed since the opening, in the order of their commits, if they are kept: how many of the first were given up, and
    /// those behind them.
    fn history(&self) -> Option<(u64, &[Done])>
        ensures first { IfSome result (λ kept. kept.0 ≤ length (view self.now).state.history) }
        ensures history { IfSome result (λ kept. kept.1.now ≡ drop kept.0 (view self.now).state.history) }
        ensures kept { IsTrue keeps → IsSome result }
        ensures whole { IsFalse forgets → IfSome result (λ kept. kept.0 ≡ 0) };

    /// The transactions up to number `told` need not be kept any longer. What contracts see of the core stays as it is, also its history: only
    /// less of it may be kept from then on, if the core forgets.
    fn forget(&mut self, told: u64)
        ensures { self.new ≡ self.old };
}

/// A core behind a pointer, which is quick to hand on.
impl<C: Core> Core for Box<C> {
    ghost tells = { C.tells };

    ghost keeps = { C.keeps };

    ghost forgets = { C.forgets };

    ghost view = { λ core. C.view core.value };

    ghost sends = { λ old new. C.sends old.value new.value };

    fn step(&mut self, caller: u8, call: &Call) -> Reply
        requires { caller < (C.view self.old.value).limits.callers }
        ensures steps { Steps C.tells caller call.now (C.view self.old.value) (C.view self.new.value) result }
        ensures dead { IsTrue (C.view self.old.value).state.is_dead → (result ≡ Dead) × (self.new ≡ self.old) }
        ensures purge { call.now ≡ Control Purge → PurgeCause (C.view self.old.value).state caller result }
        ensures sends { C.sends self.old.value self.new.value }
    {
        self.as_mut().step(caller, call)
    }

    fn step_locked(&mut self, caller: u8, call: &Call) -> Reply
        requires inside { caller < (C.view self.old.value).limits.callers }
        requires locked { IsLocked (C.view self.old.value).state caller call.now }
        ensures steps { Steps C.tells caller call.now (C.view self.old.value) (C.view self.new.value) result }
        ensures dead { IsTrue (C.view self.old.value).state.is_dead → (result ≡ Dead) × (self.new ≡ self.old) }
        ensures purge { call.now ≡ Control Purge → PurgeCause (C.view self.old.value).state caller result }
        ensures not_busy { IsFalse (is_busy result) }
        ensures tabled { IsFalse (is_refusal result) → IsTrue (finds_table (C.view self.old.value).state.names call.now) }
        ensures sends { C.sends self.old.value self.new.value }
    {
        self.as_mut().step_locked(caller, call)
    }

    fn names(&self) -> &Names
        ensures { result.now ≡ (C.view self.now.value).state.names }
    {
        self.as_ref().names()
    }

    fn told(&self) -> u64
        ensures { result ≡ length (C.view self.now.value).state.history }
    {
        self.as_ref().told()
    }

    fn history(&self) -> Option<(u64, &[Done])>
        ensures first { IfSome result (λ kept. kept.0 ≤ length (C.view self.now.value).state.history) }
        ensures history { IfSome result (λ kept. kept.1.now ≡ drop kept.0 (C.view self.now.value).state.history) }
        ensures kept { IsTrue C.keeps → IsSome result }
        ensures whole { IsFalse C.forgets → IfSome result (λ kept. kept.0 ≡ 0) }
    {
        self.as_ref().history()
    }

    fn forget(&mut self, told: u64)
        ensures { self.new ≡ self.old }
    {
        self.as_mut().forget(told);
    }
}
