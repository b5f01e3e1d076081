// A pass reads the history of the shared core.
ghost use Rattle.std.specs.Prelude.{◌≡◌, ◌≤◌, ◌+◌, IsTrue, IsFalse, List, drop, length, IfOk, IfErr, IfSome, IsErrOf, IsSome};
ghost use Rattle.history.specs.Legal.{AreNumberedFrom};
ghost use Rattle.history.specs.declared.transaction.Done.{Done};
ghost use Rattle.caller_steps.specs.Prefix.{Grows};
ghost use Rattle.mars_manager.specs.Pass.{told_of, finds, IsOther};
ghost use Rattle.mars_manager.specs.Sharing.{IsLegalIn, SeesOwn, Reads};
ghost use Rattle.mars_manager.specs.Seat.{first_of, seat_of, IsSeat};

use crate::mars::{Again, CORE, Mars, TURN};
use crate::pass::Pass;
use crate::rule::GiveRead;
use crate::view::View;
use atomic_table::Seat;
use caller_steps::Core;
use history::{Done, History, since};
use mars_base::NoMemory;
use std::alloc::Global;

/// Why transactions were not copied: the core does not keep its history, it has given some of them up, or there was no memory.
#[derive(Clone, Copy, Debug, PartialEq, Eq)]
pub enum NotCopied {
    NotKept,
    Forgotten,
    NoMemory,
}

impl<C: Core + Drop> Mars<C> {
    // Tries once for the turn and, if it gets it, copies what the history has behind the first `from` transactions, and then says how many need
    // not be kept any longer.
    fn read(
        &self,
        alloc: Global,
        seat: &mut Seat<Option<C>, View<C>>,
        number: u8,
        from: u64,
        forgotten: u64,
    ) -> Result<Result<History, NotCopied>, Again>
        requires table { seat.old.table_id ≡ self.now.table }
        requires seat { IsSeat number seat.old.me }
        requires from { from ≤ length (first_of seat.old.me.0.passes).seen }
        ensures table { (seat.new.table_id ≡ seat.old.table_id) × (seat.new.id ≡ seat.old.id) }
        ensures one { IfOk result (λ _. seat.new.me ≡ seat_of (first_of seat.new.me.0.passes)) }
        ensures reads { IfOk result (λ _. Reads C.tells C.view (first_of seat.old.me.0.passes) (first_of seat.new.me.0.passes)) }
        ensures copy { IfOk result (λ copied. IfOk copied (λ history. history ≡ drop from (first_of seat.new.me.0.passes).seen)) }
        ensures numbered { IfOk result (λ copied. IfOk copied (λ history. AreNumberedFrom (from + 1) history)) }
        ensures kept { IsTrue C.keeps → IfOk result (λ copied. IsErrOf copied NotCopied.NotKept → ⊥) }
        ensures whole { IsFalse C.forgets → IfOk result (λ copied. IsErrOf copied NotCopied.Forgotten → ⊥) }
        ensures again { IfErr result (λ a. IsOther (first_of seat.old.me.0.passes) a.holder × (seat.new.me ≡ seat_of (finds (a.holder + 1) (first_of seat.old.me.0.passes)))) }
    {
        let shared = &self.table.shared;
        self.take_turn(seat, number)?;
        let mut core = shared.exchange(seat, CORE, None).unwrap();
        let copied = kept_since(alloc, core.history(), from);
        core.forget(forgotten);
        drop(shared.exchange(seat, CORE, Some(core)));
        shared.store::<GiveRead>(seat, TURN, 0);
        Ok(copied)
    }

    /// Tries once for the turn and, if it gets it, copies the transactions that the history has behind the first `from`, in the order of
    /// their commits, as a feed of readers takes them. The pass has then seen the whole history, also where there is no copy.
    /// It makes no step of the core.
    ///
    /// The first `forgotten` need not be kept any longer, and a core that forgets gives them up: `from`, if nobody else asks for them again,
    /// or 0.
    pub fn since(
        &self,
        alloc: Global,
        pass: &mut Pass<C>,
        from: u64,
        forgotten: u64,
    ) -> Result<Result<History, NotCopied>, Again>
        requires own { pass.old.table ≡ self.now.table }
        requires from { from ≤ length pass.old.known.seen }
        requires before { forgotten ≤ from }
        ensures table { pass.new.table ≡ pass.old.table }
        ensures copy { IfOk result (λ copied. IfOk copied (λ history. history ≡ drop from pass.new.known.seen)) }
        ensures numbered { IfOk result (λ copied. IfOk copied (λ history. AreNumberedFrom (from + 1) history)) }
        ensures kept { IsTrue C.keeps → IfOk result (λ copied. IsErrOf copied NotCopied.NotKept → ⊥) }
        ensures whole { IsFalse C.forgets → IfOk result (λ copied. IsErrOf copied NotCopied.Forgotten → ⊥) }
        ensures reads { IfOk result (λ _. Reads C.tells C.view pass.old.known pass.new.known) }
        ensures seen { Grows pass.old.known.seen pass.new.known.seen }
        ensures legal { IfOk result (λ _. IsTrue C.tells → IsLegalIn C.view pass.new.known) }
        ensures told { told_of pass.new.known ≡ told_of pass.old.known }
        ensures mine { SeesOwn pass.old.known pass.new.known }
        ensures holds { pass.new.known.holds ≡ pass.old.known.holds }
        ensures again { IfErr result (λ a. IsOther pass.old.known a.holder × (pass.new.known ≡ finds (a.holder + 1) pass.old.known)) }
    {
        self.read(alloc, &mut pass.seat, pass.number, from, forgotten)
    }
}

// A copy of what a history has behind the first `from` transactions, if it is kept: of it so many of the first were given up, and those
// behind them are there.
fn kept_since(
    alloc: Global,
    history: Option<(u64, &[Done])>,
    from: u64,
) -> Result<History, NotCopied>
    requires { IfSome history (λ kept. from ≤ kept.0 + length kept.1.now) }
    ensures copy { (log : List Done) → IfSome history.entry (λ kept. kept.1.now ≡ drop kept.0 log) → IfOk result (λ copy. copy ≡ drop from log) }
    ensures kept { IsSome history.entry → IsErrOf result NotCopied.NotKept → ⊥ }
    ensures whole { IfSome history.entry (λ kept. kept.0 ≡ 0) → IsErrOf result NotCopied.Forgotten → ⊥ }
{
    let Some((first, dones)) = history else {
        return Err(NotCopied::NotKept);
    };
    if from < first {
        return Err(NotCopied::Forgotten);
    }
    match since(alloc, dones, from - first) {
        Ok(copy) => Ok(copy),
        Err(NoMemory) => Err(NotCopied::NoMemory),
    }
}
