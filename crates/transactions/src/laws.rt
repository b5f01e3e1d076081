// Laws of calls one after another, each of which follows from the definitions alone.
ghost use Rattle.std.specs.Prelude.{ℕ, IsTrue};
ghost use Rattle.history.specs.declared.call.Call.{Call};
ghost use Rattle.history.specs.declared.call.Reply.{Reply};
ghost use Rattle.caller_steps.specs.Core.{Steps};
ghost use Rattle.transactions.specs.Told.{reply_of};
ghost use Rattle.transactions.specs.Went.{Went, WentWithin, is_within, Refuses, IsOfCore};
ghost use Rattle.transactions.specs.Adds.{Stays};
ghost use Rattle.transactions.specs.declared.refusal.Refusal.{Refusal};
ghost use Rattle.transactions.specs.declared.work.Stop.{Stop};

use caller_steps::{Core, prefix_law};

/// A step is a call of its caller, and within a transaction if the call is. A refusal that tells its reply is then the core's.
pub(crate) fn what_a_call_is<C: Core>()
    ensures went { (old new : C) (caller : ℕ) (call : Call) (reply : Reply) → IsTrue C.tells → Steps C.tells caller call (C.view old) (C.view new) reply → Went caller (C.view old) (C.view new) }
    ensures within { (old new : C) (caller : ℕ) (call : Call) (reply : Reply) → IsTrue C.tells → IsTrue (is_within call) → Steps C.tells caller call (C.view old) (C.view new) reply → WentWithin caller (C.view old) (C.view new) }
    ensures refused { (old new : C) (caller : ℕ) (call : Call) (refusal : Refusal) → IsTrue C.tells → Steps C.tells caller call (C.view old) (C.view new) (reply_of refusal) → Refuses caller (C.view old) (C.view new) refusal }
{}

/// Calls of one caller after others: what they leave together, and that a refusal among the later or the earlier ones is one
/// among all.
pub fn calls_join<C: Core, E>()
    ensures stays { (old mid new : C) (caller : ℕ) → Stays caller (C.view old) (C.view mid) → Stays caller (C.view mid) (C.view new) → Stays caller (C.view old) (C.view new) }
    ensures within { (old mid new : C) (caller : ℕ) → WentWithin caller (C.view old) (C.view mid) → WentWithin caller (C.view mid) (C.view new) → WentWithin caller (C.view old) (C.view new) }
    ensures later { (old mid new : C) (caller : ℕ) (stop : Stop E) → Stays caller (C.view old) (C.view mid) → IsOfCore caller (C.view mid) (C.view new) stop → IsOfCore caller (C.view old) (C.view new) stop }
    ensures earlier { (old mid new : C) (caller : ℕ) (stop : Stop E) → Stays caller (C.view old) (C.view mid) → IsOfCore caller (C.view old) (C.view mid) stop → Stays caller (C.view mid) (C.view new) → IsOfCore caller (C.view old) (C.view new) stop }
{
    prefix_law::<C>();
}
