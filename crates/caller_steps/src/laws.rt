// Laws of callers by turns, each of which follows from the definitions alone.
ghost use Rattle.std.specs.Prelude.{◌≡◌, ◌≢◌, ◌≤◌, ◌<◌, ◌++◌, List, ℕ, Some, None, All, IsTrue, IsFalse, length};
ghost use Rattle.history.specs.Writes.{Table, all_written};
ghost use Rattle.history.specs.Table.{Granted};
ghost use Rattle.history.specs.Legal.{IsLegal};
ghost use Rattle.history.specs.Locks.{has_table};
ghost use Rattle.history.specs.declared.call.Call.{Call};
ghost use Rattle.history.specs.declared.call.Call.TheVariants.{Table as OnTable, Control};
ghost use Rattle.history.specs.declared.call.TableCall.{TableCall};
ghost use Rattle.history.specs.declared.call.Control.TheVariants.{Settle};
ghost use Rattle.history.specs.declared.call.Reply.{Reply};
ghost use Rattle.history.specs.declared.key.Key.{Key};
ghost use Rattle.history.specs.declared.call.Reply.TheVariants.{Committed, Busy};
ghost use Rattle.history.specs.declared.transaction.Done.{Done};
ghost use Rattle.caller_steps.specs.State.{State, Index, unoffered, offered, unsettled, opened, records_of};
ghost use Rattle.caller_steps.specs.Locked.{Blocks, IsFree, IsBusyWith, finds_table};
ghost use Rattle.caller_steps.specs.Cause.{is_of_state, refusal_in, ReplyCause};
ghost use Rattle.caller_steps.specs.Room.{Limits};
ghost use Rattle.caller_steps.specs.Purging.{AreFree, Lost, Purges};
ghost use Rattle.caller_steps.specs.Step.{Step, Runs};
ghost use Rattle.caller_steps.specs.Sound.{IsCommittedAs, IsSound};
ghost use Rattle.caller_steps.specs.Fate.{Moves, is_refusal, is_by_chance, may_come_held};
ghost use Rattle.caller_steps.specs.Core.{IsSafe, Steps, Continues};
ghost use Rattle.caller_steps.specs.Offers.{offerers, group_in, group_end, group_done, group_writes, committed_group, doubted_group};

use crate::Core;

/// Over the calls of all callers, in any order, the history is legal, each live transaction is right on the records, and no two clash at
/// a stripe.
pub fn steps_keep_all_sound()
    ensures opened { (names : List (List ℕ)) (base : Table) (index : Index) → IsSound (opened names base index) }
    ensures step { (limits : Limits) (old new : State) (caller : ℕ) (call : Call) (reply : Reply) → IsSound old → Step limits old caller call reply new → IsSound new }
    ensures runs { (limits : Limits) (old new : State) (turns : List (ℕ × Call × Reply)) → IsSound old → Runs limits old turns new → IsSound new }
{}

/// Whatever callers ask, one after another, the committed transactions are a legal history of a one-thread table on the records at the
/// opening.
pub fn every_run_is_legal()
    ensures { (limits : Limits) (names : List (List ℕ)) (base : Table) (index : Index) (turns : List (ℕ × Call × Reply)) (new : State) → Runs limits (opened names base index) turns new → IsLegal base new.history }
{}

/// A step changes no live transaction but its caller's and, at a settle, those that were offered, and the history only at a commit or a
/// settle. It is refused or done as its reply says.
pub fn what_a_step_does()
    ensures { (limits : Limits) (old new : State) (caller : ℕ) (call : Call) (reply : Reply) → Step limits old caller call reply new → Moves limits.callers old caller call reply new }
{}

/// While a live caller's call on a table that is there clashes with another caller's live transaction, also one that was offered, the reply
/// is `Busy`, `Dead` or `NoMemory`, and nothing changes.
pub fn locks_come_first()
    ensures reply { (limits : Limits) (old new : State) (caller holder : ℕ) (calls : Granted) (asked : TableCall) (reply : Reply) → old.offers caller ≡ unoffered → old.live caller ≡ Some calls → IsTrue (has_table old.names asked) → Blocks old caller asked holder
        → Step limits old caller (OnTable asked) reply new → IsTrue (may_come_held reply) }
    ensures unchanged { (limits : Limits) (old new : State) (caller holder : ℕ) (calls : Granted) (asked : TableCall) (reply : Reply) → old.offers caller ≡ unoffered → old.live caller ≡ Some calls → IsTrue (has_table old.names asked) → Blocks old caller asked holder
        → Step limits old caller (OnTable asked) reply new → new ≡ old }
{}

/// Two replies to one call in one state are equal, also those of an array that is full, except for a fault of the medium, the count of a
/// purge, and `NoMemory`.
pub fn each_call_has_one_reply()
    ensures { (limits : Limits) (old : State) (caller : ℕ) (call : Call) (one other : Reply) (new next : State) → IsFalse (is_by_chance one) → IsFalse (is_by_chance other)
        → Step limits old caller call one new → Step limits old caller call other next → one ≡ other }
{}

/// The prefix law along steps of a core that tells its records. What was safe since some moment stays safe: whenever power is lost from
/// that moment on, what was committed by then is kept.
pub fn prefix_law<C: Core>()
    ensures none { (core : C) → IsSound (C.view core).state → IsSafe (C.view core) (C.view core).moment (length (C.view core).state.history) → Continues (C.view core) (C.view core) }
    ensures step { (old new : C) (caller : ℕ) (call : Call) (reply : Reply) → IsTrue C.tells → IsSound (C.view old).state → Steps C.tells caller call (C.view old) (C.view new) reply → Continues (C.view old) (C.view new) }
    ensures on { (old mid new : C) → Continues (C.view old) (C.view mid) → Continues (C.view mid) (C.view new) → Continues (C.view old) (C.view new) }
    ensures safe { (old new : C) (since least : ℕ) → Continues (C.view old) (C.view new) → since ≤ (C.view old).moment → least ≤ length (C.view old).state.history
        → IsSafe (C.view old) since least → IsSafe (C.view new) since least }
{}

/// Transactions of several callers that are committed together stand in the history one after another behind what was there, as one group.
/// All stays sound, also where the medium fails in their commit, so that all of them are in doubt.
pub fn groups_keep_all_sound()
    ensures history { (state : State) (callers : List ℕ) → (committed_group state callers).history ≡ state.history ++ group_in state (group_end state callers) callers }
    ensures sound { (state : State) (callers : List ℕ) → IsSound state → IsFalse state.is_dead → IsSound (committed_group state callers) }
    ensures doubted { (state : State) (callers : List ℕ) → IsSound state → IsFalse state.is_dead → IsSound (doubted_group state callers) }
{}

/// The number that a settle tells is that of a transaction of its caller's in the history. If no group had committed it before, all that
/// callers had offered are then committed, as one group behind the history, and the records have the writes of all of it.
pub fn what_a_settle_commits()
    ensures told { (limits : Limits) (old new : State) (caller n : ℕ) → IsSound old → Step limits old caller (Control Settle) (Committed n) new → IsCommittedAs new.history caller n }
    ensures group { (limits : Limits) (old new : State) (caller n : ℕ) → old.offers caller ≡ offered → Step limits old caller (Control Settle) (Committed n) new
        → new.history ≡ old.history ++ group_in old (group_end old (offerers limits.callers old)) (offerers limits.callers old) }
    ensures all { (limits : Limits) (old new : State) (caller n other : ℕ) → old.offers caller ≡ offered → Step limits old caller (Control Settle) (Committed n) new
        → other < limits.callers → other ≢ caller → old.offers other ≡ offered → new.offers other ≡ unsettled (group_done old (offerers limits.callers old) other).at }
    ensures records { (state : State) (callers : ℕ) → IsSound state
        → records_of (committed_group state (offerers callers state)) ≡ all_written (records_of state) (group_writes state (offerers callers state)) }
    ensures last { (state : State) (last : ℕ) (callers : List ℕ) → All (λ (done : Done). done.last ≡ last) (group_in state last callers) }
{}

/// What the cause of a reply says, of any core. By `Dead`, `Already`, `NoTransaction`, `NoSave`, `SavesFull` and `NoTable` a call is refused
/// exactly where the state alone refuses it. A holder is named only if it stands in the way, and it is the lowest: none, where nobody has a
/// transaction. A call is granted only on a table that is there, and where nobody stands in its way.
pub fn what_a_cause_says()
    ensures so { (limits : Limits) (old : State) (caller : ℕ) (call : Call) (refusal reply : Reply) → refusal_in old caller call ≡ Some refusal → ReplyCause limits old caller call reply → reply ≡ refusal }
    ensures only { (limits : Limits) (old : State) (caller : ℕ) (call : Call) (reply : Reply) → IsTrue (is_of_state reply) → ReplyCause limits old caller call reply → refusal_in old caller call ≡ Some reply }
    ensures busy { (limits : Limits) (old : State) (caller holder : ℕ) (call : Call) → ReplyCause limits old caller call (Busy holder) → (asked : TableCall) × (call ≡ OnTable asked) × IsBusyWith old caller asked holder }
    ensures nobody { (limits : Limits) (old : State) (caller holder : ℕ) (call : Call) → ((other : ℕ) → old.live other ≡ None) → ReplyCause limits old caller call (Busy holder) → ⊥ }
    ensures tabled { (limits : Limits) (old : State) (caller : ℕ) (call : Call) (reply : Reply) → IsFalse (is_refusal reply) → ReplyCause limits old caller call reply → IsTrue (finds_table old.names call) }
    ensures free { (limits : Limits) (old : State) (caller : ℕ) (asked : TableCall) (reply : Reply) → IsFalse (is_refusal reply) → ReplyCause limits old caller (OnTable asked) reply → IsFree old caller asked }
{}

/// What a purge takes out: so many keys, each without a record and touched by no live transaction. Each that the index had is tried once.
pub fn what_a_purge_takes_out()
    ensures lost { (limits : Limits) (old new : State) (n : ℕ) → Purges limits old n new → (keys : List Key) × (n ≡ length keys) × AreFree old keys × Lost old.index keys new.index }
{}
