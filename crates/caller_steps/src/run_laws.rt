// Laws of runs, each of which follows from the definitions alone.
ghost use Rattle.std.specs.Prelude.{◌≡◌, ◌≢◌, ◌≤◌, ◌<◌, ◌+◌, ◌⊎◌, ◌||◌, ◌++◌, ◌∷◌, [], List, Bool, ℕ, Some, None, false, true, All, IsTrue, IsFalse, length};
ghost use Rattle.std.specs.List.{AllPairs, list_any};
ghost use Rattle.history.specs.declared.key.Key.{Key};
ghost use Rattle.history.specs.declared.call.Call.{Call};
ghost use Rattle.history.specs.declared.call.Reply.{Reply};
ghost use Rattle.history.specs.declared.transaction.Done.{Done};
ghost use Rattle.caller_steps.specs.State.{State, Index, unoffered, commits_of, records_of};
ghost use Rattle.caller_steps.specs.Offers.{is_offered};
ghost use Rattle.caller_steps.specs.Fate.{Stays};
ghost use Rattle.caller_steps.specs.Room.{Limits, IsShown};
ghost use Rattle.caller_steps.specs.Step.{Runs, RunsShown};
ghost use Rattle.caller_steps.specs.Core.{Steps};
ghost use Rattle.caller_steps.specs.Prefix.{Grows};
ghost use Rattle.caller_steps.specs.Run.{Turn, Heard, GoesAlong, AreOf, turns_of, has_fault, has_write, has_purge, HasNoOthers, LastTurn, IsTurn, IsTold};
ghost use Rattle.caller_steps.specs.Own.{own_of, told_of, calls_among, mine_in, doubt_in, KnowsLive};
ghost use Rattle.caller_steps.specs.Shown.{AreAsked, Change, gained_in, lost_in, Changed, Shows};

use crate::Core;

/// One run after another is a run, and a run can be cut at any turn. A run of a core that tells its records is one of steps.
pub fn runs_join_and_cut()
    ensures join { (tells : Bool) (limits : Limits) (first mid now : State) (xs ys : List Turn) → GoesAlong tells limits first xs mid → GoesAlong tells limits mid ys now → GoesAlong tells limits first (xs ++ ys) now }
    ensures cut { (tells : Bool) (limits : Limits) (first now : State) (xs ys : List Turn) → GoesAlong tells limits first (xs ++ ys) now → (mid : State) × GoesAlong tells limits first xs mid × GoesAlong tells limits mid ys now }
    ensures told { (tells : Bool) (limits : Limits) (first now : State) (turns : List Turn) → IsTrue tells → GoesAlong tells limits first turns now → Runs limits first turns now }
    ensures steps { (limits : Limits) (first now : State) (turns : List Turn) → Runs limits first turns now → GoesAlong true limits first turns now }
    ensures turn { (limits : Limits) (first now : State) (before after : List Turn) (turn : Turn) → Runs limits first (before ++ turn ∷ after) now → IsTurn limits first before turn after now }
{}

/// What a run leaves, of any core: the history only grows, the core is dead exactly if a turn reports a fault of the medium, a dead core
/// stays as it is, and the transactions of a caller that no turn names, and that has offered none, stay the same.
pub fn what_a_run_leaves()
    ensures names { (tells : Bool) (limits : Limits) (first now : State) (turns : List Turn) → GoesAlong tells limits first turns now → now.names ≡ first.names }
    ensures base { (tells : Bool) (limits : Limits) (first now : State) (turns : List Turn) → GoesAlong tells limits first turns now → now.base ≡ first.base }
    ensures grows { (tells : Bool) (limits : Limits) (first now : State) (turns : List Turn) → GoesAlong tells limits first turns now → Grows first.history now.history }
    ensures dead { (tells : Bool) (limits : Limits) (first now : State) (turns : List Turn) → GoesAlong tells limits first turns now → now.is_dead ≡ (first.is_dead || has_fault turns) }
    ensures still { (tells : Bool) (limits : Limits) (first now : State) (turns : List Turn) → GoesAlong tells limits first turns now → IsTrue first.is_dead → now ≡ first }
    ensures others { (tells : Bool) (limits : Limits) (caller : ℕ) (first now : State) (turns : List Turn) → GoesAlong tells limits first turns now → turns_of caller turns ≡ [] → IsFalse (is_offered (first.offers caller))
        → Stays first now caller }
    ensures nobody_else { (tells : Bool) (limits : Limits) (callers : ℕ) (first now : State) (turns : List Turn) → GoesAlong tells limits first turns now → AreOf callers turns
        → HasNoOthers callers first → HasNoOthers callers now }
{}

/// What a caller was told says what its own transactions are, whatever the others do: the live one, also on a core that does not tell its
/// records as long as the medium has not failed, the committed ones with their numbers, and those in doubt. One that it has offered and not
/// settled may meanwhile have been committed, or be in doubt, by another's settle.
pub fn a_caller_knows_its_own()
    ensures live { (tells : Bool) (limits : Limits) (caller : ℕ) (first now : State) (turns : List Turn) → GoesAlong tells limits first turns now → first.live caller ≡ None
        → first.offers caller ≡ unoffered → IsTrue tells ⊎ IsFalse now.is_dead → KnowsLive caller (own_of caller (turns_of caller turns)) now }
    ensures mine { (limits : Limits) (caller : ℕ) (first now : State) (turns : List Turn) → Runs limits first turns now → first.live caller ≡ None → first.offers caller ≡ unoffered
        → commits_of caller first.history ≡ [] → told_of caller now.history ≡ mine_in caller (own_of caller (turns_of caller turns)) (now.offers caller) }
    ensures doubt { (limits : Limits) (caller : ℕ) (first now : State) (turns : List Turn) → Runs limits first turns now → first.live caller ≡ None → first.offers caller ≡ unoffered
        → first.doubt ≡ [] → calls_among caller now.doubt ≡ doubt_in (own_of caller (turns_of caller turns)) (now.offers caller) }
    ensures owner { (limits : Limits) (callers : ℕ) (first now : State) (turns : List Turn) → Runs limits first turns now → AreOf callers turns → ((caller : ℕ) → (first.live caller ≡ None) × (first.offers caller ≡ unoffered))
        → first.doubt ≡ [] → All (λ (done : Done). done.caller < callers) now.doubt }
{}

/// What a caller knows of its last turn: the turns up to it begin the run and have all of its own, and the history then has all of its
/// transactions up to now, unless it has offered one and not settled.
pub fn what_was_seen_at_the_last_turn()
    ensures run { (tells : Bool) (limits : Limits) (caller : ℕ) (past : List Turn) (seen : List Done) (first now : State) (turns : List Turn) → LastTurn tells limits caller past seen first turns now → GoesAlong tells limits first turns now }
    ensures told { (tells : Bool) (limits : Limits) (caller : ℕ) (past : List Turn) (seen : List Done) (first now : State) (turns : List Turn) → LastTurn tells limits caller past seen first turns now
        → turns_of caller past ≡ turns_of caller turns }
    ensures grows { (tells : Bool) (limits : Limits) (caller : ℕ) (past : List Turn) (seen : List Done) (first now : State) (turns : List Turn) → LastTurn tells limits caller past seen first turns now → Grows seen now.history }
    ensures mine { (tells : Bool) (limits : Limits) (caller : ℕ) (past : List Turn) (seen : List Done) (first now : State) (turns : List Turn) (last : LastTurn tells limits caller past seen first turns now)
        → IsFalse (is_offered (last.mid.offers caller)) → commits_of caller seen ≡ commits_of caller now.history }
{}

/// Where in a run a caller was told something.
pub fn where_a_caller_was_told()
    ensures place { (caller : ℕ) (turns : List Turn) (front back : Heard) (entry : Call × Reply) → turns_of caller turns ≡ front ++ entry ∷ back → IsTold caller front entry back turns }
    ensures some { (p : Call × Reply → Bool) (callers : ℕ) (turns : List Turn) → AreOf callers turns → IsTrue (list_any (λ (turn : Turn). p (turn.1, turn.2)) turns)
        → (caller : ℕ) × (caller < callers) × IsTrue (list_any p (turns_of caller turns)) }
    ensures each { (p : Call × Reply → Bool) (caller : ℕ) (turns : List Turn) → IsTrue (list_any p (turns_of caller turns)) → IsTrue (list_any (λ (turn : Turn). p (turn.1, turn.2)) turns) }
{}

/// What each refusal within a run shows, up to any later state.
pub fn what_a_refusal_shows()
    ensures { (limits : Limits) (first now : State) (before after : List Turn) (caller : ℕ) (call : Call) (reply : Reply) → Runs limits first (before ++ (caller, call, reply) ∷ after) now
        → ((other : ℕ) → (first.live other ≡ None) × (first.offers other ≡ unoffered)) → IsFalse first.is_dead → Shows limits before after now caller call reply }
{}

/// Unless the medium fails, the index gains only keys that a turn asks to put, and loses keys only at purges. As many more slots are in use
/// as keys were gained, less those that were lost. If none was lost, those that were gained were all missing before and are distinct.
pub fn what_an_index_gains()
    ensures run { (limits : Limits) (first now : State) (turns : List Turn) → Runs limits first turns now → IsFalse now.is_dead
        → (changes : List Change) × Changed first.index changes now.index × AreAsked turns (gained_in changes) × (IsFalse (has_purge turns) → lost_in changes ≡ []) }
    ensures slots { (first now : Index) (changes : List Change) → Changed first changes now → now.keys.used_slots + length (lost_in changes) ≡ first.keys.used_slots + length (gained_in changes) }
    ensures missing { (first now : Index) (changes : List Change) → Changed first changes now → lost_in changes ≡ [] → All (λ key. first.keys.slot_of key ≡ None) (gained_in changes) }
    ensures apart { (first now : Index) (changes : List Change) → Changed first changes now → lost_in changes ≡ [] → AllPairs (λ one other. one ≢ other) (gained_in changes) }
{}

/// A run from callers without transactions in which no turn asks to write or to remove a record, or to purge, leaves the index and all
/// bytes of the data as they were, unless the medium fails.
pub fn what_reads_leave()
    ensures { (limits : Limits) (first now : State) (turns : List Turn) → Runs limits first turns now → ((caller : ℕ) → first.live caller ≡ None) → IsFalse (has_write turns) → IsFalse now.is_dead
        → now.index ≡ first.index }
{}

/// What runs say whose states are shown by their data: they are runs, one after another is one, the last state is shown unless it is dead, and
/// where data tells the index, two that end with the same data end with the same index. A step of a core that tells its records is such a run.
pub fn what_shown_runs_say<C: Core>()
    ensures runs { (core : C) (limits : Limits) (first now : State) (turns : List Turn) → RunsShown (C.view core).shows limits first turns now → Runs limits first turns now }
    ensures join { (core : C) (limits : Limits) (first mid now : State) (xs ys : List Turn) → RunsShown (C.view core).shows limits first xs mid → RunsShown (C.view core).shows limits mid ys now → RunsShown (C.view core).shows limits first (xs ++ ys) now }
    ensures end { (core : C) (limits : Limits) (first now : State) (turns : List Turn) → (IsFalse first.is_dead → (C.view core).shows first) → RunsShown (C.view core).shows limits first turns now → IsFalse now.is_dead → (C.view core).shows now }
    ensures index { (core : C) (limits : Limits) (of : List ℕ → Index) → ((state : State) → (C.view core).shows state → state.index ≡ of state.index.bytes) → (one other first last : State) (xs ys : List Turn)
        → (IsFalse first.is_dead → (C.view core).shows first) → (IsFalse last.is_dead → (C.view core).shows last) → RunsShown (C.view core).shows limits first xs one → RunsShown (C.view core).shows limits last ys other
        → IsFalse one.is_dead → IsFalse other.is_dead → one.index.bytes ≡ other.index.bytes → one.index ≡ other.index }
    ensures step { (old new : C) (caller : ℕ) (call : Call) (reply : Reply) → IsTrue C.tells → (IsFalse (C.view old).state.is_dead → (C.view old).shows (C.view old).state) → Steps C.tells caller call (C.view old) (C.view new) reply
        → RunsShown (C.view old).shows (C.view old).limits (C.view old).state ((caller, call, reply) ∷ []) (C.view new).state }
{}

/// Where its data shows the first state of a run, it shows each that is not dead: no state between two turns has a slot due, free slots, keys
/// that a purge keeps, or records but those that its data says. What one data shows is one.
pub fn what_data_shows()
    ensures along { (limits : Limits) (first now : State) (turns : List Turn) → IsShown limits first → Runs limits first turns now → IsFalse now.is_dead → IsShown limits now }
    ensures one { (limits : Limits) (one other : State) → IsShown limits one → IsShown limits other → one.index.bytes ≡ other.index.bytes → (one.names ≡ other.names) × (records_of one ≡ records_of other) × (one.index ≡ other.index) }
{}
