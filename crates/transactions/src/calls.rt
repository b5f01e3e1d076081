// The calls of a transaction, each with a result of its own.
ghost use Rattle.std.specs.Prelude.{◌≡◌, ◌<◌, [], ℕ, List, Bool, Some, None, IsTrue, IfOk, IfErr, OnOk, OnErr};
ghost use Rattle.history.specs.declared.call.Call.TheVariants.{Begin, Table as OnTable, Control as Controls};
ghost use Rattle.history.specs.declared.call.TableCall.TheVariants.{Get, Put, Del, Scan, Save, Back};
ghost use Rattle.history.specs.declared.call.Control.TheVariants.{Commit, Abort};
ghost use Rattle.history.specs.declared.call.Reply.TheVariants.{Fine, Found, Absent, Listed, Saved};
ghost use Rattle.caller_steps.specs.Core.{Steps, Continues};
ghost use Rattle.caller_steps.specs.Sound.{IsSound};
ghost use Rattle.caller_steps.specs.State.{unoffered};
ghost use Rattle.transactions.specs.Told.{reply_of, told_done, told_get, told_del, told_scan, told_save, told_commit};
ghost use Rattle.transactions.specs.Went.{Refuses, WentWithin};
ghost use Rattle.transactions.specs.Adds.{Stays, Adds, Keeps, Commits, MayDoubt, MayEnd, MayGrow};

use crate::Refusal;
use crate::laws::what_a_call_is;
use caller_steps::{Core, prefix_law};
use history::{Call, Control, Reply, Rows, TableCall};
use record_slots::{Name, Value};

/// Begins a transaction of the caller, which must have none, and none that it has offered and not settled.
pub fn begin<C: Core>(core: &mut C, caller: u8) -> Result<(), Refusal>
    requires inside { caller < (C.view core.old).limits.callers }
    requires sound { IsTrue C.tells → IsSound (C.view core.old).state }
    ensures steps { Steps C.tells caller Begin (C.view core.old) (C.view core.new) (told_done result) }
    ensures stays { IsTrue C.tells → Stays caller (C.view core.old) (C.view core.new) }
    ensures begun { IsTrue C.tells → OnOk result ((C.view core.old).state.live caller ≡ None) }
    ensures free { IsTrue C.tells → OnOk result ((C.view core.old).state.offers caller ≡ unoffered) }
    ensures ok { IsTrue C.tells → OnOk result ((C.view core.new).state.live caller ≡ Some []) }
    ensures err { IsTrue C.tells → OnErr result (Keeps caller (C.view core.old) (C.view core.new)) }
    ensures refused { IsTrue C.tells → IfErr result (Refuses caller (C.view core.old) (C.view core.new)) }
{
    prefix_law::<C>();
    what_a_call_is::<C>();
    match core.step(caller, &Call::Begin) {
        Reply::Fine => Ok(()),
        reply => Err(Refusal::from(reply)),
    }
}

/// What the caller sees under a key of a table.
pub fn get<C: Core>(
    core: &mut C,
    caller: u8,
    table: Name,
    key: u64,
) -> Result<Option<Value>, Refusal>
    requires inside { caller < (C.view core.old).limits.callers }
    requires sound { IsTrue C.tells → IsSound (C.view core.old).state }
    ensures steps { Steps C.tells caller (OnTable (Get table key)) (C.view core.old) (C.view core.new) (told_get result) }
    ensures stays { IsTrue C.tells → Stays caller (C.view core.old) (C.view core.new) }
    ensures within { IsTrue C.tells → WentWithin caller (C.view core.old) (C.view core.new) }
    ensures ok { IsTrue C.tells → OnOk result (Adds caller (Get table key) (told_get result) (C.view core.old) (C.view core.new)) }
    ensures err { IsTrue C.tells → OnErr result (Keeps caller (C.view core.old) (C.view core.new)) }
    ensures refused { IsTrue C.tells → IfErr result (Refuses caller (C.view core.old) (C.view core.new)) }
{
    prefix_law::<C>();
    what_a_call_is::<C>();
    match core.step(caller, &Call::Table(TableCall::Get { table, key })) {
        Reply::Found(value) => Ok(Some(value)),
        Reply::Absent => Ok(None),
        reply => Err(Refusal::from(reply)),
    }
}

/// Sets a key of a table to a value.
pub fn put<C: Core>(
    core: &mut C,
    caller: u8,
    table: Name,
    key: u64,
    value: Value,
) -> Result<(), Refusal>
    requires inside { caller < (C.view core.old).limits.callers }
    requires sound { IsTrue C.tells → IsSound (C.view core.old).state }
    ensures steps { Steps C.tells caller (OnTable (Put table key value)) (C.view core.old) (C.view core.new) (told_done result) }
    ensures stays { IsTrue C.tells → Stays caller (C.view core.old) (C.view core.new) }
    ensures within { IsTrue C.tells → WentWithin caller (C.view core.old) (C.view core.new) }
    ensures ok { IsTrue C.tells → OnOk result (Adds caller (Put table key value) Fine (C.view core.old) (C.view core.new)) }
    ensures err { IsTrue C.tells → OnErr result (Keeps caller (C.view core.old) (C.view core.new)) }
    ensures refused { IsTrue C.tells → IfErr result (Refuses caller (C.view core.old) (C.view core.new)) }
{
    prefix_law::<C>();
    what_a_call_is::<C>();
    match core.step(caller, &Call::Table(TableCall::Put { table, key, value })) {
        Reply::Fine => Ok(()),
        reply => Err(Refusal::from(reply)),
    }
}

/// Removes the record of a key of a table. It answers whether there was one.
pub fn del<C: Core>(core: &mut C, caller: u8, table: Name, key: u64) -> Result<bool, Refusal>
    requires inside { caller < (C.view core.old).limits.callers }
    requires sound { IsTrue C.tells → IsSound (C.view core.old).state }
    ensures steps { Steps C.tells caller (OnTable (Del table key)) (C.view core.old) (C.view core.new) (told_del result) }
    ensures stays { IsTrue C.tells → Stays caller (C.view core.old) (C.view core.new) }
    ensures within { IsTrue C.tells → WentWithin caller (C.view core.old) (C.view core.new) }
    ensures ok { IsTrue C.tells → OnOk result (Adds caller (Del table key) (told_del result) (C.view core.old) (C.view core.new)) }
    ensures err { IsTrue C.tells → OnErr result (Keeps caller (C.view core.old) (C.view core.new)) }
    ensures refused { IsTrue C.tells → IfErr result (Refuses caller (C.view core.old) (C.view core.new)) }
{
    prefix_law::<C>();
    what_a_call_is::<C>();
    match core.step(caller, &Call::Table(TableCall::Del { table, key })) {
        Reply::Fine => Ok(true),
        Reply::Absent => Ok(false),
        reply => Err(Refusal::from(reply)),
    }
}

/// The records of a table that the caller sees from one key to another, both included, by rising keys.
pub fn scan<C: Core>(
    core: &mut C,
    caller: u8,
    table: Name,
    low: u64,
    high: u64,
) -> Result<Rows, Refusal>
    requires inside { caller < (C.view core.old).limits.callers }
    requires sound { IsTrue C.tells → IsSound (C.view core.old).state }
    ensures steps { Steps C.tells caller (OnTable (Scan table low high)) (C.view core.old) (C.view core.new) (told_scan result) }
    ensures stays { IsTrue C.tells → Stays caller (C.view core.old) (C.view core.new) }
    ensures within { IsTrue C.tells → WentWithin caller (C.view core.old) (C.view core.new) }
    ensures ok { IsTrue C.tells → IfOk result (λ rows. Adds caller (Scan table low high) (Listed rows) (C.view core.old) (C.view core.new)) }
    ensures err { IsTrue C.tells → OnErr result (Keeps caller (C.view core.old) (C.view core.new)) }
    ensures refused { IsTrue C.tells → IfErr result (Refuses caller (C.view core.old) (C.view core.new)) }
{
    prefix_law::<C>();
    what_a_call_is::<C>();
    match core.step(caller, &Call::Table(TableCall::Scan { table, low, high })) {
        Reply::Listed(rows) => Ok(rows),
        reply => Err(Refusal::from(reply)),
    }
}

/// Sets a savepoint. It answers how many the transaction has now, which is the number of this one.
pub fn save<C: Core>(core: &mut C, caller: u8) -> Result<u32, Refusal>
    requires inside { caller < (C.view core.old).limits.callers }
    requires sound { IsTrue C.tells → IsSound (C.view core.old).state }
    ensures steps { Steps C.tells caller (OnTable Save) (C.view core.old) (C.view core.new) (told_save result) }
    ensures stays { IsTrue C.tells → Stays caller (C.view core.old) (C.view core.new) }
    ensures within { IsTrue C.tells → WentWithin caller (C.view core.old) (C.view core.new) }
    ensures ok { IsTrue C.tells → IfOk result (λ saves. Adds caller Save (Saved saves) (C.view core.old) (C.view core.new)) }
    ensures err { IsTrue C.tells → OnErr result (Keeps caller (C.view core.old) (C.view core.new)) }
    ensures refused { IsTrue C.tells → IfErr result (Refuses caller (C.view core.old) (C.view core.new)) }
{
    prefix_law::<C>();
    what_a_call_is::<C>();
    match core.step(caller, &Call::Table(TableCall::Save)) {
        Reply::Saved(saves) => Ok(saves),
        reply => Err(Refusal::from(reply)),
    }
}

/// Makes the transaction what it was at a save, and forgets the later ones.
pub fn back<C: Core>(core: &mut C, caller: u8, save: u32) -> Result<(), Refusal>
    requires inside { caller < (C.view core.old).limits.callers }
    requires sound { IsTrue C.tells → IsSound (C.view core.old).state }
    ensures steps { Steps C.tells caller (OnTable (Back save)) (C.view core.old) (C.view core.new) (told_done result) }
    ensures stays { IsTrue C.tells → Stays caller (C.view core.old) (C.view core.new) }
    ensures within { IsTrue C.tells → WentWithin caller (C.view core.old) (C.view core.new) }
    ensures ok { IsTrue C.tells → OnOk result (Adds caller (Back save) Fine (C.view core.old) (C.view core.new)) }
    ensures err { IsTrue C.tells → OnErr result (Keeps caller (C.view core.old) (C.view core.new)) }
    ensures refused { IsTrue C.tells → IfErr result (Refuses caller (C.view core.old) (C.view core.new)) }
{
    prefix_law::<C>();
    what_a_call_is::<C>();
    match core.step(caller, &Call::Table(TableCall::Back { save })) {
        Reply::Fine => Ok(()),
        reply => Err(Refusal::from(reply)),
    }
}

/// Commits the transaction. It answers its number among those that were committed since the opening, from 1 on. If it is refused, the
/// transaction is still live, except after `Media`: then it may have been committed or not.
pub fn commit<C: Core>(core: &mut C, caller: u8) -> Result<u64, Refusal>
    requires inside { caller < (C.view core.old).limits.callers }
    requires sound { IsTrue C.tells → IsSound (C.view core.old).state }
    ensures steps { Steps C.tells caller (Controls Commit) (C.view core.old) (C.view core.new) (told_commit result) }
    ensures goes_on { IsTrue C.tells → Continues (C.view core.old) (C.view core.new) }
    ensures ok { IsTrue C.tells → OnOk result (Commits caller (C.view core.old) (C.view core.new)) }
    ensures err { IsTrue C.tells → OnErr result ((C.view core.new).state.history ≡ (C.view core.old).state.history) }
    ensures refused { IsTrue C.tells → IfErr result (Refuses caller (C.view core.old) (C.view core.new)) }
    ensures doubt { IsTrue C.tells → IfErr result (MayDoubt caller (C.view core.old) (C.view core.new)) }
    ensures live { IsTrue C.tells → IfErr result (MayEnd caller (C.view core.old) (C.view core.new)) }
    ensures offers { IsTrue C.tells → (C.view core.new).state.offers ≡ (C.view core.old).state.offers }
    ensures grows { IsTrue C.tells → MayGrow caller (C.view core.old) (C.view core.new) }
{
    prefix_law::<C>();
    what_a_call_is::<C>();
    match core.step(caller, &Call::Control(Control::Commit)) {
        Reply::Committed(at) => Ok(at),
        reply => Err(Refusal::from(reply)),
    }
}

/// Drops the transaction.
pub fn abort<C: Core>(core: &mut C, caller: u8) -> Result<(), Refusal>
    requires inside { caller < (C.view core.old).limits.callers }
    requires sound { IsTrue C.tells → IsSound (C.view core.old).state }
    ensures steps { Steps C.tells caller (Controls Abort) (C.view core.old) (C.view core.new) (told_done result) }
    ensures stays { IsTrue C.tells → Stays caller (C.view core.old) (C.view core.new) }
    ensures ok { IsTrue C.tells → OnOk result ((C.view core.new).state.live caller ≡ None) }
    ensures err { IsTrue C.tells → OnErr result (Keeps caller (C.view core.old) (C.view core.new)) }
    ensures refused { IsTrue C.tells → IfErr result (Refuses caller (C.view core.old) (C.view core.new)) }
{
    prefix_law::<C>();
    what_a_call_is::<C>();
    match core.step(caller, &Call::Control(Control::Abort)) {
        Reply::Fine => Ok(()),
        reply => Err(Refusal::from(reply)),
    }
}
