// A queue of jobs.
ghost use Rattle.std.specs.Prelude.{◌≡◌, ◌+◌, ◌<◌, ◌≤◌, ◌^◌, ◌++◌, ◌∷◌, [], List, ℕ, Some, Option, IsTrue, IfOk, IfErr, OnErr};
ghost use Rattle.history.specs.Key.{main_name};
ghost use Rattle.history.specs.Table.{found, left_by};
ghost use Rattle.history.specs.declared.call.TableCall.TheVariants.{Get};
ghost use Rattle.caller_steps.specs.Core.{Continues};
ghost use Rattle.caller_steps.specs.Sound.{IsSound};
ghost use Rattle.caller_steps.specs.State.{records_of};
ghost use Rattle.transactions.specs.Adds.{Stays, Adds};
ghost use Rattle.transactions.specs.Went.{WentWithin, IsOfCore};
ghost use Rattle.transactions.specs.Makes.{Holds, IsEnded, IsGivenUp, IsMade};
ghost use Rattle.job_queue.specs.Queue.{HasFoundNone, IsNumber, IsUnmet, Pushes, Takes, place, Reads};
ghost use Rattle.job_queue.specs.Along.{Deed, pushed, IsTaking, StaysAlong};
ghost use Rattle.job_queue.specs.declared.queue.Unmet.TheVariants.{NoQueue};

use caller_steps::Core;
use history::{main_table, what_a_write_shows};
use record_slots::Value;
use transactions::{Stop, Work, calls_join, get, number_in, put, transaction, value_of};

/// The most places of a queue.
const MOST: u64 = 1 << 32;

/// Why nothing was pushed or taken.
#[derive(Clone, Copy, Debug, PartialEq, Eq)]
pub enum Unmet {
    /// Each place has a job.
    Full,
    /// There is no job.
    Empty,
    /// The records are those of no queue of this size, or the size is above 4,294,967,296.
    NoQueue,
}

// A job that is to be pushed.
#[derive(Drop)]
struct Pushing {
    size: u64,
    job: Value,
}

// The taking of a job.
#[derive(Drop)]
struct Taking {
    size: u64,
}

/// Pushes a job at the end of the queue of so many places, as one transaction of the caller, which must have none live. Records without the
/// keys 0 and 1 are an empty queue.
pub fn push<C: Core>(core: &mut C, caller: u8, size: u64, job: Value) -> Result<(), Stop<Unmet>>
    requires inside { caller < (C.view core.old).limits.callers }
    requires sound { IsTrue C.tells → IsSound (C.view core.old).state }
    // If it is done, the history has one more transaction, which puts the job behind the last one.
    ensures done { IsTrue C.tells → IfOk result (λ done. IsMade (λ table calls. Pushes size job table (left_by table calls)) caller (C.view core.old) (C.view core.new)) }
    ensures refused { IsTrue C.tells → OnErr result ((C.view core.new).state.history ≡ (C.view core.old).state.history) }
    ensures cause { IsTrue C.tells → IfErr result (IsGivenUp (IsUnmet size) (records_of (C.view core.old).state)) }
    ensures of_core { IsTrue C.tells → IfErr result (IsOfCore caller (C.view core.old) (C.view core.new)) }
    ensures ended { IsTrue C.tells → IsEnded caller (C.view core.old) (C.view core.new) }
    // What may be left is the queue's history as before, or with this push after it.
    ensures along { IsTrue C.tells → StaysAlong size (λ deed. deed ≡ pushed job) (C.view core.old).state (C.view core.new).state }
    ensures goes_on { IsTrue C.tells → Continues (C.view core.old) (C.view core.new) }
    ensures limits { (C.view core.new).limits ≡ (C.view core.old).limits }
{
    what_a_write_shows();
    transaction(core, caller, &Pushing { size, job })
}

/// Takes the first job of the queue, as one transaction of the caller, which must have none live.
pub fn take<C: Core>(core: &mut C, caller: u8, size: u64) -> Result<Value, Stop<Unmet>>
    requires inside { caller < (C.view core.old).limits.callers }
    requires sound { IsTrue C.tells → IsSound (C.view core.old).state }
    // If it is done, the history has one more transaction, which takes this job from the front.
    ensures done { IsTrue C.tells → IfOk result (λ job. IsMade (λ table calls. Takes size job table (left_by table calls)) caller (C.view core.old) (C.view core.new)) }
    ensures refused { IsTrue C.tells → OnErr result ((C.view core.new).state.history ≡ (C.view core.old).state.history) }
    ensures cause { IsTrue C.tells → IfErr result (IsGivenUp (IsUnmet size) (records_of (C.view core.old).state)) }
    ensures of_core { IsTrue C.tells → IfErr result (IsOfCore caller (C.view core.old) (C.view core.new)) }
    ensures ended { IsTrue C.tells → IsEnded caller (C.view core.old) (C.view core.new) }
    // What may be left is the queue's history as before, or with the taking of a job after it.
    ensures along { IsTrue C.tells → StaysAlong size IsTaking (C.view core.old).state (C.view core.new).state }
    ensures goes_on { IsTrue C.tells → Continues (C.view core.old) (C.view core.new) }
    ensures limits { (C.view core.new).limits ≡ (C.view core.old).limits }
{
    what_a_write_shows();
    transaction(core, caller, &Taking { size })
}

/// The calls that push the job.
impl Work<(), Unmet> for Pushing {
    ghost does = { λ push done table calls. Pushes push.size push.job table (left_by table calls) };

    ghost gives_up = { λ push unmet table. IsUnmet push.size unmet table };

    fn make<C: Core>(&self, core: &mut C, caller: u8) -> Result<(), Stop<Unmet>>
        requires inside { caller < (C.view core.old).limits.callers }
        requires sound { IsTrue C.tells → IsSound (C.view core.old).state }
        requires begun { IsTrue C.tells → (C.view core.old).state.live caller ≡ Some [] }
        ensures limits { (C.view core.new).limits ≡ (C.view core.old).limits }
        ensures stays { IsTrue C.tells → Stays caller (C.view core.old) (C.view core.new) }
        ensures within { IsTrue C.tells → WentWithin caller (C.view core.old) (C.view core.new) }
        ensures done { IsTrue C.tells → IfOk result (λ done. Holds (λ calls. Pushes self.now.size self.now.job (records_of (C.view core.old).state) (left_by (records_of (C.view core.old).state) calls)) caller (C.view core.new)) }
        ensures stopped { IsTrue C.tells → IfErr result (IsGivenUp (IsUnmet self.now.size) (records_of (C.view core.old).state)) }
        ensures of_core { IsTrue C.tells → IfErr result (IsOfCore caller (C.view core.old) (C.view core.new)) }
    {
        calls_join::<C, Unmet>();
        let (first, count) = bounds(core, caller, self.size)?;
        if count == self.size {
            return Err(Stop::GivenUp(Unmet::Full));
        }
        let end = place(self.size, first, count);
        put(core, caller, main_table(), end + 2, self.job)?;
        put(core, caller, main_table(), 1, value_of(count + 1))?;
        Ok(())
    }
}

/// The calls that take the first job.
impl Work<Value, Unmet> for Taking {
    ghost does = { λ take job table calls. Takes take.size job table (left_by table calls) };

    ghost gives_up = { λ take unmet table. IsUnmet take.size unmet table };

    fn make<C: Core>(&self, core: &mut C, caller: u8) -> Result<Value, Stop<Unmet>>
        requires inside { caller < (C.view core.old).limits.callers }
        requires sound { IsTrue C.tells → IsSound (C.view core.old).state }
        requires begun { IsTrue C.tells → (C.view core.old).state.live caller ≡ Some [] }
        ensures limits { (C.view core.new).limits ≡ (C.view core.old).limits }
        ensures stays { IsTrue C.tells → Stays caller (C.view core.old) (C.view core.new) }
        ensures within { IsTrue C.tells → WentWithin caller (C.view core.old) (C.view core.new) }
        ensures done { IsTrue C.tells → IfOk result (λ job. Holds (λ calls. Takes self.now.size job (records_of (C.view core.old).state) (left_by (records_of (C.view core.old).state) calls)) caller (C.view core.new)) }
        ensures stopped { IsTrue C.tells → IfErr result (IsGivenUp (IsUnmet self.now.size) (records_of (C.view core.old).state)) }
        ensures of_core { IsTrue C.tells → IfErr result (IsOfCore caller (C.view core.old) (C.view core.new)) }
    {
        calls_join::<C, Unmet>();
        let (first, count) = bounds(core, caller, self.size)?;
        if count == 0 {
            return Err(Stop::GivenUp(Unmet::Empty));
        }
        let Some(job) = get(core, caller, main_table(), first + 2)? else {
            return Err(Stop::GivenUp(Unmet::NoQueue));
        };
        let next = place(self.size, first, 1);
        put(core, caller, main_table(), 0, value_of(next))?;
        put(core, caller, main_table(), 1, value_of(count - 1))?;
        Ok(job)
    }
}

// The place that is so many after the first.
fn place(size: u64, first: u64, n: u64) -> u64
    requires most { size ≤ 2 ^ 32 }
    requires within { first < size }
    requires few { n ≤ size }
    ensures is { result ≡ place size first n }
    ensures below { result < size }
{
    if first + n < size {
        first + n
    } else {
        first + n - size
    }
}

// Reads the place of the first job and how many there are.
fn bounds<C: Core>(core: &mut C, caller: u8, size: u64) -> Result<(u64, u64), Stop<Unmet>>
    requires inside { caller < (C.view core.old).limits.callers }
    requires sound { IsTrue C.tells → IsSound (C.view core.old).state }
    requires begun { IsTrue C.tells → (C.view core.old).state.live caller ≡ Some [] }
    ensures limits { (C.view core.new).limits ≡ (C.view core.old).limits }
    ensures stays { IsTrue C.tells → Stays caller (C.view core.old) (C.view core.new) }
    ensures stays_within { IsTrue C.tells → WentWithin caller (C.view core.old) (C.view core.new) }
    ensures most { IfOk result (λ bounds. size ≤ 2 ^ 32) }
    ensures within { IfOk result (λ bounds. bounds.0 < size) }
    ensures few { IfOk result (λ bounds. bounds.1 ≤ size) }
    ensures cause { IfErr result (IsGivenUp (λ unmet table. unmet ≡ NoQueue) (records_of (C.view core.old).state)) }
    ensures none { IsTrue C.tells → IfErr result (IsGivenUp (IsUnmet size) (records_of (C.view core.old).state)) }
    ensures of_core { IsTrue C.tells → IfErr result (IsOfCore caller (C.view core.old) (C.view core.new)) }
    ensures found { IsTrue C.tells → IfOk result (λ bounds. Reads bounds.0 bounds.1 caller (C.view core.old) (C.view core.new)) }
{
    calls_join::<C, Unmet>();
    let first = read_number(core, caller, 0)?;
    let count = read_number(core, caller, 1)?;
    if size > MOST || first >= size || count > size {
        return Err(Stop::GivenUp(Unmet::NoQueue));
    }
    Ok((first, count))
}

// Reads a number, which is 0 without a record.
fn read_number<C: Core>(core: &mut C, caller: u8, key: u64) -> Result<u64, Stop<Unmet>>
    requires inside { caller < (C.view core.old).limits.callers }
    requires sound { IsTrue C.tells → IsSound (C.view core.old).state }
    ensures limits { (C.view core.new).limits ≡ (C.view core.old).limits }
    ensures stays { IsTrue C.tells → Stays caller (C.view core.old) (C.view core.new) }
    ensures stays_within { IsTrue C.tells → WentWithin caller (C.view core.old) (C.view core.new) }
    ensures cause { IfErr result (IsGivenUp (λ unmet table. unmet ≡ NoQueue) (records_of (C.view core.old).state)) }
    ensures of_core { IsTrue C.tells → IfErr result (IsOfCore caller (C.view core.old) (C.view core.new)) }
    ensures small { IfOk result (λ n. n < 2 ^ 64) }
    ensures none { IsTrue C.tells → IfErr result (HasFoundNone key caller (C.view core.old) (C.view core.new)) }
    ensures found { IsTrue C.tells → IfOk result (λ n. (told : Option (List ℕ)) × IsNumber n told × Adds caller (Get main_name key) (found told) (C.view core.old) (C.view core.new)) }
{
    let Some(value) = get(core, caller, main_table(), key)? else {
        return Ok(0);
    };
    match number_in(&value) {
        Some(number) => Ok(number),
        None => Err(Stop::GivenUp(Unmet::NoQueue)),
    }
}
