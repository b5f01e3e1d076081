// A queue of jobs over an array in memory.
ghost use Rattle.std.specs.Prelude.{◌≡◌, ◌<◌, IsTrue};
ghost use Rattle.caller_steps.specs.Sound.{IsSound};

use super::arrays::{fresh, whole};
use super::opening::open_bank;
use caller_steps::{Core as Steps, prefix_law};
use job_queue::{Unmet, push, take};
use pcm_media::Media;
use record_slots::Value;
use std::alloc::Global;
use std::test::Fail;
use transactions::Stop;

const PLACES: u64 = 2;

// What is answered to a push, behind which the core takes another call.
fn push_one<C: Steps>(core: &mut C, job: Value) -> Result<(), Stop<Unmet>>
    requires inside { 0 < (C.view core.old).limits.callers }
    requires sound { IsTrue C.tells → IsSound (C.view core.old).state }
    ensures limits { (C.view core.new).limits ≡ (C.view core.old).limits }
    ensures still { IsTrue C.tells → IsSound (C.view core.new).state }
{
    prefix_law::<C>();
    push(core, 0, PLACES, job)
}

fn take_one<C: Steps>(core: &mut C) -> Result<Value, Stop<Unmet>>
    requires inside { 0 < (C.view core.old).limits.callers }
    requires sound { IsTrue C.tells → IsSound (C.view core.old).state }
    ensures limits { (C.view core.new).limits ≡ (C.view core.old).limits }
    ensures still { IsTrue C.tells → IsSound (C.view core.new).state }
{
    prefix_law::<C>();
    take(core, 0, PLACES)
}

// The answers to three pushes.
fn push_all<C: Steps>(core: &mut C, jobs: &[Value; 3]) -> [Result<(), Stop<Unmet>>; 3]
    requires inside { 0 < (C.view core.old).limits.callers }
    requires sound { IsTrue C.tells → IsSound (C.view core.old).state }
    ensures limits { (C.view core.new).limits ≡ (C.view core.old).limits }
    ensures still { IsTrue C.tells → IsSound (C.view core.new).state }
{
    [
        push_one(core, jobs[0]),
        push_one(core, jobs[1]),
        push_one(core, jobs[2]),
    ]
}

// The answers to three takes.
fn take_all<C: Steps>(core: &mut C) -> [Result<Value, Stop<Unmet>>; 3]
    requires inside { 0 < (C.view core.old).limits.callers }
    requires sound { IsTrue C.tells → IsSound (C.view core.old).state }
{
    [take_one(core), take_one(core), take_one(core)]
}

fn push_and_take<C: Steps>(core: &mut C, jobs: &[Value; 3]) -> bool
    requires inside { 0 < (C.view core.old).limits.callers }
    requires sound { IsTrue C.tells → IsSound (C.view core.old).state }
{
    let are_pushed = push_all(core, jobs) == [Ok(()), Ok(()), Err(Stop::GivenUp(Unmet::Full))];
    let are_taken = take_all(core) == [Ok(jobs[0]), Ok(jobs[1]), Err(Stop::GivenUp(Unmet::Empty))];
    are_pushed && are_taken
}

fn three_jobs() -> Option<[Value; 3]> {
    Some([Value::of(b"a")?, Value::of(b"b")?, Value::of(b"c")?])
}

fn come_in_order<M: Media + Drop>(alloc: Global, media: M) -> Option<bool> {
    let jobs = three_jobs()?;
    let mut core = open_bank(alloc, media)?;
    Some(push_and_take(&mut core, &jobs))
}

#[test]
fn jobs_come_in_their_order(rt: HostRuntime) -> Result<(), Fail> {
    let media = fresh(rt.alloc()).ok_or("array")?;
    assert!(rt; come_in_order(rt.alloc(), whole(media)) == Some(true));
    Ok(())
}
