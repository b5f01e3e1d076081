// A sample of the documents, over an array in memory.
ghost use Rattle.std.specs.Prelude.{◌≡◌, ◌<◌, IsTrue};
ghost use Rattle.caller_steps.specs.Sound.{IsSound};

use super::arrays::{fresh, whole};
use super::opening::open_bank;
use caller_steps::Core as Steps;
use history::main_table;
use pcm_media::Media;
use sample_records::raise;
use std::alloc::Global;
use std::test::Fail;
use transactions::Refusal;

// What is answered to a raise of a number.
fn raised_once<C: Steps>(core: &mut C, key: u64) -> Result<u64, Refusal>
    requires inside { 0 < (C.view core.old).limits.callers }
    requires sound { IsTrue C.tells → IsSound (C.view core.old).state }
    ensures limits { (C.view core.new).limits ≡ (C.view core.old).limits }
    ensures still { IsTrue C.tells → IsSound (C.view core.new).state }
{
    raise(core, 0, main_table(), key)
}

// The answers to two raises of one number and one of another.
fn raised<C: Steps>(core: &mut C) -> [Result<u64, Refusal>; 3]
    requires inside { 0 < (C.view core.old).limits.callers }
    requires sound { IsTrue C.tells → IsSound (C.view core.old).state }
{
    [
        raised_once(core, 5),
        raised_once(core, 5),
        raised_once(core, 6),
    ]
}

fn raised_in<M: Media + Drop>(alloc: Global, media: M) -> Option<[Result<u64, Refusal>; 3]> {
    let mut core = open_bank(alloc, media)?;
    Some(raised(&mut core))
}

#[test]
fn a_number_is_raised(rt: HostRuntime) -> Result<(), Fail> {
    let media = fresh(rt.alloc()).ok_or("array")?;
    let answers = raised_in(rt.alloc(), whole(media)).ok_or("records")?;
    assert!(rt; answers == [Ok(1), Ok(2), Ok(1)]);
    Ok(())
}
