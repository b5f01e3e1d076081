// A transaction that may be tried again, where no other caller holds its key.
ghost use Rattle.std.specs.Prelude.{◌≡◌, ◌<◌, [], Some, IsTrue, IfOk, IfErr};
ghost use Rattle.caller_steps.specs.Sound.{IsSound};
ghost use Rattle.caller_steps.specs.State.{records_of};
ghost use Rattle.transactions.specs.Adds.{Stays};
ghost use Rattle.transactions.specs.Went.{WentWithin, IsOfCore};
ghost use Rattle.transactions.specs.Makes.{Holds, IsGivenUp};

use super::accounts::with_accounts;
use super::arrays::whole;
use super::opening::open_bank;
use caller_steps::{Core as Steps, prefix_law};
use history::main_table;
use pcm_media::Media;
use std::alloc::Global;
use std::test::Fail;
use transactions::{Stop, Work, calls_join, get, number_in, transaction_retried};

// Why there is no number.
#[derive(Debug, PartialEq, Eq, Drop)]
struct Missing;

// The look for a number.
#[derive(Drop)]
struct Looking {
    key: u64,
}

// What it does is compared below, and not said here.
impl Work<u64, Missing> for Looking {
    ghost does = { λ work answer table calls. Unit {0} };

    ghost gives_up = { λ work reason table. Unit {0} };

    fn make<C: Steps>(&self, core: &mut C, caller: u8) -> Result<u64, Stop<Missing>>
        requires inside { caller < (C.view core.old).limits.callers }
        requires sound { IsTrue C.tells → IsSound (C.view core.old).state }
        requires begun { IsTrue C.tells → (C.view core.old).state.live caller ≡ Some [] }
        ensures limits { (C.view core.new).limits ≡ (C.view core.old).limits }
        ensures stays { IsTrue C.tells → Stays caller (C.view core.old) (C.view core.new) }
        ensures within { IsTrue C.tells → WentWithin caller (C.view core.old) (C.view core.new) }
        ensures done { IsTrue C.tells → IfOk result (λ answer. Holds (λ calls. Unit {0}) caller (C.view core.new)) }
        ensures stopped { IsTrue C.tells → IfErr result (IsGivenUp (λ (reason : Missing) table. Unit {0}) (records_of (C.view core.old).state)) }
        ensures of_core { IsTrue C.tells → IfErr result (IsOfCore caller (C.view core.old) (C.view core.new)) }
    {
        calls_join::<C, Missing>();
        let Some(value) = get(core, caller, main_table(), self.key)? else {
            return Err(Stop::GivenUp(Missing));
        };
        number_in(&value).ok_or(Stop::GivenUp(Missing))
    }
}

// What is answered of a key, which may be looked for twice more. Behind it the core takes another call.
fn look_for<C: Steps>(core: &mut C, key: u64) -> Result<u64, Stop<Missing>>
    requires inside { 0 < (C.view core.old).limits.callers }
    requires sound { IsTrue C.tells → IsSound (C.view core.old).state }
    ensures limits { (C.view core.new).limits ≡ (C.view core.old).limits }
    ensures still { IsTrue C.tells → IsSound (C.view core.new).state }
{
    prefix_law::<C>();
    transaction_retried(core, 0, &Looking { key }, 2)
}

// What is answered of a key that is there and of one that is not.
fn looked_for<C: Steps>(core: &mut C) -> [Result<u64, Stop<Missing>>; 2]
    requires inside { 0 < (C.view core.old).limits.callers }
    requires sound { IsTrue C.tells → IsSound (C.view core.old).state }
{
    [look_for(core, 1), look_for(core, 3)]
}

fn looked_for_in<M: Media + Drop>(
    alloc: Global,
    media: M,
) -> Option<[Result<u64, Stop<Missing>>; 2]> {
    let mut core = open_bank(alloc, media)?;
    Some(looked_for(&mut core))
}

#[test]
fn what_may_be_tried_again_is_made_or_given_up(rt: HostRuntime) -> Result<(), Fail> {
    let media = with_accounts(rt.alloc()).ok_or("accounts")?;
    let answers = looked_for_in(rt.alloc(), whole(media)).ok_or("records")?;
    assert!(rt; answers == [Ok(100), Err(Stop::GivenUp(Missing))]);
    Ok(())
}
