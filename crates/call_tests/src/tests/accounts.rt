// Transfers between two accounts, with power lost at each call of the medium.
ghost use Rattle.std.specs.Prelude.{◌≡◌, ◌≢◌, ◌<◌, IsTrue};
ghost use Rattle.caller_steps.specs.Sound.{IsSound};

use super::arrays::{CHOICES, cut_behind, fresh, media_of, memory_of, whole};
use super::opening::{close_bank, open_bank};
use bank::{Refusal, balance, transfer};
use caller_steps::{Core as Steps, prefix_law};
use history::{Call, Control, TableCall, main_table};
use pcm_media::{Media, MemoryMedia};
use record_slots::Value;
use std::alloc::Global;
use std::test::Fail;
use transactions::Stop;

// Makes an account, by a transaction of its own.
fn open_account<C: Steps>(core: &mut C, account: u64, value: Value)
    requires { 0 < (C.view core.old).limits.callers }
    ensures { (C.view core.new).limits ≡ (C.view core.old).limits }
{
    let _ = core.step(0, &Call::Begin);
    let put = TableCall::Put {
        table: main_table(),
        key: account,
        value,
    };
    let _ = core.step(0, &Call::Table(put));
    let _ = core.step(0, &Call::Control(Control::Commit));
}

/// An array with 100 in the account 1 and 50 in the account 2.
pub fn with_accounts(alloc: Global) -> Option<MemoryMedia> {
    Some(memory_of(opened(alloc, whole(fresh(alloc)?))?))
}

// The medium of an array, with both accounts in it.
fn opened<M: Media + Drop>(alloc: Global, media: M) -> Option<M> {
    let mut core = open_bank(alloc, media)?;
    open_both(&mut core)?;
    Some(close_bank(core))
}

fn open_both<C: Steps>(core: &mut C) -> Option<()>
    requires { 0 < (C.view core.old).limits.callers }
{
    open_account(core, 1, Value::of(b"100")?);
    open_account(core, 2, Value::of(b"50")?);
    Some(())
}

// What both accounts have.
fn both<C: Steps>(core: &mut C) -> Option<(u64, u64)>
    requires inside { 0 < (C.view core.old).limits.callers }
    requires sound { IsTrue C.tells → IsSound (C.view core.old).state }
{
    prefix_law::<C>();
    let one = balance(core, 0, 1).ok()?;
    let other = balance(core, 0, 2).ok()?;
    Some((one, other))
}

// What both accounts have in an array.
fn balances<M: Media + Drop>(alloc: Global, media: M) -> Option<(u64, u64)> {
    let mut core = open_bank(alloc, media)?;
    both(&mut core)
}

// What is answered to a transfer from the account 1, behind which the core takes another call.
fn pay<C: Steps>(core: &mut C, to: u64, amount: u64) -> Result<(), Stop<Refusal>>
    requires apart { 1 ≢ to }
    requires inside { 0 < (C.view core.old).limits.callers }
    requires sound { IsTrue C.tells → IsSound (C.view core.old).state }
    ensures limits { (C.view core.new).limits ≡ (C.view core.old).limits }
    ensures still { IsTrue C.tells → IsSound (C.view core.new).state }
{
    prefix_law::<C>();
    transfer(core, 0, 1, to, amount)
}

// The answers to a transfer of 30 from the account 1, of 71 more, and of one into no account.
fn pay_thrice<C: Steps>(core: &mut C) -> [Result<(), Stop<Refusal>>; 3]
    requires inside { 0 < (C.view core.old).limits.callers }
    requires sound { IsTrue C.tells → IsSound (C.view core.old).state }
{
    [pay(core, 2, 30), pay(core, 2, 71), pay(core, 3, 1)]
}

fn three_answers<M: Media + Drop>(
    alloc: Global,
    media: M,
) -> Option<[Result<(), Stop<Refusal>>; 3]> {
    let mut core = open_bank(alloc, media)?;
    Some(pay_thrice(&mut core))
}

#[test]
fn moves_and_refuses(rt: HostRuntime) -> Result<(), Fail> {
    let media = with_accounts(rt.alloc()).ok_or("accounts")?;
    let answers = three_answers(rt.alloc(), whole(media)).ok_or("answers")?;
    let wanted = [
        Ok(()),
        Err(Stop::GivenUp(Refusal::Insufficient { balance: 70 })),
        Err(Stop::GivenUp(Refusal::NoAccount { account: 3 })),
    ];
    assert!(rt; answers == wanted);
    Ok(())
}

// Whether a transfer of 30 is done, and the medium as it is then, or `None` if the array was not opened.
fn pay_once<M: Media + Drop>(alloc: Global, media: M) -> Option<(bool, M)> {
    let mut core = open_bank(alloc, media)?;
    let is_done = pay(&mut core, 2, 30).is_ok();
    Some((is_done, close_bank(core)))
}

// The same where power is lost behind so many calls.
fn pay_behind(alloc: Global, image: &[u8], passes: u64) -> Option<(bool, MemoryMedia)> {
    let (is_done, media) = pay_once(alloc, cut_behind(media_of(alloc, image)?, passes))?;
    Some((is_done, memory_of(media)))
}

// Whether each image that is left has both balances as they were before the transfer, which is not done then, or as they are behind it.
fn keeps_the_sum(alloc: Global, is_done: bool, media: &MemoryMedia) -> bool {
    for choice in CHOICES {
        let Ok(left) = media.leave(choice) else {
            return false;
        };
        match balances(alloc, whole(left)) {
            Some((70, 80)) => {}
            Some((100, 50)) if !is_done => {}
            _ => return false,
        }
    }
    true
}

#[test]
fn keeps_the_sum_wherever_power_is_lost(rt: HostRuntime) -> Result<(), Fail> {
    let media = with_accounts(rt.alloc()).ok_or("accounts")?;
    let mut was_refused = false;
    let mut was_done = false;
    for passes in 0..64 {
        if let Some((is_done, left)) = pay_behind(rt.alloc(), media.bytes(), passes) {
            was_done = was_done || is_done;
            was_refused = was_refused || !is_done;
            assert!(rt; keeps_the_sum(rt.alloc(), is_done, &left));
        }
    }
    assert!(rt; was_refused && was_done);
    Ok(())
}
