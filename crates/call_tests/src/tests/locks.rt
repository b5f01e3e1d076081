// What two passes are answered that lock stripes of keys, and one that purges beside the other. The keys 5 and 69 are of stripe 5.
ghost use Rattle.std.specs.Prelude.{◌≡◌};
ghost use Rattle.mars_manager.specs.Pass.{dealt};
ghost use Rattle.mars_manager.specs.Sharing.{CanShare};

use super::sharing::{array, opened};
use caller_steps::Core;
use history::{Call, Control, Mode, Reply, TableCall, main_table};
use mars_manager::{Lock, Mars, Pass, Passes};
use pcm_media::Media;
use record_slots::Value;
use std::alloc::Global;
use std::test::*;

// Which of the two passes asks.
#[derive(Clone, Copy)]
enum By {
    Zero,
    One,
}

// What is asked, and what has to be answered.
#[derive(Drop)]
enum Line {
    Locks(u8, Mode, Lock),
    Calls(Call, Reply),
    Asks(Asked, Reply),
}

// A call of records of `main`.
#[derive(Clone, Copy)]
enum Asked {
    Get(u64),
    Put(u64),
    Del(u64),
    Scan(u64, u64),
}

const BUSY_WITH_0: Reply = Reply::Busy { holder: 0 };

// An exclusive lock keeps out another's locks and calls on its stripe until the transaction ends.
const EXCLUSIVE: [(By, Line); 9] = [
    (By::Zero, Line::Calls(Call::Begin, Reply::Fine)),
    (By::One, Line::Calls(Call::Begin, Reply::Fine)),
    (By::Zero, Line::Locks(5, Mode::Exclusive, Lock::Held)),
    (
        By::One,
        Line::Locks(5, Mode::Exclusive, Lock::Busy { holder: 0 }),
    ),
    (By::One, Line::Asks(Asked::Get(69), BUSY_WITH_0)),
    (By::One, Line::Asks(Asked::Get(6), Reply::Absent)),
    (
        By::Zero,
        Line::Calls(Call::Control(Control::Commit), Reply::Committed(1)),
    ),
    (By::One, Line::Locks(5, Mode::Exclusive, Lock::Held)),
    (
        By::Zero,
        Line::Locks(5, Mode::Exclusive, Lock::NoTransaction),
    ),
];

// Two share a lock, which neither can make exclusive before the other has ended.
const SHARED: [(By, Line); 7] = [
    (By::Zero, Line::Calls(Call::Begin, Reply::Fine)),
    (By::One, Line::Calls(Call::Begin, Reply::Fine)),
    (By::Zero, Line::Locks(5, Mode::Shared, Lock::Held)),
    (By::One, Line::Locks(5, Mode::Shared, Lock::Held)),
    (
        By::Zero,
        Line::Locks(5, Mode::Exclusive, Lock::Busy { holder: 1 }),
    ),
    (
        By::One,
        Line::Calls(Call::Control(Control::Commit), Reply::Committed(1)),
    ),
    (By::Zero, Line::Locks(5, Mode::Exclusive, Lock::Held)),
];

// Two read records of one stripe, in which neither may write then; a scan touches each stripe.
const READERS: [(By, Line); 9] = [
    (By::Zero, Line::Calls(Call::Begin, Reply::Fine)),
    (By::One, Line::Calls(Call::Begin, Reply::Fine)),
    (By::Zero, Line::Asks(Asked::Get(5), Reply::Absent)),
    (By::One, Line::Asks(Asked::Get(69), Reply::Absent)),
    (By::One, Line::Asks(Asked::Del(69), BUSY_WITH_0)),
    (By::Zero, Line::Asks(Asked::Del(7), Reply::Absent)),
    (By::One, Line::Asks(Asked::Scan(0, 1), BUSY_WITH_0)),
    (
        By::Zero,
        Line::Calls(Call::Control(Control::Abort), Reply::Fine),
    ),
    (By::One, Line::Asks(Asked::Del(69), Reply::Absent)),
];

// Puts that were dropped leave their keys in the index. A purge takes out those that no live transaction touches, and comes outside of any
// transaction of its pass's.
const PURGES: [(By, Line); 16] = [
    (By::Zero, Line::Calls(Call::Begin, Reply::Fine)),
    (By::Zero, Line::Asks(Asked::Put(5), Reply::Fine)),
    (By::Zero, Line::Asks(Asked::Put(6), Reply::Fine)),
    (
        By::Zero,
        Line::Calls(Call::Control(Control::Abort), Reply::Fine),
    ),
    (By::One, Line::Calls(Call::Begin, Reply::Fine)),
    (By::One, Line::Asks(Asked::Get(69), Reply::Absent)),
    (
        By::One,
        Line::Calls(Call::Control(Control::Purge), Reply::Already),
    ),
    (
        By::Zero,
        Line::Calls(Call::Control(Control::Purge), Reply::Purged(1)),
    ),
    (By::One, Line::Asks(Asked::Get(5), Reply::Absent)),
    (
        By::One,
        Line::Calls(Call::Control(Control::Offer), Reply::Fine),
    ),
    (
        By::One,
        Line::Calls(Call::Control(Control::Purge), Reply::Already),
    ),
    (
        By::Zero,
        Line::Calls(Call::Control(Control::Purge), Reply::Purged(0)),
    ),
    (
        By::One,
        Line::Calls(Call::Control(Control::Settle), Reply::Committed(1)),
    ),
    (
        By::One,
        Line::Calls(Call::Control(Control::Purge), Reply::Purged(1)),
    ),
    (By::Zero, Line::Calls(Call::Begin, Reply::Fine)),
    (
        By::One,
        Line::Calls(Call::Control(Control::Purge), Reply::Purged(0)),
    ),
];

fn is_answered<C: Core + Drop>(mars: &Mars<C>, pass: &mut Pass<C>, line: &Line) -> bool
    requires { pass.old.table ≡ mars.now.table }
    ensures table { pass.new.table ≡ pass.old.table }
    ensures number { pass.new.known.number ≡ pass.old.known.number }
{
    match line {
        Line::Locks(stripe, mode, answer) if *stripe < 64 => {
            mars.lock(pass, *stripe, *mode) == *answer
        }
        Line::Locks(..) => false,
        Line::Calls(call, reply) => is_told(mars, pass, call, reply),
        Line::Asks(asked, reply) => match call_of(asked) {
            Some(call) => is_told(mars, pass, &Call::Table(call), reply),
            None => false,
        },
    }
}

// The call of `main`; there is none where its value is none.
fn call_of(asked: &Asked) -> Option<TableCall> {
    let table = main_table();
    match *asked {
        Asked::Get(key) => Some(TableCall::Get { table, key }),
        Asked::Put(key) => {
            let value = Value::of(b"a")?;
            Some(TableCall::Put { table, key, value })
        }
        Asked::Del(key) => Some(TableCall::Del { table, key }),
        Asked::Scan(low, high) => Some(TableCall::Scan { table, low, high }),
    }
}

fn is_told<C: Core + Drop>(mars: &Mars<C>, pass: &mut Pass<C>, call: &Call, reply: &Reply) -> bool
    requires { pass.old.table ≡ mars.now.table }
    ensures table { pass.new.table ≡ pass.old.table }
    ensures number { pass.new.known.number ≡ pass.old.known.number }
{
    match mars.call(pass, call) {
        Ok(told) => told == *reply,
        Err(_) => false,
    }
}

// How many lines, from the first on, are answered as they have to be.
fn answered_lines<C: Core + Drop>(
    mars: &Mars<C>,
    zero: &mut Pass<C>,
    one: &mut Pass<C>,
    lines: &[(By, Line)],
) -> usize
    requires { (zero.old.table ≡ mars.now.table) × (one.old.table ≡ mars.now.table) }
    ensures zero { (zero.new.table ≡ zero.old.table) × (zero.new.known.number ≡ zero.old.known.number) }
    ensures one { (one.new.table ≡ one.old.table) × (one.new.known.number ≡ one.old.known.number) }
{
    for (n, (by, line)) in lines.iter().enumerate() {
        let is_right = match by {
            By::Zero => is_answered(mars, zero, line),
            By::One => is_answered(mars, one, line),
        };
        if !is_right {
            return n;
        }
    }
    lines.len()
}

fn two_of_three<C: Core + Drop>(
    mars: Mars<C>,
    mut passes: Passes<C>,
    lines: &[(By, Line)],
) -> Option<usize>
    requires table { passes.table ≡ mars.table }
    requires callers { mars.setup.callers ≡ 3 }
    requires passes { passes.list ≡ dealt passes.table mars.setup 3 }
{
    let two = passes.take()?;
    let mut one = passes.take()?;
    let mut zero = passes.take()?;
    let count = answered_lines(&mars, &mut zero, &mut one, lines);
    passes.put_back(zero);
    passes.put_back(one);
    passes.put_back(two);
    drop(mars.close(passes));
    Some(count)
}

fn shared_by<C: Core + Drop>(alloc: Global, core: C, lines: &[(By, Line)]) -> Option<usize>
    requires { CanShare C.tells 3 (C.view core) }
{
    let (mars, passes) = Mars::share(alloc, core, 3).ok()?;
    two_of_three(mars, passes, lines)
}

fn answered_over<M: Media + Drop>(alloc: Global, media: M, lines: &[(By, Line)]) -> Option<usize> {
    shared_by(alloc, opened(alloc, media)?, lines)
}

fn answered(alloc: Global, lines: &[(By, Line)]) -> Option<usize> {
    answered_over(alloc, array(alloc)?, lines)
}

#[test]
fn passes_lock_and_purge_beside_each_other(rt: HostRuntime) -> Result<(), Fail> {
    let lists: [&[(By, Line)]; 4] = [&EXCLUSIVE, &SHARED, &READERS, &PURGES];
    for lines in lists {
        assert_eq!(rt; answered(rt.alloc(), lines), Some(lines.len()));
    }
    Ok(())
}
