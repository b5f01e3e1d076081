// What another caller is answered while one stands within a read of the medium, and what it is answered when it waits for the turn. The keys 5
// and 69 are of one stripe, whose lock readers share.
ghost use Rattle.std.specs.Prelude.{◌≡◌};
ghost use Rattle.mars_manager.specs.Pass.{dealt};
ghost use Rattle.mars_manager.specs.Sharing.{CanShare};

use super::held_media::Hold;
use super::sharing::{held_array, opened};
use caller_steps::Core;
use history::{Call, Reply, TableCall, main_table};
use mars_manager::{Again, Mars, Pass, Passes};
use pcm_media::Media;
use std::alloc::Global;
use std::sync::Wait;
use std::test::*;
use std::thread;
use std::thread::{Threads, join};

// How often the processor is given up before the read goes on: longer than a caller takes to fall asleep.
const LATE: u64 = 100_000;

fn get(key: u64) -> Call {
    let table = main_table();
    Call::Table(TableCall::Get { table, key })
}

// Begins a transaction and looks for a record.
fn get_one<C: Core + Drop>(mars: &Mars<C>, mut pass: Pass<C>) -> (Pass<C>, Option<Reply>)
    requires { pass.table ≡ mars.now.table }
    ensures { (result.0.table ≡ pass.table) × (result.0.known.number ≡ pass.known.number) }
{
    if mars.call(&mut pass, &Call::Begin) != Ok(Reply::Fine) {
        return (pass, None);
    }
    let found = mars.call(&mut pass, &get(5)).ok();
    (pass, found)
}

// What a caller is told while another stands within a read: of a record of the same stripe, of another one, and as it looks.
#[derive(Drop)]
struct Told {
    same: Result<Reply, Again>,
    other: Result<Reply, Again>,
    looked: u64,
}

fn ask<C: Core + Drop>(mars: &Mars<C>, mut pass: Pass<C>) -> (Pass<C>, Told)
    requires { pass.table ≡ mars.now.table }
    ensures { (result.0.table ≡ pass.table) × (result.0.known.number ≡ pass.known.number) }
{
    let same = mars.call(&mut pass, &get(69));
    let other = mars.call(&mut pass, &get(6));
    let looked = mars.look(&mut pass);
    let told = Told {
        same,
        other,
        looked,
    };
    (pass, told)
}

fn wait_and_get<C: Core + Drop, R: Wait>(
    rt: &R,
    mars: &Mars<C>,
    mut pass: Pass<C>,
) -> (Pass<C>, Reply)
    requires { pass.table ≡ mars.now.table }
    ensures { (result.0.table ≡ pass.table) × (result.0.known.number ≡ pass.known.number) }
{
    let reply = mars.call_wait(rt, &mut pass, &get(69));
    (pass, reply)
}

fn release_late(hold: &Hold) {
    for _time in 0..LATE {
        thread::yield_now();
    }
    hold.release();
}

// Waits for the turn beside who lets the read go on.
fn wait_beside<C: Core + Drop + Send, R: Threads + Wait + Sync>(
    rt: &R,
    mars: &Mars<C>,
    pass: Pass<C>,
    hold: &Hold,
) -> (Pass<C>, Reply)
    requires { pass.table ≡ mars.now.table }
    ensures { (result.0.table ≡ pass.table) × (result.0.known.number ≡ pass.known.number) }
{
    let ((pass, reply), _) = join(
        rt,
        move || -> (Pass<C>, Reply)
            requires { pass.table ≡ mars.now.table }
            ensures { (result.0.table ≡ pass.table) × (result.0.known.number ≡ pass.known.number) }
        { wait_and_get(rt, mars, pass) },
        || release_late(hold),
    );
    (pass, reply)
}

// Asks while a read is held, and then waits for its end.
fn ask_and_wait<C: Core + Drop + Send, R: Threads + Wait + Sync>(
    rt: &R,
    mars: &Mars<C>,
    pass: Pass<C>,
    hold: &Hold,
) -> (Pass<C>, Told, Reply)
    requires { pass.table ≡ mars.now.table }
    ensures { (result.0.table ≡ pass.table) × (result.0.known.number ≡ pass.known.number) }
{
    hold.wait_for_read();
    let (pass, told) = ask(mars, pass);
    let (pass, reply) = wait_beside(rt, mars, pass, hold);
    (pass, told, reply)
}

// What the one who stands within a read finds, and what the other is told meanwhile and answered behind it.
#[derive(Drop)]
struct Beside {
    found: Option<Reply>,
    told: Told,
    reply: Reply,
}

fn both<C: Core + Drop + Send, R: Threads + Wait + Sync>(
    rt: &R,
    mars: &Mars<C>,
    reader: Pass<C>,
    other: Pass<C>,
    hold: &Hold,
) -> (Pass<C>, Pass<C>, Beside)
    requires { (reader.table ≡ mars.now.table) × (other.table ≡ mars.now.table) }
    ensures tables { (result.0.table ≡ reader.table) × (result.1.table ≡ other.table) }
    ensures numbers { (result.0.known.number ≡ reader.known.number) × (result.1.known.number ≡ other.known.number) }
{
    hold.hold();
    let ((reader, found), (other, told, reply)) = join(
        rt,
        move || -> (Pass<C>, Option<Reply>)
            requires { reader.table ≡ mars.now.table }
            ensures { (result.0.table ≡ reader.table) × (result.0.known.number ≡ reader.known.number) }
        { get_one(mars, reader) },
        move || -> (Pass<C>, Told, Reply)
            requires { other.table ≡ mars.now.table }
            ensures { (result.0.table ≡ other.table) × (result.0.known.number ≡ other.known.number) }
        { ask_and_wait(rt, mars, other, hold) },
    );
    (reader, other, Beside { found, told, reply })
}

// Of three callers the one in the middle reads, and the last has a transaction.
fn three<C: Core + Drop + Send, R: Threads + Wait + Sync>(
    rt: &R,
    mars: Mars<C>,
    mut passes: Passes<C>,
    hold: &Hold,
) -> Option<Beside>
    requires table { passes.table ≡ mars.table }
    requires callers { mars.setup.callers ≡ 3 }
    requires passes { passes.list ≡ dealt passes.table mars.setup 3 }
{
    let mut two = passes.take()?;
    let one = passes.take()?;
    let zero = passes.take()?;
    let begun = mars.call(&mut two, &Call::Begin) == Ok(Reply::Fine);
    let (one, two, beside) = both(rt, &mars, one, two, hold);
    passes.put_back(zero);
    passes.put_back(one);
    passes.put_back(two);
    drop(mars.close(passes));
    if begun { Some(beside) } else { None }
}

fn shared<C: Core + Drop + Send, R: Threads + Wait + Sync>(
    rt: &R,
    alloc: Global,
    core: C,
    hold: &Hold,
) -> Option<Beside>
    requires { CanShare C.tells 3 (C.view core) }
{
    let (mars, passes) = Mars::share(alloc, core, 3).ok()?;
    three(rt, mars, passes, hold)
}

fn shared_over<M: Media + Drop + Send, R: Threads + Wait + Sync>(
    rt: &R,
    alloc: Global,
    media: M,
    hold: &Hold,
) -> Option<Beside> {
    shared(rt, alloc, opened(alloc, media)?, hold)
}

// It is not any other caller that is named, but the one who has the turn. Nobody wakes who sleeps for it, and it gets it all the same.
#[test]
fn who_has_the_turn_is_named_and_waited_for(rt: HostRuntime) -> Result<(), Fail> {
    let hold = Hold::released(rt.alloc())?;
    let media = held_array(rt.alloc(), &hold).ok_or("array")?;
    let beside = shared_over(&rt, rt.alloc(), media, &hold).ok_or("shared")?;
    assert!(rt; beside.told.same == Err(Again { holder: 1 }));
    assert!(rt; beside.told.other == Err(Again { holder: 1 }));
    assert!(rt; beside.told.looked == 0);
    assert!(rt; beside.found == Some(Reply::Absent));
    assert!(rt; beside.reply == Reply::Absent);
    Ok(())
}
