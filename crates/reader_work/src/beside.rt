// Callers and readers beside each other.
ghost use Rattle.std.specs.Prelude.{◌≡◌, ◌<◌, ◌≤◌, ◌+◌, ℕ, List, [], All, length, slice_index_or, vec_capacity, IfOk, IfErr};
ghost use mathlib.Core.List.{IsPrefix};
ghost use Rattle.history.specs.Writes.{Table};
ghost use Rattle.mars_manager.specs.Sharing.{CanShare};
ghost use Rattle.mars_manager.specs.Pass.{dealt};
ghost use Rattle.caller_work.specs.declared.worker.Worker.{Worker};
ghost use Rattle.caller_work.specs.Crew.{IsBlank, KnowsFirst};
ghost use Rattle.caller_work.specs.Standing.{CanWork, HasWorked};
ghost use Rattle.caller_work.specs.Telling.{AllMore};
ghost use Rattle.caller_work.specs.Worked.{Worked};
ghost use Rattle.snapshot_readers.specs.Feeds.{fed, fed_book, read, read_book};
ghost use Rattle.reader_work.specs.declared.reading.ReadWorker.{ReadWorker};
ghost use Rattle.reader_work.specs.News.{IsBehind, IsOnlooker};
ghost use Rattle.history.specs.Answers.{AllAnswer};
ghost use Rattle.reader_work.specs.Readership.{keys_of, answers_of, plans_of, asks_with, passes_for, IsReady, IsOpen, IsOpenWith};
ghost use Rattle.reader_work.specs.Reading.{CanRead, HasRead};

use crate::feeding::{Feeding, SharedNews};
use crate::news::{Board, News};
use crate::readership::Readership;
use crate::reading::{ReadWorker, read_keys};
use caller_plans::Plans;
use caller_steps::Core;
use caller_work::{Fates, Gate, Rooms, WorkEnd, Worker, finish, hire, prepare, work, work_all};
use ghost_notes::Notes;
use history::Answers;
use mars_base::NoMemory;
use mars_manager::{Mars, Pass, Passes};
use snapshot_readers::Feed;
use std::alloc::Global;
use std::marker::{Brand, PhantomData};
use std::sync::{Mutex, Wait};
use std::thread;
use std::thread::Threads;

// Lets all callers work.
fn all_worked<R: Threads + Wait + Sync, C: Core + Drop + Send, G: Gate + Sync>(
    rt: &R,
    mars: &Mars<C>,
    mut workers: Vec<Worker<C>>,
    gate: &G,
) -> Vec<Worker<C>>
    requires some { 0 < length workers.items }
    requires ready { (i : ℕ) (w : Worker C) → i < length workers.items → CanWork mars.now (slice_index_or workers.items i w) }
    ensures many { length result.items ≡ length workers.items }
    ensures worked { (i : ℕ) (w : Worker C) → i < length workers.items → HasWorked (slice_index_or workers.items i w) (slice_index_or result.items i w) }
    ensures told { (i : ℕ) (w : Worker C) → i < length workers.items → AllMore (G.told gate.now) (slice_index_or workers.items i w).told.said (slice_index_or result.items i w).told.said }
{
    work_all(rt, mars, &mut workers, gate);
    workers
}

// Lets all readers read, each on a thread of its own.
fn read_all<R: Threads + Wait + Sync, G: Gate + Sync>(rt: &R, workers: &mut [ReadWorker], gate: &G)
    requires some { 0 < length workers.old }
    requires ready { (i : ℕ) (w : ReadWorker) → i < length workers.old → CanRead (slice_index_or workers.old i w) }
    ensures read { (i : ℕ) (w : ReadWorker) → i < length workers.old → HasRead (slice_index_or workers.old i w) (slice_index_or workers.new i w) }
{
    let threads = workers.len();
    thread::for_each_mut(
        rt,
        workers,
        threads,
        &|_number: usize, worker: &mut ReadWorker|
            requires { CanRead worker.now }
            ensures { HasRead worker.entry.now worker.exit.now }
        { read_keys(rt, worker, gate) },
    );
}

fn all_read<R: Threads + Wait + Sync, G: Gate + Sync>(
    rt: &R,
    mut workers: Vec<ReadWorker>,
    gate: &G,
) -> Vec<ReadWorker>
    requires some { 0 < length workers.items }
    requires ready { (i : ℕ) (w : ReadWorker) → i < length workers.items → CanRead (slice_index_or workers.items i w) }
    ensures many { length result.items ≡ length workers.items }
    ensures read { (i : ℕ) (w : ReadWorker) → i < length workers.items → HasRead (slice_index_or workers.items i w) (slice_index_or result.items i w) }
{
    read_all(rt, &mut workers, gate);
    workers
}

// Ties what all readers read to what was fed, and gathers their answers: the feed learns each reader, and feeds once more.
fn tie<R: Wait>(
    rt: &R,
    alloc: Global,
    feed: &mut Feed,
    readers: Vec<ReadWorker>,
) -> Result<Vec<Answers>, NoMemory>
    requires { All (λ (worker : ReadWorker). read_book worker.reader ≡ fed_book feed.old) readers.items }
    ensures tied { IfOk result (λ told. All (λ (worker : ReadWorker). IsPrefix (read worker.reader) (fed feed.old)) readers.items) }
    ensures told { IfOk result (λ told. told.items ≡ answers_of readers.items) }
{
    let mut told = Vec::with_capacity(alloc, readers.len())?;
    for worker in readers {
        let ReadWorker {
            number: _,
            mut reader,
            names: _names,
            keys: _keys,
            answers,
            told: _told,
        } = worker;
        feed.learn(&mut reader);
        told.push_reserved(Answers::from(answers));
    }
    feed.feed(rt, &[])?;
    Ok(told)
}

// Lets all work at the same time, and then ties the answers to what the pass of the feed has seen. The feed stands behind a lock meanwhile,
// with the pass by which it reads.
fn all_work<
    B: Board + Send + Sync,
    R: Threads + Wait + Sync,
    C: Core + Drop + Send,
    G: Gate + Sync,
>(
    rt: &R,
    alloc: Global,
    mars: &Mars<C>,
    crew: (Vec<Worker<C>>, Vec<ReadWorker>),
    feed: &mut Feed,
    pass: Pass<C>,
    gate: &G,
) -> (Vec<Worker<C>>, Pass<C>, Result<Vec<Answers>, NoMemory>)
    requires own { (mars.now.table ≡ B.table) × (pass.table ≡ B.table) × (fed_book feed.old ≡ B.book) }
    requires news { IsBehind feed.old pass.known × IsOnlooker B.number pass.known }
    requires some { (0 < length crew.0.items) × (0 < length crew.1.items) }
    requires ready { (i : ℕ) (w : Worker C) → i < length crew.0.items → CanWork mars.now (slice_index_or crew.0.items i w) }
    requires open { (names : List (List ℕ)) × (base : Table) × All (IsReady names B.book base) crew.1.items }
    ensures many { length result.0.items ≡ length crew.0.items }
    ensures worked { (i : ℕ) (w : Worker C) → i < length crew.0.items → HasWorked (slice_index_or crew.0.items i w) (slice_index_or result.0.items i w) }
    ensures told { (i : ℕ) (w : Worker C) → i < length crew.0.items → AllMore (G.told gate.now) (slice_index_or crew.0.items i w).told.said (slice_index_or result.0.items i w).told.said }
    ensures pass { (result.1.table ≡ B.table) × IsOnlooker B.number result.1.known }
    ensures answered { IfOk result.2 (λ told. (names : List (List ℕ)) (base : Table) → All (IsReady names B.book base) crew.1.items → AllAnswer names base result.1.known.seen (keys_of crew.1.items) told.items) }
{
    let (workers, readers) = crew;
    let news: Mutex<News<'_, C, B>> = Mutex::new(News {
        feed,
        pass,
        of: PhantomData,
    });
    let publisher = SharedNews {
        rt,
        alloc,
        mars,
        news: &news,
    };
    let feeding = Feeding {
        publisher: &publisher,
        gate,
    };
    let at_ends = &feeding;
    let (workers, readers) = thread::join(
        rt,
        move || -> Vec<Worker<C>>
            requires { (0 < length workers.items) × ((i : ℕ) (w : Worker C) → i < length workers.items → CanWork mars.now (slice_index_or workers.items i w)) }
            ensures { (length result.items ≡ length workers.items) × ((i : ℕ) (w : Worker C) → i < length workers.items → HasWorked (slice_index_or workers.items i w) (slice_index_or result.items i w))
                × ((i : ℕ) (w : Worker C) → i < length workers.items → AllMore (G.told at_ends.entry.now.gate.now) (slice_index_or workers.items i w).told.said (slice_index_or result.items i w).told.said) }
        { all_worked(rt, mars, workers, at_ends) },
        move || -> Vec<ReadWorker>
            requires { (0 < length readers.items) × ((i : ℕ) (w : ReadWorker) → i < length readers.items → CanRead (slice_index_or readers.items i w)) }
            ensures { (length result.items ≡ length readers.items) × ((i : ℕ) (w : ReadWorker) → i < length readers.items → HasRead (slice_index_or readers.items i w) (slice_index_or result.items i w)) }
        { all_read(rt, readers, gate) },
    );
    let News { feed, pass, of: _ } = news.into_inner();
    let answers = tie(rt, alloc, feed, readers);
    (workers, pass, answers)
}

// Lets callers and readers work over a shared core, whose passes are all at hand: one for each caller, and one for the feed.
fn run_beside<R: Threads + Wait + Sync, C: Core + Drop + Send, G: Gate + Sync>(
    rt: &R,
    alloc: Global,
    shared: (Mars<C>, Passes<C>),
    rooms: Rooms<C>,
    readership: Readership,
    tries: u64,
    gate: &G,
) -> (C, Vec<Fates>, Result<Vec<Answers>, NoMemory>, WorkEnd)
    requires few { length rooms.jobs.items ≤ 31 }
    requires some { 0 < length rooms.jobs.items }
    requires tries { 1 ≤ tries }
    requires passes { (shared.1.list ≡ dealt shared.0.table shared.0.setup (length rooms.jobs.items + 1)) × (shared.1.table ≡ shared.0.table) × (length rooms.jobs.items + 1 ≤ shared.1.room) }
    requires callers { shared.0.setup.callers ≡ length rooms.jobs.items + 1 }
    requires named { shared.0.setup.names ≡ (C.view shared.0.setup.first).state.names }
    requires blank { All IsBlank rooms.jobs.items }
    requires rooms { (rooms.workers.items ≡ []) × (length rooms.jobs.items ≤ vec_capacity rooms.workers) × (rooms.told.items ≡ []) × (length rooms.jobs.items ≤ vec_capacity rooms.told) }
    requires open { IsOpen (C.view shared.0.setup.first).state.names (C.view shared.0.setup.first).state.base readership }
    ensures worked { Worked C.tells tries (plans_of rooms.jobs.items) (C.view shared.0.setup.first) (C.view result.0) result.1.items result.3 }
    ensures told { KnowsFirst (G.told gate.now) (plans_of rooms.jobs.items) }
    ensures answered { IfOk result.2 (λ told. AllAnswer (C.view shared.0.setup.first).state.names (C.view shared.0.setup.first).state.base (C.view result.0).state.history (keys_of readership.workers.items) told.items) }
{
    let (mars, mut passes) = shared;
    let Rooms {
        jobs,
        workers,
        mut told,
    } = rooms;
    let Readership {
        mut feed,
        workers: readers,
    } = readership;
    let pass = passes.take().unwrap();
    let workers = hire(&mars, &mut passes, jobs, workers, tries);
    let crew = (workers, readers);
    let (workers, pass, answers) = all_work::<Brand, R, C, G>(
        rt, alloc, &mars, crew, &mut feed, pass, gate,
    );
    feed.close(rt);
    let mut order = Notes::new();
    let end = finish(rt, &mars, &mut passes, workers, &mut told, &mut order);
    passes.put_back(pass);
    (mars.close(passes), told, answers, end)
}

// `work_with`, with readers.
fn work_beside<R: Threads + Wait + Sync, C: Core + Drop + Send, G: Gate + Sync>(
    rt: &R,
    alloc: Global,
    core: C,
    readership: Readership,
    plans: Vec<Plans>,
    tries: u64,
    gate: &G,
) -> Result<(C, Vec<Fates>, Result<Vec<Answers>, NoMemory>, WorkEnd), (NoMemory, C)>
    requires few { length plans.items ≤ 31 }
    requires some { 0 < length plans.items }
    requires ready { CanShare C.tells (length plans.items + 1) (C.view core) }
    requires tries { 1 ≤ tries }
    requires open { IsOpen (C.view core).state.names (C.view core).state.base readership }
    ensures worked { IfOk result (λ r. Worked C.tells tries plans.items (C.view core) (C.view r.0) r.1.items r.3) }
    ensures told { IfOk result (λ r. KnowsFirst (G.told gate.now) plans.items) }
    ensures answered { IfOk result (λ r. IfOk r.2 (λ told. AllAnswer (C.view core).state.names (C.view core).state.base (C.view r.0).state.history (keys_of readership.workers.items) told.items)) }
    ensures given_back { IfErr result (λ e. e.1 ≡ core) }
{
    let passes = plans.len() as u8 + 1;
    let Ok(rooms) = prepare::<C>(alloc, plans) else {
        close(rt, readership);
        return Err((NoMemory, core));
    };
    match Mars::share(alloc, core, passes) {
        Ok(shared) => Ok(run_beside(rt, alloc, shared, rooms, readership, tries, gate)),
        Err(failed) => {
            close(rt, readership);
            Err(failed)
        }
    }
}

// Ends the feed.
fn close<R: Wait>(rt: &R, readership: Readership) {
    let Readership {
        feed,
        workers: _workers,
    } = readership;
    feed.close(rt);
}

/// Makes the planned transactions of all callers, and lets all readers read meanwhile, each caller and each reader by a worker of its own.
/// Returns the core with what became of each caller's plans, what each reader was answered, and how the callers' work ended. A transaction
/// that finds a key locked is tried up to `tries` times and then done last. If memory is short at the end, the answers are not told. If
/// there is no memory to begin with, the core comes back as it was and nothing was done.
pub fn work_with<R: Threads + Wait + Sync, C: Core + Drop + Send, G: Gate + Sync>(
    rt: &R,
    alloc: Global,
    core: C,
    readership: Option<Readership>,
    plans: Vec<Plans>,
    tries: u64,
    gate: &G,
) -> Result<(C, Vec<Fates>, Result<Vec<Answers>, NoMemory>, WorkEnd), (NoMemory, C)>
    requires few { passes_for (length plans.items) (length (asks_with readership)) ≤ 32 }
    requires some { 0 < length plans.items }
    requires ready { CanShare C.tells (passes_for (length plans.items) (length (asks_with readership))) (C.view core) }
    requires tries { 1 ≤ tries }
    requires open { IsOpenWith (C.view core).state.names (C.view core).state.base readership }
    ensures worked { IfOk result (λ r. Worked C.tells tries plans.items (C.view core) (C.view r.0) r.1.items r.3) }
    ensures told { IfOk result (λ r. KnowsFirst (G.told gate.now) plans.items) }
    ensures answered { IfOk result (λ r. IfOk r.2 (λ told. AllAnswer (C.view core).state.names (C.view core).state.base (C.view r.0).state.history (asks_with readership) told.items)) }
    ensures given_back { IfErr result (λ e. e.1 ≡ core) }
{
    match readership {
        Some(readership) => work_beside(rt, alloc, core, readership, plans, tries, gate),
        None => {
            let (core, fates, end) = work(rt, alloc, core, plans, tries, gate)?;
            Ok((core, fates, Ok(Vec::new(alloc)), end))
        }
    }
}
