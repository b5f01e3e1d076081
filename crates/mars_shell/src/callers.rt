// Callers on threads over the records of an array.
ghost use Rattle.std.specs.Prelude.{◌≡◌, ◌<◌, ◌≤◌, ◌⊎◌, ℕ, List, None, false, IsTrue, IfOk, IfErr};
ghost use Rattle.command_words.specs.declared.words.Words.TheVariants.{Callers};
ghost use Rattle.eaw_face.specs.Causes.{IsAlive};
ghost use Rattle.mars_core.specs.Held.{core_of};
ghost use Rattle.mars_manager.specs.Sharing.{CanShare};
ghost use Rattle.reader_work.specs.Readership.{passes_for};
ghost use Rattle.texts.specs.Written.{Wrote};
ghost use Rattle.script_run.specs.Counts.{Counts as WorkCounts};
ghost use Rattle.mars_shell.specs.Asked.{OutcomeFor};
ghost use Rattle.array_runs.specs.Forms.{index_at};
ghost use Rattle.array_runs.specs.Input.{InputSays};
ghost use Rattle.mars_shell.specs.Joint.{JointWork};
ghost use Rattle.mars_shell.specs.Late.{depth_of, HasDepth};
ghost use Rattle.mars_shell.specs.OnCore.{RanOut, Works};
ghost use Rattle.mars_shell.specs.Served.{Serves, ServedCounts};
ghost use Rattle.array_runs.specs.Statuses.{Counts, IsEarly, IsRefusal};

use crate::joint::{WorkLines, tell_end};
use crate::kept::{base_of, history_of};
use crate::late::depth_of;
use array_runs::{Status, find_form, open_for, served_status};
use btree_pages::BTreePages;
use caller_plans::{Script, read_script};
use caller_steps::Core as Steps;
use caller_work::Gate;
use command_words::CallersNumbers;
use eaw_device::Depth;
use eaw_face::EawStore;
use key_list::KeyList;
use mars_base::NoMemory;
use mars_core::{Core, CoreFault};
use noted::KeepsAll;
use outside::{Sink, Source};
use page_store::{KeyIndex, SaveRoom};
use pcm_media::Media;
use reader_work::{open_readership, passes_for, work_with};
use record_table::Form;
use script_run::Ended;
use std::alloc::Global;
use std::sync::Wait;
use std::thread::Threads;

/// What callers on threads work with.
#[derive(Drop)]
pub struct Crew<'a, R, G> {
    pub rt: &'a R,
    pub numbers: CallersNumbers,
    pub gate: &'a G,
}

/// Gives each caller's transactions in the source to a worker of its own on a thread, and what each reader asks for too, which call the gate
/// between their calls, over the array that the medium holds, if its records are sound. Answers `Usage` if the array has fewer transaction
/// numbers than there are callers, and one more if there are readers.
pub fn run_callers<
    R: Threads + Wait + Sync,
    S: Source,
    K: Sink,
    M: Media + Drop + Send,
    D: Depth + Send,
    G: Gate + Sync,
>(alloc: Global, source: &mut S, sink: &mut K, media: M, crew: &Crew<R, G>) -> (Status, M)
    requires some { 0 < crew.now.numbers.callers }
    requires few { passes_for crew.now.numbers.callers crew.now.numbers.readers ≤ 32 }
    requires readers { crew.now.numbers.readers ≤ 8 }
    requires tries { 1 ≤ crew.now.numbers.tries }
    requires depth { HasDepth crew.now.numbers.writing }
    requires of_type { (D.least ≡ depth_of crew.now.numbers.writing) × (D.most ≡ depth_of crew.now.numbers.writing) }
    ensures early { IsEarly result.0 → result.1 ≡ media }
    ensures silent { IsEarly result.0 ⊎ IsRefusal result.0 → sink.new ≡ sink.old }
    ensures short { result.0 ≡ Status.NoMemory → sink.new ≡ sink.old }
    ensures counts { Counts result.0 (S.faults source.old) (S.faults source.new) (K.faults sink.old) (K.faults sink.new) (M.view media).faults (M.view result.1).faults }
    ensures steady { IsTrue (S.steady source.old) → result.0 ≡ Status.ReadFault → ⊥ }
    ensures input { IsTrue S.tells → InputSays result.0 (S.left source.old) (S.left source.new) }
    ensures ran { Wrote K.tells (K.written sink.old) (K.written sink.new) (K.faults sink.old) (K.faults sink.new)
        (λ cut text. (input : List ℕ) × (IsTrue S.tells → S.left source.old ≡ input)
        × (IsTrue M.tells → OutcomeFor (Callers crew.now.numbers) (G.told crew.now.gate.now) (M.view media) result.0 (M.view result.1) input cut text)) }
{
    let passes = passes_for(crew.numbers.callers, crew.numbers.readers);
    let depth = depth_of(crew.numbers.writing);
    let (room, input, store) = match open_for::<S, M, D>(
        alloc, true, passes, source, media, depth,
    ) {
        Ok(opened) => opened,
        Err(ended) => return ended,
    };
    let (served, store) = serve_jointly(alloc, &input, sink, room, store, crew);
    (served_status(served), store.into_media())
}

// Does the callers' work over the records of a store, under the index that its data names, and returns the store. What sends work to
// threads is no method of a trait, so this does not go the way of other work.
fn serve_jointly<R: Threads + Wait + Sync, K: Sink, S: EawStore + Drop + Send, G: Gate + Sync>(
    alloc: Global,
    input: &[u8],
    sink: &mut K,
    room: SaveRoom,
    store: S,
    crew: &Crew<R, G>,
) -> (Result<Ended, CoreFault>, S)
    requires alive { IsAlive (S.view store) }
    requires free { (t : ℕ) → (S.view store).ranges t ≡ None }
    requires some { 0 < crew.now.numbers.callers }
    requires few { passes_for crew.now.numbers.callers crew.now.numbers.readers ≤ 32 }
    requires enough { passes_for crew.now.numbers.callers crew.now.numbers.readers ≤ (S.view store).shape.numbers }
    requires readers { crew.now.numbers.readers ≤ 8 }
    requires tries { 1 ≤ crew.now.numbers.tries }
    ensures served { Wrote K.tells (K.written sink.old) (K.written sink.new) (K.faults sink.old) (K.faults sink.new)
        (λ cut text. IsTrue S.tells → Serves (λ ended. JointWork (G.told crew.now.gate.now) crew.now.numbers.callers crew.now.numbers.readers input.now ended cut text) S.opens (index_at (S.view store).state.bytes) (S.view store)
        result.0 cut text (S.view result.1)) }
    ensures untold { IfErr result.0 (λ fault. sink.new ≡ sink.old) }
    ensures short { IfOk result.0 (λ ended. RanOut ended → sink.new ≡ sink.old) }
    ensures counts { ServedCounts result.0 (K.faults sink.old) (K.faults sink.new) (S.view store).faults (S.view result.1).faults }
{
    let mut store = store;
    match find_form(&mut store) {
        Ok(Form::Chain) => {
            work_under::<R, K, S, KeyList, G>(alloc, input, sink, room, store, crew)
        }
        Ok(Form::Tree) => {
            work_under::<R, K, S, BTreePages, G>(alloc, input, sink, room, store, crew)
        }
        Err(fault) => (Err(fault), store),
    }
}

// The same under an index.
fn work_under<
    R: Threads + Wait + Sync,
    K: Sink,
    S: EawStore + Drop + Send,
    I: KeyIndex + Send,
    G: Gate + Sync,
>(
    alloc: Global,
    input: &[u8],
    sink: &mut K,
    room: SaveRoom,
    store: S,
    crew: &Crew<R, G>,
) -> (Result<Ended, CoreFault>, S)
    requires alive { IsAlive (S.view store) }
    requires free { (t : ℕ) → (S.view store).ranges t ≡ None }
    requires some { 0 < crew.now.numbers.callers }
    requires few { passes_for crew.now.numbers.callers crew.now.numbers.readers ≤ 32 }
    requires enough { passes_for crew.now.numbers.callers crew.now.numbers.readers ≤ (S.view store).shape.numbers }
    requires readers { crew.now.numbers.readers ≤ 8 }
    requires tries { 1 ≤ crew.now.numbers.tries }
    ensures served { Wrote K.tells (K.written sink.old) (K.written sink.new) (K.faults sink.old) (K.faults sink.new)
        (λ cut text. IsTrue S.tells → Serves (λ ended. JointWork (G.told crew.now.gate.now) crew.now.numbers.callers crew.now.numbers.readers input.now ended cut text) S.opens I.index (S.view store) result.0 cut text (S.view result.1)) }
    ensures untold { IfErr result.0 (λ fault. sink.new ≡ sink.old) }
    ensures short { IfOk result.0 (λ ended. RanOut ended → sink.new ≡ sink.old) }
    ensures counts { ServedCounts result.0 (K.faults sink.old) (K.faults sink.new) (S.view store).faults (S.view result.1).faults }
{
    let core = match Core::<S, I, KeepsAll>::attach(alloc, room, store) {
        Ok(core) => core,
        Err((fault, store)) => return (Err(fault), store),
    };
    let (worked, core) = work_jointly(alloc, input, sink, core, crew);
    let store = core.into_store();
    match worked {
        Ok(ended) => (Ok(ended), store),
        Err(NoMemory) => (Err(CoreFault::NoMemory), store),
    }
}

// Does the callers' work on a core. `NoMemory` says that nothing was done.
fn work_jointly<
    R: Threads + Wait + Sync,
    K: Sink,
    S: EawStore + Drop + Send,
    I: KeyIndex + Send,
    G: Gate + Sync,
>(
    alloc: Global,
    input: &[u8],
    sink: &mut K,
    core: Core<S, I, KeepsAll>,
    crew: &Crew<R, G>,
) -> (Result<Ended, NoMemory>, Core<S, I, KeepsAll>)
    requires some { 0 < crew.now.numbers.callers }
    requires few { passes_for crew.now.numbers.callers crew.now.numbers.readers ≤ 32 }
    requires readers { crew.now.numbers.readers ≤ 8 }
    requires tries { 1 ≤ crew.now.numbers.tries }
    requires ready { CanShare S.tells (passes_for crew.now.numbers.callers crew.now.numbers.readers) (core_of S.opens I.index (S.view core.records.store) core) }
    ensures works { Wrote K.tells (K.written sink.old) (K.written sink.new) (K.faults sink.old) (K.faults sink.new)
        (λ cut text. IsTrue S.tells → Works (λ ended. JointWork (G.told crew.now.gate.now) crew.now.numbers.callers crew.now.numbers.readers input.now ended cut text) (core_of S.opens I.index (S.view core.records.store) core) result.0
        cut text (core_of S.opens I.index (S.view result.1.records.store) result.1)) }
    ensures untold { IfErr result.0 (λ fault. sink.new ≡ sink.old) }
    ensures short { IfOk result.0 (λ ended. RanOut ended → sink.new ≡ sink.old) }
    ensures given_back { IfErr result.0 (λ fault. result.1 ≡ core) }
    ensures counts { IfOk result.0 (λ ended. WorkCounts ended (K.faults sink.old) (K.faults sink.new) (S.view core.records.store).faults (S.view result.1.records.store).faults) }
{
    let CallersNumbers {
        callers,
        tries,
        writing: _,
        readers,
    } = crew.numbers;
    let Ok(script) = read_script(alloc, input, callers, readers) else {
        return (Err(NoMemory), core);
    };
    let Script {
        faults,
        plans,
        asks,
    } = script;
    // Behind a pointer the core goes from thread to thread without a copy.
    let core = match Box::new(alloc, core) {
        Ok(core) => core,
        Err(full) => return (Err(NoMemory), full.value),
    };
    let (names, base) = (core.as_ref().names(), base_of(core.as_ref()));
    let Ok(readership) = open_readership(crew.rt, alloc, names, base, asks) else {
        return (Err(NoMemory), Box::into_inner(core));
    };
    match work_with(
        crew.rt,
        alloc,
        core,
        readership,
        plans,
        u64::from(tries),
        crew.gate,
    ) {
        Ok((core, fates, answers, end)) => {
            let core = Box::into_inner(core);
            let lines = WorkLines {
                faults,
                fates,
                answers,
            };
            let ended = tell_end(alloc, sink, &lines, history_of(&core), base_of(&core), end);
            (Ok(ended), core)
        }
        Err((NoMemory, core)) => (Err(NoMemory), Box::into_inner(core)),
    }
}
