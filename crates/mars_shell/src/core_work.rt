// What is done on a core over the records of an array.
ghost use Rattle.std.specs.Prelude.{◌≡◌, ℕ, Bool, List, None, IsTrue, IfOk, IfErr};
ghost use Rattle.caller_steps.specs.State.{State};
ghost use Rattle.caller_steps.specs.Room.{Limits};
ghost use Rattle.caller_steps.specs.Run.{Turn};
ghost use Rattle.mars_core.specs.Held.{core_of};
ghost use Rattle.mars_manager.specs.Sharing.{CanShare};
ghost use Rattle.mars_shell.specs.Contract.{IsAlive, Wrote, Serves, ServedCounts};
ghost use Rattle.script_run.specs.Counts.{Counts};
ghost use Rattle.script_run.specs.declared.ended.Ended.{Ended};
ghost use Rattle.mars_shell.specs.OnCore.{RanOut, Works};

use eaw_face::EawStore;
use mars_base::NoMemory;
use mars_core::{Core, CoreFault};
use noted::Keeper;
use outside::Sink;
use page_store::{KeyIndex, SaveRoom};
use script_run::Ended;
use std::alloc::Global;

/// Work on a core that has just begun with the records of an array.
pub trait CoreWork {
    /// Whether it reads the input.
    ghost reads: { Bool };

    /// It can be done.
    ghost can_be_done: { Self → Type 0 };

    /// Whether all that is told is formed before any of it is written, so that nothing is where memory runs out.
    ghost at_once: { Bool };

    /// What is done, in terms of the input, how the work ended, what was written, the limits of the core, the turns and the last state.
    ghost does: { Self → List ℕ → Ended → Bool → List ℕ → Limits → List Turn → State → Type 0 };

    fn reads(&self) -> bool
        ensures { result ≡ reads };

    /// Does it on a core over an array of so many transaction numbers. `NoMemory` says that nothing was done.
    fn work_on<K: Sink, S: EawStore + Drop + Send, I: KeyIndex + Send, H: Keeper>(
        &self,
        alloc: Global,
        input: &[u8],
        numbers: u8,
        sink: &mut K,
        core: Core<S, I, H>,
    ) -> (Result<Ended, NoMemory>, Core<S, I, H>)
        requires set { can_be_done self.now }
        requires numbers { numbers ≡ (S.view core.records.store).shape.numbers }
        requires ready { CanShare S.tells 0 (core_of S.opens I.index (S.view core.records.store) core) }
        requires shows { IsTrue S.tells → (core_of S.opens I.index (S.view core.records.store) core).shows (core_of S.opens I.index (S.view core.records.store) core).state }
        ensures works { Wrote K.tells (K.written sink.old) (K.written sink.new) (K.faults sink.old) (K.faults sink.new)
            (λ cut text. IsTrue S.tells → Works (λ ended. does self.now input.now ended cut text) (core_of S.opens I.index (S.view core.records.store) core) result.0 cut text
            (core_of S.opens I.index (S.view result.1.records.store) result.1)) }
        ensures untold { IfErr result.0 (λ fault. sink.new ≡ sink.old) }
        ensures short { IsTrue at_once → IfOk result.0 (λ ended. RanOut ended → sink.new ≡ sink.old) }
        ensures given_back { IfErr result.0 (λ fault. result.1 ≡ core) }
        ensures counts { IfOk result.0 (λ ended. Counts ended (K.faults sink.old) (K.faults sink.new) (S.view core.records.store).faults (S.view result.1.records.store).faults) };
}

/// Does work over the records of a store, under an index, on a core, which has brought the data to version 2, and returns the store. An error
/// says why nothing was done.
pub fn work_over<K: Sink, S: EawStore + Drop + Send, I: KeyIndex + Send, H: Keeper, W: CoreWork>(
    alloc: Global,
    input: &[u8],
    sink: &mut K,
    room: SaveRoom,
    store: S,
    work: &W,
) -> (Result<Ended, CoreFault>, S)
    requires set { W.can_be_done work.now }
    requires alive { IsAlive (S.view store) }
    requires free { (t : ℕ) → (S.view store).ranges t ≡ None }
    ensures served { Wrote K.tells (K.written sink.old) (K.written sink.new) (K.faults sink.old) (K.faults sink.new)
        (λ cut text. IsTrue S.tells → Serves (λ ended. W.does work.now input.now ended cut text) S.opens I.index (S.view store) result.0 cut text (S.view result.1)) }
    ensures untold { IfErr result.0 (λ fault. sink.new ≡ sink.old) }
    ensures short { IsTrue W.at_once → IfOk result.0 (λ ended. RanOut ended → sink.new ≡ sink.old) }
    ensures counts { ServedCounts result.0 (K.faults sink.old) (K.faults sink.new) (S.view store).faults (S.view result.1).faults }
{
    let numbers = store.shape().numbers;
    let core = match Core::<S, I, H>::attach(alloc, room, store) {
        Ok(core) => core,
        Err((fault, store)) => return (Err(fault), store),
    };
    let (worked, core) = work.work_on(alloc, input, numbers, sink, core);
    let store = core.into_store();
    match worked {
        Ok(ended) => (Ok(ended), store),
        Err(NoMemory) => (Err(CoreFault::NoMemory), store),
    }
}
