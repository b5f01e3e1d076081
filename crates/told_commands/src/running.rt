// A command whose work is told at its end.
ghost use Rattle.std.specs.Prelude.{◌≡◌, ◌⊎◌, ℕ, None, IfErr, IsTrue};
ghost use Rattle.eaw_face.specs.Causes.{IsAlive};
ghost use Rattle.texts.specs.Written.{Wrote};
ghost use Rattle.array_runs.specs.Statuses.{Counts, IsEarly, IsRefusal};
ghost use Rattle.told_commands.specs.Told.{said, IsStop, FaultCounts, Tells, LeavesOwn};

use crate::told_work::{Told, ToldWork};
use array_runs::{Status, find_form, open_for, script_status, served_status, write_ended};
use btree_pages::BTreePages;
use eaw_device::Eaw;
use eaw_face::EawStore;
use key_list::KeyList;
use outside::{Sink, Source};
use page_store::SaveRoom;
use pcm_media::Media;
use record_table::Form;
use std::alloc::Global;
use std::marker::Brand;

/// Does the work over the records of the array that the medium holds, if they are sound, writes what is told of it, and returns the medium.
pub fn run_told<S: Source, K: Sink, M: Media + Drop + Send, W: ToldWork>(
    alloc: Global,
    source: &mut S,
    sink: &mut K,
    media: M,
    work: &W,
) -> (Status, M)
    ensures no_usage { result.0 ≡ Status.Usage → ⊥ }
    ensures late { IsEarly result.0 → ⊥ }
    // Nothing is written unless the work came to its end.
    ensures refused { IsRefusal result.0 → sink.new ≡ sink.old }
    ensures untold { (result.0 ≡ Status.MediaFault) ⊎ (result.0 ≡ Status.NoMemory) → sink.new ≡ sink.old }
    ensures unread { source.new ≡ source.old }
    ensures counts { Counts result.0 (S.faults source.old) (S.faults source.new) (K.faults sink.old) (K.faults sink.new) (M.view media).faults (M.view result.1).faults }
    ensures ran { Wrote K.tells (K.written sink.old) (K.written sink.new) (K.faults sink.old) (K.faults sink.new)
        (λ cut text. IsTrue M.tells → W.comes work.now (M.view media) result.0 (M.view result.1) cut text) }
{
    work.laws::<Eaw<M>, M>();
    let (room, _, store) = match open_for::<S, M, Brand>(alloc, false, 0, source, media, 0) {
        Ok(opened) => opened,
        Err(ended) => return ended,
    };
    let (end, store) = work_over(alloc, room, store, work);
    (tell(sink, end), store.into_media())
}

// Does the work over the records of a store, under the index that its data names.
fn work_over<S: EawStore, W: ToldWork>(
    alloc: Global,
    room: SaveRoom,
    store: S,
    work: &W,
) -> (Result<Told, Status>, S)
    requires alive { IsAlive (S.view store) }
    requires free { (t : ℕ) → (S.view store).ranges t ≡ None }
    ensures leaves { LeavesOwn S.view (W.leaves work.now S.tells S.opens) W.spares S.tells S.opens store (said result.0) result.1 }
    ensures stops { IfErr (said result.0) IsStop }
    ensures counts { FaultCounts (said result.0) (S.view store).faults (S.view result.1).faults }
{
    let mut store = store;
    match find_form(&mut store) {
        Ok(Form::Chain) => work.work_on::<S, KeyList>(alloc, room, store),
        Ok(Form::Tree) => work.work_on::<S, BTreePages>(alloc, room, store),
        Err(fault) => (Err(served_status(Err(fault))), store),
    }
}

// Writes what is told, and says how the run then ended.
fn tell<K: Sink>(sink: &mut K, end: Result<Told, Status>) -> Status
    ensures told { Wrote K.tells (K.written sink.old) (K.written sink.new) (K.faults sink.old) (K.faults sink.new) (λ cut text. Tells (said end) result cut text) }
    ensures untold { IfErr (said end) (λ stop. sink.new ≡ sink.old) }
{
    match end {
        Ok(told) => script_status(write_ended(sink, told.as_bytes())),
        Err(status) => status,
    }
}
