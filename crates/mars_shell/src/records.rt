// Work over the records of the array that a medium holds.
ghost use Rattle.std.specs.Prelude.{◌≡◌, ◌⊎◌, ℕ, List, None, true, false, IsTrue, IsFalse, IfOk, IfErr};
ghost use Rattle.mars_shell.specs.Contract.{IsAlive, Wrote, index_at, InputSays, OutcomeOf, Counts, IsEarly, IsRefusal, depth_of, HasDepth, Serves, ServedCounts};
ghost use Rattle.mars_shell.specs.OnCore.{RanOut};
ghost use Rattle.mars_shell.specs.Run.{TakesTurns};

use crate::core_work::{CoreWork, work_over};
use crate::late::depth_of;
use array_runs::{Status, find_form, open_for, served_status};
use btree_pages::BTreePages;
use command_words::Writing;
use eaw_device::{Depth, Eaw};
use eaw_face::EawStore;
use key_list::KeyList;
use mars_core::CoreFault;
use noted::Keeper;
use outside::{Sink, Source};
use page_store::SaveRoom;
use pcm_media::Media;
use record_table::Form;
use script_run::Ended;
use std::alloc::Global;

/// Does work over the records of the array that the medium holds, if they are sound. The data of commits is written to its place when the
/// words say so.
pub fn over_records<
    S: Source,
    K: Sink,
    M: Media + Drop + Send,
    D: Depth + Send,
    H: Keeper,
    W: CoreWork,
>(alloc: Global, source: &mut S, sink: &mut K, media: M, writing: Writing, work: &W) -> (Status, M)
    requires depth { HasDepth writing }
    requires of_type { (D.least ≡ depth_of writing) × (D.most ≡ depth_of writing) }
    requires set { W.can_be_done work.now }
    ensures no_usage { result.0 ≡ Status.Usage → ⊥ }
    ensures early { IsEarly result.0 → IsTrue W.reads × (result.1 ≡ media) }
    ensures silent { IsEarly result.0 ⊎ IsRefusal result.0 → sink.new ≡ sink.old }
    ensures short { IsTrue W.at_once → result.0 ≡ Status.NoMemory → sink.new ≡ sink.old }
    ensures counts { Counts result.0 (S.faults source.old) (S.faults source.new) (K.faults sink.old) (K.faults sink.new) (M.view media).faults (M.view result.1).faults }
    ensures steady { IsTrue (S.steady source.old) → result.0 ≡ Status.ReadFault → ⊥ }
    ensures input { IsTrue W.reads → IsTrue S.tells → InputSays result.0 (S.left source.old) (S.left source.new) }
    ensures unread { IsFalse W.reads → source.new ≡ source.old }
    ensures ran { Wrote K.tells (K.written sink.old) (K.written sink.new) (K.faults sink.old) (K.faults sink.new)
        (λ cut text. (input : List ℕ) × (IsTrue W.reads → IsTrue S.tells → S.left source.old ≡ input) × (IsTrue M.tells → OutcomeOf false true 0
        (λ ended. TakesTurns (depth_of writing) (W.does work.now input ended cut text) (M.view media) ended (M.view result.1))
        (M.view media) result.0 (M.view result.1) cut text)) }
{
    let depth = depth_of(writing);
    let (room, input, store) = match open_for::<S, M, D>(
        alloc,
        work.reads(),
        0,
        source,
        media,
        depth,
    ) {
        Ok(opened) => opened,
        Err(ended) => return ended,
    };
    let (served, store) = serve::<K, Eaw<M, D>, H, W>(alloc, &input, sink, room, store, work);
    (served_status(served), store.into_media())
}

// Does work over the records of a store, under the index that its data names, and returns the store. Nothing is written if the records
// were not taken.
fn serve<K: Sink, S: EawStore + Drop + Send, H: Keeper, W: CoreWork>(
    alloc: Global,
    input: &[u8],
    sink: &mut K,
    room: SaveRoom,
    store: S,
    work: &W,
) -> (Result<Ended, CoreFault>, S)
    requires set { W.can_be_done work.now }
    requires alive { IsAlive (S.view store) }
    requires free { (t : ℕ) → (S.view store).ranges t ≡ None }
    ensures served { Wrote K.tells (K.written sink.old) (K.written sink.new) (K.faults sink.old) (K.faults sink.new)
        (λ cut text. IsTrue S.tells → Serves (λ ended. W.does work.now input.now ended cut text) S.opens (index_at (S.view store).state.bytes) (S.view store) result.0 cut text (S.view result.1)) }
    ensures untold { IfErr result.0 (λ fault. sink.new ≡ sink.old) }
    ensures short { IsTrue W.at_once → IfOk result.0 (λ ended. RanOut ended → sink.new ≡ sink.old) }
    ensures counts { ServedCounts result.0 (K.faults sink.old) (K.faults sink.new) (S.view store).faults (S.view result.1).faults }
{
    let mut store = store;
    match find_form(&mut store) {
        Ok(Form::Chain) => work_over::<K, S, KeyList, H, W>(alloc, input, sink, room, store, work),
        Ok(Form::Tree) => work_over::<K, S, BTreePages, H, W>(
            alloc, input, sink, room, store, work,
        ),
        Err(fault) => (Err(fault), store),
    }
}
