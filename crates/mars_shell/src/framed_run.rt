// The lines of callers over the records of an array, with the frames that it sends.
ghost use Rattle.std.specs.Prelude.{◌≡◌, ℕ, List, None, false, true, IsTrue, IfErr};
ghost use Rattle.mars_shell.specs.Contract.{IsAlive, Wrote, index_at, InputSays, OutcomeOf, Counts, depth_of, HasDepth, Serves, ServedCounts, Spares};
ghost use Rattle.mars_shell.specs.FramedRun.{RunsAs, says_framed};

use crate::late::depth_of;
use crate::mirrored::ShownLines;
use crate::responder::LineCore;
use array_runs::{Status, find_form, open_for, served_status};
use btree_pages::BTreePages;
use command_words::Writing;
use eaw_device::Depth;
use eaw_face::EawStore;
use frame_lines::answer_framed;
use key_list::KeyList;
use mars_core::{Core, CoreFault};
use mirror::{MemoryLink, Primary};
use noted::KeepsNothing;
use outside::{Sink, Source};
use page_store::{KeyIndex, SaveRoom};
use pcm_media::Media;
use record_table::Form;
use script_run::Ended;
use std::alloc::Global;

/// Answers the lines of callers over the records of the array that the medium holds, if they are sound, and writes the frames that it sends.
pub(crate) fn run_framed<S: Source, K: Sink, M: Media + Drop + Send, D: Depth + Send>(
    alloc: Global,
    source: &mut S,
    sink: &mut K,
    media: M,
    writing: Writing,
) -> (Status, M)
    requires depth { HasDepth writing }
    requires of_type { (D.least ≡ depth_of writing) × (D.most ≡ depth_of writing) }
    ensures spares { Spares result.0 (result.1 ≡ media) (sink.new ≡ sink.old) }
    ensures counts { Counts result.0 (S.faults source.old) (S.faults source.new) (K.faults sink.old) (K.faults sink.new) (M.view media).faults (M.view result.1).faults }
    ensures steady { IsTrue (S.steady source.old) → result.0 ≡ Status.ReadFault → ⊥ }
    ensures input { IsTrue S.tells → InputSays result.0 (S.left source.old) (S.left source.new) }
    ensures ran { Wrote K.tells (K.written sink.old) (K.written sink.new) (K.faults sink.old) (K.faults sink.new)
        (λ cut text. (input : List ℕ) × (IsTrue S.tells → S.left source.old ≡ input) × (IsTrue M.tells → OutcomeOf false true 0
        (λ ended. RunsAs true (depth_of writing) input cut text (M.view media) ended (M.view result.1)) (M.view media) result.0 (M.view result.1) cut text)) }
{
    let depth = depth_of(writing);
    let (room, input, store) = match open_for::<S, M, D>(alloc, true, 0, source, media, depth) {
        Ok(opened) => opened,
        Err(ended) => return ended,
    };
    let (served, store) = serve_framed(alloc, &input, sink, room, store);
    (served_status(served), store.into_media())
}

// Over the records of a store, under the index that its data names.
fn serve_framed<K: Sink, S: EawStore + Drop + Send>(
    alloc: Global,
    input: &[u8],
    sink: &mut K,
    room: SaveRoom,
    store: S,
) -> (Result<Ended, CoreFault>, S)
    requires alive { IsAlive (S.view store) }
    requires free { (t : ℕ) → (S.view store).ranges t ≡ None }
    ensures served { Wrote K.tells (K.written sink.old) (K.written sink.new) (K.faults sink.old) (K.faults sink.new)
        (λ cut text. IsTrue S.tells → Serves (says_framed (index_at (S.view store).state.bytes) (S.view store) input.now cut text) S.opens (index_at (S.view store).state.bytes) (S.view store)
        result.0 cut text (S.view result.1)) }
    ensures untold { IfErr result.0 (λ fault. sink.new ≡ sink.old) }
    ensures counts { ServedCounts result.0 (K.faults sink.old) (K.faults sink.new) (S.view store).faults (S.view result.1).faults }
{
    let mut store = store;
    match find_form(&mut store) {
        Ok(Form::Chain) => work_framed::<K, S, KeyList>(alloc, input, sink, room, store),
        Ok(Form::Tree) => work_framed::<K, S, BTreePages>(alloc, input, sink, room, store),
        Err(fault) => (Err(fault), store),
    }
}

// The same under an index. What the opening sends is written before the first reply.
fn work_framed<K: Sink, S: EawStore + Drop + Send, I: KeyIndex + Send>(
    alloc: Global,
    input: &[u8],
    sink: &mut K,
    room: SaveRoom,
    store: S,
) -> (Result<Ended, CoreFault>, S)
    requires alive { IsAlive (S.view store) }
    requires free { (t : ℕ) → (S.view store).ranges t ≡ None }
    ensures served { Wrote K.tells (K.written sink.old) (K.written sink.new) (K.faults sink.old) (K.faults sink.new)
        (λ cut text. IsTrue S.tells → Serves (says_framed I.index (S.view store) input.now cut text) S.opens I.index (S.view store) result.0 cut text (S.view result.1)) }
    ensures untold { IfErr result.0 (λ fault. sink.new ≡ sink.old) }
    ensures counts { ServedCounts result.0 (K.faults sink.old) (K.faults sink.new) (S.view store).faults (S.view result.1).faults }
{
    let numbers = store.shape().numbers;
    let primary = match Primary::attach(alloc, store, MemoryLink::new(alloc)) {
        Ok(primary) => primary,
        Err((_, store, _)) => return (Err(CoreFault::NoMemory), store),
    };
    let core = match Core::<Primary<S, MemoryLink>, I, KeepsNothing>::attach(alloc, room, primary) {
        Ok(core) => core,
        Err((fault, primary)) => {
            let (store, _link) = primary.into_parts();
            return (Err(fault), store);
        }
    };
    let shown = ShownLines {
        lines: LineCore {
            core,
            callers: numbers,
        },
    };
    let (ended, shown) = answer_framed(alloc, input, sink, shown);
    let ShownLines {
        lines: LineCore { core, callers: _ },
    } = shown;
    let (store, _link) = core.into_store().into_parts();
    (Ok(ended), store)
}
