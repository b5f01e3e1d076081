// Records on a medium.
ghost use Rattle.std.specs.Prelude.{◌≡◌, ◌≤◌, [], ℕ, None, IfOk, IfErr, IsTrue, IsFalse, nat_lt};
ghost use Rattle.mars_base.specs.Causes.{Rose};
ghost use Rattle.caller_steps.specs.Room.{IsShown};
ghost use Rattle.caller_steps.specs.Sound.{IsSound};
ghost use Rattle.caller_steps.specs.State.{unoffered};
ghost use Rattle.eaw_device.specs.Depths.{IsOfDepth};
ghost use Rattle.open_records.specs.Opens.{Begins, BeginsOn, GivesBack, KeepsAt, KeepsRecords, OfData, IsUnopened, is_media};

use caller_steps::{Core as Steps, steps_keep_all_sound};
use eaw_device::{AttachFault, Depth, Eaw};
use eaw_face::EawStore;
use mars_core::{Core, CoreFault};
use noted::Keeper;
use page_store::{KeyIndex, SaveRoom};
use pcm_media::Media;
use std::alloc::Global;
use thiserror::Error;

/// Why records were not opened.
#[derive(Clone, Copy, Debug, PartialEq, Eq, Error)]
pub enum OpenFault {
    /// The medium holds no array that can be opened, or it failed.
    #[error("{0}")]
    Array(AttachFault),
    /// The array holds no sound records under this index, or the medium failed.
    #[error("{0}")]
    Records(CoreFault),
    /// The array has transaction numbers for fewer callers.
    #[error("the array is for {numbers} callers")]
    Callers { numbers: u8 },
    #[error("no memory")]
    NoMemory,
}

/// Opens the array that the medium holds, as a loss of power left it, and its records under the index, for at least so many callers. At most
/// `depth` commits may wait for their write-back: 0 on an `Eaw<M>`, and as many as are given on an `Eaw<M, AnyDepth>`. With `KeepsNothing`
/// its memory does not grow with what is committed. An error returns the medium.
pub fn open<M: Media, K: KeyIndex, H: Keeper, D: Depth>(
    alloc: Global,
    media: M,
    callers: u8,
    depth: u8,
) -> Result<Core<Eaw<M, D>, K, H>, (OpenFault, M)>
    requires { IsOfDepth D.least D.most depth }
    // The medium holds an array, and the core begins with the records of its data, which are those of the data with which the image opens.
    ensures array { IfOk result (λ core. IsTrue M.tells → BeginsOn K.index depth (M.view media) (⟦<Core<Eaw<M, D>, K, H> as Steps>⟧.view core)) }
    ensures opened { IfOk result (λ core. OfData M.tells (M.view media) (λ shape bytes. Begins K.index depth shape bytes (⟦<Core<Eaw<M, D>, K, H> as Steps>⟧.view core))) }
    ensures sound { IfOk result (λ core. IsTrue M.tells → IsSound (⟦<Core<Eaw<M, D>, K, H> as Steps>⟧.view core).state) }
    // The data of the array shows the first state, and so each state of a run that is not dead.
    ensures shown { IfOk result (λ core. IsTrue M.tells → IsShown (⟦<Core<Eaw<M, D>, K, H> as Steps>⟧.view core).limits (⟦<Core<Eaw<M, D>, K, H> as Steps>⟧.view core).state) }
    ensures shows { IfOk result (λ core. IsTrue M.tells → (⟦<Core<Eaw<M, D>, K, H> as Steps>⟧.view core).shows (⟦<Core<Eaw<M, D>, K, H> as Steps>⟧.view core).state) }
    ensures fresh { IfOk result (λ core. ((⟦<Core<Eaw<M, D>, K, H> as Steps>⟧.view core).state.history ≡ []) × ((caller : ℕ) → (⟦<Core<Eaw<M, D>, K, H> as Steps>⟧.view core).state.live caller ≡ None)
        × ((⟦<Core<Eaw<M, D>, K, H> as Steps>⟧.view core).state.doubt ≡ []) × ((caller : ℕ) → (⟦<Core<Eaw<M, D>, K, H> as Steps>⟧.view core).state.offers caller ≡ unoffered)) }
    ensures enough { IfOk result (λ core. callers ≤ (⟦<Core<Eaw<M, D>, K, H> as Steps>⟧.view core).limits.callers) }
    // As many commits may wait for their write-back as were asked for.
    ensures depth { IfOk result (λ core. (⟦<Core<Eaw<M, D>, K, H> as Steps>⟧.view core).limits.depth ≡ depth) }
    ensures whole { IfOk result (λ core. (⟦<Core<Eaw<M, D>, K, H> as Steps>⟧.view core).faults ≡ (M.view media).faults) }
    // What is another's to do on the device stays so.
    ensures device { IfOk result (λ core. (⟦<Eaw<M, D> as EawStore>⟧.view core.records.store).device ≡ (M.view media).device) }
    // At each moment of it, what a loss of power leaves opens with data that was left before, or with the same in version 2.
    ensures time { IfOk result (λ core. KeepsRecords M.tells (M.view media) (⟦<Core<Eaw<M, D>, K, H> as Steps>⟧.view core).moment (⟦<Core<Eaw<M, D>, K, H> as Steps>⟧.view core).left_since) }
    ensures cause { IfErr result (λ failed. IsUnopened M.tells K.index callers (M.view media) (M.view failed.1).faults failed.0) }
    // The medium that is given back is as it was, unless it failed, but that an array on it may be recovered.
    ensures gives_back { IfErr result (λ failed. GivesBack M.tells (nat_lt 0 D.most) (M.view media) (M.view failed.1) failed.0) }
    ensures keeps { IfErr result (λ failed. KeepsAt M.tells (M.view media) (M.view failed.1) failed.0) }
    ensures fails { IfErr result (λ failed. IsTrue (is_media failed.0) → Rose (M.view media).faults (M.view failed.1).faults) }
    ensures kept { IfErr result (λ failed. IsFalse (is_media failed.0) → (M.view failed.1).faults ≡ (M.view media).faults) }
    ensures early { IfErr result (λ failed. failed.0 ≡ OpenFault.NoMemory → failed.1 ≡ media) }
{
    steps_keep_all_sound();
    let Ok(room) = SaveRoom::new(alloc) else {
        return Err((OpenFault::NoMemory, media));
    };
    let store = match Eaw::<M, D>::attach_late(alloc, media, depth) {
        Ok(store) => store,
        Err((fault, media)) => return Err((OpenFault::Array(fault), media)),
    };
    let numbers = store.shape().numbers;
    if callers > numbers {
        return Err((OpenFault::Callers { numbers }, store.into_media()));
    }
    match Core::attach(alloc, room, store) {
        Ok(core) => Ok(core),
        Err((fault, store)) => Err((OpenFault::Records(fault), store.into_media())),
    }
}
