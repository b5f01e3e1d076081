// Records over a medium.
ghost use Rattle.std.specs.Prelude.{◌<◌, IfSome, IsTrue};
ghost use Rattle.caller_steps.specs.Sound.{IsSound};

use btree_pages::BTreePages;
use caller_steps::Core as Steps;
use eaw_device::Eaw;
use mars_core::Core;
use noted::KeepsNews;
use open_records::open;
use pcm_media::Media;
use std::alloc::Global;

/// A core over the records of an array. All tests have one that can forget its history, so that it is built once.
pub type Bank<M> = Core<Eaw<M>, BTreePages, KeepsNews>;

/// Opens the records of the array that the medium holds, for a caller. There are none where it holds no sound array, the medium fails, or
/// memory is short.
pub fn open_bank<M: Media + Drop>(alloc: Global, media: M) -> Option<Bank<M>>
    ensures inside { IfSome result (λ core. 0 < (⟦<Bank<M> as Steps>⟧.view core).limits.callers) }
    ensures sound { IfSome result (λ core. IsTrue M.tells → IsSound (⟦<Bank<M> as Steps>⟧.view core).state) }
{
    open(alloc, media, 1, 0).ok()
}

/// The medium of a core.
pub fn close_bank<M: Media>(core: Bank<M>) -> M {
    core.into_store().into_media()
}
