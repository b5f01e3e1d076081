// An array whose reads can be held, and a core of three callers over the records of one.
ghost use Rattle.std.specs.Prelude.{◌≡◌, ◌≤◌, ℕ, None, IfSome};
ghost use Rattle.eaw_face.specs.Causes.{IsAlive};
ghost use Rattle.mars_manager.specs.Sharing.{CanShare};

use super::arrays::{Disk, fresh_of, whole};
use super::held_media::{HeldMedia, Hold};
use super::opening::Bank;
use array_shape::Shape;
use btree_pages::BTreePages;
use caller_steps::Core as Steps;
use eaw_device::Eaw;
use eaw_face::EawStore;
use mars_core::Core;
use noted::KeepsNews;
use page_store::SaveRoom;
use pcm_media::{FusedMedia, Media, MemoryMedia};
use std::alloc::Global;
use std::sync::Arc;

// A fresh array for three callers; `None` where memory is short.
fn fresh_for_three(alloc: Global) -> Option<MemoryMedia> {
    fresh_of(alloc, &Shape::new(1, 3, 8, 4).ok()?)
}

/// A medium with a fresh array for three callers, whose reads can be held.
pub fn held_array(alloc: Global, hold: &Arc<Hold, Global>) -> Option<Disk> {
    let media = FusedMedia::wrap(fresh_for_three(alloc)?, u64::MAX);
    Some(HeldMedia::held_by(media, Arc::try_clone(hold).ok()?))
}

/// The same where nobody holds a read.
pub fn array(alloc: Global) -> Option<Disk> {
    Some(whole(fresh_for_three(alloc)?))
}

/// A core of three callers over the array on any medium, if it has numbers for them.
pub fn opened<M: Media + Drop>(alloc: Global, media: M) -> Option<Bank<M>>
    ensures shared { IfSome result (λ core. CanShare ⟦<Bank<M> as Steps>⟧.tells 3 (⟦<Bank<M> as Steps>⟧.view core)) }
{
    let Ok(store) = Eaw::attach(alloc, media) else {
        return None;
    };
    if store.shape().numbers < 3 {
        return None;
    }
    core_over(alloc, store)
}

// A core of three callers at least over the records of a store.
fn core_over<S: EawStore + Drop>(alloc: Global, store: S) -> Option<Core<S, BTreePages, KeepsNews>>
    requires alive { IsAlive (S.view store) }
    requires free { (t : ℕ) → (S.view store).ranges t ≡ None }
    requires enough { 3 ≤ (S.view store).shape.numbers }
    ensures shared { IfSome result (λ core. CanShare ⟦<Core<S, BTreePages, KeepsNews> as Steps>⟧.tells 3 (⟦<Core<S, BTreePages, KeepsNews> as Steps>⟧.view core)) }
{
    let room = SaveRoom::new(alloc).ok()?;
    match Core::attach(alloc, room, store) {
        Ok(core) => Some(core),
        Err(_) => None,
    }
}
