// The trait of what is done over the records of an array and told at its end.
ghost use Rattle.std.specs.Prelude.{◌≡◌, ℕ, Bool, List, [], true, false, None, Result, IsTrue, IfErr};
ghost use Rattle.pcm_media.specs.View.{View};
ghost use Rattle.array_shape.specs.declared.shape.Shape.{Shape};
ghost use Rattle.eaw_face.specs.Causes.{IsAlive};
ghost use Rattle.eaw_face.specs.StoreView.{StoreView};
ghost use Rattle.eaw_device.specs.Opens.{Opens};
ghost use Rattle.page_store.specs.Index.{Index};
ghost use Rattle.array_runs.specs.Forms.{index_of_form, SaysForm};
ghost use Rattle.array_runs.specs.Outcome.{OutcomeOf};
ghost use Rattle.array_runs.specs.declared.status.Status.{Status};
ghost use Rattle.told_commands.specs.Told.{told_bytes, said, IsStop, FaultCounts, Tells, Leaves, Ran};

use array_runs::Status;
use eaw_face::EawStore;
use page_store::{KeyIndex, SaveRoom};
use pcm_media::Media;
use std::alloc::Global;
use texts::ShortText;

/// What is told of work at its end.
#[derive(Drop)]
pub enum Told {
    /// A line, which is formed without memory.
    Line(ShortText),
    /// Lines, which are formed in full before any of them is written.
    Lines(Vec<u8>),
}

impl Told {
    pub fn as_bytes(&self) -> &[u8]
        ensures { result.now ≡ told_bytes self.now }
    {
        match self {
            Told::Line(line) => line.as_bytes(),
            Told::Lines(lines) => lines,
        }
    }
}

/// Work over the records of an array, of which something is told at its end.
pub trait ToldWork {
    /// Whether it leaves the data as it was where the records are not taken. Other work brings it to version 2 first.
    ghost spares: { Bool };

    /// How it leaves a store, by the text that is told or the status with which it stopped: in terms of whether the store tells its data,
    /// how images open, the index, and the store before.
    ghost leaves: { Self → Bool → (Shape → List ℕ → List ℕ → Type 0) → Index → StoreView → Result (List ℕ) Status → StoreView → Type 0 };

    /// What comes of it on a medium that tells its bytes, by the status, and what was written.
    ghost comes: { Self → View → Status → View → Bool → List ℕ → Type 0 };

    /// Does it over the records of a store, under an index, and returns the store. An error is the status with which the run ends.
    fn work_on<S: EawStore, I: KeyIndex>(
        &self,
        alloc: Global,
        room: SaveRoom,
        store: S,
    ) -> (Result<Told, Status>, S)
        requires alive { IsAlive (S.view store) }
        requires free { (t : ℕ) → (S.view store).ranges t ≡ None }
        ensures leaves { Leaves (leaves self.now S.tells S.opens) spares S.tells S.opens I.index (S.view store) (said result.0) (S.view result.1) }
        ensures stops { IfErr (said result.0) IsStop }
        ensures counts { FaultCounts (said result.0) (S.view store).faults (S.view result.1).faults };

    /// What the store is left as, under the index that its data names, gives what comes of it on the medium below. If nothing was done over
    /// the records, that comes of it too.
    fn laws<S: EawStore, M: Media>(&self)
        ensures none { (old new : M) (status : Status) → OutcomeOf spares true 0 (λ ended. ⊥) (M.view old) status (M.view new) false [] → comes self.now (M.view old) status (M.view new) false [] }
        ensures done { (old new : M) (store mid later : S) (form : ℕ) (end : Result (List ℕ) Status) (status : Status) (cut : Bool) (text : List ℕ)
            → IsTrue M.tells → Ran M.tells (M.view old) (S.view store) (S.view later) (M.view new) → SaysForm M.tells (Opens (S.view store).shape) form (S.view store) (S.view mid)
            → leaves self.now M.tells Opens (index_of_form form) (S.view mid) end (S.view later) → Tells end status cut text → comes self.now (M.view old) status (M.view new) cut text };
}
