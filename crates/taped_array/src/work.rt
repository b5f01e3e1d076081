// The tape of an open array: what its caller has still to do on the device.
ghost use Rattle.std.specs.Prelude.{◌≡◌, ◌≤◌, ℕ, List, true, false, IsTrue};
ghost use Rattle.tape_media.specs.Steps.{DeviceMayLeave};
ghost use Rattle.tape_media.specs.Tape.{next_of, done_moment};
ghost use Rattle.taped_calls.specs.Told.{IsPiece, IsWrite};
ghost use Rattle.taped_array.specs.Shown.{tape_of};
ghost use Rattle.taped_array.specs.Status.{no_piece};
ghost use Rattle.taped_array.specs.Tells.{IsDone, IsMoment, IsDoneUpTo, GoesOn};

use crate::open_array::OpenArray;
use crate::status::{NO_PIECE, OK};
use taped_calls::{tell_piece, tell_write};
use taped_store::TapedStore;

impl OpenArray {
    /// The next thing to do on the device: nothing (0), a write of `len` bytes at the place `at` (1), or a barrier (2).
    pub fn piece(&self, at: &mut u64, len: &mut u64) -> i32
        ensures { IsPiece (next_of (tape_of self.now)) result at.old at.new len.old len.new }
    {
        tell_piece(self.store.next_piece(), at, len)
    }

    /// The bytes of the next write from `skip` on, as many as there is room for, and how many there are.
    pub fn piece_bytes(&self, skip: u64, room: &mut [u8], len: &mut u64) -> i32
        ensures { IsWrite no_piece (next_of (tape_of self.now)) skip result room.old room.new len.old len.new }
    {
        tell_write(self.store.next_piece(), NO_PIECE, skip, room, len)
    }

    /// The next piece was done on the device, and is forgotten.
    pub fn piece_done(&mut self) -> i32
        ensures { IsDone (next_of (tape_of self.old)) self.old self.new result }
    {
        if self.store.next_piece().is_none() {
            return NO_PIECE;
        }
        self.store.piece_done();
        OK
    }

    /// The next piece failed on the device.
    pub fn piece_failed(&mut self)
        ensures { GoesOn (record (tape_of self.old) { has_failed = true }) self.old self.new }
    {
        self.store.piece_failed();
    }

    /// The moment of the last call.
    pub fn moment(&self) -> u64
        ensures { IsMoment result self.now }
    {
        moment(&self.store)
    }

    /// The moment up to which the pieces of all calls were done.
    pub fn done_up_to(&self) -> u64
        ensures { IsDoneUpTo result self.now }
    {
        done_up_to(&self.store)
    }
}

// The moment of the last call of a store.
fn moment<S: TapedStore>(store: &S) -> u64
    ensures moment { result ≡ (S.view store.now).moment }
    ensures now { IsTrue S.tells → (S.view store.now).is_dead ≡ false
        → (image : List ℕ) → (S.view store.now).left_since result image → S.opens (S.view store.now).shape image (S.view store.now).state.bytes }
{
    store.moment()
}

// The moment up to which the pieces of all calls of a store were done.
fn done_up_to<S: TapedStore>(store: &S) -> u64
    ensures moment { result ≡ done_moment (S.tape store.now) }
    ensures durable { (t : ℕ) (image : List ℕ) → t ≤ result → DeviceMayLeave (S.tape store.now).past image
        → (S.view store.now).left_since t image }
    ensures now { IsTrue S.tells → result ≡ (S.view store.now).moment → (S.view store.now).is_dead ≡ false → (image : List ℕ)
        → DeviceMayLeave (S.tape store.now).past image → S.opens (S.view store.now).shape image (S.view store.now).state.bytes }
{
    store.done_up_to()
}
