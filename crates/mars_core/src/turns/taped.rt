// A core over a store whose medium leaves the work on its device to its caller.
ghost use Rattle.std.specs.Prelude.{◌≡◌, ◌≤◌, ℕ, List, true, length, None, Some, IfSome, IsSome, IsTrue, MatchOption};
ghost use Rattle.caller_steps.specs.Core.{IsSafe, Steps, Continues};
ghost use Rattle.caller_steps.specs.Sound.{IsSound};
ghost use Rattle.history.specs.declared.call.Call.{Call};
ghost use Rattle.history.specs.declared.call.Reply.{Reply};
ghost use Rattle.mars_core.specs.Held.{Held, core_of};
ghost use Rattle.mars_core.specs.Taped.{IsSafeOnDevice};
ghost use Rattle.tape_media.specs.Steps.{DeviceMayLeave, IsWithin, with_first_done};
ghost use Rattle.tape_media.specs.Pieces.{step_of};
ghost use Rattle.tape_media.specs.Tape.{next_of, done_moment};
ghost use Rattle.eaw_face.specs.Mirroring.{ShowsSame};

use super::Core;
use noted::Keeper;
use page_store::KeyIndex;
use tape_media::Piece;
use taped_store::TapedStore;

impl<S: TapedStore, K: KeyIndex, H: Keeper> Core<S, K, H> {
    /// The piece to be done next on the device. There is none where the tape is empty, nor after a piece that failed.
    pub fn next_piece(&self) -> Option<&Piece>
        ensures within { IfSome result (λ piece. IsWithin (length (S.tape self.now.records.store).past.start) (step_of piece.now)) }
        ensures piece { MatchOption result (next_of (S.tape self.now.records.store) ≡ None)
            (λ piece. next_of (S.tape self.now.records.store) ≡ Some (step_of piece.now)) }
    {
        self.records.next_piece()
    }

    /// The next piece was done on the device. It is forgotten.
    pub fn piece_done(&mut self)
        requires { IsSome (next_of (S.tape self.old.records.store)) }
        ensures tape { S.tape self.new.records.store ≡ record (S.tape self.old.records.store) { past = with_first_done (S.tape self.old.records.store).past } }
        ensures same { ShowsSame (S.view self.old.records.store) (S.view self.new.records.store) }
        ensures rest { self.new ≡ record self.old { records = self.new.records } }
        ensures goes_on { IsTrue S.tells → IsSound (core_of S.opens K.index (S.view self.old.records.store) self.old).state
            → Continues (core_of S.opens K.index (S.view self.old.records.store) self.old)
            (core_of S.opens K.index (S.view self.new.records.store) self.new) }
    {
        self.records.piece_done();
    }

    /// The next piece failed on the device. From now on each write and barrier fails, and no piece is given out.
    pub fn piece_failed(&mut self)
        ensures tape { S.tape self.new.records.store ≡ record (S.tape self.old.records.store) { has_failed = true } }
        ensures same { ShowsSame (S.view self.old.records.store) (S.view self.new.records.store) }
        ensures rest { self.new ≡ record self.old { records = self.new.records } }
        ensures goes_on { IsTrue S.tells → IsSound (core_of S.opens K.index (S.view self.old.records.store) self.old).state
            → Continues (core_of S.opens K.index (S.view self.old.records.store) self.old)
            (core_of S.opens K.index (S.view self.new.records.store) self.new) }
    {
        self.records.piece_failed();
    }

    /// The moment of the medium: that of the last call.
    pub fn moment(&self) -> u64
        ensures { result ≡ (S.view self.now.records.store).moment }
    {
        self.records.moment()
    }

    /// The moment up to which the pieces of all calls were done on the device.
    pub fn done_up_to(&self) -> u64
        ensures moment { result ≡ done_moment (S.tape self.now.records.store) }
        ensures durable { (t : ℕ) (image : List ℕ) → t ≤ result → DeviceMayLeave (S.tape self.now.records.store).past image
            → (S.view self.now.records.store).left_since t image }
        // The prefix law, said of the device: what was safe since a moment up to that one is safe there.
        ensures safe { (since least : ℕ) → since ≤ result → IsSafe (core_of S.opens K.index (S.view self.now.records.store) self.now) since least
            → IsSafeOnDevice (S.tape self.now.records.store).past (core_of S.opens K.index (S.view self.now.records.store) self.now) least }
        // So what was committed when a call was answered is on the device once the pieces up to the moment of that answer were done: whole, with
        // all before it, whatever a loss of power leaves there.
        ensures answered { (old answered : Held S) (caller : ℕ) (call : Call) (reply : Reply) → IsTrue S.tells
            → Steps S.tells caller call (core_of S.opens K.index (S.view old.records.store) old)
            (core_of S.opens K.index (S.view answered.records.store) answered) reply
            → Continues (core_of S.opens K.index (S.view answered.records.store) answered)
            (core_of S.opens K.index (S.view self.now.records.store) self.now)
            → (S.view answered.records.store).moment ≤ result
            → IsSafeOnDevice (S.tape self.now.records.store).past
            (core_of S.opens K.index (S.view self.now.records.store) self.now) (length answered.history) }
    {
        self.records.done_up_to()
    }
}
