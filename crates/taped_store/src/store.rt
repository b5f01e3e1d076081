// A store over a medium with a tape.
ghost use Rattle.std.specs.Prelude.{◌≡◌, ◌≤◌, ℕ, List, true, length, None, Some, IfSome, IsSome, MatchOption};
ghost use Rattle.tape_media.specs.Steps.{device_of, DeviceMayLeave, IsWithin, with_first_done};
ghost use Rattle.tape_media.specs.Pieces.{step_of};
ghost use Rattle.tape_media.specs.Tape.{Tape, next_of, done_moment};
ghost use Rattle.eaw_face.specs.Mirroring.{ShowsSame};

use eaw_face::EawStore;
use tape_media::Piece;

/// A store whose medium is in memory, with a tape of what its caller has still to do on the device. To what stands over the store, a piece that
/// was done there, or failed, changes nothing.
pub trait TapedStore: EawStore {
    /// The tape of its medium.
    ghost tape: { Self → Tape };

    /// The piece to be done next on the device. There is none where the tape is empty, nor after a piece that failed.
    fn next_piece(&self) -> Option<&Piece>
        ensures within { IfSome result (λ piece. IsWithin (length (tape self.now).past.start) (step_of piece.now)) }
        ensures piece { MatchOption result (next_of (tape self.now) ≡ None) (λ piece. next_of (tape self.now) ≡ Some (step_of piece.now)) };

    /// The next piece was done on the device. It is forgotten.
    fn piece_done(&mut self)
        requires { IsSome (next_of (tape self.old)) }
        ensures tape { tape self.new ≡ record (tape self.old) { past = with_first_done (tape self.old).past } }
        ensures same { ShowsSame (Self.view self.old) (Self.view self.new) };

    /// The next piece failed on the device. From now on each write and barrier fails, and no piece is given out.
    fn piece_failed(&mut self)
        ensures tape { tape self.new ≡ record (tape self.old) { has_failed = true } }
        ensures same { ShowsSame (Self.view self.old) (Self.view self.new) };

    /// The moment of its medium: that of the last call.
    fn moment(&self) -> u64
        ensures { result ≡ (Self.view self.now).moment };

    /// The moment up to which the pieces of all calls were done on the device. What the store can not have left since a moment up to that one is
    /// not left on the device: what was durable in the store then is durable there.
    fn done_up_to(&self) -> u64
        ensures moment { result ≡ done_moment (tape self.now) }
        ensures durable { (t : ℕ) (image : List ℕ) → t ≤ result → DeviceMayLeave (tape self.now).past image → (Self.view self.now).left_since t image };

    /// What was done so far on the device is what the tape says.
    ghost device: { (s : Self) → (Self.EawStore.view s).device ≡ device_of (tape s).past };
}
