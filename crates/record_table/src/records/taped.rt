// Records over a store whose medium leaves the work on its device to its caller.
ghost use Rattle.std.specs.Prelude.{◌≡◌, ◌≤◌, ℕ, List, true, length, None, Some, IfSome, IsSome, MatchOption};
ghost use Rattle.tape_media.specs.Steps.{DeviceMayLeave, IsWithin, with_first_done};
ghost use Rattle.tape_media.specs.Pieces.{step_of};
ghost use Rattle.tape_media.specs.Tape.{next_of, done_moment};
ghost use Rattle.eaw_face.specs.Mirroring.{ShowsSame};

use super::Records;
use page_store::KeyIndex;
use tape_media::Piece;
use taped_store::TapedStore;

impl<S: TapedStore, K: KeyIndex> Records<S, K> {
    /// The piece to be done next on the device. There is none where the tape is empty, nor after a piece that failed.
    pub fn next_piece(&self) -> Option<&Piece>
        ensures within { IfSome result (λ piece. IsWithin (length (S.tape self.now.store).past.start) (step_of piece.now)) }
        ensures piece { MatchOption result (next_of (S.tape self.now.store) ≡ None) (λ piece. next_of (S.tape self.now.store) ≡ Some (step_of piece.now)) }
    {
        self.pages.next_piece()
    }

    /// The next piece was done on the device. It is forgotten.
    pub fn piece_done(&mut self)
        requires { IsSome (next_of (S.tape self.old.store)) }
        ensures tape { S.tape self.new.store ≡ record (S.tape self.old.store) { past = with_first_done (S.tape self.old.store).past } }
        ensures same { ShowsSame (S.view self.old.store) (S.view self.new.store) }
        ensures marks { self.new.marks ≡ self.old.marks }
    {
        self.pages.piece_done();
    }

    /// The next piece failed on the device. From now on each write and barrier fails, and no piece is given out.
    pub fn piece_failed(&mut self)
        ensures tape { S.tape self.new.store ≡ record (S.tape self.old.store) { has_failed = true } }
        ensures same { ShowsSame (S.view self.old.store) (S.view self.new.store) }
        ensures marks { self.new.marks ≡ self.old.marks }
    {
        self.pages.piece_failed();
    }

    /// The moment of the medium: that of the last call.
    pub fn moment(&self) -> u64
        ensures { result ≡ (S.view self.now.store).moment }
    {
        self.pages.moment()
    }

    /// The moment up to which the pieces of all calls were done on the device.
    pub fn done_up_to(&self) -> u64
        ensures moment { result ≡ done_moment (S.tape self.now.store) }
        ensures durable { (t : ℕ) (image : List ℕ) → t ≤ result → DeviceMayLeave (S.tape self.now.store).past image → (S.view self.now.store).left_since t image }
    {
        self.pages.done_up_to()
    }
}
