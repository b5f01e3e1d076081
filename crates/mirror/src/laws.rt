// Laws of frames: each follows from the definitions alone.
ghost use Rattle.std.specs.Prelude.{◌≡◌, ◌≤◌, ◌+◌, length, ◌++◌, List, ℕ, [], false, true, flat_map, IsTrue};
ghost use Rattle.eaw_face.specs.Frame.{Frame, IsFrame, frame_bytes};
ghost use Rattle.eaw_face.specs.Mirroring.{Mirrors};
ghost use Rattle.mirror.specs.Following.{LeavesFirst};
ghost use Rattle.mirror.specs.Sending.{frame_most};
ghost use Rattle.mirror.specs.FollowerView.{FollowerView, stand_of, IsFollowed, HasGap, HasBadFrame, AreAlike};
ghost use Rattle.mirror.specs.Both.{HaveOneData, HasFirst, OpensFirstOf};

use eaw_face::EawStore;

/// A frame is told by its bytes, and no frame's bytes begin with those of another: so a stream of frames is cut in one way only.
pub fn frames_are_cut_in_one_way()
    ensures read_back { (a b : Frame) → IsFrame a → IsFrame b → frame_bytes a ≡ frame_bytes b → a ≡ b }
    ensures alone { (a b : Frame) (more : List ℕ) → IsFrame a → IsFrame b → frame_bytes a ≡ frame_bytes b ++ more → more ≡ [] }
{}

/// A stream of frames is followed in one way, wherever it is cut into pieces.
pub fn streams_are_followed_in_one_way<S: EawStore>()
    // Two pieces that are followed one behind the other are followed as one.
    ensures joined { (old mid new : FollowerView S) (first second : List ℕ)
        → IsFollowed S.tells S.view old mid first → IsFollowed S.tells S.view mid new second → IsFollowed S.tells S.view old new (first ++ second) }
    // What a piece that is followed makes of a follower is told by the piece.
    ensures alike { (old one other : FollowerView S) (piece : List ℕ)
        → IsFollowed S.tells S.view old one piece → IsFollowed S.tells S.view old other piece → AreAlike S.tells S.view one other }
    // A piece whose next whole frame is out of sequence is not followed.
    ensures gap { (old new other : FollowerView S) (piece : List ℕ) (expected got : ℕ)
        → IsFollowed S.tells S.view old new piece → HasGap S.tells S.view old other piece expected got → ⊥ }
    // A piece that breaks a frame is not followed to the seventh byte behind those that break it.
    ensures broken { (old new other : FollowerView S) (piece : List ℕ) (bad : HasBadFrame S.tells S.view old other piece)
        → IsFollowed S.tells S.view old new piece → length bad.later ≤ 6 }
    // What a follower keeps is no longer than the longest frame of its shape and seven bytes: behind so many it has applied one or told of one.
    ensures short { (old new : FollowerView S) (piece : List ℕ) → IsFollowed S.tells S.view old new piece
        → length new.rest ≤ frame_most (S.view new.store).shape + 7 }
{}

/// A follower that is fed a beginning of the frames that a store has sent has the data of the first of its commits. Both have one data at
/// first.
pub fn a_follower_has_first_commits<P: EawStore, S: EawStore>()
    // It has applied some first of the frames, as many as it counts.
    ensures first { (old new : P) (sent : Mirrors P.tells (P.view old) (P.view new)) (one other : FollowerView S) (bytes more : List ℕ)
        → IsTrue S.tells → HaveOneData (P.view old) (stand_of S.view one) → flat_map frame_bytes sent.added ≡ bytes ++ more
        → IsFollowed S.tells S.view one other bytes → HasFirst sent.added (P.view old) (stand_of S.view other) }
    // So has all that might be left while it is fed.
    ensures left { (old new : P) (sent : Mirrors P.tells (P.view old) (P.view new)) (one : FollowerView S) (bytes more image : List ℕ)
        → HaveOneData (P.view old) (stand_of S.view one) → flat_map frame_bytes sent.added ≡ bytes ++ more
        → LeavesFirst S.opens (stand_of S.view one) bytes image → OpensFirstOf S.opens sent.added (P.view old) image }
    // Fed all of them, both have one data again, while the sending goes on and the store is not dead.
    ensures all { (old new : P) (sent : Mirrors P.tells (P.view old) (P.view new)) (one other : FollowerView S)
        → IsTrue P.tells → IsTrue S.tells → (P.view old).sending.mirrors ≡ true → (P.view new).sending.is_down ≡ false → (P.view new).is_dead ≡ false
        → HaveOneData (P.view old) (stand_of S.view one) → IsFollowed S.tells S.view one other (flat_map frame_bytes sent.added)
        → HaveOneData (P.view new) (stand_of S.view other) }
{}
