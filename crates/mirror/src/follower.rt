// A store that follows another.
ghost use Rattle.std.specs.Prelude.{◌≡◌, [], true, false, IsTrue, IfOk, OnOk, IfErr, OnErr};
ghost use Rattle.eaw_face.specs.Causes.{IsAlive};
ghost use Rattle.eaw_face.specs.StoreView.{LeavesOnly};
ghost use Rattle.mirror.specs.Applying.{IsFree};
ghost use Rattle.mirror.specs.Following.{stand, Follows, LeavesFirst};
ghost use Rattle.mirror.specs.FollowerView.{FeedCause};

use crate::follow_fault::FollowFault;
use crate::following::Following;
use crate::reader::FrameReader;
use eaw_face::EawStore;
use mars_base::NoMemory;
use std::alloc::Global;
use std::marker::Model;

/// A store that follows another, whose commits come as a stream of frames: each frame is logged under its numbers and
/// committed as one group. Whatever a loss of power leaves in it, at any moment, is the data with a first part of the frames applied.
#[derive(Drop)]
pub struct Follower<S: EawStore> {
    following: Following<S>,
    is_dead: bool,
}

impl<S: EawStore> Model for Follower<S> {
    ghost use Rattle.std.specs.Prelude.{◌≡◌, false};
    ghost use Rattle.mirror.specs.Reading.{IsGoing};
    ghost use Rattle.mirror.specs.FollowerView.{FollowerView};

    ghost Value = { FollowerView S };

    ghost view = { λ f. record { store = f.following.store; applied = f.following.applied; rest = f.following.reader.bytes.items; is_dead = f.is_dead } };

    ghost invariant = { λ f. f.is_dead ≡ false
        → IsGoing (S.view f.following.store) f.following.applied f.following.reader.shape f.following.reader.place f.following.reader.bytes.items };
}

impl<S: EawStore> Follower<S> {
    /// A follower that has applied no frame. The store is to have the data that the other one has at its first frame. An error returns the
    /// store.
    pub fn attach(alloc: Global, store: S) -> Result<Follower<S>, (NoMemory, S)>
        requires alive { IsAlive (S.view store) }
        requires free { IsFree (S.view store) }
        ensures store { IfOk result (λ follower. follower.store ≡ store) }
        ensures first { IfOk result (λ follower. follower.applied ≡ 0) }
        ensures rest { IfOk result (λ follower. follower.rest ≡ []) }
        ensures alive { IfOk result (λ follower. follower.is_dead ≡ false) }
        ensures returned { IfErr result (λ failed. failed.1 ≡ store) }
    {
        let reader = FrameReader::new(alloc, store.shape());
        Ok(Follower {
            following: Following {
                store,
                reader,
                applied: 0,
            },
            is_dead: false,
        })
    }

    /// The store below.
    pub fn into_store(self) -> S
        ensures { result ≡ self.store }
    {
        let Follower { following, .. } = self;
        let Following { store, .. } = following;
        store
    }

    /// Takes a piece of the stream, cut anywhere, and applies the frames that are whole by it. Returns how many frames are applied by now.
    pub fn feed(&mut self, piece: &[u8]) -> Result<u64, FollowFault>
        // What was kept, and the piece, are the frames that are applied now, in sequence, and what is kept now.
        ensures follows { OnOk result (Follows S.tells (stand (S.view self.old.store) self.old.applied self.old.rest) (stand (S.view self.new.store) self.new.applied self.new.rest) piece.now) }
        ensures count { IfOk result (λ count. count ≡ self.new.applied) }
        ensures alive { OnOk result (self.new.is_dead ≡ false) }
        ensures lived { OnOk result (self.old.is_dead ≡ false) }
        ensures dies { OnErr result (self.new.is_dead ≡ true) }
        ensures cause { IfErr result (FeedCause S.tells S.view self.old self.new piece.now) }
        // At each moment of the call, whatever it answers, a loss of power leaves the data with a first part of these frames applied.
        ensures moments { IsTrue S.tells → self.old.is_dead ≡ false
            → LeavesOnly (LeavesFirst S.opens (stand (S.view self.old.store) self.old.applied self.old.rest) piece.now) (S.view self.old.store) (S.view self.new.store) }
    {
        if self.is_dead {
            return Err(FollowFault::Dead);
        }
        match self.following.feed(piece) {
            Ok(()) => Ok(self.following.applied),
            Err(fault) => {
                self.is_dead = true;
                Err(fault)
            }
        }
    }
}
