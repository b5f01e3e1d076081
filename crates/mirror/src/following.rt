// A store, the frame that comes, and the count of those that are applied.
ghost use Rattle.std.specs.Prelude.{◌≡◌, ◌∷◌, [], IsTrue, OnOk, IfErr};
ghost use Rattle.eaw_face.specs.Causes.{IsAlive};
ghost use Rattle.eaw_face.specs.StoreView.{LeavesOnly};
ghost use Rattle.eaw_face.specs.Frame.{AreFrame};
ghost use Rattle.mirror.specs.Applying.{IsFree};
ghost use Rattle.mirror.specs.Reading.{LeadTo};
ghost use Rattle.mirror.specs.Following.{stand, IsReady, Follows, StopCause, LeavesFirst, AppliesNext, NotApplied, OpensNext};

use crate::apply::apply_frame;
use crate::follow_fault::FollowFault;
use crate::reader::FrameReader;
use byteorder::{ByteOrder, LittleEndian};
use eaw_face::EawStore;

/// A store that follows a stream of frames, up to its first fault.
#[derive(Drop)]
pub(crate) struct Following<S: EawStore> {
    pub store: S,
    pub reader: FrameReader,
    pub applied: u64,
}

impl<S: EawStore> Following<S> {
    // Applies the whole frame that has come, if it is the next one.
    fn apply_next(&mut self) -> Result<(), FollowFault>
        requires alive { IsAlive (S.view self.old.store) }
        requires free { IsFree (S.view self.old.store) }
        requires frame { AreFrame (S.view self.old.store).shape self.old.reader.bytes.items }
        ensures next { OnOk result (AppliesNext S.tells self.old.applied self.old.reader.bytes.items (S.view self.old.store) (S.view self.new.store)) }
        ensures reader { self.new.reader ≡ self.old.reader }
        ensures applied { self.new.applied ≡ self.old.applied }
        ensures fault { IfErr result (NotApplied self.old.applied self.old.reader.bytes.items (S.view self.old.store) (S.view self.new.store)) }
        ensures moments { IsTrue S.tells → LeavesOnly (OpensNext S.opens self.old.applied self.old.reader.bytes.items (S.view self.old.store)) (S.view self.old.store) (S.view self.new.store) }
    {
        let got = LittleEndian::read_u64(&self.reader.bytes[4..]);
        let Some(expected) = self.applied.checked_add(1) else {
            return Err(FollowFault::Gap { expected: 0, got });
        };
        if got != expected {
            return Err(FollowFault::Gap { expected, got });
        }
        match apply_frame(&mut self.store, &self.reader.bytes) {
            Ok(()) => Ok(()),
            Err(_fault) => Err(FollowFault::Media),
        }
    }

    /// Takes one byte more of the stream.
    fn take(&mut self, byte: u8) -> Result<(), FollowFault>
        requires ready { IsReady (stand (S.view self.old.store) self.old.applied self.old.reader.bytes.items) }
        requires leads { LeadTo self.old.reader.shape self.old.reader.place self.old.reader.bytes.items }
        requires shape { self.old.reader.shape ≡ (S.view self.old.store).shape }
        ensures follows { OnOk result (Follows S.tells (stand (S.view self.old.store) self.old.applied self.old.reader.bytes.items)
            (stand (S.view self.new.store) self.new.applied self.new.reader.bytes.items) (byte ∷ [])) }
        ensures leads { OnOk result (LeadTo self.new.reader.shape self.new.reader.place self.new.reader.bytes.items) }
        ensures shape { OnOk result (self.new.reader.shape ≡ (S.view self.new.store).shape) }
        ensures fault { IfErr result (StopCause S.tells (stand (S.view self.old.store) self.old.applied self.old.reader.bytes.items) (S.view self.new.store) (byte ∷ [])) }
        ensures moments { IsTrue S.tells → LeavesOnly (LeavesFirst S.opens (stand (S.view self.old.store) self.old.applied self.old.reader.bytes.items) (byte ∷ []))
            (S.view self.old.store) (S.view self.new.store) }
    {
        if !self.reader.take(byte)? {
            return Ok(());
        }
        self.apply_next()?;
        self.reader.clear();
        self.applied += 1;
        Ok(())
    }

    /// Takes a piece of the stream.
    pub(crate) fn feed(&mut self, piece: &[u8]) -> Result<(), FollowFault>
        requires ready { IsReady (stand (S.view self.old.store) self.old.applied self.old.reader.bytes.items) }
        requires leads { LeadTo self.old.reader.shape self.old.reader.place self.old.reader.bytes.items }
        requires shape { self.old.reader.shape ≡ (S.view self.old.store).shape }
        ensures follows { OnOk result (Follows S.tells (stand (S.view self.old.store) self.old.applied self.old.reader.bytes.items)
            (stand (S.view self.new.store) self.new.applied self.new.reader.bytes.items) piece.now) }
        ensures leads { OnOk result (LeadTo self.new.reader.shape self.new.reader.place self.new.reader.bytes.items) }
        ensures shape { OnOk result (self.new.reader.shape ≡ (S.view self.new.store).shape) }
        ensures fault { IfErr result (StopCause S.tells (stand (S.view self.old.store) self.old.applied self.old.reader.bytes.items) (S.view self.new.store) piece.now) }
        ensures moments { IsTrue S.tells → LeavesOnly (LeavesFirst S.opens (stand (S.view self.old.store) self.old.applied self.old.reader.bytes.items) piece.now)
            (S.view self.old.store) (S.view self.new.store) }
    {
        for byte in piece {
            self.take(*byte)?;
        }
        Ok(())
    }
}
