// A frame that comes byte by byte.
ghost use Rattle.std.specs.Prelude.{◌≡◌, ◌↔◌, ◌∷◌, ◌++◌, [], IsTrue, OnOk, IfOk, IfErr, ◌⊎◌};
ghost use Rattle.eaw_face.specs.Frame.{AreFrame};
ghost use Rattle.mirror.specs.Following.{IsBroken};
ghost use Rattle.mirror.specs.Reading.{LeadTo};

use crate::follow_fault::FollowFault;
use crate::place::Place;
use array_shape::Shape;
use std::alloc::Global;

/// The bytes that have come of a frame for an array of this shape.
#[derive(Drop)]
pub(crate) struct FrameReader {
    pub shape: Shape,
    pub place: Place,
    pub bytes: Vec<u8>,
}

impl FrameReader {
    pub(crate) fn new(alloc: Global, shape: Shape) -> FrameReader
        ensures shape { result.shape ≡ shape }
        ensures bytes { result.bytes.items ≡ [] }
        ensures leads { LeadTo result.shape result.place result.bytes.items }
    {
        FrameReader {
            shape,
            place: Place::start(),
            bytes: Vec::new(alloc),
        }
    }

    /// Takes one byte more, and says whether the frame is whole by it.
    pub(crate) fn take(&mut self, byte: u8) -> Result<bool, FollowFault>
        requires { LeadTo self.old.shape self.old.place self.old.bytes.items }
        ensures leads { OnOk result (LeadTo self.new.shape self.new.place self.new.bytes.items) }
        ensures shape { self.new.shape ≡ self.old.shape }
        ensures bytes { IfOk result (λ whole. self.new.bytes.items ≡ self.old.bytes.items ++ byte ∷ []) }
        ensures whole { IfOk result (λ whole. IsTrue whole ↔ AreFrame self.old.shape (self.old.bytes.items ++ byte ∷ [])) }
        ensures fault { IfErr result (λ fault. (fault ≡ FollowFault.NoMemory) ⊎ ((fault ≡ FollowFault.BadFrame) × IsBroken self.old.shape (self.old.bytes.items ++ byte ∷ []))) }
    {
        let Some(place) = self.place.after(self.shape, byte) else {
            return Err(FollowFault::BadFrame);
        };
        if self.bytes.push(byte).is_err() {
            return Err(FollowFault::NoMemory);
        }
        self.place = place;
        Ok(place.is_end())
    }

    /// Forgets the bytes: the next byte begins a frame.
    pub(crate) fn clear(&mut self)
        ensures shape { self.new.shape ≡ self.old.shape }
        ensures bytes { self.new.bytes.items ≡ [] }
        ensures leads { LeadTo self.new.shape self.new.place self.new.bytes.items }
    {
        self.bytes.clear();
        self.place = Place::start();
    }
}
