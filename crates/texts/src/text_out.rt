// Where a text goes, piece by piece.
ghost use Rattle.std.specs.Prelude.{Bool, true, ◌^◌, ◌-◌};
ghost use Rattle.texts.specs.Written.{Appends, TextSoFar};

use crate::output::write_whole;
use mars_base::{Failed, NoMemory};
use outside::Sink;

/// Takes a text piece by piece. An `E` says that it did not take all of a piece.
pub trait TextOut<E> {
    /// Whether contracts speak of the text.
    ghost tells: { Bool };

    /// The text so far, if it is told, and how often it has failed. What keeps no count is at the last value of one.
    ghost view: { Self → TextSoFar };

    /// Appends the piece, or a front of it that lacks something.
    fn put(&mut self, piece: &[u8]) -> Result<(), E>
        ensures { Appends tells (view self.old) (view self.new) result piece.now };
}

impl TextOut<NoMemory> for Vec<u8> {
    ghost tells = { true };

    ghost view = { λ v. record { text = v.items; faults = 2 ^ 64 - 1 } };

    fn put(&mut self, piece: &[u8]) -> Result<(), NoMemory> {
        self.extend_from_slice(piece)?;
        Ok(())
    }
}

impl<K: Sink> TextOut<Failed> for K {
    ghost tells = { K.tells };

    ghost view = { λ k. record { text = K.written k; faults = K.faults k } };

    fn put(&mut self, piece: &[u8]) -> Result<(), Failed> {
        write_whole(self, piece)
    }
}
