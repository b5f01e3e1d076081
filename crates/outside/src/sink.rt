// Where bytes go.
ghost use Rattle.std.specs.Prelude.{◌-◌, ◌<◌, ◌≤◌, List, ℕ, Bool, length, IsTrue, IsOkAnd};
ghost use Rattle.mars_base.specs.Causes.{HasCause};
ghost use Rattle.outside.specs.Told.{Puts, TakesPart};

use mars_base::Failed;

/// Takes bytes one after another. It counts its failures.
pub trait Sink {
    /// Whether contracts speak of the bytes of this type's objects.
    ghost tells: { Bool };

    /// What was written, if it tells its bytes.
    ghost written: { Self → List ℕ };

    /// How often it has failed.
    ghost faults: { Self → ℕ };

    /// Whether it is sure not to fail while this many more bytes are written.
    ghost steady: { Self → ℕ → Bool };

    /// What it promised is used up, or it never promised anything.
    ghost spent: { Self → Type 0 };

    /// Appends a prefix of the piece to what was written, and returns its length in bytes: at least one if the piece is not empty.
    fn write(&mut self, piece: &[u8]) -> Result<usize, Failed>
        ensures part { TakesPart result piece.now }
        ensures bytes { IsTrue tells → Puts (written self.old) (written self.new) result piece.now }
        ensures cause { HasCause (faults self.old) (faults self.new) result }
        ensures steady { (more : ℕ) → length piece.now ≤ more → IsTrue (steady self.old more)
            → IsOkAnd result (λ n. IsTrue (steady self.new (more - n))) };

    /// It fails only where it is spent. This does nothing: only clauses need it.
    fn fails_when_spent(&self)
        ensures { 0 < faults self.now → spent self.now };
}
