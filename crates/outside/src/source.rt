// Where bytes come from.
ghost use Rattle.std.specs.Prelude.{◌<◌, ◌≤◌, List, ℕ, Bool, length, IsTrue, IfOk, IsOk};
ghost use Rattle.mars_base.specs.Causes.{HasCause};
ghost use Rattle.outside.specs.Told.{Takes};

use mars_base::Failed;

/// Bytes that are read one after another. It counts its failures.
pub trait Source {
    /// Whether contracts speak of the bytes of this type's objects.
    ghost tells: { Bool };

    /// The bytes still to be read, if it tells its bytes.
    ghost left: { Self → List ℕ };

    /// How often it has failed.
    ghost faults: { Self → ℕ };

    /// Whether it is sure never to fail.
    ghost steady: { Self → Bool };

    /// What it promised is used up, or it never promised anything.
    ghost spent: { Self → Type 0 };

    /// Puts the next bytes at the front of the buffer and returns how many. Zero for a nonempty buffer means the end.
    fn read(&mut self, buf: &mut [u8]) -> Result<usize, Failed>
        ensures bound { IfOk result (λ n. n ≤ length buf.new) }
        ensures bytes { IsTrue tells → Takes (left self.old) (left self.new) result buf.new }
        ensures cause { HasCause (faults self.old) (faults self.new) result }
        ensures steady { IsTrue (steady self.old) → IsOk result × IsTrue (steady self.new) };

    /// It fails only where it is spent. This does nothing: only clauses need it.
    fn fails_when_spent(&self)
        ensures { 0 < faults self.now → spent self.now };
}
