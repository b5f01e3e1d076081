// A medium as the layers above see it: what a read gives, and what a loss of power may leave.
ghost use Rattle.std.specs.Prelude.{◌≡◌, ◌+◌, ◌<◌, ◌≤◌, [], ◌∷◌, Bool, List, ℕ, length, IsTrue, IsOk, OnOk};
ghost use Rattle.mars_base.specs.Moments.{Ticks};
ghost use Rattle.mars_base.specs.Bytes.{range};
ghost use Rattle.pcm_media.specs.Images.{MayLeave, written, settled};
ghost use Rattle.pcm_media.specs.View.{View, Writes};

use mars_base::Failed;

/// A medium with torn writes. A loss of power may leave anything in the ranges written since the last barrier that succeeded,
/// and leaves the bytes outside these ranges as they were. After a barrier that succeeds, it leaves what a read gives.
pub trait Media {
    /// Whether contracts speak of its bytes. Each clause on content has this as a premise.
    ghost tells: { Bool };

    /// Its length in bytes, its content, the moment, what might have been left since a moment, and its count of faults.
    ghost view: { Self → View };

    /// Whether this many further calls of `read`, `write` and `barrier`, which write this many bytes in all, are sure not to fail.
    ghost steady: { Self → ℕ → ℕ → Bool };

    /// What it promised is used up, or it never promised anything.
    ghost spent: { Self → Type 0 };

    /// Its length in bytes.
    fn len(&self) -> u64
        ensures { result ≡ (view self.now).size };

    /// The moment, which each call of `read`, `write` and `barrier` raises by one. At `u64::MAX` each of these calls fails.
    fn moment(&self) -> u64
        ensures { result ≡ (view self.now).moment };

    /// Fills the buffer with the bytes from `at` on.
    fn read(&mut self, at: u64, buf: &mut [u8]) -> Result<(), Failed>
        requires { at + length buf.old ≤ (view self.old).size }
        ensures bytes { IsTrue tells → OnOk result (buf.new ≡ range (view self.old).content.bytes at (length buf.old)) }
        ensures does { Writes tells [] (view self.old) (view self.new) result }
        ensures ticks { Ticks (view self.old).moment (view self.new).moment result }
        ensures steady { (calls more : ℕ) → IsTrue (steady self.old (calls + 1) more) → IsOk result × IsTrue (steady self.new calls more) };

    /// Writes the bytes at `at`. Until the next barrier that succeeds, a loss of power may leave anything there.
    fn write(&mut self, at: u64, bytes: &[u8]) -> Result<(), Failed>
        requires { at + length bytes.now ≤ (view self.old).size }
        ensures written { IsTrue tells → OnOk result ((view self.new).content ≡ written at bytes.now (view self.old).content) }
        ensures does { Writes tells ((at, length bytes.now) ∷ []) (view self.old) (view self.new) result }
        ensures ticks { Ticks (view self.old).moment (view self.new).moment result }
        ensures steady { (calls more : ℕ) → IsTrue (steady self.old (calls + 1) (length bytes.now + more)) → IsOk result × IsTrue (steady self.new calls more) };

    /// Waits until all that was written is durable.
    fn barrier(&mut self) -> Result<(), Failed>
        ensures settled { IsTrue tells → OnOk result ((view self.new).content ≡ settled (view self.old).content) }
        ensures does { Writes tells [] (view self.old) (view self.new) result }
        ensures ticks { Ticks (view self.old).moment (view self.new).moment result }
        ensures steady { (calls more : ℕ) → IsTrue (steady self.old (calls + 1) more) → IsOk result × IsTrue (steady self.new calls more) };

    /// It fails only where it is spent. This does nothing: only clauses need it.
    fn fails_when_spent(&self)
        ensures { 0 < (view self.now).faults → spent self.now };

    /// Its content has as many bytes as it has.
    ghost long: { (m : Self) → IsTrue tells → length (view m).content.bytes ≡ (view m).size };

    /// What may be left now counts as left since each moment up to now.
    ghost counts_now: { (m : Self) (t : ℕ) (image : List ℕ) → IsTrue tells → t ≤ (view m).moment → MayLeave (view m).content image → (view m).left_since t image };

    /// Since now, nothing else might have been left.
    ghost only_now: { (m : Self) (image : List ℕ) → IsTrue tells → (view m).left_since (view m).moment image → MayLeave (view m).content image };
}
