// A medium that passes a number of calls on, and then fails each one.
ghost use Rattle.std.specs.Prelude.{◌≡◌, ◌+◌, ◌-◌, ◌<◌, ◌≤◌, ◌⊎◌, nat_le, ◌&&◌, [], ◌∷◌, length, ℕ, IsTrue, IsOk, OnOk};
ghost use Rattle.std.specs.Bool.{OnTrue, OnFalse};
ghost use Rattle.mars_base.specs.Moments.{Ticks};
ghost use Rattle.mars_base.specs.Bytes.{range};
ghost use Rattle.pcm_media.specs.Images.{written, settled};
ghost use Rattle.pcm_media.specs.View.{Writes};
ghost use Rattle.mars_base.specs.Causes.{next_count};
ghost use Rattle.pcm_media.specs.Fused.{behind, Burns};

use crate::Media;
use mars_base::Failed;
use std::marker::Model;

/// A medium behind a fuse: it passes a number of calls of `read`, `write` and `barrier` on, and then fails each one itself.
#[derive(Drop)]
pub struct FusedMedia<M> {
    inner: M,
    passes: u64,
    blown: u64,
}

impl<M> Model for FusedMedia<M> {
    ghost use Rattle.std.specs.Prelude.{◌≡◌, ◌<◌};
    ghost use Rattle.pcm_media.specs.Fused.{Fused};

    ghost Value = { Fused M };

    ghost view = { λ m. record { inner = m.inner; passes = m.passes; blown = m.blown } };

    ghost invariant = { λ m. 0 < m.passes → m.blown ≡ 0 };
}

impl<M> FusedMedia<M> {
    /// A fuse in front of this medium that passes `passes` calls on.
    pub fn wrap(inner: M, passes: u64) -> Self
        ensures { result ≡ record { inner = inner; passes = passes; blown = 0 } }
    {
        FusedMedia {
            inner,
            passes,
            blown: 0,
        }
    }

    /// The medium behind the fuse.
    pub fn into_inner(self) -> M
        ensures { result ≡ self.inner }
    {
        let FusedMedia {
            inner,
            passes: _,
            blown: _,
        } = self;
        inner
    }

    // Whether this call is passed on. If not, it is counted.
    fn takes_pass(&mut self) -> bool
        ensures inner { self.new.inner ≡ self.old.inner }
        ensures passes { self.new.passes ≡ self.old.passes - 1 }
        ensures passed { OnTrue result ((0 < self.old.passes) × (self.old.blown ≡ 0) × (self.new.blown ≡ 0)) }
        ensures stopped { OnFalse result
            ((self.old.passes ≡ 0) × (self.old.blown ≤ self.new.blown) × (self.new.blown ≡ next_count self.old.blown)) }
    {
        if self.passes == 0 {
            self.blown = self.blown.saturating_add(1);
            return false;
        }
        self.passes -= 1;
        true
    }
}

impl<M: Media> Media for FusedMedia<M> {
    ghost use Rattle.std.specs.Prelude.{◌<◌, ◌⊎◌, nat_le, ◌&&◌};
    ghost use Rattle.pcm_media.specs.Fused.{fused_view, only_fused};
    ghost use Rattle.std.proofs.Common.{inr};

    ghost tells = { M.tells };

    ghost view = { λ m. fused_view (M.view m.inner) m.blown };

    ghost steady = { λ m calls more. nat_le calls m.passes && M.steady m.inner calls more };

    // A call came for which it had no pass, or the medium behind it is spent.
    ghost spent = { λ m. (0 < m.blown) ⊎ M.spent m.inner };

    ghost long = { λ m told. M.long m.inner told };

    ghost counts_now = { λ m t image told le left. inr left };

    ghost only_now = { λ m image told left. only_fused (M.view m.inner) m.blown image left };

    fn len(&self) -> u64 {
        self.inner.len()
    }

    fn moment(&self) -> u64 {
        self.inner.moment().saturating_add(self.blown)
    }

    fn read(&mut self, at: u64, buf: &mut [u8]) -> Result<(), Failed>
        requires { at + length buf.old ≤ (M.view self.old.inner).size }
        ensures bytes { IsTrue M.tells →
            OnOk result (buf.new ≡ range (M.view self.old.inner).content.bytes at (length buf.old)) }
        ensures does { Writes M.tells [] (behind M.view self.old) (behind M.view self.new) result }
        ensures ticks { Ticks (behind M.view self.old).moment (behind M.view self.new).moment result }
        ensures steady { (calls more : ℕ) → IsTrue (nat_le (calls + 1) self.old.passes && M.steady self.old.inner (calls + 1) more)
            → IsOk result × IsTrue (nat_le calls self.new.passes && M.steady self.new.inner calls more) }

        ensures passed_on { 0 < self.old.passes → Writes M.tells [] (M.view self.old.inner) (M.view self.new.inner) result }
        ensures fuse { Burns self.old self.new result }
    {
        if !self.takes_pass() {
            return Err(Failed);
        }
        self.inner.read(at, buf)
    }

    fn write(&mut self, at: u64, bytes: &[u8]) -> Result<(), Failed>
        requires { at + length bytes.now ≤ (M.view self.old.inner).size }
        ensures written { IsTrue M.tells →
            OnOk result ((M.view self.new.inner).content ≡ written at bytes.now (M.view self.old.inner).content) }
        ensures does { Writes M.tells ((at, length bytes.now) ∷ []) (behind M.view self.old) (behind M.view self.new) result }
        ensures ticks { Ticks (behind M.view self.old).moment (behind M.view self.new).moment result }
        ensures steady { (calls more : ℕ) → IsTrue (nat_le (calls + 1) self.old.passes && M.steady self.old.inner (calls + 1) (length bytes.now + more))
            → IsOk result × IsTrue (nat_le calls self.new.passes && M.steady self.new.inner calls more) }

        ensures passed_on { 0 < self.old.passes →
            Writes M.tells ((at, length bytes.now) ∷ []) (M.view self.old.inner) (M.view self.new.inner) result }
        ensures fuse { Burns self.old self.new result }
    {
        if !self.takes_pass() {
            return Err(Failed);
        }
        self.inner.write(at, bytes)
    }

    fn barrier(&mut self) -> Result<(), Failed>
        ensures settled { IsTrue M.tells →
            OnOk result ((M.view self.new.inner).content ≡ settled (M.view self.old.inner).content) }
        ensures does { Writes M.tells [] (behind M.view self.old) (behind M.view self.new) result }
        ensures ticks { Ticks (behind M.view self.old).moment (behind M.view self.new).moment result }
        ensures steady { (calls more : ℕ) → IsTrue (nat_le (calls + 1) self.old.passes && M.steady self.old.inner (calls + 1) more)
            → IsOk result × IsTrue (nat_le calls self.new.passes && M.steady self.new.inner calls more) }

        ensures passed_on { 0 < self.old.passes → Writes M.tells [] (M.view self.old.inner) (M.view self.new.inner) result }
        ensures fuse { Burns self.old self.new result }
    {
        if !self.takes_pass() {
            return Err(Failed);
        }
        self.inner.barrier()
    }

    fn fails_when_spent(&self)
        ensures { 0 < (behind M.view self.now).faults → (0 < self.now.blown) ⊎ M.spent self.now.inner }
    {
        self.inner.fails_when_spent();
    }
}
