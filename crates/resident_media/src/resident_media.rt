// A medium over a medium, which serves reads from memory.
ghost use Rattle.std.specs.Prelude.{◌≡◌, ◌+◌, ◌-◌, ◌/◌, ◌^◌, ◌<◌, ◌≤◌, ◌⊎◌, nat_le, ◌&&◌, [], ◌∷◌, length, ℕ, List, IsTrue, IsOk, IfOk, IfErr, OnOk};
ghost use Rattle.mars_base.specs.Moments.{Ticks};
ghost use Rattle.mars_base.specs.Bytes.{range};
ghost use Rattle.pcm_media.specs.Images.{MayLeave, written, settled};
ghost use Rattle.pcm_media.specs.View.{Writes};
ghost use Rattle.resident_media.specs.Blocks.{Learns, StaysOutside, end_block};
ghost use Rattle.resident_media.specs.Once.{Does, handed, spared, written_at};
ghost use Rattle.resident_media.specs.Resident.{shown, is_steady, AreThere, IsTicked, IsAnew, Knows, Called, Served};

use crate::blocks::Blocks;
use crate::past::{Past, at_first, with_barrier, with_moment, with_spared, with_write};
use ghost_notes::Notes;
use mars_base::Failed;
use pcm_media::Media;
use std::alloc::{AllocFailed, Global};
use std::marker::Model;

/// A medium over a medium that nobody else writes, of whose first bytes it keeps those in memory that were read, by blocks of 16,384. A read within
/// known blocks makes no call below, and any other makes one, for all unknown blocks that it touches. A write of bytes that stand in known blocks
/// already makes none: it is spared. Any other is handed on, and then put into what is kept: the blocks that it covers whole are known then. Where
/// it fails, the blocks that it touches are unknown again. Room is reserved for all, and none of it is touched before a block needs it: so a short
/// run does not pay for a large medium.
#[derive(Drop)]
pub struct ResidentMedia<M: Media> {
    inner: M,
    blocks: Blocks,
    // What a read below gives, on its way into the blocks.
    scratch: Vec<u8>,
    moment: u64,
    faults: u64,
    // What was noted of its calls: the newest is read.
    notes: Notes<Past>,
}

impl<M: Media> Model for ResidentMedia<M> {
    ghost use Rattle.std.specs.Vec.{vec_capacity};
    ghost use Rattle.resident_media.specs.Past.{newest};
    ghost use Rattle.resident_media.specs.Resident.{Resident, Lies};

    ghost Value = { Resident M };

    ghost view = { λ m. record { inner = m.inner; kept = m.blocks; moment = m.moment; faults = m.faults; past = newest m.notes.said } };

    ghost invariant = { λ m. Lies M.tells (M.view m.inner) m.blocks (vec_capacity m.scratch) m.moment (newest m.notes.said) };
}

impl<M: Media> ResidentMedia<M> {
    /// Over this medium, with room for its first `limit` bytes, which is reserved now. If there is none, the medium is given back.
    pub fn over(alloc: Global, inner: M, limit: u64) -> Result<ResidentMedia<M>, AllocFailed<M>>
        ensures anew { IfOk result (λ media. IsAnew M.tells M.view inner limit media) }
        ensures given_back { IfErr result (λ failed. failed.value ≡ inner) }
    {
        let len = inner.len().min(limit) as usize;
        let Ok(blocks) = Blocks::new(alloc, len) else {
            return Err(AllocFailed { value: inner });
        };
        let Ok(scratch) = Vec::with_capacity(alloc, len) else {
            return Err(AllocFailed { value: inner });
        };
        let moment = inner.moment();
        let notes = at_first(&inner);
        Ok(ResidentMedia {
            inner,
            blocks,
            scratch,
            moment,
            faults: 0,
            notes,
        })
    }

    /// The medium below.
    pub fn into_inner(self) -> M
        ensures { result ≡ self.inner }
    {
        let ResidentMedia {
            inner,
            blocks: _,
            scratch: _,
            moment: _,
            faults: _,
            notes: _,
        } = self;
        inner
    }

    /// What a loss of power may leave below now, it may leave of what is shown. This does nothing: only clauses need it.
    pub fn covers_inner(&self)
        ensures now { IsTrue M.tells → (image : List ℕ) → MayLeave (M.view self.now.inner).content image → MayLeave (shown M.view self.now).content image }
    {
        let _ = &self.inner;
    }

    // Raises the moment, or fails at its last value.
    fn tick(&mut self) -> Result<(), Failed>
        ensures { IsTicked M.tells M.view self.old self.new result }
    {
        if self.moment == u64::MAX {
            self.faults = self.faults.saturating_add(1);
            return Err(Failed);
        }
        self.notes = with_moment(&self.notes, &self.inner);
        self.moment += 1;
        Ok(())
    }
}

impl<M: Media> Media for ResidentMedia<M> {
    ghost use Rattle.std.specs.Prelude.{◌<◌, ◌⊎◌};
    ghost use Rattle.std.proofs.Common.{inr};
    ghost use Rattle.resident_media.specs.Resident.{shown, is_steady, only_over};

    ghost tells = { M.tells };

    ghost view = { shown M.view };

    ghost steady = { is_steady M.view M.steady };

    // A call came at the last moment, or the medium below is spent.
    ghost spent = { λ m. (0 < m.faults) ⊎ M.spent m.inner };

    ghost long = { λ m told. M.long m.inner told };

    ghost counts_now = { λ m t image told le left. inr left };

    ghost only_now = { λ m image told left. only_over (M.view m.inner) m.past m.moment m.faults image left };

    fn len(&self) -> u64 {
        self.inner.len()
    }

    fn moment(&self) -> u64 {
        self.moment
    }

    fn read(&mut self, at: u64, buf: &mut [u8]) -> Result<(), Failed>
        requires { at + length buf.old ≤ (M.view self.old.inner).size }
        ensures bytes { IsTrue M.tells →
            OnOk result (buf.new ≡ range (M.view self.old.inner).content.bytes at (length buf.old)) }
        ensures does { Writes M.tells [] (shown M.view self.old) (shown M.view self.new) result }
        ensures ticks { Ticks self.old.moment self.new.moment result }
        ensures steady { (calls more : ℕ) → IsTrue (is_steady M.view M.steady self.old (calls + 1) more)
            → IsOk result × IsTrue (is_steady M.view M.steady self.new calls more) }

        ensures hit { Knows self.old at (length buf.old) → self.old.moment < 2 ^ 64 - 1 → IsOk result × (self.new.inner ≡ self.old.inner) }
        ensures learns { at + length buf.old ≤ self.old.kept.len → OnOk result (Learns (M.view self.old.inner).moment (M.view self.new.inner).moment (at / 16384) (end_block at (length buf.old)) self.old.kept.known self.new.kept.known) }
        ensures beyond { self.old.kept.len < at + length buf.old → OnOk result (Does M.view handed self.old self.new) }
        ensures others { StaysOutside (at / 16384) (end_block at (length buf.old)) self.old.kept.known self.new.kept.known }
        ensures len { self.new.kept.len ≡ self.old.kept.len }
    {
        self.tick()?;
        if !self.blocks.has(at, buf.len()) {
            return self.inner.read(at, buf);
        }
        self.blocks
            .read(&mut self.inner, &mut self.scratch, at as usize, buf)
    }

    fn write(&mut self, at: u64, bytes: &[u8]) -> Result<(), Failed>
        requires { at + length bytes.now ≤ (M.view self.old.inner).size }
        ensures written { IsTrue M.tells →
            OnOk result ((shown M.view self.new).content ≡ written at bytes.now (shown M.view self.old).content) }
        ensures does { Writes M.tells ((at, length bytes.now) ∷ []) (shown M.view self.old) (shown M.view self.new) result }
        ensures ticks { Ticks self.old.moment self.new.moment result }
        ensures steady { (calls more : ℕ) → IsTrue (is_steady M.view M.steady self.old (calls + 1) (length bytes.now + more))
            → IsOk result × IsTrue (is_steady M.view M.steady self.new calls more) }

        ensures spared { Knows self.old at (length bytes.now) → AreThere self.old.kept at bytes.now → self.old.moment < 2 ^ 64 - 1 → IsOk result × (self.new.inner ≡ self.old.inner) }
        ensures handed { OnOk result (Does M.view (written_at at (length bytes.now)) self.old self.new ⊎ Does M.view (spared at bytes.now) self.old self.new) }
        ensures others { StaysOutside (at / 16384) (end_block at (length bytes.now)) self.old.kept.known self.new.kept.known }
        ensures len { self.new.kept.len ≡ self.old.kept.len }
    {
        self.tick()?;
        if self.blocks.shows(at, bytes) {
            self.notes = with_spared(&self.notes, at, bytes);
            return Ok(());
        }
        self.notes = with_write(&self.notes, at, bytes);
        match self.inner.write(at, bytes) {
            Ok(()) => {
                self.blocks.put(at, bytes);
                Ok(())
            }
            Err(failed) => {
                self.blocks.forget(at, bytes.len());
                Err(failed)
            }
        }
    }

    fn barrier(&mut self) -> Result<(), Failed>
        ensures settled { IsTrue M.tells →
            OnOk result ((shown M.view self.new).content ≡ settled (shown M.view self.old).content) }
        ensures does { Writes M.tells [] (shown M.view self.old) (shown M.view self.new) result }
        ensures ticks { Ticks self.old.moment self.new.moment result }
        ensures steady { (calls more : ℕ) → IsTrue (is_steady M.view M.steady self.old (calls + 1) more)
            → IsOk result × IsTrue (is_steady M.view M.steady self.new calls more) }

        ensures same { self.new.kept ≡ self.old.kept }
        ensures handed { OnOk result (Does M.view handed self.old self.new) }
    {
        self.tick()?;
        self.inner.barrier()?;
        self.notes = with_barrier(&self.notes);
        Ok(())
    }

    fn fails_when_spent(&self)
        ensures { 0 < (shown M.view self.now).faults → (0 < self.now.faults) ⊎ M.spent self.now.inner }
    {
        self.inner.fails_when_spent();
    }
}
