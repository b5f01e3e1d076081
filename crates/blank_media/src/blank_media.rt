// A medium in memory that begins with zeros.
ghost use Rattle.std.specs.Prelude.{◌≡◌, ◌+◌, ◌-◌, ◌^◌, ◌≤◌, [], ◌∷◌, true, length, ℕ, IfOk, IsOk, IsTrue, OnOk, OnErr};
ghost use Rattle.mars_base.specs.Bytes.{put, range};
ghost use Rattle.mars_base.specs.Moments.{Ticks};
ghost use Rattle.pcm_media.specs.Images.{written, settled};
ghost use Rattle.pcm_media.specs.View.{Writes};
ghost use Rattle.tape_media.specs.Steps.{writes, barrier};
ghost use Rattle.tape_media.specs.Tape.{Takes, view_of};
ghost use Rattle.blank_media.specs.Changes.{blank, content_of, is_steady};

use crate::change::Change;
use crate::work::Work;
use mars_base::{Failed, NoMemory};
use pcm_media::Media;
use std::alloc::Global;
use std::marker::Model;

/// A medium in memory that begins with zeros. Its calls fail only at the last moment, and take no memory: however long it is used, it costs its
/// bytes alone.
#[derive(Drop)]
pub struct BlankMedia {
    bytes: Vec<u8>,
    work: Work,
}

impl Model for BlankMedia {
    ghost use Rattle.tape_media.specs.Tape.{Tape, Holds};

    ghost Value = { Tape };

    ghost view = { λ m. m.work };

    ghost invariant = { λ m. Holds m.work m.bytes.items };
}

// Writes these bytes over those from `at` on.
fn overwrite(bytes: &mut [u8], at: usize, more: &[u8])
    requires { at + length more.now ≤ length bytes.old }
    ensures { bytes.new ≡ put bytes.old at more.now }
{
    bytes[at..at + more.len()].copy_from_slice(more);
}

impl BlankMedia {
    /// A medium of so many zeros, all settled.
    pub fn new(alloc: Global, len: u64) -> Result<BlankMedia, NoMemory>
        ensures { IfOk result (λ m. m ≡ blank len) }
    {
        Ok(BlankMedia {
            bytes: vec![in alloc; 0; len as usize]?,
            work: Work::new(len),
        })
    }

    /// What a read of the whole medium gives.
    pub fn bytes(&self) -> &[u8]
        ensures { result.now ≡ (content_of self.now).bytes }
    {
        &self.bytes
    }
}

impl Media for BlankMedia {
    ghost use Rattle.std.specs.Prelude.{true, refl};
    ghost use Rattle.tape_media.specs.Tape.{view_of, counts_now, only_now};
    ghost use Rattle.blank_media.specs.Changes.{is_steady};

    ghost tells = { true };

    ghost view = { view_of };

    ghost steady = { is_steady };

    ghost spent = { λ m. Unit {0} };

    ghost long = { λ m told. refl };

    ghost counts_now = { λ m t image told le left. counts_now m t image left };

    ghost only_now = { λ m image told left. only_now m image left };

    fn len(&self) -> u64 {
        self.bytes.len() as u64
    }

    fn moment(&self) -> u64 {
        self.work.moment()
    }

    fn read(&mut self, at: u64, buf: &mut [u8]) -> Result<(), Failed>
        requires { at + length buf.old ≤ length (content_of self.old).bytes }
        ensures bytes { OnOk result (buf.new ≡ range (content_of self.old).bytes at (length buf.old)) }
        ensures does { Writes true [] (view_of self.old) (view_of self.new) result }
        ensures ticks { Ticks self.old.moment self.new.moment result }
        ensures steady { (calls more : ℕ) → IsTrue (is_steady self.old (calls + 1) more) → IsOk result × IsTrue (is_steady self.new calls more) }

        ensures takes { Takes [] self.old self.new result }
        // It fails only where the moment can not rise.
        ensures err { OnErr result (self.old.moment ≡ 2 ^ 64 - 1) }
    {
        self.work.pass()?;
        let at = at as usize;
        buf.copy_from_slice(&self.bytes[at..at + buf.len()]);
        Ok(())
    }

    fn write(&mut self, at: u64, bytes: &[u8]) -> Result<(), Failed>
        requires { at + length bytes.now ≤ length (content_of self.old).bytes }
        ensures written { OnOk result (content_of self.new ≡ written at bytes.now (content_of self.old)) }
        ensures does { Writes true ((at, length bytes.now) ∷ []) (view_of self.old) (view_of self.new) result }
        ensures ticks { Ticks self.old.moment self.new.moment result }
        ensures steady { (calls more : ℕ) → IsTrue (is_steady self.old (calls + 1) (length bytes.now + more)) → IsOk result × IsTrue (is_steady self.new calls more) }

        ensures takes { Takes (writes at bytes.now ∷ []) self.old self.new result }
        // It fails only where the moment can not rise.
        ensures err { OnErr result (self.old.moment ≡ 2 ^ 64 - 1) }
    {
        self.work.take(&Change::Write { at, bytes })?;
        overwrite(&mut self.bytes, at as usize, bytes);
        Ok(())
    }

    fn barrier(&mut self) -> Result<(), Failed>
        ensures settled { OnOk result (content_of self.new ≡ settled (content_of self.old)) }
        ensures does { Writes true [] (view_of self.old) (view_of self.new) result }
        ensures ticks { Ticks self.old.moment self.new.moment result }
        ensures steady { (calls more : ℕ) → IsTrue (is_steady self.old (calls + 1) more) → IsOk result × IsTrue (is_steady self.new calls more) }

        ensures takes { Takes (barrier ∷ []) self.old self.new result }
        // It fails only where the moment can not rise.
        ensures err { OnErr result (self.old.moment ≡ 2 ^ 64 - 1) }
    {
        self.work.take(&Change::Barrier)
    }

    fn fails_when_spent(&self) {}
}
