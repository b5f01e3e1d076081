// A medium in memory, which keeps its calls and fails at those that are listed.
ghost use Rattle.std.specs.Prelude.{◌≡◌, ◌+◌, ◌-◌, ◌^◌, ◌≤◌, ◌<◌, ◌↔◌, [], ◌∷◌, ◌++◌, length, ℕ, true, IsTrue, IsOk, IfOk, OnOk, OnErr, IsErr};
ghost use Rattle.mars_base.specs.Moments.{Ticks};
ghost use Rattle.mars_base.specs.Bytes.{put, range};
ghost use Rattle.pcm_media.specs.Images.{written, settled, partly};
ghost use Rattle.pcm_media.specs.View.{Writes};
ghost use Rattle.pcm_media.specs.declared.call.Call.TheVariants.{Read, Write, Barrier};
ghost use Rattle.pcm_media.specs.Kept.{MustFail, HasRoom, Makes};
ghost use Rattle.pcm_media.specs.Memory.{fresh_memory, content_of, view_of, is_steady, IsSpent};
ghost use Rattle.pcm_media.specs.Choice.{IsLeftBy};

use crate::Media;
use crate::call::Call;
use crate::choice::choose;
use crate::journal::Journal;
use mars_base::{Failed, NoMemory};
use std::alloc::Global;
use std::marker::Model;

/// A medium in memory, which keeps all its calls. As long as its room suffices and its moment is below the last value, a call
/// fails exactly when it is listed. Beyond its room, a call also fails if memory runs out, and once it has for the record of a call,
/// each call behind that one does. Of a read the record has no place.
#[derive(Drop)]
pub struct MemoryMedia {
    alloc: Global,
    start: Vec<u8>,
    bytes: Vec<u8>,
    journal: Journal,
}

impl Model for MemoryMedia {
    ghost use Rattle.pcm_media.specs.Memory.{Memory, Tells};

    ghost Value = { Memory };

    ghost view = { λ m. record { start = m.start.items; kept = m.journal } };

    ghost invariant = { λ m. Tells (record { start = m.start.items; kept = m.journal }) m.bytes.items };
}

// Writes these bytes over those from `at` on.
fn overwrite(bytes: &mut [u8], at: usize, more: &[u8])
    requires { at + length more.now ≤ length bytes.old }
    ensures { bytes.new ≡ put bytes.old at more.now }
{
    bytes[at..at + more.len()].copy_from_slice(more);
}

impl MemoryMedia {
    /// A medium with a copy of these bytes, all settled, with room to keep `calls` calls and `written` written bytes.
    pub fn new(
        alloc: Global,
        bytes: &[u8],
        calls: u64,
        written: u64,
    ) -> Result<MemoryMedia, NoMemory>
        ensures { IfOk result (λ m. m ≡ fresh_memory bytes.now calls written) }
    {
        MemoryMedia::over(alloc, Vec::from_slice(alloc, bytes)?, calls, written)
    }

    // The same over a vector of bytes of its own.
    fn over(
        alloc: Global,
        bytes: Vec<u8>,
        calls: u64,
        written: u64,
    ) -> Result<MemoryMedia, NoMemory>
        ensures { IfOk result (λ m. m ≡ fresh_memory bytes.items calls written) }
    {
        Ok(MemoryMedia {
            alloc,
            start: Vec::from_slice(alloc, &bytes)?,
            bytes,
            journal: Journal::new(alloc, calls, written)?,
        })
    }

    /// Lists a call of `read`, `write` or `barrier` as one that fails: the `nth`, counted from 1 since the medium was made.
    pub fn fail(&mut self, nth: u64) -> Result<(), NoMemory>
        ensures start { self.new.start ≡ self.old.start }
        ensures ok { OnOk result
            (self.new.kept ≡ record self.old.kept { listed = self.old.kept.listed ++ nth ∷ [] }) }
        ensures err { OnErr result (self.new.kept ≡ self.old.kept) }
    {
        self.journal.fail(nth)
    }

    /// What a read of the whole medium gives.
    pub fn bytes(&self) -> &[u8]
        ensures { result.now ≡ (content_of self.now).bytes }
    {
        &self.bytes
    }

    /// An image that a loss of power now may leave, as a new medium with the same room. At each place `i` that is not settled it
    /// has the byte `choice[i % choice.len()]`, or what a read gives if the choice is empty.
    pub fn leave(&self, choice: &[u8]) -> Result<MemoryMedia, NoMemory>
        ensures left { IfOk result (λ m. IsLeftBy choice.now (content_of self.now) m.start) }
        ensures anew { IfOk result (λ m.
            m ≡ fresh_memory m.start self.now.kept.calls_room self.now.kept.bytes_room) }
    {
        let mut image = Vec::from_slice(self.alloc, &self.bytes)?;
        choose(&mut image, self.journal.unsettled(), choice);
        MemoryMedia::over(
            self.alloc,
            image,
            self.journal.calls_room(),
            self.journal.bytes_room(),
        )
    }
}

impl Media for MemoryMedia {
    ghost use Rattle.std.specs.Prelude.{true, refl};
    ghost use Rattle.pcm_media.specs.Memory.{view_of, is_steady, counts_now, only_now};

    ghost tells = { true };

    ghost view = { view_of };

    ghost steady = { is_steady };

    ghost spent = { λ m. IsSpent m.kept };

    ghost long = { λ m told. refl };

    ghost counts_now = { λ m t image told le left. counts_now m t image left };

    ghost only_now = { λ m image told left. only_now m image left };

    fn len(&self) -> u64 {
        self.bytes.len() as u64
    }

    fn moment(&self) -> u64 {
        self.journal.moment()
    }

    fn read(&mut self, at: u64, buf: &mut [u8]) -> Result<(), Failed>
        requires { at + length buf.old ≤ length (content_of self.old).bytes }
        ensures bytes { OnOk result (buf.new ≡ range (content_of self.old).bytes at (length buf.old)) }
        ensures err { OnErr result (buf.new ≡ buf.old) }
        ensures same { content_of self.new ≡ content_of self.old }
        ensures does { Writes true [] (view_of self.old) (view_of self.new) result }
        ensures ticks { Ticks self.old.kept.moment self.new.kept.moment result }
        ensures steady { (calls more : ℕ) → IsTrue (is_steady self.old (calls + 1) more) → IsOk result × IsTrue (is_steady self.new calls more) }

        ensures listed { HasRoom self.old.kept 0 → (IsErr result ↔ MustFail self.old.kept) }
        ensures past_room { MustFail self.old.kept → IsErr result }
        ensures made { Makes Read [] self.old.kept self.new.kept result }
        ensures start { self.new.start ≡ self.old.start }
    {
        self.journal.make(Call::Read, &[])?;
        let at = at as usize;
        buf.copy_from_slice(&self.bytes[at..at + buf.len()]);
        Ok(())
    }

    fn write(&mut self, at: u64, bytes: &[u8]) -> Result<(), Failed>
        requires { at + length bytes.now ≤ length (content_of self.old).bytes }
        ensures written { OnOk result (content_of self.new ≡ written at bytes.now (content_of self.old)) }
        ensures err { OnErr result ((content_of self.new).bytes ≡ (content_of self.old).bytes) }
        // Within the room, a failed write leaves its range unsettled.
        ensures lost { HasRoom self.old.kept 0 → self.old.kept.moment < 2 ^ 64 - 1 →
            OnErr result (content_of self.new ≡ partly ((at, length bytes.now) ∷ []) (content_of self.old)) }
        ensures does { Writes true ((at, length bytes.now) ∷ []) (view_of self.old) (view_of self.new) result }
        ensures ticks { Ticks self.old.kept.moment self.new.kept.moment result }
        ensures steady { (calls more : ℕ) → IsTrue (is_steady self.old (calls + 1) (length bytes.now + more)) → IsOk result × IsTrue (is_steady self.new calls more) }

        ensures listed { HasRoom self.old.kept (length bytes.now) → (IsErr result ↔ MustFail self.old.kept) }
        ensures past_room { MustFail self.old.kept → IsErr result }
        ensures made { Makes (Write at (length bytes.now)) bytes.now self.old.kept self.new.kept result }
        ensures start { self.new.start ≡ self.old.start }
    {
        let call = Call::Write {
            at,
            len: bytes.len() as u64,
        };
        self.journal.make(call, bytes)?;
        overwrite(&mut self.bytes, at as usize, bytes);
        Ok(())
    }

    fn barrier(&mut self) -> Result<(), Failed>
        ensures settled { OnOk result (content_of self.new ≡ settled (content_of self.old)) }
        ensures err { OnErr result (content_of self.new ≡ content_of self.old) }
        ensures does { Writes true [] (view_of self.old) (view_of self.new) result }
        ensures ticks { Ticks self.old.kept.moment self.new.kept.moment result }
        ensures steady { (calls more : ℕ) → IsTrue (is_steady self.old (calls + 1) more) → IsOk result × IsTrue (is_steady self.new calls more) }

        ensures listed { HasRoom self.old.kept 0 → (IsErr result ↔ MustFail self.old.kept) }
        ensures past_room { MustFail self.old.kept → IsErr result }
        ensures made { Makes Barrier [] self.old.kept self.new.kept result }
        ensures start { self.new.start ≡ self.old.start }
    {
        self.journal.make(Call::Barrier, &[])
    }

    fn fails_when_spent(&self)
        ensures { 0 < self.now.kept.faults → IsSpent self.now.kept }
    {
        let _ = &self.journal;
    }
}
