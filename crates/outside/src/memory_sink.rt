// A sink in memory, which fails at listed calls.
ghost use Rattle.std.specs.Prelude.{◌≡◌, ◌+◌, ◌-◌, ◌<◌, ◌≤◌, ◌↔◌, ℕ, true, false, [], ◌∷◌, ◌++◌, length, IfOk, OnOk, OnErr, IsErr, IsTrue, IsOkAnd, Contains};
ghost use Rattle.mars_base.specs.Causes.{HasCause};
ghost use Rattle.outside.specs.Told.{Puts, TakesPart};
ghost use Rattle.outside.specs.Memory.{has_room, IsSpent};
ghost use Rattle.mars_base.specs.Causes.{next_count, faults_after};

use crate::Sink;
use mars_base::{Failed, NoMemory};
use std::alloc::Global;
use std::marker::Model;

/// A sink that keeps what is written. As long as its room suffices, a call fails exactly when it is listed. Beyond its room,
/// a call also fails if memory runs out.
#[derive(Drop)]
pub struct MemorySink {
    text: Vec<u8>,
    room: u64,
    listed: Vec<u64>,
    calls: u64,
    // Whether memory ran out beyond the room.
    ran_out: bool,
    faults: u64,
}

impl Model for MemorySink {
    ghost use Rattle.std.specs.Prelude.{◌≡◌, ◌<◌, ◌≤◌, ◌⊎◌, true};
    ghost use Rattle.std.specs.Vec.{vec_capacity};
    ghost use Rattle.mars_base.specs.Causes.{MetListed};
    ghost use Rattle.outside.specs.Memory.{Writing};

    ghost Value = { Writing };

    ghost view = { λ s. record { text = s.text.items; room = s.room; listed = s.listed.items; calls = s.calls; ran_out = s.ran_out; faults = s.faults } };

    ghost invariant = { λ s. (s.room ≤ vec_capacity s.text) × (0 < s.faults → MetListed s.listed.items s.calls ⊎ (s.ran_out ≡ true)) };
}

impl MemorySink {
    /// A sink with room for `room` bytes and no call listed.
    pub fn new(alloc: Global, room: u64) -> Result<MemorySink, NoMemory>
        ensures { IfOk result (λ s. s ≡ record { text = []; room = room; listed = []; calls = 0; ran_out = false; faults = 0 }) }
    {
        Ok(MemorySink {
            text: Vec::with_capacity(alloc, room as usize)?,
            room,
            listed: Vec::new(alloc),
            calls: 0,
            ran_out: false,
            faults: 0,
        })
    }

    /// Lists a call as one that fails: the `nth`, counted from 1 since the object was made.
    pub fn fail(&mut self, nth: u64) -> Result<(), NoMemory>
        ensures ok { OnOk result (self.new ≡ record self.old { listed = self.old.listed ++ nth ∷ [] }) }
        ensures err { OnErr result (self.new ≡ self.old) }
    {
        self.listed.push(nth)?;
        Ok(())
    }

    /// All that was written.
    pub fn written(&self) -> &[u8]
        ensures { result.now ≡ self.now.text }
    {
        &self.text
    }
}

impl Sink for MemorySink {
    ghost tells = { true };

    ghost written = { λ s. s.text };

    ghost faults = { λ s. s.faults };

    // No call is listed, and its room suffices.
    ghost steady = { has_room };

    ghost spent = { IsSpent };

    fn write(&mut self, piece: &[u8]) -> Result<usize, Failed>
        ensures part { TakesPart result piece.now }
        ensures whole { IfOk result (λ n. n ≡ length piece.now) }
        ensures bytes { Puts self.old.text self.new.text result piece.now }

        ensures listed { length self.old.text + length piece.now ≤ self.old.room →
            (IsErr result ↔ Contains self.old.listed self.new.calls) }
        ensures past_room { Contains self.old.listed self.new.calls → IsErr result }
        ensures same_list { self.new.listed ≡ self.old.listed }
        ensures same_room { self.new.room ≡ self.old.room }
        ensures ran_out { length self.old.text + length piece.now ≤ self.old.room → self.new.ran_out ≡ self.old.ran_out }

        ensures calls { self.new.calls ≡ next_count self.old.calls }
        ensures faults { self.new.faults ≡ faults_after self.old.faults result }
        ensures cause { HasCause self.old.faults self.new.faults result }
        ensures steady { (more : ℕ) → length piece.now ≤ more → IsTrue (has_room self.old more)
            → IsOkAnd result (λ n. IsTrue (has_room self.new (more - n))) }
    {
        self.calls = self.calls.saturating_add(1);
        if self.listed.contains(&self.calls) {
            self.faults = self.faults.saturating_add(1);
            return Err(Failed);
        }
        if self.text.extend_from_slice(piece).is_err() {
            self.ran_out = true;
            self.faults = self.faults.saturating_add(1);
            return Err(Failed);
        }
        Ok(piece.len())
    }

    fn fails_when_spent(&self)
        ensures { 0 < self.now.faults → IsSpent self.now }
    {
        let _ = &self.faults;
    }
}
