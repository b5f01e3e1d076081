// A source in memory, which fails at listed calls.
ghost use Rattle.std.specs.Prelude.{◌≡◌, ◌<◌, ◌≤◌, ◌==◌, ◌↔◌, min, true, [], ◌∷◌, ◌++◌, length, drop, IfOk, OnOk, OnErr, IsErr, IsOk, MatchResult, Contains, IsTrue};
ghost use Rattle.mars_base.specs.Causes.{HasCause};
ghost use Rattle.outside.specs.Told.{Takes};
ghost use Rattle.mars_base.specs.Causes.{next_count, faults_after, MetListed};

use crate::Source;
use mars_base::{Failed, NoMemory};
use std::alloc::Global;
use std::marker::Model;

/// A source over a copy of some bytes. A call fails exactly when it is listed.
#[derive(Drop)]
pub struct MemorySource {
    bytes: Vec<u8>,
    at: usize,
    listed: Vec<u64>,
    calls: u64,
    faults: u64,
}

impl Model for MemorySource {
    ghost use Rattle.std.specs.Prelude.{◌<◌, ◌≤◌, drop, length};
    ghost use Rattle.mars_base.specs.Causes.{MetListed};
    ghost use Rattle.outside.specs.Memory.{Reading};

    ghost Value = { Reading };

    ghost view = { λ s. record { left = drop s.at s.bytes.items; listed = s.listed.items; calls = s.calls; faults = s.faults } };

    ghost invariant = { λ s. (s.at ≤ length s.bytes.items) × (0 < s.faults → MetListed s.listed.items s.calls) };
}

impl MemorySource {
    /// A source of these bytes, with no call listed.
    pub fn new(alloc: Global, bytes: &[u8]) -> Result<MemorySource, NoMemory>
        ensures { IfOk result (λ s. s ≡ record { left = bytes.now; listed = []; calls = 0; faults = 0 }) }
    {
        Ok(MemorySource {
            bytes: Vec::from_slice(alloc, bytes)?,
            at: 0,
            listed: Vec::new(alloc),
            calls: 0,
            faults: 0,
        })
    }

    /// Lists a call as one that fails: the `nth`, counted from 1 since the object was made.
    pub fn fail(&mut self, nth: u64) -> Result<(), NoMemory>
        ensures ok { OnOk result (self.new ≡ record self.old { listed = self.old.listed ++ nth ∷ [] }) }
        ensures err { OnErr result (self.new ≡ self.old) }
    {
        self.listed.push(nth)?;
        Ok(())
    }
}

impl Source for MemorySource {
    ghost tells = { true };

    ghost left = { λ s. s.left };

    ghost faults = { λ s. s.faults };

    ghost steady = { λ s. length s.listed == 0 };

    // A call that was made is listed.
    ghost spent = { λ s. MetListed s.listed s.calls };

    fn read(&mut self, buf: &mut [u8]) -> Result<usize, Failed>
        ensures bound { IfOk result (λ n. n ≤ length buf.new) }
        ensures bytes { Takes self.old.left self.new.left result buf.new }
        ensures most { IfOk result (λ n. n ≡ min (length self.old.left) (length buf.old)) }
        ensures behind { MatchResult result (λ n. drop n buf.new ≡ drop n buf.old) (λ _. buf.new ≡ buf.old) }

        ensures listed { IsErr result ↔ Contains self.old.listed self.new.calls }
        ensures same_list { self.new.listed ≡ self.old.listed }
        ensures steady { IsTrue (length self.old.listed == 0) → IsOk result × IsTrue (length self.new.listed == 0) }

        ensures calls { self.new.calls ≡ next_count self.old.calls }
        ensures faults { self.new.faults ≡ faults_after self.old.faults result }
        ensures cause { HasCause self.old.faults self.new.faults result }
    {
        self.calls = self.calls.saturating_add(1);
        if self.listed.contains(&self.calls) {
            self.faults = self.faults.saturating_add(1);
            return Err(Failed);
        }
        let left = &self.bytes[self.at..];
        let count = left.len().min(buf.len());
        buf[..count].copy_from_slice(&left[..count]);
        self.at += count;
        Ok(count)
    }

    fn fails_when_spent(&self)
        ensures { 0 < self.now.faults → MetListed self.now.listed self.now.calls }
    {
        let _ = &self.faults;
    }
}
