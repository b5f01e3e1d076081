// A link that keeps its frames in memory.
ghost use Rattle.std.specs.Prelude.{◌≡◌, [], ◌∷◌, ◌++◌, drop, slice_index_or, OnOk, OnErr};
ghost use Rattle.mars_base.specs.Causes.{HasCause};
ghost use Rattle.mirror.specs.Links.{Kept};

use crate::link::Link;
use mars_base::{Failed, Listed};
use std::alloc::Global;
use std::collections::VecDeque;
use std::marker::Model;

/// A link that keeps its frames in memory until they are given up. A send fails if memory runs out.
#[derive(Drop)]
pub struct MemoryLink {
    alloc: Global,
    frames: VecDeque<Listed<u8>>,
    faults: u64,
}

impl Model for MemoryLink {
    ghost use Rattle.mirror.specs.Links.{Kept};

    ghost Value = { Kept };

    ghost view = { λ l. record { frames = l.frames.items; faults = l.faults } };
}

impl MemoryLink {
    /// A link over which nothing was sent.
    pub fn new(alloc: Global) -> MemoryLink
        ensures { result ≡ record { frames = []; faults = 0 } }
    {
        MemoryLink {
            alloc,
            frames: VecDeque::new(alloc),
            faults: 0,
        }
    }

    // Keeps a copy of a frame.
    fn keep(&mut self, frame: &[u8]) -> Result<(), Failed>
        ensures kept { OnOk result (self.new ≡ record self.old { frames = self.old.frames ++ frame.now ∷ [] }) }
        ensures none { OnErr result (self.new ≡ self.old) }
    {
        let Ok(copy) = Vec::from_slice(self.alloc, frame) else {
            return Err(Failed);
        };
        if self.frames.push_back(Listed::from(copy)).is_err() {
            return Err(Failed);
        }
        Ok(())
    }
}

impl Link for MemoryLink {
    ghost use Rattle.std.specs.Prelude.{true};

    ghost tells = { true };

    ghost frames = { λ l. l.frames };

    ghost faults = { λ l. l.faults };

    fn send(&mut self, frame: &[u8]) -> Result<(), Failed> {
        if self.keep(frame).is_err() {
            self.faults = self.faults.saturating_add(1);
            return Err(Failed);
        }
        Ok(())
    }

    fn first_frame(&self) -> &[u8] {
        match self.frames.front() {
            Some(frame) => frame.as_slice(),
            None => &[],
        }
    }

    fn drop_frame(&mut self) {
        let _first = self.frames.pop_front();
    }
}
