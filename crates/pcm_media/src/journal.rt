// The calls that a medium in memory keeps, and those that are to fail.
ghost use Rattle.std.specs.Prelude.{◌≡◌, ◌↔◌, [], ◌∷◌, ◌++◌, length, IfOk, OnOk, OnErr, IsErr};
ghost use Rattle.pcm_media.specs.Calls.{ranges_in};
ghost use Rattle.pcm_media.specs.Replay.{unsettled_after};
ghost use Rattle.mars_base.specs.Causes.{next_count};
ghost use Rattle.pcm_media.specs.Kept.{fresh_kept, MustFail, HasRoom, Makes, Takes};

use crate::call::{Call, Place};
use crate::call_log::CallLog;
use mars_base::{Failed, NoMemory};
use std::alloc::Global;
use std::marker::Model;

#[derive(Drop)]
pub struct Journal {
    calls: CallLog,
    written: Vec<u8>,
    moment: u64,
    // Whether there was no memory to keep a call. From then on none is kept, so that a kept call is numbered by its place.
    is_cut: bool,
    listed: Vec<u64>,
    faults: u64,
    calls_room: u64,
    bytes_room: u64,
}

impl Model for Journal {
    ghost use Rattle.std.specs.Prelude.{◌≤◌};
    ghost use Rattle.std.specs.Vec.{vec_capacity};
    ghost use Rattle.pcm_media.specs.Kept.{Kept, IsRoomy};

    ghost Value = { Kept };

    ghost view = { λ j. record { records = j.calls.records; written = j.written.items; moment = j.moment; listed = j.listed.items; faults = j.faults; calls_room = j.calls_room; bytes_room = j.bytes_room } };

    ghost invariant = { λ j. IsRoomy j.calls j.moment j.is_cut j.calls_room × (j.bytes_room ≤ vec_capacity j.written) };
}

impl Journal {
    // A journal with room for `calls` calls and for `bytes` bytes that they write.
    pub fn new(alloc: Global, calls: u64, bytes: u64) -> Result<Journal, NoMemory>
        ensures { IfOk result (λ j. j ≡ fresh_kept calls bytes) }
    {
        Ok(Journal {
            calls: CallLog::new(alloc, calls)?,
            written: Vec::with_capacity(alloc, bytes as usize)?,
            moment: 0,
            is_cut: false,
            listed: Vec::new(alloc),
            faults: 0,
            calls_room: calls,
            bytes_room: bytes,
        })
    }

    // Lists the `nth` call as one that fails.
    pub fn fail(&mut self, nth: u64) -> Result<(), NoMemory>
        ensures ok { OnOk result (self.new ≡ record self.old { listed = self.old.listed ++ nth ∷ [] }) }
        ensures err { OnErr result (self.new ≡ self.old) }
    {
        self.listed.push(nth)?;
        Ok(())
    }

    // The places of the writes that are not settled.
    pub fn unsettled(&self) -> &[Place]
        ensures { unsettled_after self.now.records [] ≡ ranges_in result.now }
    {
        self.calls.unsettled()
    }

    pub fn moment(&self) -> u64
        ensures { result ≡ self.now.moment }
    {
        self.moment
    }

    pub fn calls_room(&self) -> u64
        ensures { result ≡ self.now.calls_room }
    {
        self.calls_room
    }

    pub fn bytes_room(&self) -> u64
        ensures { result ≡ self.now.bytes_room }
    {
        self.bytes_room
    }

    // Raises the moment and keeps the call. Returns whether the call is done.
    fn take(&mut self, call: Call, bytes: &[u8]) -> bool
        ensures { Takes call bytes.now self.old self.new result }
    {
        if self.moment == u64::MAX {
            return false;
        }
        self.moment += 1;
        self.is_cut = self.is_cut || self.calls.reserve().is_err();
        if self.is_cut {
            return false;
        }
        let is_done = !self.listed.contains(&self.moment)
            && self.written.extend_from_slice(bytes).is_ok();
        self.calls.push(call, is_done);
        is_done
    }

    // Makes a call that writes these bytes.
    pub fn make(&mut self, call: Call, bytes: &[u8]) -> Result<(), Failed>
        ensures listed { HasRoom self.old (length bytes.now) → (IsErr result ↔ MustFail self.old) }
        ensures past_room { MustFail self.old → IsErr result }
        ensures made { Makes call bytes.now self.old self.new result }
    {
        if self.take(call, bytes) {
            return Ok(());
        }
        self.faults = self.faults.saturating_add(1);
        Err(Failed)
    }
}
