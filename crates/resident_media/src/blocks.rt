// Blocks of the first bytes of a medium that are kept in memory.
ghost use Rattle.std.specs.Prelude.{◌≡◌, ◌+◌, ◌*◌, ◌/◌, ◌%◌, ◌<◌, ◌≤◌, ◌↔◌, ◌⊎◌, ◌^◌, ◌-◌, min, ℕ, List, [], length, slice_index, IfOk, OnOk, OnErr, IsTrue, get_or, false, true};
ghost use Rattle.std.specs.Vec.{vec_capacity};
ghost use Rattle.mars_base.specs.Bytes.{put, range};
ghost use Rattle.resident_media.specs.Blocks.{AreKnown, Covers, Holds, IsMarked, IsPut, Learns, StaysOutside, end_block, fresh, spot};
ghost use Rattle.resident_media.specs.Resident.{AreThere, Called, Served};
ghost use Rattle.resident_media.specs.Placing.{Appends};

use crate::flags::{BLOCK, behind_unknown, first_unknown, forget};
use crate::room::{copy_one, copy_out, is_there, spot};
use mars_base::{Failed, NoMemory};
use pcm_media::Media;
use std::alloc::Global;
use std::marker::Model;

const ZEROS: [u8; BLOCK] = [0; BLOCK];

fn zeros(count: usize) -> &'static [u8]
    requires { count ≤ 16384 }
    ensures { length result.now ≡ count }
{
    &ZEROS[..count]
}

// Makes it as long as `count` at least, for which room is reserved.
fn lengthen(bytes: &mut Vec<u8>, count: usize)
    requires reserved { count ≤ vec_capacity bytes.old }
    ensures long { count ≤ length bytes.new.items }
    ensures capacity { vec_capacity bytes.old ≤ vec_capacity bytes.new }
{
    if bytes.len() < count {
        let _ = bytes.resize(count, 0);
    }
}

/// Copies of the first `len` bytes of a medium, each block where it was put when it was first kept. Room is reserved for all of them, of which
/// none is touched before a block needs it.
#[derive(Drop)]
pub struct Blocks {
    len: usize,
    room: Vec<u8>,
    places: Vec<usize>,
    known: Vec<bool>,
}

impl Model for Blocks {
    ghost use Rattle.std.specs.Vec.{vec_capacity};
    ghost use Rattle.resident_media.specs.Blocks.{Kept, Stands};

    ghost Value = { Kept };

    ghost view = { λ b. record { len = b.len; room = b.room.items; places = b.places.items; known = b.known.items } };

    ghost invariant = { λ b. Stands (record { len = b.len; room = b.room.items; places = b.places.items; known = b.known.items }) (vec_capacity b.room) };
}

impl Blocks {
    /// Reserves room for so many bytes.
    pub fn new(alloc: Global, len: usize) -> Result<Blocks, NoMemory>
        ensures fresh { IfOk result (λ blocks. blocks ≡ fresh len (end_block 0 len)) }
    {
        let count = len.div_ceil(BLOCK);
        let Some(size) = count.checked_mul(BLOCK) else {
            return Err(NoMemory);
        };
        Ok(Blocks {
            len,
            room: Vec::with_capacity(alloc, size)?,
            places: Vec::from_elem(alloc, 0, count)?,
            known: Vec::from_elem(alloc, false, count)?,
        })
    }

    /// Whether so many bytes from `at` on are kept.
    pub fn has(&self, at: u64, count: usize) -> bool
        ensures { IsTrue result ↔ (at + count ≤ self.now.len) }
    {
        at <= self.len as u64 && count as u64 <= self.len as u64 - at
    }

    // Puts a whole block that has no place behind the others, with zeros behind its last byte. It is known then.
    fn append(&mut self, block: usize, bytes: &[u8])
        requires there { block < length self.old.known }
        requires placeless { get_or self.old.places block 0 ≡ 0 }
        requires fits { length bytes.now ≤ 16384 }
        ensures { Appends block bytes.now self.old self.new }
    {
        let from = self.room.len();
        // There is room for each block that has no place.
        let _ = self.room.extend_from_slice(bytes);
        let _ = self.room.extend_from_slice(zeros(BLOCK - bytes.len()));
        self.places[block] = from / BLOCK + 1;
        self.known[block] = true;
    }

    // Whether so many bytes are all that is kept of a block.
    fn is_whole(&self, at: usize, count: usize) -> bool
        requires { at ≤ self.now.len }
        ensures { IsTrue result ↔ (at % 16384 ≡ 0) × (count ≡ min 16384 (self.now.len - at)) }
    {
        at % BLOCK == 0 && count == BLOCK.min(self.len - at)
    }

    // Puts a part of a block that has no place, if it is all that is kept of the block. It is known then.
    fn put_first(&mut self, at: usize, part: &[u8])
        requires some { 0 < length part.now }
        requires within { at + length part.now ≤ self.old.len }
        requires one { at % 16384 + length part.now ≤ 16384 }
        requires placeless { get_or self.old.places (at / 16384) 0 ≡ 0 }
        ensures len { self.new.len ≡ self.old.len }
        ensures known { Covers at (length part.now) self.old.len self.old.known self.new.known }
        ensures bytes { IsPut at (length part.now) part.now self.old self.new }
    {
        // A block without a place is unknown.
        let _ = &self.places;
        if !self.is_whole(at, part.len()) {
            return;
        }
        self.append(at / BLOCK, part);
    }

    // Puts a part of a block over what is kept of it, if the block is known or the part covers it. It is known then.
    fn put_part(&mut self, at: usize, part: &[u8])
        requires some { 0 < length part.now }
        requires within { at + length part.now ≤ self.old.len }
        requires one { at % 16384 + length part.now ≤ 16384 }
        ensures len { self.new.len ≡ self.old.len }
        ensures known { Covers at (length part.now) self.old.len self.old.known self.new.known }
        ensures bytes { IsPut at (length part.now) part.now self.old self.new }
    {
        let block = at / BLOCK;
        let place = self.places[block];
        if place == 0 {
            self.put_first(at, part);
            return;
        }
        if !self.is_whole(at, part.len()) && !self.known[block] {
            return;
        }
        let from = spot(&self.places, at);
        self.room[from..from + part.len()].copy_from_slice(part);
        self.known[block] = true;
    }

    // Puts bytes over those of one known block.
    fn put_one(&mut self, at: usize, bytes: &[u8])
        requires there { at / 16384 < length self.old.known }
        requires known { get_or self.old.known (at / 16384) false ≡ true }
        requires one { at % 16384 + length bytes.now ≤ 16384 }
        ensures len { self.new.len ≡ self.old.len }
        ensures known { Covers at (length bytes.now) self.old.len self.old.known self.new.known }
        ensures bytes { IsPut at (length bytes.now) bytes.now self.old self.new }
    {
        let from = spot(&self.places, at);
        self.room[from..from + bytes.len()].copy_from_slice(bytes);
    }

    // Puts bytes over the kept ones block by block.
    fn put_all(&mut self, at: usize, bytes: &[u8])
        requires within { at + length bytes.now ≤ self.old.len }
        requires small { at + length bytes.now < 2 ^ 64 }
        ensures len { self.new.len ≡ self.old.len }
        ensures known { Covers at (length bytes.now) self.old.len self.old.known self.new.known }
        ensures bytes { IsPut at (length bytes.now) bytes.now self.old self.new }
    {
        let mut done = 0;
        while done < bytes.len() {
            let part = (BLOCK - (at + done) % BLOCK).min(bytes.len() - done);
            self.put_part(at + done, &bytes[done..done + part]);
            done += part;
        }
    }

    /// Puts bytes over the kept ones from `at` on, as far as they are kept and their blocks are known. Those that they cover are known then.
    pub fn put(&mut self, at: u64, bytes: &[u8])
        ensures len { self.new.len ≡ self.old.len }
        ensures known { Covers at (length bytes.now) self.old.len self.old.known self.new.known }
        ensures holds { (content : List ℕ) → at + length bytes.now ≤ length content → Holds self.old content → Holds self.new (put content at bytes.now) }
    {
        if at >= self.len as u64 {
            return;
        }
        let at = at as usize;
        let count = bytes.len().min(self.len - at);
        if self.knows_one(at, count) {
            self.put_one(at, &bytes[..count]);
            return;
        }
        self.put_all(at, &bytes[..count]);
    }

    /// Whether these bytes are kept from `at` on, in known blocks.
    pub fn shows(&self, at: u64, bytes: &[u8]) -> bool
        ensures { IsTrue result ↔ (at + length bytes.now ≤ self.now.len) × AreKnown self.now.known (at / 16384) (end_block at (length bytes.now)) × AreThere self.now at bytes.now }
    {
        if !self.has(at, bytes.len()) {
            return false;
        }
        // The blocks are as many as these bytes need.
        let _ = &self.len;
        let at = at as usize;
        let end = (at + bytes.len()).div_ceil(BLOCK);
        if first_unknown(&self.known, at / BLOCK, end) < end {
            return false;
        }
        is_there(&self.room, &self.places, at, bytes)
    }

    /// Makes the blocks unknown that lie in these `count` bytes, in whole or in part.
    pub fn forget(&mut self, at: u64, count: usize)
        ensures room { self.new.room ≡ self.old.room }
        ensures places { self.new.places ≡ self.old.places }
        ensures len { self.new.len ≡ self.old.len }
        ensures inside { (i : ℕ) → at ≤ i → i < at + count → get_or self.new.known (i / 16384) false ≡ false }
        ensures others { (b : ℕ) → get_or self.new.known b false ≡ true → get_or self.old.known b false ≡ true }
        ensures outside { StaysOutside (at / 16384) (end_block at count) self.old.known self.new.known }
    {
        forget(&mut self.known, at, count);
    }

    // Reads these blocks from below, all in one call, which makes them known. If it fails, what is kept is as it was.
    fn fetch<M: Media>(
        &mut self,
        inner: &mut M,
        scratch: &mut Vec<u8>,
        first: usize,
        end: usize,
    ) -> Result<(), Failed>
        requires order { first < end }
        requires few { end ≤ length self.old.known }
        requires fits { self.old.len ≤ (M.view inner.old).size }
        requires reserved { self.old.len ≤ vec_capacity scratch.old }
        ensures called { Called M.tells M.view M.steady [] 0 inner.old inner.new result }
        ensures len { self.new.len ≡ self.old.len }
        ensures capacity { vec_capacity scratch.old ≤ vec_capacity scratch.new }
        ensures known { OnOk result (IsMarked first end true self.old.known self.new.known) }
        ensures same { OnErr result (self.new ≡ self.old) }
        ensures holds { IsTrue M.tells → length (M.view inner.old).content.bytes ≡ (M.view inner.old).size → Holds self.old (M.view inner.old).content.bytes → Holds self.new (M.view inner.old).content.bytes }
    {
        let len = self.len;
        let from = first * BLOCK;
        let count = (end * BLOCK).min(len) - from;
        lengthen(scratch, count);
        let bytes = &mut scratch[..count];
        inner.read(from as u64, bytes)?;
        self.put_all(from, bytes);
        Ok(())
    }

    // Copies bytes of known blocks.
    fn copy(&self, at: usize, buf: &mut [u8])
        requires within { at + length buf.old ≤ self.now.len }
        requires known { AreKnown self.now.known (at / 16384) (end_block at (length buf.old)) }
        ensures { (i : ℕ) → i < length buf.old → slice_index buf.new i ≡ slice_index self.now.room (spot self.now.places (at + i)) }
    {
        copy_out(&self.room, &self.places, at, buf);
    }

    // Whether so many bytes lie within one known block.
    fn knows_one(&self, at: usize, count: usize) -> bool
        ensures there { IsTrue result → at / 16384 < length self.now.known }
        ensures known { IsTrue result → get_or self.now.known (at / 16384) false ≡ true }
        ensures one { IsTrue result → at % 16384 + count ≤ 16384 }
    {
        let block = at / BLOCK;
        if block >= self.known.len() {
            return false;
        }
        if !self.known[block] {
            return false;
        }
        count <= BLOCK - at % BLOCK
    }

    // Copies bytes of one known block.
    fn copy_one(&self, at: usize, buf: &mut [u8])
        requires there { at / 16384 < length self.now.known }
        requires known { get_or self.now.known (at / 16384) false ≡ true }
        requires one { at % 16384 + length buf.old ≤ 16384 }
        ensures { (i : ℕ) → i < length buf.old → slice_index buf.new i ≡ slice_index self.now.room (spot self.now.places (at + i)) }
    {
        copy_one(&self.room, &self.places, at, buf);
    }

    // Makes the blocks from `first` up to `end` known: those from the first unknown one up to the last are read from below, all in one call.
    fn learn<M: Media>(
        &mut self,
        inner: &mut M,
        scratch: &mut Vec<u8>,
        first: usize,
        end: usize,
    ) -> Result<(), Failed>
        requires order { first ≤ end }
        requires few { end ≤ length self.old.known }
        requires fits { self.old.len ≤ (M.view inner.old).size }
        requires reserved { self.old.len ≤ vec_capacity scratch.old }
        ensures called { Called M.tells M.view M.steady [] 0 inner.old inner.new result ⊎ Served inner.old inner.new result }
        ensures len { self.new.len ≡ self.old.len }
        ensures capacity { vec_capacity scratch.old ≤ vec_capacity scratch.new }
        ensures hit { AreKnown self.old.known first end → Served inner.old inner.new result × (self.new ≡ self.old) }
        ensures learns { OnOk result (Learns (M.view inner.old).moment (M.view inner.new).moment first end self.old.known self.new.known) }
        ensures outside { StaysOutside first end self.old.known self.new.known }
        ensures holds { IsTrue M.tells → length (M.view inner.old).content.bytes ≡ (M.view inner.old).size → Holds self.old (M.view inner.old).content.bytes → Holds self.new (M.view inner.old).content.bytes }
    {
        let from = first_unknown(&self.known, first, end);
        if from == end {
            return Ok(());
        }
        let to = behind_unknown(&self.known, from, end);
        self.fetch(inner, scratch, from, to)
    }

    /// Copies bytes from the kept ones, whose blocks are made known first.
    pub fn read<M: Media>(
        &mut self,
        inner: &mut M,
        scratch: &mut Vec<u8>,
        at: usize,
        buf: &mut [u8],
    ) -> Result<(), Failed>
        requires within { at + length buf.old ≤ self.old.len }
        requires fits { self.old.len ≤ (M.view inner.old).size }
        requires reserved { self.old.len ≤ vec_capacity scratch.old }
        ensures called { Called M.tells M.view M.steady [] 0 inner.old inner.new result ⊎ Served inner.old inner.new result }
        ensures len { self.new.len ≡ self.old.len }
        ensures capacity { vec_capacity scratch.old ≤ vec_capacity scratch.new }
        ensures hit { AreKnown self.old.known (at / 16384) (end_block at (length buf.old)) → Served inner.old inner.new result × (self.new ≡ self.old) }
        ensures learns { OnOk result (Learns (M.view inner.old).moment (M.view inner.new).moment (at / 16384) (end_block at (length buf.old)) self.old.known self.new.known) }
        ensures outside { StaysOutside (at / 16384) (end_block at (length buf.old)) self.old.known self.new.known }
        ensures holds { IsTrue M.tells → length (M.view inner.old).content.bytes ≡ (M.view inner.old).size → Holds self.old (M.view inner.old).content.bytes → Holds self.new (M.view inner.old).content.bytes }
        ensures bytes { IsTrue M.tells → Holds self.old (M.view inner.old).content.bytes → length (M.view inner.old).content.bytes ≡ (M.view inner.old).size →
            OnOk result (buf.new ≡ range (M.view inner.old).content.bytes at (length buf.old)) }
    {
        if self.knows_one(at, buf.len()) {
            self.copy_one(at, buf);
            return Ok(());
        }
        // The blocks are as many as these bytes need.
        let _ = &self.len;
        self.learn(inner, scratch, at / BLOCK, (at + buf.len()).div_ceil(BLOCK))?;
        self.copy(at, buf);
        Ok(())
    }
}
