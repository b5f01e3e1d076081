// What one number has logged.
ghost use Rattle.std.specs.Prelude.{◌≡◌, ◌+◌, ◌-◌, ◌^◌, ◌≤◌, ◌<◌, true, false, [], ◌++◌, length, take, drop, IfOk, All, vec_len};
ghost use Rattle.std.specs.Vec.{vec_capacity};
ghost use Rattle.array_shape.specs.Places.{data_len};
ghost use Rattle.array_shape.specs.Parts.{parts_of_write};
ghost use Rattle.array_shape.specs.Logged.{applied, AllFit, ranges_of};
ghost use Rattle.eaw_face.specs.State.{edited, range_at, part_at, count_on};
ghost use Rattle.mirror.specs.Log.{IsWritePart};

use crate::part::PlainPart;
use array_shape::{Part, Shape};
use mars_base::NoMemory;
use std::alloc::Global;
use std::marker::Model;

/// The parts that a number has logged. Room for all of them is taken when it is made.
#[derive(Drop)]
pub struct PlainLog {
    is_live: bool,
    parts: Vec<PlainPart>,
}

impl Model for PlainLog {
    ghost use Rattle.std.specs.Vec.{vec_capacity};
    ghost use Rattle.mirror.specs.Log.{Log};

    ghost Value = { Log };

    ghost view = { λ l. record { is_live = l.is_live; parts = l.parts.items; room = vec_capacity l.parts } };
}

// The bytes of a write that belong to one part of its range.
fn part_of_write(part: Part, addr: u64, bytes: &[u8]) -> &[u8]
    requires from { addr ≤ part.addr }
    requires to { part.addr + part.len ≤ addr + length bytes.now }
    ensures { result.now ≡ take part.len (drop (part.addr - addr) bytes.now) }
{
    let from = (part.addr - addr) as usize;
    &bytes[from..from + usize::from(part.len)]
}

// Appends the parts of a write.
fn push_parts(parts: &mut Vec<PlainPart>, shape: Shape, addr: u64, bytes: &[u8])
    requires inside { addr + length bytes.now ≤ data_len shape }
    requires room { vec_len parts.old + length (parts_of_write addr bytes.now) ≤ vec_capacity parts.old }
    ensures items { parts.new.items ≡ parts.old.items ++ parts_of_write addr bytes.now }
    ensures capacity { vec_capacity parts.new ≡ vec_capacity parts.old }
{
    for part in shape.parts(addr, bytes.len() as u64) {
        let piece = part_of_write(part, addr, bytes);
        parts.push_reserved(PlainPart::new(part.addr, piece));
    }
}

// How many parts this logger has.
fn count(parts: &[PlainPart], shape: Shape, logger: u8) -> u16
    requires few { length parts.now < 2 ^ 16 }
    requires placed { All (IsWritePart shape) parts.now }
    ensures { result ≡ count_on shape logger (ranges_of parts.now) }
{
    let mut count = 0;
    for part in parts {
        if shape.place(part.addr()).logger == logger {
            count += 1;
        }
    }
    count
}

// Writes parts into data, one after another.
fn apply_all(parts: &[PlainPart], target: &mut [u8])
    requires { AllFit (length target.old) parts.now }
    ensures { target.new ≡ applied parts.now target.old }
{
    for part in parts {
        part.apply(target);
    }
}

impl PlainLog {
    /// A log that is not live, with room for `room` parts.
    pub fn new(alloc: Global, room: usize) -> Result<PlainLog, NoMemory>
        ensures { IfOk result (λ log. log ≡ record { is_live = false; parts = []; room = room }) }
    {
        Ok(PlainLog {
            is_live: false,
            parts: Vec::with_capacity(alloc, room)?,
        })
    }

    pub fn is_live(&self) -> bool
        ensures { result ≡ self.now.is_live }
    {
        self.is_live
    }

    pub fn len(&self) -> usize
        ensures { result ≡ length self.now.parts }
    {
        self.parts.len()
    }

    /// The address and the length of a part in bytes.
    pub fn range(&self, pos: usize) -> (u64, u16)
        requires { pos < length self.now.parts }
        ensures { result ≡ range_at (ranges_of self.now.parts) pos }
    {
        self.parts[pos].range()
    }

    /// The address and the bytes of a part.
    pub fn part(&self, pos: usize) -> (u64, &[u8])
        requires { pos < length self.now.parts }
        ensures addr { result.0 ≡ (part_at self.now.parts pos).0 }
        ensures bytes { result.1.now ≡ (part_at self.now.parts pos).1 }
    {
        let part = &self.parts[pos];
        (part.addr(), part.bytes())
    }

    // Reads a part into the front of the buffer. Returns its address and its length in bytes.
    pub fn read(&self, pos: usize, buf: &mut [u8; 512]) -> (u64, u16)
        requires { pos < length self.now.parts }
        ensures range { result ≡ range_at (ranges_of self.now.parts) pos }
        ensures bytes { take result.1 buf.new ≡ (part_at self.now.parts pos).1 }
    {
        self.parts[pos].read(buf)
    }

    // How many of its parts this logger has.
    pub fn count_on(&self, shape: Shape, logger: u8) -> u16
        requires few { length self.now.parts < 2 ^ 16 }
        requires placed { All (IsWritePart shape) self.now.parts }
        ensures { result ≡ count_on shape logger (ranges_of self.now.parts) }
    {
        count(&self.parts, shape, logger)
    }

    // Writes the parts from `offset` on into data.
    pub fn apply_from(&self, offset: usize, target: &mut [u8])
        requires offset { offset ≤ length self.now.parts }
        requires fit { AllFit (length target.old) (drop offset self.now.parts) }
        ensures { target.new ≡ applied (drop offset self.now.parts) target.old }
    {
        apply_all(&self.parts[offset..], target);
    }

    /// Logs the parts of a write. The log is then live.
    pub fn append(&mut self, shape: Shape, addr: u64, bytes: &[u8])
        requires inside { addr + length bytes.now ≤ data_len shape }
        requires room { length self.old.parts + length (parts_of_write addr bytes.now) ≤ self.old.room }
        ensures { self.new ≡ record { is_live = true; parts = self.old.parts ++ parts_of_write addr bytes.now; room = self.old.room } }
    {
        self.is_live = true;
        push_parts(&mut self.parts, shape, addr, bytes);
    }

    /// Replaces bytes of a part, from byte `at` of it on.
    pub fn edit(&mut self, pos: usize, at: u32, bytes: &[u8])
        requires pos { pos < length self.old.parts }
        requires within { at + length bytes.now ≤ (range_at (ranges_of self.old.parts) pos).1 }
        ensures { self.new ≡ record self.old { parts = edited pos at bytes.now self.old.parts } }
    {
        self.parts[pos].edit(at, bytes);
    }

    /// Drops the parts from `offset` on.
    pub fn truncate(&mut self, offset: usize)
        ensures { self.new ≡ record self.old { parts = take offset self.old.parts } }
    {
        self.parts.truncate(offset);
    }

    /// Drops all parts. The log is then not live.
    pub fn free(&mut self)
        ensures { self.new ≡ record { is_live = false; parts = []; room = self.old.room } }
    {
        self.is_live = false;
        self.parts.clear();
    }
}
