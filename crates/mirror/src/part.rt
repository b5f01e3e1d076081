// A part of a write.
ghost use Rattle.std.specs.Prelude.{◌≡◌, ◌+◌, ◌≤◌, length, take};
ghost use Rattle.mars_base.specs.Bytes.{put};

use std::marker::Model;

// An address, and the bytes that are to stand there: at most 512.
#[derive(Drop)]
pub struct PlainPart {
    addr: u64,
    len: u16,
    bytes: [u8; 512],
}

impl Model for PlainPart {
    ghost use Rattle.std.specs.Prelude.{ℕ, ◌≤◌, List, take};

    ghost Value = { ℕ × List ℕ };

    ghost view = { λ p. (p.addr, take p.len p.bytes) };

    ghost invariant = { λ p. p.len ≤ 512 };
}

// Writes these bytes over those from `at` on.
pub fn overwrite(target: &mut [u8], at: usize, bytes: &[u8])
    requires { at + length bytes.now ≤ length target.old }
    ensures { target.new ≡ put target.old at bytes.now }
{
    target[at..at + bytes.len()].copy_from_slice(bytes);
}

impl PlainPart {
    pub fn new(addr: u64, bytes: &[u8]) -> PlainPart
        requires { length bytes.now ≤ 512 }
        ensures { result ≡ (addr, bytes.now) }
    {
        let mut page = [0; 512];
        page[..bytes.len()].copy_from_slice(bytes);
        PlainPart {
            addr,
            len: bytes.len() as u16,
            bytes: page,
        }
    }

    pub fn addr(&self) -> u64
        ensures { result ≡ self.now.0 }
    {
        self.addr
    }

    // Its address and its length in bytes.
    pub fn range(&self) -> (u64, u16)
        ensures { result ≡ (self.now.0, length self.now.1) }
    {
        (self.addr, self.len)
    }

    // Copies its bytes to the front of the buffer. Returns its address and its length in bytes.
    pub fn read(&self, buf: &mut [u8; 512]) -> (u64, u16)
        ensures range { result ≡ (self.now.0, length self.now.1) }
        ensures bytes { take result.1 buf.new ≡ self.now.1 }
    {
        *buf = self.bytes;
        (self.addr, self.len)
    }

    pub fn bytes(&self) -> &[u8]
        ensures { result.now ≡ self.now.1 }
    {
        &self.bytes[..usize::from(self.len)]
    }

    // Replaces bytes of it from byte `at` on.
    pub fn edit(&mut self, at: u32, bytes: &[u8])
        requires { at + length bytes.now ≤ length self.old.1 }
        ensures { self.new ≡ (self.old.0, put self.old.1 at bytes.now) }
    {
        overwrite(&mut self.bytes, at as usize, bytes);
    }

    // Writes it into data.
    pub fn apply(&self, target: &mut [u8])
        requires { self.now.0 + length self.now.1 ≤ length target.old }
        ensures { target.new ≡ put target.old self.now.0 self.now.1 }
    {
        overwrite(target, self.addr as usize, self.bytes());
    }
}
