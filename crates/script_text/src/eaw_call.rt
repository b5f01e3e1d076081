ghost use Rattle.std.specs.Prelude.{ℕ, ◌^◌, ◌<◌, ◌≤◌, ◌∷◌, ◌++◌, codes};
ghost use Rattle.std.specs.Fmt.{decimal};
ghost use Rattle.std.specs.Option.{option_map};
ghost use Rattle.texts.specs.Reads.{Reads};
ghost use Rattle.script_text.specs.Reads.{ReadsShown, place_and_bytes, edit_and_bytes};
ghost use Rattle.script_text.specs.HexText.{IsHex};
ghost use Rattle.script_text.specs.Eaw.{IsTextOf};
ghost use Rattle.script_text.specs.EawLines.{ShowsCall};

use crate::hex_text::is_hex;
use crate::lent::BLOCK;
use crate::number::{read_u32_after, split_u32};
use crate::word::{after, is_text};
use texts::read_below;

/// A raw command. The bytes to be written are the hexadecimal text of the line.
#[derive(Clone, Copy, Debug, PartialEq, Eq)]
pub enum EawCall<'a> {
    LogWrite { addr: u32, hex: &'a [u8] },
    Commit,
    Abort,
    /// Commits what is logged from this offset on.
    Nested { offset: u32 },
    /// Discards what is logged from this offset on.
    Partial { offset: u32 },
    Atomic { addr: u32, hex: &'a [u8] },
    /// Overwrites the bytes of a logged part from `at` on.
    EditLog { pos: u32, at: u32, hex: &'a [u8] },
    ReadLog { pos: u32 },
    Read { addr: u32, len: u32 },
    LogLen,
    Held { logger: u8 },
}

// The most loggers that an array may have.
const MAX_LOGGERS: u64 = 8;

pub fn read_eaw_call(bytes: &[u8]) -> Option<EawCall<'_>>
    ensures { (t : ℕ) → ReadsShown (ShowsCall t) (IsTextOf t) bytes.now result }
{
    if is_text(bytes, b"commit") {
        return Some(EawCall::Commit);
    }
    if is_text(bytes, b"abort") {
        return Some(EawCall::Abort);
    }
    if is_text(bytes, b"loglen") {
        return Some(EawCall::LogLen);
    }
    if let Some((addr, hex)) = read_write(bytes, b"logwrite ") {
        return Some(EawCall::LogWrite { addr, hex });
    }
    if let Some((addr, hex)) = read_write(bytes, b"atomic ") {
        return Some(EawCall::Atomic { addr, hex });
    }
    if let Some((pos, at, hex)) = read_edit(bytes) {
        return Some(EawCall::EditLog { pos, at, hex });
    }
    if let Some(offset) = read_u32_after(bytes, b"nested ") {
        return Some(EawCall::Nested { offset });
    }
    if let Some(offset) = read_u32_after(bytes, b"partial ") {
        return Some(EawCall::Partial { offset });
    }
    if let Some(pos) = read_u32_after(bytes, b"readlog ") {
        return Some(EawCall::ReadLog { pos });
    }
    if let Some((addr, len)) = read_range(bytes) {
        return Some(EawCall::Read { addr, len });
    }
    let logger = read_held(bytes)?;
    Some(EawCall::Held { logger })
}

// A number, a space, a text in hexadecimal.
fn read_place_and_hex(bytes: &[u8]) -> Option<(u32, &[u8])>
    ensures { Reads (λ p. (p.0 < 2 ^ 32) × IsHex p.1) (λ p. decimal p.0 ++ 32 ∷ p.1) bytes.now (option_map place_and_bytes result) }
{
    let (n, hex) = split_u32(bytes)?;
    if is_hex(hex) { Some((n, hex)) } else { None }
}

// A front, an address, a space, a text in hexadecimal.
fn read_write<'a>(bytes: &'a [u8], front: &[u8]) -> Option<(u32, &'a [u8])>
    ensures { Reads (λ p. (p.0 < 2 ^ 32) × IsHex p.1) (λ p. front.now ++ (decimal p.0 ++ 32 ∷ p.1)) bytes.now (option_map place_and_bytes result) }
{
    let rest = after(bytes, front)?;
    read_place_and_hex(rest)
}

// The number of a part, the place in it, and the bytes to be written there.
fn read_edit(bytes: &[u8]) -> Option<(u32, u32, &[u8])>
    ensures { Reads (λ p. (p.0 < 2 ^ 32) × (p.1 < 2 ^ 32) × IsHex p.2)
        (λ p. codes "editlog " ++ (decimal p.0 ++ 32 ∷ (decimal p.1 ++ 32 ∷ p.2)))
        bytes.now (option_map edit_and_bytes result) }
{
    let rest = after(bytes, b"editlog ")?;
    let (pos, rest) = split_u32(rest)?;
    let (at, hex) = read_place_and_hex(rest)?;
    Some((pos, at, hex))
}

// An address, and how many bytes to read from there.
fn read_range(bytes: &[u8]) -> Option<(u32, u32)>
    ensures { Reads (λ p. (p.0 < 2 ^ 32) × (1 ≤ p.1) × (p.1 ≤ 1024)) (λ p. codes "read " ++ (decimal p.0 ++ 32 ∷ decimal p.1)) bytes.now result }
{
    let rest = after(bytes, b"read ")?;
    let (addr, rest) = split_u32(rest)?;
    let len = read_below(rest, BLOCK as u64 + 1)?;
    if len == 0 {
        return None;
    }
    Some((addr, len as u32))
}

fn read_held(bytes: &[u8]) -> Option<u8>
    ensures { Reads (λ g. g < 8) (λ g. codes "held " ++ decimal g) bytes.now result }
{
    let rest = after(bytes, b"held ")?;
    let logger = read_below(rest, MAX_LOGGERS)?;
    Some(logger as u8)
}
