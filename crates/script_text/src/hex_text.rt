// Bytes as hexadecimal text, two lower-case digits for each.
ghost use Rattle.std.specs.Prelude.{◌≡◌, ◌*◌, ◌%◌, ◌≤◌, ◌++◌, ◌↔◌, List, ℕ, length, drop, All, IsTrue, MatchBool, IfOk, OnOk, OnErr};
ghost use Rattle.hex.specs.Hex.{IsBytes};
ghost use Rattle.script_text.specs.HexText.{hex_of, IsBlock, IsHex, IsDigit};

use crate::lent::BLOCK;
use mars_base::NoMemory;

/// The bytes of a hexadecimal text, written to the front of `buf`.
pub fn bytes_of<'a>(hex: &[u8], buf: &'a mut [u8; BLOCK]) -> &'a [u8]
    requires { IsHex hex.now }
    ensures { (bytes : List ℕ) → IsBlock bytes → hex.now ≡ hex_of bytes → result.now ≡ bytes }
{
    let len = hex_into(hex, buf);
    &buf[..len]
}

// Writes the bytes of a hexadecimal text to the front of `buf` and returns how many they are.
fn hex_into(hex: &[u8], buf: &mut [u8]) -> usize
    requires text { IsHex hex.now }
    requires fits { length hex.now ≤ 2 * length buf.old }
    ensures bytes { (bytes : List ℕ) → IsBlock bytes → hex.now ≡ hex_of bytes → buf.new ≡ bytes ++ drop (length bytes) buf.old }
    ensures count { 2 * result ≡ length hex.now }
{
    let len = hex.len() / 2;
    hex::decode_to_slice(hex, &mut buf[..len]).unwrap();
    len
}

/// Reads a hexadecimal text of any length into `bytes`, in place of what they were. The answer is `false` if it is not the text of bytes,
/// and then the bytes are none.
pub fn read_hex(text: &[u8], bytes: &mut Vec<u8>) -> Result<bool, NoMemory>
    ensures { IfOk result (λ read. MatchBool read (IsBytes bytes.new.items × (text.now ≡ hex_of bytes.new.items)) ((others : List ℕ) → IsBytes others → text.now ≡ hex_of others → ⊥)) }
{
    bytes.clear();
    if text.len() % 2 == 1 {
        return Ok(false);
    }
    if are_digits(text) {
        decode(text, bytes)?;
        return Ok(true);
    }
    Ok(false)
}

// Reads an even number of digits.
fn decode(text: &[u8], bytes: &mut Vec<u8>) -> Result<(), NoMemory>
    requires even { length text.now % 2 ≡ 0 }
    requires digits { All IsDigit text.now }
    ensures { OnOk result (IsBytes bytes.new.items × (text.now ≡ hex_of bytes.new.items)) }
{
    bytes.clear();
    bytes.resize(text.len() / 2, 0)?;
    hex::decode_to_slice(text, bytes).unwrap();
    Ok(())
}

// Whether a text is the hexadecimal text of 1 to 1,024 bytes.
pub fn is_hex(text: &[u8]) -> bool
    ensures { MatchBool result (IsHex text.now) (IsHex text.now → ⊥) }
{
    let len = text.len();
    if len == 0 || len > 2 * BLOCK || len % 2 == 1 {
        return false;
    }
    are_digits(text)
}

fn are_digits(text: &[u8]) -> bool
    ensures { IsTrue result ↔ All IsDigit text.now }
{
    text.iter().all(|byte| is_digit(*byte))
}

fn is_digit(byte: u8) -> bool
    ensures { IsTrue result ↔ IsDigit byte }
{
    matches!(byte, b'0'..=b'9' | b'a'..=b'f')
}

/// Appends the hexadecimal text of some bytes.
pub fn append_hex(out: &mut Vec<u8>, bytes: &[u8]) -> Result<(), NoMemory>
    ensures ok { OnOk result (out.new.items ≡ out.old.items ++ hex_of bytes.now) }
    ensures err { OnErr result (out.new.items ≡ out.old.items) }
{
    let start = out.len();
    // More digits than there are addresses find no memory.
    let Some(end) = start.checked_add(2 * bytes.len()) else {
        return Err(NoMemory);
    };
    if out.resize(end, 0).is_err() {
        return Err(NoMemory);
    }
    hex::encode_to_slice(bytes, &mut out[start..]).unwrap();
    Ok(())
}
