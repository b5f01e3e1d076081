// The parts of a long value as values of records.
ghost use Rattle.std.specs.Prelude.{◌≡◌, ◌+◌, ◌*◌, ◌/◌, ◌<◌, ◌≤◌, ◌++◌, ◌⊎◌, ℕ, suc, List, length, take, OnOk, IfErr};
ghost use Rattle.base64.specs.GeneralPurpose.{IsBytes, encode_of};
ghost use Rattle.base64.specs.Engines.{standard_no_pad};
ghost use Rattle.long_values.specs.Values.{part_at, part_count, text_at};
ghost use Rattle.long_values.specs.declared.unkept.Unkept.TheVariants.{Broken, NoMemory};

use crate::Unkept;
use base64::DecodeAllocError;
use base64::engine::general_purpose::STANDARD_NO_PAD;
use record_slots::{VALUE_MAX, Value};

// How many bytes a record spells.
const PART: usize = 40;

// How many parts so many bytes have.
pub(crate) fn part_count(bytes: &[u8]) -> usize
    ensures { result ≡ part_count bytes.now }
{
    bytes.len().div_ceil(PART)
}

// The value that spells part `n` of the bytes.
pub(crate) fn part(bytes: &[u8], n: usize) -> Value
    requires { n < part_count bytes.now }
    ensures { result ≡ text_at bytes.now (suc n) }
{
    let start = n * PART;
    let end = (start + PART).min(bytes.len());
    spelled(&bytes[start..end])
}

fn spelled(part: &[u8]) -> Value
    requires some { 0 < length part.now }
    requires few { length part.now ≤ 40 }
    ensures { result ≡ encode_of standard_no_pad part.now }
{
    let mut text = [0; VALUE_MAX];
    let Ok(len) = STANDARD_NO_PAD.encode_slice(part, &mut text) else {
        unreachable!();
    };
    match Value::of(&text[..len]) {
        Some(value) => value,
        None => unreachable!(),
    }
}

// Puts the bytes that a value spells behind others. It is refused if the value spells none.
pub(crate) fn push_part(value: &Value, bytes: &mut Vec<u8>) -> Result<(), Unkept>
    ensures ok { (part : List ℕ) → IsBytes part → value.now ≡ encode_of standard_no_pad part → OnOk result (bytes.new.items ≡ bytes.old.items ++ part) }
    ensures cause { IfErr result (λ unkept. (unkept ≡ Broken) ⊎ (unkept ≡ NoMemory)) }
    ensures err { (part : List ℕ) → IsBytes part → value.now ≡ encode_of standard_no_pad part → IfErr result (λ unkept. unkept ≡ NoMemory) }
{
    match STANDARD_NO_PAD.decode_vec(value.as_bytes(), bytes) {
        Ok(()) => Ok(()),
        Err(DecodeAllocError::OutOfMemory) => Err(Unkept::NoMemory),
        Err(DecodeAllocError::DecodeError(_)) => Err(Unkept::Broken),
    }
}
