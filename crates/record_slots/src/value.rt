ghost use Rattle.std.specs.Prelude.{◌≡◌, ◌≤◌, ◌*◌, length};
ghost use Rattle.std.specs.List.{list_all};
ghost use Rattle.std.specs.Option.{SomeIff};
ghost use Rattle.record_slots.specs.Text.{IsValue, is_visible};

use std::marker::Model;

/// The largest length of a value in bytes.
pub const VALUE_MAX: usize = 54;

/// The text of a record: 1 to 54 bytes, each from `!` to `~`.
#[derive(Clone, Copy, Debug, PartialEq, Eq)]
pub struct Value {
    bytes: [u8; VALUE_MAX],
    len: u8,
}

impl Model for Value {
    ghost use Rattle.std.specs.Prelude.{List, ℕ, ◌++◌, ◌-◌, length, take, replicate};
    ghost use Rattle.record_slots.specs.Text.{IsValue, IsStored, stored_len, stored_bytes};

    ghost Value = { List ℕ };

    ghost view = { λ v. take v.len v.bytes };

    ghost invariant = { λ v. IsStored 54 IsValue v.len v.bytes };

    ghost inverse = { λ text. record { bytes = text ++ replicate (54 - length text) 0; len = length text } };

    ghost inverse_ok = { λ v h. λ i. record { bytes = stored_bytes 54 IsValue v.len v.bytes h i; len = stored_len 54 IsValue v.len v.bytes h i } };
}

impl Value {
    /// The value with this text, or `None` if no value has it.
    pub fn of(text: &[u8]) -> Option<Value>
        ensures { SomeIff result (IsValue text.now) text.now }
    {
        if text.is_empty() || text.len() > VALUE_MAX || !all_visible(text) {
            return None;
        }
        let mut bytes = [0; VALUE_MAX];
        bytes[..text.len()].copy_from_slice(text);
        Some(Value {
            bytes,
            len: text.len() as u8,
        })
    }

    pub fn as_bytes(&self) -> &[u8]
        ensures text { result.now ≡ self.now }
        ensures value { IsValue self.now }
    {
        &self.bytes[..usize::from(self.len)]
    }
}

// Whether all bytes are visible. It is not inlined: a compiler would mix its cases there, which takes three times as many instructions.
#[inline(never)]
fn all_visible(text: &[u8]) -> bool
    requires { length text.now ≤ 64 }
    ensures { result ≡ list_all is_visible text.now }
{
    match text.len() {
        32.. => ends_visible::<32>(text),
        16.. => ends_visible::<16>(text),
        8.. => ends_visible::<8>(text),
        _ => each_visible(text),
    }
}

// The same of a text of `N` to `2 * N` bytes: its first `N` and its last `N` are all of it.
fn ends_visible<const N: usize>(text: &[u8]) -> bool
    requires least { N ≤ length text.now }
    requires most { length text.now ≤ 2 * N }
    ensures { result ≡ list_all is_visible text.now }
{
    each_visible(&text[..N]) & each_visible(&text[text.len() - N..])
}

// The same with no branch between the bytes, so that a compiler tests those of a known number together.
#[inline(always)]
fn each_visible(text: &[u8]) -> bool
    ensures { result ≡ list_all is_visible text.now }
{
    let mut all = true;
    for byte in text {
        all &= (0x21..=0x7E).contains(byte);
    }
    all
}
