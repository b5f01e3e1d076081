ghost use Rattle.std.specs.Prelude.{◌≡◌};
ghost use Rattle.std.specs.List.{list_all};
ghost use Rattle.std.specs.Option.{SomeIff};
ghost use Rattle.record_slots.specs.Text.{IsName, is_letter};

use std::marker::Model;

/// The largest length of a name in bytes.
pub const NAME_MAX: usize = 16;

/// The name of a table: 1 to 16 letters from `a` to `z`.
#[derive(Clone, Copy, Debug, PartialEq, Eq)]
pub struct Name {
    bytes: [u8; NAME_MAX],
    len: u8,
}

impl Model for Name {
    ghost use Rattle.std.specs.Prelude.{List, ℕ, ◌++◌, ◌-◌, length, take, replicate};
    ghost use Rattle.record_slots.specs.Text.{IsName, IsStored, stored_len, stored_bytes};

    ghost Value = { List ℕ };

    ghost view = { λ n. take n.len n.bytes };

    ghost invariant = { λ n. IsStored 16 IsName n.len n.bytes };

    ghost inverse = { λ text. record { bytes = text ++ replicate (16 - length text) 0; len = length text } };

    ghost inverse_ok = { λ n h. λ i. record { bytes = stored_bytes 16 IsName n.len n.bytes h i; len = stored_len 16 IsName n.len n.bytes h i } };
}

impl Name {
    /// The name with this text, or `None` if no name has it.
    pub fn of(text: &[u8]) -> Option<Name>
        ensures { SomeIff result (IsName text.now) text.now }
    {
        if text.is_empty() || text.len() > NAME_MAX || !all_letters(text) {
            return None;
        }
        let mut bytes = [0; NAME_MAX];
        bytes[..text.len()].copy_from_slice(text);
        Some(Name {
            bytes,
            len: text.len() as u8,
        })
    }

    pub fn as_bytes(&self) -> &[u8]
        ensures text { result.now ≡ self.now }
        ensures name { IsName self.now }
    {
        &self.bytes[..usize::from(self.len)]
    }
}

fn all_letters(text: &[u8]) -> bool
    ensures { result ≡ list_all is_letter text.now }
{
    text.iter().all(|byte| (b'a'..=b'z').contains(byte))
}
