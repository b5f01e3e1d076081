ghost use Rattle.std.specs.Prelude.{◌≡◌};

use std::marker::Model;

/// The most bytes that a raw command writes or reads.
pub const BLOCK: usize = 1024;

/// Bytes that an answer borrows, so that it stays small. Contracts see the list of them.
#[derive(Drop)]
pub struct Lent<'a> {
    bytes: &'a [u8],
}

impl<'a> Model for Lent<'a> {
    ghost use Rattle.std.specs.Prelude.{List, ℕ};

    ghost Value = { List ℕ };

    ghost view = { λ l. l.bytes.now };
}

impl<'a> Lent<'a> {
    pub fn of(bytes: &'a [u8]) -> Lent<'a>
        ensures { result ≡ bytes.now }
    {
        Lent { bytes }
    }

    pub fn as_bytes(&self) -> &'a [u8]
        ensures { result.now ≡ self.now }
    {
        self.bytes
    }
}
