ghost use Rattle.std.specs.Prelude.{◌≡◌, ◌*◌, ◌^◌, ◌<◌};
ghost use Rattle.std.specs.Option.{SomeIff};

use std::marker::Model;

/// The largest key of a long value.
pub const KEY_MAX: u64 = (1 << 55) - 1;

/// How many record keys belong to a key.
pub(crate) const STRIDE: u64 = 512;

/// The key of a long value: a number below 2 to the power of 55.
#[derive(Clone, Copy, Debug)]
pub struct LongKey {
    key: u64,
}

impl Model for LongKey {
    ghost use Rattle.std.specs.Prelude.{ℕ, ◌^◌, ◌<◌};

    ghost Value = { ℕ };

    ghost view = { λ k. k.key };

    ghost invariant = { λ k. k.key < 2 ^ 55 };

    ghost inverse = { λ n. record { key = n } };

    ghost inverse_ok = { λ k h. λ i. k };
}

impl LongKey {
    /// The key of this number, or `None` if it is too large for one.
    pub fn of(key: u64) -> Option<LongKey>
        ensures { SomeIff result (key < 2 ^ 55) key }
    {
        if key > KEY_MAX {
            return None;
        }
        Some(LongKey { key })
    }

    // The first of the record keys that belong to it.
    pub(crate) fn first(&self) -> u64
        ensures is { result ≡ self.now * 512 }
        ensures small { self.now < 2 ^ 55 }
    {
        self.key * STRIDE
    }
}
