// Which stripes of keys a transaction locks.
ghost use Rattle.std.specs.Prelude.{◌≡◌, ◌<◌};
ghost use Rattle.history.specs.Locks.{stripe_of};

/// How a stripe of keys is touched: for reading, by many callers at a time, or for writing, by one caller alone.
#[derive(Clone, Copy, Debug, PartialEq, Eq)]
pub enum Mode {
    Shared,
    Exclusive,
}

/// The stripe of a key of a table, one of 64.
#[inline]
pub fn stripe_of(table: u8, key: u64) -> u64
    ensures stripe { result ≡ stripe_of table key }
    ensures small { result < 64 }
{
    (key % 64 + 8 * u64::from(table)) % 64
}
