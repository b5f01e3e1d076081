// What the rows of a commit are voted with.
ghost use Rattle.std.specs.Prelude.{◌≡◌, ◌<◌};
ghost use Rattle.array_shape.specs.NumberSet as numbers;

use crate::row::Row;

/// What all rows of a commit are voted with.
#[derive(Clone, Copy, Debug, PartialEq, Eq)]
pub struct Ballot {
    /// The loggers that have rows of the commit, one bit each.
    pub mask: u8,
    /// The numbers that are committed together, one bit each.
    pub group: u64,
    /// The place of the commit among those that wait for their write-back.
    pub order: u16,
}

impl Ballot {
    ghost use Rattle.std.specs.Prelude.{◌≡◌, ◌<◌, true};
    ghost use Rattle.array_shape.specs.NumberSet as numbers;
    ghost use Rattle.row_bytes.specs.Ballots as ballots;

    /// That of a row of number `tid`.
    pub fn of_row(tid: u8, row: &Row) -> Ballot
        requires { tid < 64 }
        ensures { result ≡ ballots.ballot_of tid row.now }
    {
        let group = if row.group == 0 { 1 << tid } else { row.group };
        Ballot {
            mask: row.mask,
            group,
            order: row.order,
        }
    }

    /// Whether the row of number `tid` at a logger is one of the commit's.
    pub fn has_row(self, logger: u8, tid: u8) -> bool
        requires logger { logger < 8 }
        requires tid { tid < 64 }
        ensures { result ≡ ballots.has_row self logger tid }
    {
        has(u64::from(self.mask), logger) && self.has_number(tid)
    }

    /// Whether the commit has a transaction number.
    pub fn has_number(self, tid: u8) -> bool
        requires { tid < 64 }
        ensures { result ≡ numbers.has self.group tid }
    {
        has(self.group, tid)
    }

    /// The row of number `tid` that names `count` cells from `first` on. The group of one number alone is written as 0.
    pub fn row(self, tid: u8, first: u16, count: u16) -> Row
        requires tid { tid < 64 }
        requires has { numbers.has self.group tid ≡ true }
        ensures ballot { ballots.ballot_of tid result ≡ self }
        ensures first { result.first ≡ first }
        ensures count { result.count ≡ count }
        ensures alone { result.group ≡ ballots.group_bytes tid self.group }
    {
        let group = if self.group == 1 << tid {
            0
        } else {
            self.group
        };
        Row {
            voted: false,
            mask: self.mask,
            first,
            count,
            group,
            order: self.order,
        }
    }
}

// Whether a mask has a logger, or a group a number.
fn has(bits: u64, n: u8) -> bool
    requires { n < 64 }
    ensures { result ≡ numbers.has bits n }
{
    (bits >> n) & 1 == 1
}
