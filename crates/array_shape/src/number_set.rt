// Sets of transaction numbers.
ghost use Rattle.std.specs.Prelude.{◌≡◌, ◌≢◌, ◌+◌, ◌-◌, ◌<◌, ◌≤◌, ℕ, [], ◌∷◌, true, false, IfSome, IsNone};
ghost use Rattle.array_shape.specs.NumberSet.{has, numbers_from, numbers_in, members};

use crate::shape::NUMBERS_MAX;
use std::marker::Model;

/// A set of transaction numbers, or of loggers: number `t` is in it where bit `t` of `bits` is set.
#[derive(Clone, Copy, Debug, PartialEq, Eq)]
pub struct NumberSet {
    pub bits: u64,
}

impl NumberSet {
    /// The set with no number in it.
    pub fn empty() -> NumberSet
        ensures none { members result ≡ [] }
        ensures lacks { (t : ℕ) → has result.bits t ≡ false }
    {
        NumberSet { bits: 0 }
    }

    /// Whether a number is in it.
    pub fn contains(self, tid: u8) -> bool
        requires { tid < 64 }
        ensures { result ≡ has self.bits tid }
    {
        (self.bits >> tid) & 1 == 1
    }

    /// The same set with a number in it.
    pub fn with(self, tid: u8) -> NumberSet
        requires { tid < 64 }
        ensures here { has result.bits tid ≡ true }
        ensures others { (t : ℕ) → t ≢ tid → has result.bits t ≡ has self.bits t }
    {
        NumberSet {
            bits: self.bits | (1 << tid),
        }
    }

    /// Its numbers, rising.
    pub fn members(self) -> Members
        ensures { result ≡ members self }
    {
        Members { set: self, next: 0 }
    }

    // The lowest of its numbers that are not below `from`.
    fn lowest_from(self, from: u8) -> Option<u8>
        requires { from ≤ 64 }
        ensures some { IfSome result (λ t. (t < 64) × (numbers_from self.bits from (64 - from) ≡ t ∷ numbers_from self.bits (t + 1) (64 - (t + 1)))) }
        ensures none { IsNone result → numbers_from self.bits from (64 - from) ≡ [] }
    {
        if from == NUMBERS_MAX {
            return None;
        }
        let rest = self.bits >> from;
        if rest == 0 {
            return None;
        }
        Some(from + rest.trailing_zeros() as u8)
    }
}

/// The remaining numbers of a set, rising. Contracts see it as their list.
#[derive(Drop)]
pub struct Members {
    set: NumberSet,
    next: u8,
}

impl Model for Members {
    ghost use Rattle.std.specs.Prelude.{◌≤◌, ◌-◌, ℕ, List};
    ghost use Rattle.array_shape.specs.NumberSet.{numbers_from};

    ghost Value = { List ℕ };

    ghost view = { λ m. numbers_from m.set.bits m.next (64 - m.next) };

    ghost invariant = { λ m. m.next ≤ 64 };
}

impl Iterator for Members {
    ghost use Rattle.std.specs.Iterator.{YieldsFirst, item_count};

    type Item = u8;

    ghost next_gives = { YieldsFirst (λ numbers. numbers) };

    ghost remaining = { item_count (λ numbers. numbers) };

    fn next(&mut self) -> Option<u8> {
        let Some(tid) = self.set.lowest_from(self.next) else {
            self.next = NUMBERS_MAX;
            return None;
        };
        self.next = tid + 1;
        Some(tid)
    }
}
