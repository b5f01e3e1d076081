// What is kept in memory.
ghost use Rattle.std.specs.Prelude.{◌≡◌, Bool};

/// Says whether transactions and records that contracts see stay in memory, so that they can be read again, or are known to proofs alone;
/// and whether transactions that need not be kept any longer are given up when that is said.
pub trait Keeper {
    ghost keeps: { Bool };

    ghost forgets: { Bool };

    fn keeps() -> bool
        ensures { result ≡ keeps };

    fn forgets() -> bool
        ensures { result ≡ forgets };
}

/// All of them stay in memory.
#[derive(Clone, Copy, Debug, PartialEq, Eq)]
pub struct KeepsAll;

impl Keeper for KeepsAll {
    ghost use Rattle.std.specs.Prelude.{false, true};

    ghost keeps = { true };

    ghost forgets = { false };

    fn keeps() -> bool {
        true
    }

    fn forgets() -> bool {
        false
    }
}

/// All of them stay in memory, but for transactions that were given up: what a feed has not published yet.
#[derive(Clone, Copy, Debug, PartialEq, Eq)]
pub struct KeepsNews;

impl Keeper for KeepsNews {
    ghost use Rattle.std.specs.Prelude.{true};

    ghost keeps = { true };

    ghost forgets = { true };

    fn keeps() -> bool {
        true
    }

    fn forgets() -> bool {
        true
    }
}

/// None of them do.
#[derive(Clone, Copy, Debug, PartialEq, Eq)]
pub struct KeepsNothing;

impl Keeper for KeepsNothing {
    ghost use Rattle.std.specs.Prelude.{false};

    ghost keeps = { false };

    ghost forgets = { false };

    fn keeps() -> bool {
        false
    }

    fn forgets() -> bool {
        false
    }
}
