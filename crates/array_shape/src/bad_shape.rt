// A number that no array may have.
use thiserror::Error;

/// The numbers on which the shape of an array and its length depend, in the order in which they are tested.
#[derive(Clone, Copy, Debug, PartialEq, Eq)]
pub enum ShapeNumber {
    Loggers,
    Numbers,
    Entries,
    Pages,
    MediaLength,
}

impl ShapeNumber {
    ghost use Rattle.std.specs.Prelude.{◌≡◌};
    ghost use Rattle.array_shape.specs.Numbers.{number_of};

    /// Its place in that order, from 1 on.
    pub fn number(self) -> u8
        ensures { result ≡ number_of self }
    {
        match self {
            ShapeNumber::Loggers => 1,
            ShapeNumber::Numbers => 2,
            ShapeNumber::Entries => 3,
            ShapeNumber::Pages => 4,
            ShapeNumber::MediaLength => 5,
        }
    }
}

/// The first number of an array that is out of its range, with the value given for it.
#[derive(Clone, Copy, Debug, PartialEq, Eq, Error)]
#[error("bad shape {} {given}", .which.number())]
pub struct BadShape {
    pub which: ShapeNumber,
    pub given: u64,
}
