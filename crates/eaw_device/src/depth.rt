// How many commits may wait for their write-back on the devices of a type.
use std::marker::Brand;

/// What a type says of how many commits may wait on its devices. Nothing of it is there at run time: a call picks it.
pub trait Depth {
    ghost use Rattle.std.specs.Prelude.{ℕ};

    /// At least so many on each of them,
    ghost least: { ℕ };

    /// and at most so many.
    ghost most: { ℕ };
}

/// None may wait, unless a call picks another number.
impl Depth for Brand {
    ghost least = { 0 };

    ghost most = { 0 };
}

/// Each device has a number of its own.
#[derive(Debug, Drop)]
pub struct AnyDepth;

impl Depth for AnyDepth {
    ghost least = { 0 };

    ghost most = { 64 };
}

/// Each has one of its own, which is not 0.
#[derive(Debug, Drop)]
pub struct SomeDepth;

impl Depth for SomeDepth {
    ghost least = { 1 };

    ghost most = { 64 };
}
