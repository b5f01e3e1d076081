// A number of which some bytes have come.
ghost use Rattle.std.specs.Prelude.{◌≡◌, ◌+◌, ◌-◌, ◌*◌, ◌≤◌, ◌<◌};
ghost use Rattle.mirror.specs.Partial.{IsPartial};

/// A number that comes byte by byte, the lowest first.
#[derive(Clone, Copy)]
pub(crate) struct PartialNumber {
    /// How many bytes are still to come.
    pub left: u8,
    /// What the bytes that have come say.
    pub value: u64,
    /// How much a one in the next byte adds.
    pub weight: u64,
    ghost partial: { IsPartial left value weight },
}

impl PartialNumber {
    /// A number of so many bytes, of which none has come.
    pub(crate) fn new(len: u8) -> PartialNumber
        requires { len ≤ 8 }
        ensures left { result.left ≡ len }
        ensures value { result.value ≡ 0 }
        ensures weight { result.weight ≡ 1 }
    {
        PartialNumber {
            left: len,
            value: 0,
            weight: 1,
        }
    }

    /// The same with one byte more.
    pub(crate) fn take(self, byte: u8) -> PartialNumber
        requires { 0 < self.left }
        ensures left { result.left ≡ self.left - 1 }
        ensures value { result.value ≡ self.value + self.weight * byte }
        ensures weight { 0 < result.left → result.weight ≡ self.weight * 256 }
    {
        let left = self.left - 1;
        let weight = if left > 0 { self.weight * 256 } else { 1 };
        PartialNumber {
            left,
            value: self.value + self.weight * u64::from(byte),
            weight,
        }
    }
}
