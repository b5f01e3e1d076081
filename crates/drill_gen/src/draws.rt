// Numbers drawn from a seed.
ghost use Rattle.std.specs.Prelude.{◌≡◌, ◌<◌, ◌^◌, ◌+◌, ◌*◌, ◌/◌, ◌%◌};

/// Continues from a number of 31 bits.
#[derive(Clone, Copy)]
pub struct Draws {
    pub x: u64,
}

impl Draws {
    /// The next number, below 32,768.
    pub fn next(&mut self) -> u64
        requires { self.old.x < 2 ^ 31 }
        ensures small { self.new.x < 2 ^ 31 }
        ensures on { self.new.x ≡ (self.old.x * 1103515245 + 12345) % 2 ^ 31 }
        ensures drawn { result ≡ self.new.x / 65536 }
        ensures below { result < 32768 }
    {
        self.x = (self.x * 1_103_515_245 + 12_345) % 2_147_483_648;
        self.x / 65_536
    }
}
