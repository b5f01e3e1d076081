ghost use Rattle.std.specs.Prelude.{◌+◌, ◌<◌, ◌≤◌, MatchBool};
ghost use Rattle.array_shape.specs.Places.{data_len};

use array_shape::Shape;

/// Whether `len` bytes from an address on lie in the data.
pub fn is_in_data(shape: &Shape, addr: u32, len: usize) -> bool
    requires { len ≤ 1024 }
    ensures { MatchBool result (addr + len ≤ data_len shape.now) (data_len shape.now < addr + len) }
{
    u64::from(addr) + len as u64 <= shape.data_len()
}
