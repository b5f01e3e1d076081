// Numbers in decimal, as they are read.
ghost use Rattle.std.specs.Prelude.{◌≡◌, ◌^◌, ◌<◌};
ghost use Rattle.std.specs.Fmt.{decimal};
ghost use Rattle.std.specs.Str.Parse.{AllDigits, digits_value};
ghost use Rattle.std.specs.Option.{SomeIff};
ghost use Rattle.texts.specs.Reads.{Reads};

/// A number of 64 bits in decimal, without a sign or a leading zero.
pub fn read_u64(bytes: &[u8]) -> Option<u64>
    ensures { Reads (λ n. n < 2 ^ 64) decimal bytes.now result }
{
    if bytes.is_empty() {
        return None;
    }
    if bytes.len() > 1 && bytes[0] == b'0' {
        return None;
    }
    read_digits(bytes)
}

/// The same, below `limit`.
pub fn read_below(bytes: &[u8], limit: u64) -> Option<u64>
    ensures { Reads (λ n. n < limit) decimal bytes.now result }
{
    let n = read_u64(bytes)?;
    if n < limit { Some(n) } else { None }
}

/// The same, for 32 bits.
pub fn read_u32(bytes: &[u8]) -> Option<u32>
    ensures { Reads (λ n. n < 2 ^ 32) decimal bytes.now result }
{
    let n = read_below(bytes, 1 << 32)?;
    Some(n as u32)
}

// The number that a list of digits spells.
fn read_digits(bytes: &[u8]) -> Option<u64>
    ensures { SomeIff result (AllDigits 10 bytes.now × (digits_value 10 bytes.now < 2 ^ 64)) (digits_value 10 bytes.now) }
{
    let mut n: u64 = 0;
    for byte in bytes {
        if !byte.is_ascii_digit() {
            return None;
        }
        let digit = u64::from(*byte - b'0');
        if n > (u64::MAX - digit) / 10 {
            return None;
        }
        n = n * 10 + digit;
    }
    Some(n)
}
