ghost use Rattle.std.specs.Prelude.{◌≡◌, ◌^◌, ◌<◌, ◌∷◌, ◌++◌};
ghost use Rattle.std.specs.Fmt.{decimal};
ghost use Rattle.std.specs.Option.{option_map};
ghost use Rattle.texts.specs.Reads.{Reads};
ghost use Rattle.script_text.specs.Reads.{place_and_bytes};

use crate::word::{after, split_word};
use texts::{read_below, read_u32, read_u64};

/// A front followed by a number of 64 bits.
pub fn read_u64_after(bytes: &[u8], front: &[u8]) -> Option<u64>
    ensures { Reads (λ n. n < 2 ^ 64) (λ n. front.now ++ decimal n) bytes.now result }
{
    let rest = after(bytes, front)?;
    read_u64(rest)
}

/// A front followed by a number of 32 bits.
pub fn read_u32_after(bytes: &[u8], front: &[u8]) -> Option<u32>
    ensures { Reads (λ n. n < 2 ^ 32) (λ n. front.now ++ decimal n) bytes.now result }
{
    let rest = after(bytes, front)?;
    read_u32(rest)
}

/// A number of 64 bits, a space, and the rest.
pub fn split_u64(bytes: &[u8]) -> Option<(u64, &[u8])>
    ensures { Reads (λ p. p.0 < 2 ^ 64) (λ p. decimal p.0 ++ 32 ∷ p.1) bytes.now (option_map place_and_bytes result) }
{
    let (word, rest) = split_word(bytes)?;
    let n = read_u64(word)?;
    Some((n, rest))
}

/// A number of 32 bits, a space, and the rest.
pub fn split_u32(bytes: &[u8]) -> Option<(u32, &[u8])>
    ensures { Reads (λ p. p.0 < 2 ^ 32) (λ p. decimal p.0 ++ 32 ∷ p.1) bytes.now (option_map place_and_bytes result) }
{
    let (word, rest) = split_word(bytes)?;
    let n = read_u32(word)?;
    Some((n, rest))
}

/// A number below `limit`, a space, and the rest.
pub fn split_below(bytes: &[u8], limit: u8) -> Option<(u8, &[u8])>
    ensures { Reads (λ p. p.0 < limit) (λ p. decimal p.0 ++ 32 ∷ p.1) bytes.now (option_map place_and_bytes result) }
{
    let (word, rest) = split_word(bytes)?;
    let n = read_below(word, u64::from(limit))?;
    Some((n as u8, rest))
}
