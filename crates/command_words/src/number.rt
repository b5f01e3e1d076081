ghost use Rattle.std.specs.Prelude.{◌≤◌};
ghost use Rattle.std.specs.Fmt.{decimal};
ghost use Rattle.texts.specs.Reads.{Reads};

use texts::read_below;

/// A number in decimal from `least` to `most`, without a sign or a leading zero.
pub fn read_within(text: &str, least: u32, most: u32) -> Option<u32>
    ensures { Reads (λ n. (least ≤ n) × (n ≤ most)) decimal text.now result }
{
    let read = read_below(text.as_bytes(), u64::from(most) + 1)?;
    let number = read as u32;
    if number < least {
        return None;
    }
    Some(number)
}
