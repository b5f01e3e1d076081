// Numbers as values of records.
ghost use Rattle.std.specs.Prelude.{◌≡◌, ◌^◌, ◌<◌, decimal};
ghost use Rattle.texts.specs.Reads.{Reads};

use record_slots::Value;
use texts::{Piece, ShortText, read_u64};

/// The value that spells a number in decimal.
pub fn value_of(number: u64) -> Value
    ensures { result ≡ decimal number }
{
    let text = ShortText::of(&[Piece::Number(number)]);
    match Value::of(text.as_bytes()) {
        Some(value) => value,
        None => unreachable!(),
    }
}

/// The number that a value spells in decimal, without a sign or a leading zero. There is none if it spells no u64.
pub fn number_in(value: &Value) -> Option<u64>
    ensures { Reads (λ n. n < 2 ^ 64) decimal value.now result }
{
    read_u64(value.as_bytes())
}
