// The lines of a dump.
ghost use Rattle.std.specs.Prelude.{◌≡◌, ◌^◌, ◌<◌, ◌∷◌, ◌++◌, MatchOption, MatchResult};
ghost use Rattle.texts.specs.Reads.{Reads};
ghost use Rattle.script_text.specs.Reads.{IsWord};
ghost use Rattle.dump_text.specs.Dump.{IsRecord, count_words, record_words};
ghost use Rattle.dump_text.specs.Causes.{IsBehindTable, IsNoRecord, IsShort, NamesNone};

use crate::fault::LineFault;
use history::{Key, main_table};
use record_slots::{Name, Value};
use texts::read_u64;

/// The number of records that the last line says.
pub fn read_count(line: &[u8]) -> Option<u64>
    ensures { Reads (λ n. n < 2 ^ 64) count_words line.now result }
{
    read_u64(line.strip_prefix(b"records ")?)
}

/// The record that a line says.
pub fn read_record(line: &[u8]) -> Result<(Key, Value), LineFault>
    ensures { MatchResult result (λ entry. IsRecord entry × (line.now ≡ record_words entry)) (λ fault. IsNoRecord line.now × IsShort line.now fault) }
{
    let Some(words) = line.strip_prefix(b"rec ") else {
        return Err(LineFault::NoRecord);
    };
    let (table, words) = match read_table(words) {
        Ok(named) => named,
        Err(fault) => return Err(fault),
    };
    let Some((digits, text)) = split_word(words) else {
        return Err(LineFault::NoKey);
    };
    let Some(key) = read_u64(digits) else {
        return Err(LineFault::NoKey);
    };
    match Value::of(text) {
        Some(value) => Ok((Key { table, key }, value)),
        None => Err(LineFault::NoValue),
    }
}

// The table that the words of a record name, which is `main` where they name none, and the words after that.
fn read_table(words: &[u8]) -> Result<(Name, &[u8]), LineFault>
    ensures { MatchResult result (λ table. IsBehindTable table.0 table.1.now words.now) (λ fault. (fault ≡ LineFault.NoName) × NamesNone words.now) }
{
    let main = main_table();
    let Some(named) = words.strip_prefix(b"@") else {
        return Ok((main, words));
    };
    let Some((text, words)) = split_word(named) else {
        return Err(LineFault::NoName);
    };
    let Some(name) = Name::of(text) else {
        return Err(LineFault::NoName);
    };
    if name.as_bytes() == main.as_bytes() {
        return Err(LineFault::NoName);
    }
    Ok((name, words))
}

// The bytes before the first space and those after it.
fn split_word(bytes: &[u8]) -> Option<(&[u8], &[u8])>
    ensures { MatchOption result (IsWord bytes.now) (λ p. IsWord p.0.now × (bytes.now ≡ p.0.now ++ 32 ∷ p.1.now)) }
{
    for (i, byte) in bytes.iter().enumerate() {
        if *byte == b' ' {
            return Some((&bytes[..i], &bytes[i + 1..]));
        }
    }
    None
}
