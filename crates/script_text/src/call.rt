ghost use Rattle.std.specs.Prelude.{◌≡◌, ◌<◌, ◌^◌, ◌∷◌, ◌++◌, codes, Some, None};
ghost use Rattle.std.specs.Fmt.{decimal};
ghost use Rattle.record_slots.specs.Text.{IsValue};
ghost use Rattle.texts.specs.Reads.{Reads};
ghost use Rattle.script_text.specs.Reads.{ReadsText};
ghost use Rattle.script_text.specs.Line.{IsCallText, control_text};
ghost use Rattle.script_text.specs.Named.{IsAsking, IsBehindName};

use crate::number::{read_u32_after, read_u64_after, split_u64};
use crate::word::{after, is_text, split_word};
use history::{Call, Control, TableCall, main_table};
use record_slots::{Name, Value};
use texts::read_u64;

/// A call: its words, and before them the name of the table that it asks for, unless that is `main`.
pub fn read_call(bytes: &[u8]) -> Option<Call>
    ensures { ReadsText IsCallText bytes.now result }
{
    if let Some(rest) = after(bytes, b"@") {
        return read_named(rest);
    }
    if let Some(call) = read_plain(bytes) {
        return Some(call);
    }
    read_of(bytes, &main_table())
}

// The name of a table, a space, and the words of a call that asks for that table.
fn read_named(bytes: &[u8]) -> Option<Call>
    ensures { ReadsText IsBehindName bytes.now result }
{
    let (name, words) = split_word(bytes)?;
    let table = Name::of(name)?;
    read_of(words, &table)
}

// The words of a call that asks for no table.
fn read_plain(bytes: &[u8]) -> Option<Call>
    ensures { ReadsText (IsAsking None) bytes.now result }
{
    if is_text(bytes, b"begin") {
        return Some(Call::Begin);
    }
    if is_text(bytes, b"save") {
        return Some(Call::Table(TableCall::Save));
    }
    if let Some(control) = read_control(bytes) {
        return Some(Call::Control(control));
    }
    let save = read_u32_after(bytes, b"back ")?;
    Some(Call::Table(TableCall::Back { save }))
}

// The word of what ends, offers or settles a transaction, or comes outside of any.
fn read_control(bytes: &[u8]) -> Option<Control>
    ensures { ReadsText (λ control text. text ≡ control_text control) bytes.now result }
{
    if is_text(bytes, b"commit") {
        return Some(Control::Commit);
    }
    if is_text(bytes, b"abort") {
        return Some(Control::Abort);
    }
    if is_text(bytes, b"offer") {
        return Some(Control::Offer);
    }
    if is_text(bytes, b"settle") {
        return Some(Control::Settle);
    }
    if is_text(bytes, b"purge") {
        return Some(Control::Purge);
    }
    None
}

// The words of a call that asks for this table.
fn read_of(bytes: &[u8], table: &Name) -> Option<Call>
    ensures { ReadsText (IsAsking (Some table.now)) bytes.now result }
{
    let table = *table;
    if let Some(key) = read_u64_after(bytes, b"get ") {
        return Some(Call::Table(TableCall::Get { table, key }));
    }
    if let Some((key, value)) = read_put(bytes) {
        return Some(Call::Table(TableCall::Put { table, key, value }));
    }
    if let Some(key) = read_u64_after(bytes, b"del ") {
        return Some(Call::Table(TableCall::Del { table, key }));
    }
    let (low, high) = read_scan(bytes)?;
    Some(Call::Table(TableCall::Scan { table, low, high }))
}

// A key, a space, a value.
fn read_put(bytes: &[u8]) -> Option<(u64, Value)>
    ensures { Reads (λ p. (p.0 < 2 ^ 64) × IsValue p.1) (λ p. codes "put " ++ (decimal p.0 ++ 32 ∷ p.1)) bytes.now result }
{
    let rest = after(bytes, b"put ")?;
    let (key, text) = split_u64(rest)?;
    let value = Value::of(text)?;
    Some((key, value))
}

// The lowest key, a space, the highest key.
fn read_scan(bytes: &[u8]) -> Option<(u64, u64)>
    ensures { Reads (λ p. (p.0 < 2 ^ 64) × (p.1 < 2 ^ 64)) (λ p. codes "scan " ++ (decimal p.0 ++ 32 ∷ decimal p.1)) bytes.now result }
{
    let rest = after(bytes, b"scan ")?;
    let (low, rest) = split_u64(rest)?;
    let high = read_u64(rest)?;
    Some((low, high))
}
