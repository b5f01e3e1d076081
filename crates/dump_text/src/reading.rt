// A text is read line by line.
ghost use Rattle.std.specs.Prelude.{◌≡◌, ℕ, ◌+◌, ◌<◌, ◌^◌, List, length, map, ◌++◌, ◌∷◌};
ghost use Rattle.script_run.specs.Lines.{lines_of};
ghost use Rattle.dump_text.specs.Dump.{count_words, record_words};
ghost use Rattle.dump_text.specs.Causes.{DumpSays};
ghost use Rattle.dump_text.specs.Taking.{HasRead, Takes};

use crate::fault::{DumpFault, LineFault};
use crate::gathered::Gathered;
use crate::record::{read_count, read_record};
use history::Tables;
use script_run::next_line;
use std::alloc::Global;

/// The tables that the text of a dump says, `main` first. Lines of records stand in any order; the last line says how many they are.
pub fn read_dump(alloc: Global, text: &[u8]) -> Result<Tables, DumpFault>
    ensures { DumpSays text.now result }
{
    let mut gathered = Gathered::new(alloc)?;
    let mut rest = text;
    let mut count: u64 = 0;
    while let Some((line, behind)) = next_line(rest) {
        if let Some(said) = read_count(line) {
            return end(alloc, gathered, count, said, behind);
        }
        take(alloc, &mut gathered, line, count + 1)?;
        count += 1;
        rest = behind;
    }
    Err(DumpFault::Cut)
}

// Adds the record that the `n`-th line says, which does not say how many there are.
fn take(alloc: Global, gathered: &mut Gathered, line: &[u8], n: u64) -> Result<(), DumpFault>
    requires { (m : ℕ) → m < 2 ^ 64 → line.now ≡ count_words m → ⊥ }
    ensures { (read : List _) → HasRead gathered.old read → Takes read line.now n result gathered.new }
{
    let (key, value) = match read_record(line) {
        Ok(record) => record,
        Err(fault) => return Err(DumpFault::Line { line: n, fault }),
    };
    match gathered.add(alloc, &key, value)? {
        Ok(()) => Ok(()),
        Err(fault) => Err(DumpFault::Line { line: n, fault }),
    }
}

// What the lines of records say, of which there are `count`, when the line behind them says how many there are.
fn end(
    alloc: Global,
    gathered: Gathered,
    count: u64,
    said: u64,
    behind: &[u8],
) -> Result<Tables, DumpFault>
    requires { count + length behind.now + 1 < 2 ^ 64 }
    ensures { (text : List _) (read : List _) → HasRead gathered read → count ≡ length read
        → lines_of text ≡ map record_words read ++ count_words said ∷ lines_of behind.now → DumpSays text result }
{
    if !behind.is_empty() {
        return Err(DumpFault::Line {
            line: count + 2,
            fault: LineFault::BehindTheEnd,
        });
    }
    if said != count {
        return Err(DumpFault::Count {
            said,
            counted: count,
        });
    }
    Ok(gathered.into_tables(alloc)?)
}
