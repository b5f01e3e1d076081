// A transaction of a drill.
ghost use Rattle.std.specs.Prelude.{◌≡◌, ◌<◌, ◌^◌, ◌%◌, ◌∷◌, ◌++◌, nat_eq, if◌then◌else◌, codes, OnOk};
ghost use Rattle.std.specs.Fmt.{decimal};
ghost use Rattle.record_slots.specs.Text.{IsValue};
ghost use Rattle.drill_gen.specs.Draws.{drawn_on};
ghost use Rattle.drill_gen.specs.Drill.{alone, paired, drawn_from, put_from};

use crate::draws::Draws;
use history::{Call, Control, TableCall, main_table};
use mars_base::{Listed, NoMemory};
use record_slots::Value;
use texts::{Piece, ShortText};

/// Calls of callers, one after another.
pub type Turns = Listed<(u8, Call)>;

// Keys are below this.
const KEYS: u64 = 256;

// One transaction in this many aborts.
const ENDS: u64 = 8;

/// Two puts and how the transaction ends.
#[derive(Clone, Copy)]
pub struct Transaction {
    pub first: TableCall,
    pub second: TableCall,
    pub end: Control,
}

/// Draws a transaction, which takes five draws.
pub fn draw_transaction(draws: &mut Draws) -> Transaction
    requires { draws.old.x < 2 ^ 31 }
    ensures drawn { result ≡ drawn_from draws.old.x }
    ensures on { draws.new.x ≡ drawn_on draws.old.x 5 }
    ensures small { draws.new.x < 2 ^ 31 }
{
    let first = draw_put(draws);
    let second = draw_put(draws);
    let end = end_of(draws.next());
    Transaction { first, second, end }
}

fn draw_put(draws: &mut Draws) -> TableCall
    requires { draws.old.x < 2 ^ 31 }
    ensures drawn { result ≡ put_from draws.old.x }
    ensures on { draws.new.x ≡ drawn_on draws.old.x 2 }
    ensures small { draws.new.x < 2 ^ 31 }
{
    let key = draws.next() % KEYS;
    let value = value_of(draws.next());
    TableCall::Put {
        table: main_table(),
        key,
        value,
    }
}

fn end_of(drawn: u64) -> Control
    ensures { result ≡ (if nat_eq (drawn % 8) 0 then Control.Abort else Control.Commit) }
{
    if drawn % ENDS == 0 {
        Control::Abort
    } else {
        Control::Commit
    }
}

// The letter `v` and the number.
fn value_of(drawn: u64) -> Value
    requires { drawn < 32768 }
    ensures { result ≡ codes "v" ++ decimal drawn }
{
    let text = ShortText::of(&[Piece::Words(b"v"), Piece::Number(drawn)]);
    match Value::of(text.as_bytes()) {
        Some(value) => value,
        None => unreachable!(),
    }
}

pub fn push_alone(turns: &mut Turns, drawn: &Transaction) -> Result<(), NoMemory>
    ensures { OnOk result (turns.new ≡ turns.old ++ alone drawn.now) }
{
    turns.push((0, Call::Begin))?;
    turns.push((0, Call::Table(drawn.first)))?;
    turns.push((0, Call::Table(drawn.second)))?;
    turns.push((0, Call::Control(drawn.end)))?;
    Ok(())
}

pub fn push_pair(turns: &mut Turns, one: &Transaction, other: &Transaction) -> Result<(), NoMemory>
    ensures { OnOk result (turns.new ≡ turns.old ++ paired one.now other.now) }
{
    turns.push((0, Call::Begin))?;
    turns.push((1, Call::Begin))?;
    turns.push((0, Call::Table(one.first)))?;
    turns.push((1, Call::Table(other.first)))?;
    turns.push((0, Call::Table(one.second)))?;
    turns.push((1, Call::Table(other.second)))?;
    turns.push((0, Call::Control(one.end)))?;
    turns.push((1, Call::Control(other.end)))?;
    Ok(())
}
