// Which shape an array of records gets.
ghost use Rattle.std.specs.Prelude.{◌≡◌, ◌+◌, ◌*◌, ◌≤◌, ◌<◌, IfOk, IfErr};
ghost use Rattle.restore_runs.specs.Sizing.{IsBadFor, IsFewest, IsHalf, IsShapeFor, asked_for, loggers_for};

use array_shape::{BadShape, LOGGERS_MAX, PAGES_MAX, PAGES_MIN, Shape, ShapeNumber};
use command_words::RestoreNumbers;

// The loggers of the default array.
const LOGGERS: u16 = 4;

/// The fewest pages for the index, and as many for slots, that have room for an index of `index` pages and for twice as many records.
pub fn half_for(index: u64, records: u64) -> u64
    ensures { IsHalf index records result }
{
    let slots = quarter(records);
    if slots < index { index } else { slots }
}

// A quarter, rounded up.
fn quarter(records: u64) -> u64
    ensures enough { records ≤ 4 * result }
    ensures fewest { 4 * result < records + 4 }
{
    let whole = records / 4;
    if records % 4 == 0 { whole } else { whole + 1 }
}

/// The shape with the numbers that are asked for, or the first of them that is out of range. Loggers that are not said are four, or eight
/// where four have too few pages; and pages that are not said are the fewest of which half are `half` pages.
pub fn shape_for(asked: &RestoreNumbers, half: u64) -> Result<Shape, BadShape>
    ensures shape { IfOk result (IsShapeFor asked.now half) }
    ensures bad { IfErr result (IsBadFor asked.now half) }
{
    let loggers = match asked.loggers {
        Some(loggers) => loggers,
        None => loggers_for(half),
    };
    let pages = match asked.pages {
        Some(pages) => u32::from(pages),
        None => fewest_pages(loggers, half),
    };
    // A number that no byte holds is out of range, as 255 is, but it is reported as it was asked for.
    let few_loggers = loggers.min(255) as u8;
    let few_numbers = asked.numbers.min(255) as u8;
    match Shape::new(few_loggers, few_numbers, asked.entries, pages) {
        Ok(shape) => Ok(shape),
        Err(BadShape { which, given }) => Err(BadShape {
            which,
            given: asked_for(loggers, asked.numbers, which, given),
        }),
    }
}

fn asked_for(loggers: u16, numbers: u16, which: ShapeNumber, given: u64) -> u64
    ensures { result ≡ asked_for loggers numbers which given }
{
    match which {
        ShapeNumber::Loggers => u64::from(loggers),
        ShapeNumber::Numbers => u64::from(numbers),
        ShapeNumber::Entries | ShapeNumber::Pages | ShapeNumber::MediaLength => given,
    }
}

// Four loggers, or eight where these have too few pages.
fn loggers_for(half: u64) -> u16
    ensures { result ≡ loggers_for half }
{
    if half <= u64::from(LOGGERS) * u64::from(PAGES_MAX / 2) {
        LOGGERS
    } else {
        u16::from(LOGGERS_MAX)
    }
}

// The fewest pages for each of so many loggers, or the most that there may be if these are too few.
fn fewest_pages(loggers: u16, half: u64) -> u32
    ensures { IsFewest loggers half result }
{
    for per in PAGES_MIN / 2..PAGES_MAX / 2 {
        if half <= u64::from(loggers) * u64::from(per) {
            return 2 * per;
        }
    }
    PAGES_MAX
}
