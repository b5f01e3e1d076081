// The rows of an array, each read once.
ghost use Rattle.std.specs.Prelude.{◌≡◌, ◌≢◌, ◌+◌, ◌*◌, ◌^◌, ◌<◌, ◌≤◌, ◌⊎◌, ℕ, true, nat_lt, IfSome, IsNone};
ghost use Rattle.array_image.specs.Decided.{all_below, agrees, carried};
ghost use Rattle.device_recovery.specs.Table.{row_in, decided_in, is_one_of, HasOrder, IsLeast, IsLeastAt};

use crate::which::Which;
use array_shape::{LOGGERS_MAX, NUMBERS_MAX, Shape};
use row_bytes::{Ballot, Row};

const LOGGERS: usize = LOGGERS_MAX as usize;

// The most rows that an array may have.
pub(crate) const ROWS_MAX: usize = LOGGERS * NUMBERS_MAX as usize;

// How many order numbers there are.
const ORDERS: u32 = 65_536;

// Where in the table the row of a number at a logger is.
pub(crate) fn place(logger: u8, tid: u8) -> usize
    requires logger { logger < 8 }
    requires tid { tid < 64 }
    ensures place { result ≡ 8 * tid + logger }
    ensures below { result < 512 }
{
    LOGGERS * usize::from(tid) + usize::from(logger)
}

pub(crate) fn row_in(rows: &[Row; ROWS_MAX], logger: u8, tid: u8) -> Row
    requires logger { logger < 8 }
    requires tid { tid < 64 }
    ensures { result ≡ row_in rows.now logger tid }
{
    rows[place(logger, tid)]
}

// Whether there is no bit from n on.
fn is_below(bits: u64, n: u8) -> bool
    requires { n ≤ 64 }
    ensures { result ≡ nat_lt bits (2 ^ n) }
{
    if n == 64 {
        return true;
    }
    bits >> n == 0
}

// Whether a row is none of the commit's, or is voted with its ballot.
fn agrees(rows: &[Row; ROWS_MAX], ballot: Ballot, logger: u8, tid: u8) -> bool
    requires logger { logger < 8 }
    requires tid { tid < 64 }
    ensures { result ≡ agrees ballot (row_in rows.now) logger tid }
{
    let row = row_in(rows, logger, tid);
    !ballot.has_row(logger, tid) || (row.voted && Ballot::of_row(tid, &row) == ballot)
}

// Whether so do the rows of a number at all loggers.
fn all_agree(rows: &[Row; ROWS_MAX], shape: &Shape, ballot: Ballot, tid: u8) -> bool
    requires { tid < shape.now.numbers }
    ensures { result ≡ all_below shape.now.loggers (λ g. agrees ballot (row_in rows.now) g tid) }
{
    for logger in 0..shape.loggers {
        if !agrees(rows, ballot, logger, tid) {
            return false;
        }
    }
    true
}

// Whether a ballot has only loggers and numbers of the array, and all its rows are voted with it.
fn is_carried(rows: &[Row; ROWS_MAX], shape: &Shape, ballot: Ballot) -> bool
    ensures { result ≡ carried shape.now.loggers shape.now.numbers (row_in rows.now) ballot }
{
    if !is_below(u64::from(ballot.mask), shape.loggers) {
        return false;
    }
    if !is_below(ballot.group, shape.numbers) {
        return false;
    }
    for tid in 0..shape.numbers {
        if !all_agree(rows, shape, ballot, tid) {
            return false;
        }
    }
    true
}

/// Whether a row is decided: its ballot has it, and all rows of that ballot are voted with it.
pub(crate) fn is_decided(rows: &[Row; ROWS_MAX], shape: &Shape, logger: u8, tid: u8) -> bool
    requires logger { logger < shape.now.loggers }
    requires tid { tid < shape.now.numbers }
    ensures { result ≡ decided_in shape.now rows.now logger tid }
{
    let ballot = Ballot::of_row(tid, &row_in(rows, logger, tid));
    ballot.has_row(logger, tid) && is_carried(rows, shape, ballot)
}

/// Whether a row is one of these.
pub(crate) fn is_one_of(
    rows: &[Row; ROWS_MAX],
    shape: &Shape,
    which: Which,
    logger: u8,
    tid: u8,
) -> bool
    requires logger { logger < shape.now.loggers }
    requires tid { tid < shape.now.numbers }
    ensures { result ≡ is_one_of shape.now rows.now which logger tid }
{
    let row = row_in(rows, logger, tid);
    match which {
        Which::Dropped => row.voted && !is_decided(rows, shape, logger, tid),
        Which::DecidedAs(order) => { is_decided(rows, shape, logger, tid) && row.order == order }
    }
}

/// The lowest order number, from one number on, that a decided row has.
pub(crate) fn next_order(rows: &[Row; ROWS_MAX], shape: &Shape, from: u32) -> Option<u16>
    requires { from ≤ 65536 }
    ensures some { IfSome result (λ order. (from ≤ order) × (order < 65536) × IsLeast shape.now rows.now from shape.now.numbers order) }
    ensures found { IfSome result (HasOrder shape.now rows.now) }
    ensures none { IsNone result → (g t : ℕ) → g < shape.now.loggers → t < shape.now.numbers → decided_in shape.now rows.now g t ≡ true → (row_in rows.now g t).order < from }
{
    let lowest = lowest_order(rows, shape, from);
    if lowest == ORDERS {
        return None;
    }
    Some(lowest as u16)
}

// The same; 65,536 if no decided row has such an order number.
fn lowest_order(rows: &[Row; ROWS_MAX], shape: &Shape, from: u32) -> u32
    requires { from ≤ 65536 }
    ensures from { from ≤ result }
    ensures most { result ≤ 65536 }
    ensures found { (result ≡ 65536) ⊎ HasOrder shape.now rows.now result }
    ensures least { IsLeast shape.now rows.now from shape.now.numbers result }
{
    let mut lowest = ORDERS;
    for tid in 0..shape.numbers {
        lowest = lowest_at(rows, shape, from, tid, lowest);
    }
    lowest
}

// The lowest of what was found so far and those of one number.
fn lowest_at(rows: &[Row; ROWS_MAX], shape: &Shape, from: u32, tid: u8, found: u32) -> u32
    requires tid { tid < shape.now.numbers }
    requires found { from ≤ found }
    ensures from { from ≤ result }
    ensures lower { result ≤ found }
    ensures same_or_found { (result ≡ found) ⊎ HasOrder shape.now rows.now result }
    ensures least { IsLeastAt shape.now rows.now from tid shape.now.loggers result }
{
    let mut lowest = found;
    for logger in 0..shape.loggers {
        let order = u32::from(row_in(rows, logger, tid).order);
        if order < from {
            continue;
        }
        if order >= lowest {
            continue;
        }
        if is_decided(rows, shape, logger, tid) {
            lowest = order;
        }
    }
    lowest
}
