// What becomes of the lines of a script.
use history::Reply;
use mars_base::Listed;

/// What became of a planned transaction.
#[derive(Debug, Drop)]
pub enum Fate {
    /// It is in the history under this number.
    Committed { at: u64 },
    /// Its plan says so, or the script ended within it.
    Aborted,
    /// One of its calls was refused with this reply, and it was aborted.
    Refused { reply: Reply },
}

/// A line of a script that is passed over, with its number, counted from 1.
#[derive(Clone, Copy, Debug, PartialEq, Eq)]
pub enum LineFault {
    /// It cannot be read.
    Bad { line: u64 },
    /// It is a call outside a transaction, a begin within one, or a settle.
    Stray { line: u64 },
}

/// The lines that are passed over, by rising number.
pub type LineFaults = Listed<LineFault>;
