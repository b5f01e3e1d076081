// Why a text is not read.
use mars_base::NoMemory;
use thiserror::Error;

/// Why a text is not read as a dump. Lines are counted from 1.
#[derive(Clone, Copy, Debug, PartialEq, Eq, Error)]
pub enum DumpFault {
    /// A line is refused.
    #[error("line {line}: {fault}")]
    Line { line: u64, fault: LineFault },
    /// The text ended before its last line, which says how many records there are.
    #[error("the last line is not how many records there are: the text was cut off")]
    Cut,
    /// The last line says another number of records than there are before it.
    #[error("the last line says {said} records, and there are {counted} before it")]
    Count { said: u64, counted: u64 },
    #[error("no memory")]
    NoMemory,
}

/// Why a line is refused.
#[derive(Clone, Copy, Debug, PartialEq, Eq, Error)]
pub enum LineFault {
    /// It does not begin as the line of a record does, and is not the last.
    #[error("it is no record")]
    NoRecord,
    /// Behind `@` stands no name of a table other than `main`.
    #[error("behind @ stands no name of 1 to 16 letters from a to z other than main")]
    NoName,
    /// No number of 64 bits stands where the key does.
    #[error("its key is no number below 2^64")]
    NoKey,
    /// What stands behind the key is no value.
    #[error("its value is not 1 to 54 visible characters")]
    NoValue,
    /// A line before it has a record under the same key.
    #[error("its key stands on a line before it")]
    Twice,
    /// The lines before it are of eight tables, `main` among them, and it is of another.
    #[error("its table is the ninth, and an array has at most eight")]
    NinthTable,
    /// It stands behind the line that says how many records there are.
    #[error("it stands behind the last line of a dump")]
    BehindTheEnd,
}

impl From<NoMemory> for DumpFault {
    ghost use Rattle.std.specs.Prelude.{◌≡◌};
    ghost use Rattle.dump_text.specs.declared.fault.DumpFault.TheVariants.{NoMemory};

    ghost from_gives = { λ _ e. e ≡ NoMemory };

    fn from(_: NoMemory) -> Self {
        DumpFault::NoMemory
    }
}
