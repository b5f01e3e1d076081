use transactions::Refusal;

/// Why a long value was not put, removed or read.
#[derive(Debug, PartialEq, Eq, Drop)]
pub enum Unkept {
    /// It has more than 16,384 bytes.
    TooLong,
    /// The records under its key are those of no long value. A table of long values alone has none such.
    Broken,
    /// There is no memory for its bytes.
    NoMemory,
    /// The core refused a record of it so, and then the way back to what was there. A half of it may be there: abort the transaction.
    Half(Refusal),
}
