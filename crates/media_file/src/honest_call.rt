// The calls that a file in memory keeps, and how a call is to be answered.

/// What a call did.
#[derive(Debug, Drop)]
pub enum Done {
    Measured,
    /// `count` bytes came from the place `at` on.
    Read { at: u64, count: usize },
    /// These bytes stand at the place `at`.
    Written { at: u64, bytes: Vec<u8> },
    Resized { len: u64 },
    Synced,
}

/// A call that was made.
#[derive(Debug, Drop)]
pub struct HonestCall {
    /// The moment of the medium's call for which it was made.
    pub moment: u64,
    pub done: Done,
}

/// How a call is to be answered.
#[derive(Clone, Copy, Debug, PartialEq, Eq)]
pub enum Answer {
    /// All of it is done.
    Whole,
    /// At most `most` bytes of a read or a write are done.
    Part { most: usize },
    /// It is interrupted. A write leaves in its place bytes that nobody wrote.
    Interrupted,
    /// It fails. A write leaves such bytes too.
    Failed,
}
