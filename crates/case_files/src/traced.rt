// The calls of a medium, as a run made them.

/// A call of a medium.
#[derive(Clone, Copy, Debug)]
pub enum Call {
    /// `len` bytes were to be read from the place `at` on.
    Read { at: u64, len: u64 },
    /// `len` bytes were to be written at the place `at`.
    Write { at: u64, len: u64 },
    Barrier,
}

/// A call that was made.
#[derive(Clone, Copy, Debug)]
pub struct Record {
    pub call: Call,
    /// Whether it answered Ok.
    pub is_done: bool,
}

/// Whether a call failed.
pub fn has_failed(records: &[Record]) -> bool {
    for record in records {
        if !record.is_done {
            return true;
        }
    }
    false
}
