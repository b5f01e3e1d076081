// The calls that a medium in memory keeps.
use std::mem::size_of;

/// A call of a medium.
#[derive(Clone, Copy)]
pub enum Call {
    /// Some bytes were to be read.
    Read,
    /// `len` bytes were to be written at the place `at`.
    Write { at: u64, len: u64 },
    Barrier,
}

/// Where a write was to go.
#[derive(Clone, Copy)]
pub struct Place {
    pub at: u64,
    pub len: u64,
}

/// What came behind the calls of a mark that were done.
#[derive(Clone, Copy)]
pub enum End {
    /// The calls of the next mark.
    Open,
    /// A barrier that was done.
    Settled,
    FailedRead,
    FailedWrite,
    FailedBarrier,
}

/// Reads that were done, then writes that were, and what came behind them.
#[derive(Clone, Copy)]
pub struct Mark {
    pub reads: u8,
    pub writes: u8,
    pub end: End,
}

impl Mark {
    /// No call yet.
    pub const EMPTY: Mark = Mark {
        reads: 0,
        writes: 0,
        end: End::Open,
    };
}

// What a write takes in the record beside its own bytes, and what a mark takes.
const _: () = prove!(size_of::<Place>() == 16);

const _: () = prove!(size_of::<Mark>() == 3);
