//! The base: what all crates share. `Failed` is a call that failed at the object itself, `NoMemory` is running out of memory, and `Listed` a
//! list that contracts see as the list of its items.
//!
//! The words of the contracts are in `specs/`. Read first `Causes` (a failure raises a count of faults, so none is hidden) and `Moments`
//! (each call of a medium is a moment, and what a loss of power since then might have left); then `Check` (tests in order, of which the
//! first that fails says what is bad), `Room` (the first logger without room), `Costs` (so many calls) and `Bytes` (bytes at a place).
#![tactic(auto)]

mod listed;

pub use listed::Listed;
use std::alloc::{AllocError, AllocFailed};
use thiserror::Error;

/// A call failed at the object itself, which has counted the fault.
#[derive(Clone, Copy, Debug, PartialEq, Eq, Error)]
#[error("the object failed")]
pub struct Failed;

/// Memory ran out. It says nothing else.
#[derive(Clone, Copy, Debug, PartialEq, Eq, Error)]
#[error("no memory")]
pub struct NoMemory;

impl From<AllocError> for NoMemory {
    fn from(_: AllocError) -> Self {
        NoMemory
    }
}

impl<T: Drop> From<AllocFailed<T>> for NoMemory {
    fn from(_: AllocFailed<T>) -> Self {
        NoMemory
    }
}
