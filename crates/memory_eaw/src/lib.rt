//! The commands of the array over plain memory, for tests of what stands on an `EawStore`: `MemoryEaw` fails at just the calls that are
//! listed, and keeps the data before each change.
//!
//! Read first `eaw.rt`, and `specs/Plain`: what it holds.
#![tactic(auto)]

mod eaw;
mod journal;

pub use eaw::MemoryEaw;
