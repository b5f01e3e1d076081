//! Commands that work on the records of an array and tell of it only at their end.
//!
//! Each is a `ToldWork`, which says what it makes of a store, and `run_told` does the rest for all of them: it opens the array, finds the
//! index that its data names, and writes what is told, in whole or not at all. Read first `specs/Told`, then of each command the file that
//! has its name: `specs/Tables` for `NewTable`, `specs/Purge` for `Purge`, `specs/Dump` for `Dump`.
#![tactic(auto)]

mod dump;
mod purging;
mod running;
mod tables;
mod told_work;

pub use dump::Dump;
pub use purging::Purge;
pub use running::run_told;
pub use tables::NewTable;
pub use told_work::{Told, ToldWork};
