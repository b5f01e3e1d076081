//! A commit of one or several numbers over all loggers, in two phases, and its write-back.
//!
//! Read first `commits.rt`: rows, votes; then parts into the data, votes cleared; each followed by a barrier. At every moment a loss of
//! power leaves an image that settles to the data before the commit or to the data after it, also while other commits wait for their
//! write-back; `specs/Commits` says which commit a ballot and a table of cells name, and `specs/Costs` what it costs.
#![tactic(auto)]

mod ballots;
mod cells;
mod commits;
mod phases;

pub use ballots::ballot_for;
pub use cells::{CellTable, Cells};
pub use commits::{commit, decide, write_back};
