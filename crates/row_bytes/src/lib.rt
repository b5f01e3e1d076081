//! The codec of what the array keeps beside the data: the header, the rows of the loggers and the heads of the cells.
//!
//! Read first `specs/Header` and `specs/Said`: what the bytes say, which is the layout of `docs/FORMAT.md`. Each writer here is proved to
//! write bytes that say what it was given.
#![tactic(auto)]

mod ballot;
mod head;
mod header;
mod row;

pub use ballot::Ballot;
pub use head::{Head, read_head, write_head};
pub use header::{HeaderFault, read_array_header, write_array_header};
pub use row::{Row, read_row, vote_byte, write_row};
