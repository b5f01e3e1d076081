//! One logger's region of an array: its rows, its cells, and the pages that the cells are for.
//!
//! Read first `logger.rt`; `all_loggers.rt` deals the parts of a write to all loggers. Each call writes within its own range and nowhere
//! else, and costs a stated number of calls of the medium.
#![tactic(auto)]

mod all_loggers;
mod logger;

pub use all_loggers::{cells_of_write, stage_write};
pub use logger::Logger;
