//! Replays a history on a table in memory: `play` gives the records after it, and `is_legal` tests whether it is legal.
//!
//! What is asked of a history stands in the crate `history`, and here what a table in memory stands for (`specs/Replay`).
#![tactic(auto)]

mod replay;

pub use replay::{is_legal, play};
