//! A counter that a loss of power leaves at n or at n + 1: how firmware keeps a number in an array.
//!
//! Read first `counter.rt`; it is an example to copy from, on the array alone.
#![tactic(auto)]

mod counter;
mod laws;

pub use counter::{CountFault, Counter};
pub use laws::fresh_array_says_zero;
