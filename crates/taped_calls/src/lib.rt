//! What the calls of an array in memory tell, where their caller has room for it: what its records (`taped_records`) and the array alone
//! (`taped_array`) have in common.
//!
//! Read `telling.rt` with `specs/Told`, and `specs/Asked`, which says what a call does to an array that is open or closed.
#![tactic(auto)]

mod sizes;
mod telling;

pub use sizes::array_size;
pub use telling::{BARRIER, NOTHING, WRITE, put_out, tell_piece, tell_write};
