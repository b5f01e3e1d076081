//! A large script that needs no input: transactions that are drawn from a seed.
//!
//! Begin with `script`. Which calls it has is `drill` in `specs/Drill.antt`.
#![tactic(auto)]

mod draws;
mod drill;
mod transaction;

pub use drill::script;
pub use transaction::Turns;
