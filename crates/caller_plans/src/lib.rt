//! The transactions that each caller of a script plans, how they end, and the keys that each reader asks for.
//!
//! Begin with `read_script`. Which lines are a caller's transactions, and which are passed over, is in `specs/Plans.antt`, and which are a
//! reader's in `specs/Asks.antt`.
#![tactic(auto)]

mod draft;
mod fate;
mod plan;
mod script;

pub use fate::{Fate, LineFault, LineFaults};
pub use plan::{Asked, Keys, Plan, PlanEnd, Plans};
pub use script::{Script, read_script};
