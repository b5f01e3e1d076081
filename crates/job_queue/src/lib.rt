//! A persistent queue of jobs over any core of records: what is pushed is taken once, in its order, whatever power does.
//!
//! Read first `queue.rt`, then `specs/Queue` (where the jobs lie in a table) and `specs/Along` (what a history makes of the jobs). The law
//! in `laws.rt`: whatever a loss of power leaves, the jobs that were taken and those that are still there are those that were pushed.
#![tactic(auto)]

mod laws;
mod queue;

pub use laws::no_job_is_lost;
pub use queue::{Unmet, push, take};
