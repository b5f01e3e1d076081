//! Callers on threads over the same records, and a reader beside them that takes no lock.
//!
//! Samples to begin with. What a call of a pass answers is said of `mars_manager::Mars::call_wait`, and its laws are those of `caller_steps`,
//! since all passes share one core. That what was committed goes to readers as a whole, and that a reader never goes back, are clauses of
//! `snapshot_readers::Feed::feed` and `Reader::get`. Begin with `callers.rt`.
#![tactic(auto)]

mod callers;
mod readers;

pub use callers::put_one;
pub use readers::{publish_and_get, publish_news};
