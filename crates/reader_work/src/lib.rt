//! Readers that work beside callers over one shared core. What the callers commit is fed to the readers, which take no lock and hold nobody
//! up.
//!
//! `open_readership` makes the readers, and `work_with` lets all work, each on a thread of its own. Behind each transaction its caller
//! publishes all that was committed, before it comes to the gate. When all have ended, each answer is the value after some first
//! transactions of the one history, no fewer from one answer of a reader to the next.
//!
//! Read first `specs/Answers` of `history`, then `beside.rt`, `news.rt` (the feed and its pass) and `reading.rt` (one reader's work).
#![tactic(auto)]

mod beside;
mod feeding;
mod news;
mod readership;
mod reading;

pub use beside::work_with;
pub use readership::{Readership, open_readership, passes_for};
