//! Readers of records that one feed publishes. They take no lock, hold no one up, and never go back.
//!
//! `open_readers` gives a `Feed` and its `Readers`. The feed takes in committed transactions in their order, a batch at a time, and
//! publishes each batch at once. A `get` answers from the records after some first batches of the one list of all. What this reader saw or
//! learnt before is a prefix of those, and of what two readers of one feed saw, one is a prefix of the other. A `Receipt` says what was
//! published: a reader that learns it reads no less from then on, and a feed that learns a reader begins each later receipt with what that
//! reader saw.
//!
//! Read first `specs/Batches` and `specs/Feeds` (what contracts see of a feed, a receipt and a reader), then `feed.rt` and `reader.rt`. Two
//! copies of the records are in memory.
#![tactic(auto)]

mod feed;
mod laws;
mod opening;
mod prefix;
mod reader;
mod records;
mod snapshot;
mod writes;

pub use feed::{Feed, Receipt};
pub use laws::prefixes_join;
pub use opening::open_readers;
pub use reader::{Reader, Readers};
