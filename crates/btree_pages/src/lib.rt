//! `BTreePages`: indexes that are B+ trees of pages, one for each table.
//!
//! Read first `index.rt` and `specs/Index` (sound data, and what an insertion takes); what a sound tree is, and what changes keep of one,
//! stands in `btree_laws`. An insertion splits the full pages on its way, each in a nested top action of its own.
#![tactic(auto)]

mod change;
mod checking;
mod emptied;
mod index;
mod insertion;
mod look;
mod node;
mod page;
mod parents;
mod removal;
mod write;

pub use index::BTreePages;
