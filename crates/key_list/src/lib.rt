//! `KeyList`: indexes that are chains of pages in the order of their keys, one for each table.
//!
//! Read first `chain.rt` and `specs/Chain`, in which a sound chain and its first damaged page are one check. Look-ups follow the links;
//! an insertion splits a full page, in a nested top action of its own, and a removal takes a pair out in one.
#![tactic(auto)]

mod chain;
mod change;
mod checking;
mod insertion;
mod laws;
mod look;
mod page;
mod place;
mod removal;
mod write;

pub use chain::KeyList;
pub use laws::{
    chain_changes_keep, chain_removals_keep, chain_rises, damage_is_first, fresh_is_sound,
    slots_leave_the_chain,
};
