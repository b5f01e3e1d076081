//! Calls, transactions and records that contracts see whole, and that are kept in memory only where somebody is to read them.
//!
//! `calls.rt`, `dones.rt`, `doubt.rt`, `rows.rt` and `base.rt` have notes of no bytes, which exist only in proofs, beside what is kept, if anything is,
//! and `keeper.rt` says whether it is.
#![tactic(auto)]

mod base;
mod calls;
mod dones;
mod doubt;
mod keeper;
mod rows;

pub use base::Base;
pub use calls::{LiveCalls, LiveCallsWithRoom};
pub use dones::Dones;
pub use doubt::Doubt;
pub use keeper::{Keeper, KeepsAll, KeepsNews, KeepsNothing};
pub use rows::NotedRows;
