//! Records of an ordered table over pages, under any index: what a transaction sees, its writes, its savepoints and its commit.
//!
//! Read first `records.rt` and `specs/Does`: what a call does, also at the moments within it. `specs/Causes` says when each refusal comes.
//! `form_of` says which index an array has. The key of a record has the name of its table, `specs/Shown`; records of each table can be
//! asked for.
#![tactic(auto)]

mod fault;
mod form;
mod hearings;
mod laws;
mod making;
mod names;
mod placing;
mod reading;
mod records;
mod removing;
mod scanning;
mod slots;
mod told;
mod upgrading;

pub use fault::TableFault;
pub use form::{Form, form_of};
pub use laws::version_two_keeps;
pub use making::MakeFault;
pub use reading::read_tables;
pub use records::Records;
