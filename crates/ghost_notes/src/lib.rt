//! Lists that exist only in proofs: of what was done or said so far, where a contract is to speak of it and no byte shall be kept.
//!
//! Read `notes.rt`.
#![tactic(auto)]

mod notes;

pub use notes::Notes;
