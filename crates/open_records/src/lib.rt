//! Opens the records of the array that a medium holds, under an index of the caller's choice, or gives the medium back.
//!
//! `BTreePages` is the index of what `format` makes; older images may have a chain, `KeyList`. `record_table::form_of` says which.
#![tactic(auto)]

mod opening;

pub use opening::{OpenFault, open};
