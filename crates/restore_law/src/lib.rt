//! What a dump and a restore of it keep: laws over the contracts of both, which follow from the definitions alone.
//!
//! Begin with `what_restores_hold` in `laws.rt`. What is kept is `IsRestoredFrom` in `specs/Kept.antt`.
#![tactic(auto)]

mod dumpable;
mod laws;

pub use dumpable::records_may_be_dumped;
pub use laws::what_restores_hold;
