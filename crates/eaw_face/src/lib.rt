//! The commands of an array of editable atomic writes, as a model: plain bytes, and for each number a list of logged parts.
//!
//! Read first `specs/State` and `specs/Command`: ten commands, a line each. `store.rt` is the trait `EawStore` over them; `specs/Causes`
//! says when each refusal comes and `specs/Does` what a command does, also at the moments within it. `specs/Frame` is what one commit wrote,
//! as bytes, `specs/Mirroring` what a store sends of it, and `specs/Due` which frame is due of a command.
#![tactic(auto)]

mod fault;
mod store;

pub use fault::EawFault;
pub use store::EawStore;
