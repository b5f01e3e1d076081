//! A store whose medium leaves the work on its device to its caller: the trait by which the pieces of that work are handed up, through all that
//! stands over the store.
#![tactic(auto)]

mod store;

pub use store::TapedStore;
