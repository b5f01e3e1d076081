//! Accounts over a core of records: how an engine makes transactions, and what it can prove about them.
//!
//! Read first `transfers.rt`; it is an example to copy from. The law in `laws.rt`: every image that a loss of power leaves keeps the sum.
#![tactic(auto)]

mod accounts;
mod laws;
mod transfers;

pub use accounts::Refusal;
pub use laws::every_image_keeps_the_sum;
pub use transfers::{balance, transfer};
