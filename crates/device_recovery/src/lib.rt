//! Recovery: it makes an array at rest of what a loss of power left, and may itself be cut off at any moment.
//!
//! Read first `recovery.rt`, and `specs/Recovered`: what recovery finds, says and writes. Its promise is in terms of `array_image`: at every
//! moment what is left settles to the same data.
#![tactic(auto)]

mod checking;
mod counting;
mod reading;
mod recovery;
mod report;
mod rows;
mod settling;
mod table;
mod which;

pub use recovery::recover;
pub use report::{RecoverFault, Report};
