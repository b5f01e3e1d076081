//! Users, each in one group, with a second table of the pairs by group that is kept in step, over any core of records.
//!
//! Read first `enrolling.rt`, then `specs/Enrolled`: what comes to stand in both tables. The law in `laws.rt`: in every image that a loss of
//! power leaves, both tables say the same.
#![tactic(auto)]

mod enrolling;
mod laws;

pub use enrolling::{Taken, enroll};
pub use laws::every_image_agrees;
