//! A `Box` with its fields in sight, or none: for a static library that keeps one as a pointer which C holds.
//!
//! Read `parts.rt`; `asking.rt` is how an export asks what is kept.
#![tactic(auto)]

mod asking;
mod parts;

pub use parts::Parts;
