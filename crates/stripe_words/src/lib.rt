//! A word for a stripe of keys, which passes 0 to 31 lock shared or exclusive: bit n is the mark of pass n, bit 32 + n its exclusive lock.
//!
//! Read `specs/Words`: when a word stands for what each pass has, and whom a word names. `proofs/Steps` has a lemma for each step on a word.
#![tactic(auto)]

mod hold;
mod word;

pub use hold::Hold;
pub use word::{lock_bit, lowest_locked, lowest_marked, mark_bit};
