//! A medium in memory that begins with zeros, and keeps nothing of its calls: what they did is known to proofs alone.
//!
//! Read first `BlankMedia`. It shows what a medium with a tape shows of which nothing was taken down (`tape_media`, `specs/Tape.antt`), but the
//! tape takes no memory.
#![tactic(auto)]

mod blank_media;
mod change;
mod work;

pub use blank_media::BlankMedia;
