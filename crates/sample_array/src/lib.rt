//! Bytes of an array that change together, and a medium over a chip of which nothing is known.
//!
//! Samples to begin with. That both places change at once is what `does` says of `EawStore::commit`: read the trait `eaw_face::EawStore` behind
//! `both.rt`. `flash.rt` is for drivers: read the trait `pcm_media::Media` behind it, and `pcm_media/specs/View` for the fields of a view.
#![tactic(auto)]

mod both;
mod flash;

pub use both::write_both;
pub use flash::{Chip, Flash};
