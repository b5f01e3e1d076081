//! The image of a new array, piece by piece, from its first byte to its last: so a file is filled with an image that is never whole in memory.
//!
//! Read first `ArrayImage`. Which bytes it has is `image_of` in `specs/Image.antt`; they are a new array with the pages of a source.
#![tactic(auto)]

mod filling;
mod image;
mod piece;
mod stages;

pub use image::ArrayImage;
pub use piece::{PIECE_LEN, Piece};
