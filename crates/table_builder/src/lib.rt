//! An image of an array made of the rows of its tables in one pass.
//!
//! Read first `specs/Built`: a tree as levels of pages; `specs/Image`: tables of such trees with their slots; and `specs/Plan`: which pages
//! are made of tables. The laws in `laws.rt` say what such a tree is.
#![tactic(auto)]

mod checking;
mod counting;
mod front;
mod image;
mod index;
mod laws;
mod levels;
mod slots;
mod sorting;

pub use counting::pages_needed;
pub use image::{BuildFault, DataImage, FILL};
pub use laws::{
    built_trees_are_sound, images_are_sound, no_rows_make_a_fresh_array, tables_make_an_image,
};
