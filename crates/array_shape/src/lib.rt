//! The shape of an array: its four numbers, and where rows, cells and pages lie on the medium.
//!
//! Read first `shape.rt`, and `specs/Places`, which has each place as one line. `specs/Parts` cuts a write at the pages, `specs/Numbers` has
//! the ranges of the numbers. The laws in `laws.rt` say that places share no byte and that the parts of a write are the write.
#![tactic(auto)]

mod bad_shape;
mod laws;
mod number_set;
mod part;
mod parts;
mod place;
mod shape;

pub use bad_shape::{BadShape, ShapeNumber};
pub use laws::{addresses_are_apart, areas_are_apart, parts_are_the_write};
pub use number_set::{Members, NumberSet};
pub use part::Part;
pub use parts::Parts;
pub use place::Place;
pub use shape::{
    CELL_LEN, ENTRIES_MAX, ENTRIES_MIN, HEAD_LEN, HEADER_LEN, LOGGERS_MAX, NUMBERS_MAX, PAGE_LEN,
    PAGES_MAX, PAGES_MIN, ROW_LEN, Shape,
};
