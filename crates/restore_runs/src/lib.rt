//! What the program that restores does, but for files: a dump is read from a source, and the image of an array is made of it.
//!
//! Begin with `make_image`. Which shape an array gets is `IsShapeFor` in `specs/Sizing.antt`, and what an array that was made holds is `IsMadeOf`
//! in `specs/Making.antt`, where the causes of the stops are too.
#![tactic(auto)]

mod making;
mod sizing;
mod stop;

pub use making::{Made, holds_array, make_image};
pub use stop::Stop;
