//! The array over a medium: `Eaw` is an `EawStore` over any medium, `make` writes a new one and `format` a fresh one, and an opening
//! recovers first.
//!
//! Read first `device.rt` (the commands) and `opening.rt`; of `specs/` read `Opens` (what an image opens with), `Made` (what a new array
//! holds) and `Costs` (calls of the medium for each command).
#![tactic(auto)]

mod attach;
mod committing;
mod depth;
mod device;
mod fault;
mod fresh;
mod log;
mod making;
mod opening;
mod staging;

pub use depth::{AnyDepth, Depth, SomeDepth};
pub use device::Eaw;
pub use fault::AttachFault;
pub use fresh::format;
pub use making::{FormatFault, PageSource, make};
