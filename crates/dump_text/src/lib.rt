//! The text of a dump, read back into the tables that it was made of.
//!
//! Begin with `read_dump`. What a text says is `IsDumpOf` in `specs/Dump.antt`: its lines are those of the records of tables, in any order, and
//! then their count. Why a text is refused is `HasCause` in `specs/Causes.antt`. The law is that what a dump writes is read as just that
//! (`dumps_are_read`).
#![tactic(auto)]

mod fault;
mod gathered;
mod keyed_rows;
mod laws;
mod reading;
mod record;

pub use fault::{DumpFault, LineFault};
pub use laws::dumps_are_read;
pub use reading::read_dump;
