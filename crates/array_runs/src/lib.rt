//! How a run over an array begins and ends: the input is read and the array opened (`open`, `open_for`), and a status says how it ended
//! (`Status`, `fault_text`). Each command of the program does this around work of its own.
//!
//! Read first `specs/Statuses` (the statuses by kind), then `specs/Outcome` (what comes of a run on a medium that tells its bytes, by its
//! status, with the work as a parameter) and `specs/Records` (the same for work over the records of the array). `specs/Forms` says which
//! index the data names, and `specs/Untaken` how records are left that were not taken.
#![tactic(auto)]

mod ending;
mod fault;
mod forms;
mod opening;
mod status;

pub use ending::write_ended;
pub use fault::fault_text;
pub use forms::find_form;
pub use opening::{open, open_for};
pub use status::{Refusal, Status, script_status, served_status};
