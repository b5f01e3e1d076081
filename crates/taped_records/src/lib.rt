//! Records in transactions on an array in memory, whose tape of what is still to be done on the device the caller takes down. It computes, and
//! makes no call of the system but for memory.
//!
//! Read first `records.rt`, then `calls.rt`, `seeking.rt`, `long_bytes.rt`, `making.rt` and `reading.rt`, what an open array is asked, and
//! `specs/Calls`, which says what a call does. Each answer is a number of `status.rt`, and what is told goes where the caller has room for it: so a
//! library for other languages has only to keep the array (`mars_c`).
#![tactic(auto)]

mod asking;
mod calls;
mod cursor;
mod long_bytes;
mod long_core;
mod long_told;
mod making;
mod meanings;
mod opening;
mod putting;
mod reading;
mod records;
mod refusals;
mod seeking;
mod sound;
mod status;

pub use making::{Made, Unmade, unmade_status};
pub use meanings::text_of;
pub use opening::format_bytes;
pub use records::{TapedCore, TapedRecords};
pub use sound::Sound;
pub use status::{BAD_DEPTH, IS_CLOSED, IS_OPEN, OK, opening_status, status_of};
