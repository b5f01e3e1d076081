//! The array alone in memory, with a tape of what its caller has still to do on the device: the commands of editable atomic writes. It computes,
//! and makes no call of the system but for memory.
//!
//! Read first `open_array.rt`, then `writes.rt`, `logs.rt` and `work.rt`, what an open array is asked, with `specs/Asks`, which says what a command
//! does, and `laws.rt`, what a loss of power leaves. Each answer is a number of `status.rt`, and what is told goes where the caller has room for it:
//! so a library for other languages has only to keep the array (`array_c`).
#![tactic(auto)]

mod laws;
mod logs;
mod meanings;
mod open_array;
mod opening;
mod refusals;
mod status;
mod work;
mod writes;

pub use laws::data_stays_safe;
pub use meanings::text_of;
pub use open_array::{OpenArray, TapedArray};
pub use opening::{close, format_bytes, open_bytes};
pub use status::{IS_CLOSED, IS_OPEN, OK};
