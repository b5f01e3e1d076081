//! A medium over a file: over one of the system, and over one in memory that is known to be honest.
//!
//! Read first `Calls`, which is what is asked of a file, then `specs/Past.antt`, where the calls of a file with their answers say
//! what it holds and what a loss of power may have left of it. `FileMedia` makes these calls for those of a medium: it goes on
//! where a part was done, makes an interrupted call again, and never one that failed. Its laws are those of `pcm_media::Media`,
//! and that of `Calls` is that a trusted file answers honestly. `FileCalls` is a file of the system, of which no contract says
//! that. `HonestCalls` is one in memory, which answers as a list says.
#![tactic(auto)]

mod again;
mod answer_list;
mod call_faults;
mod calls;
mod file_calls;
mod file_media;
mod filling;
mod honest_call;
mod honest_calls;
mod opening;
mod reading;
mod writing;

pub use call_faults::CallFaults;
pub use calls::{CallFault, Calls};
pub use file_calls::FileCalls;
pub use file_media::FileMedia;
pub use honest_call::{Answer, Done, HonestCall};
pub use honest_calls::HonestCalls;
pub use opening::Opening;
