//! Media with torn writes and barriers: one in memory, and one that stops when its fuse has blown.
//!
//! Read first the trait `Media`, then `specs/Images.antt` and `specs/View.antt`: what a read gives, what a loss of power may leave,
//! and what a call does to both. The laws of `Media` say that its content is as long as it is, and that what might have been left
//! since now is what may be left now. `MemoryMedia` keeps its calls and fails those that are listed. `FusedMedia` passes so many
//! calls on to a medium behind it, and fails each later one.
#![tactic(auto)]

mod call;
mod call_log;
mod choice;
mod fused_media;
mod journal;
mod media;
mod memory_media;

pub use fused_media::FusedMedia;
pub use media::Media;
pub use memory_media::MemoryMedia;
