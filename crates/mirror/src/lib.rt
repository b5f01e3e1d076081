//! A second array that follows the first, frame by frame.
//!
//! Read first `eaw_face`'s `specs/Frame`, what a frame is and its bytes; then `specs/Following`, what of a stream of frames is applied, and
//! `follower.rt`. Below it `place.rt` reads a frame byte by byte (`specs/Rest` says what may still come), and `apply.rt` writes a whole one
//! into a store. `PlainLog` is what one number has logged, which a `Primary` keeps of each and `memory_eaw` has in place of a medium.
#![tactic(auto)]

mod apply;
mod follow_fault;
mod follower;
mod following;
mod frame_test;
mod laws;
mod link;
mod log;
mod memory_link;
mod part;
mod partial_number;
mod place;
mod primary;
mod reader;
mod sender;
mod to_come;
mod writer;

pub use follow_fault::FollowFault;
pub use follower::Follower;
pub use frame_test::is_frame;
pub use laws::{
    a_follower_has_first_commits, frames_are_cut_in_one_way, streams_are_followed_in_one_way,
};
pub use link::Link;
pub use log::PlainLog;
pub use memory_link::MemoryLink;
pub use primary::Primary;
