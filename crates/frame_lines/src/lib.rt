//! Lines that say frames, and a store that follows them.
//!
//! Begin with `follow_lines`. What a line says is in `specs/Lines.antt`, and what comes of lines in `specs/Followed.antt`.
#![tactic(auto)]

mod answering;
mod ended;
mod follow;
mod frame_line;
mod framed;
mod mirrored;
mod take;

pub use answering::answer_framed;
pub use ended::FollowEnd;
pub use follow::follow_lines;
pub use framed::Framed;
pub use mirrored::Mirrored;
