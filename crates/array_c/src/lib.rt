//! The array alone for C: the commands of editable atomic writes on an array in memory, with a tape of what its caller has still to do on the
//! device. The library computes, and makes no call of the system but for memory.
//!
//! Read first `commands.rt`, `arrays.rt` and `tape.rt`, the functions that C calls, beside `mars_array.h`: each takes the array out of what C keeps,
//! asks it (`taped_array`), and puts it back. `specs/Asks` says what that is to an array, open or closed. `kept.rt` is the one place with a raw
//! pointer, over `box_parts`.
#![tactic(auto)]

mod arrays;
mod commands;
mod kept;
mod tape;

pub use arrays::{
    mars_array_close, mars_array_format, mars_array_len, mars_array_open, mars_array_size,
    mars_array_text,
};
pub use commands::{
    mars_array_abort, mars_array_atomic_write, mars_array_commit, mars_array_commit_group,
    mars_array_log_edit, mars_array_log_read, mars_array_log_write, mars_array_nested_top,
    mars_array_partial_abort, mars_array_read,
};
pub use kept::{Held, Kept};
pub use tape::{
    mars_array_done_up_to, mars_array_moment, mars_array_piece, mars_array_piece_bytes,
    mars_array_piece_done, mars_array_piece_failed,
};
