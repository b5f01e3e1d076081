//! MARS for C: records in transactions on an array in memory, with a tape of what its caller has still to do on the device. The library computes,
//! and makes no call of the system but for memory.
//!
//! Read first `calls.rt`, `seeking.rt`, `long_bytes.rt`, `arrays.rt`, `making.rt` and `tape.rt`, the functions that C calls, beside `mars.h`: each
//! takes the array out of what C keeps, asks it (`taped_records`), and puts it back. `specs/Calls` says what that is to an array, open or closed.
//! `kept.rt` is the one place with a raw pointer, over `box_parts`.
#![tactic(auto)]

mod arrays;
mod calls;
mod kept;
mod long_bytes;
mod making;
mod seeking;
mod tape;

pub use arrays::{mars_close, mars_format, mars_open, mars_open_late, mars_size, mars_text};
pub use calls::{
    mars_abort, mars_back, mars_begin, mars_commit, mars_del, mars_get, mars_offer, mars_purge,
    mars_put, mars_save, mars_scan, mars_settle,
};
pub use kept::{Held, Kept};
pub use long_bytes::{mars_bytes_length, mars_del_bytes, mars_get_bytes, mars_put_bytes};
pub use making::mars_make;
pub use seeking::mars_next;
pub use tape::{
    mars_done_up_to, mars_moment, mars_piece, mars_piece_bytes, mars_piece_done, mars_piece_failed,
    mars_row, mars_table,
};
