//! Texts, put together from words and numbers: where a text goes piece by piece (`TextOut`: a vector or any sink), a short one that needs no
//! memory (`ShortText`), and how a number is read. Numbers are written and read nowhere else.
//!
//! Begin with `Piece` and `put_pieces`. The text of pieces is `text_of` in `specs/Pieces.antt`; what a sink took of a text that it cut short
//! is `Wrote` in `specs/Written.antt`.
#![tactic(auto)]

mod append;
mod media_fault;
mod number;
mod output;
mod pieces;
mod short_text;
mod text_out;

pub use append::append_pieces;
pub use media_fault::{MEDIA_FAULT, MEDIA_LINE, numbered_media_line};
pub use number::{read_below, read_u32, read_u64};
pub use output::{write_front, write_whole};
pub use pieces::{Piece, put_number, put_pieces};
pub use short_text::ShortText;
pub use text_out::TextOut;
