//! Values of any bytes, up to 16,384, over any core of records: each in records of 54 visible bytes under neighbouring keys, put, read and
//! removed within a transaction of the caller.
//!
//! Read first `writing.rt` and `reading.rt`, then `specs/Values` (which records a value takes) and `specs/Changing` (what calls leave). The
//! laws in `laws.rt`: what is put under one key changes no value under another, and a value reads as one alone. A table for long values has
//! no other records.
#![tactic(auto)]

mod key;
mod laws;
mod parts;
mod reading;
mod unkept;
mod writing;

pub use key::{KEY_MAX, LongKey};
pub use laws::values_stand_apart;
pub use reading::{get, length};
pub use unkept::Unkept;
pub use writing::{LONG_MAX, del, put};
