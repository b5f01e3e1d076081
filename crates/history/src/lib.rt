//! What records mean, without any medium: calls and replies, the one-thread table, and which histories of transactions are legal on it.
//!
//! Read first `call.rt`, then `specs/Table` (the table's replies, and what calls leave), `specs/Legal` (each transaction is right on what
//! those before it left), `specs/Groups` (which of them were committed together) and `specs/Locks` (which stripes a call touches, and in
//! which mode). `specs/Answers` says what readers beside callers are answered. `history_replay` runs a history. The laws in `laws.rt` are
//! strict locking: transactions that touch no stripe in common that one of them writes leave each other's calls right.
#![tactic(auto)]

mod answer;
mod call;
mod copying;
mod key;
mod laws;
mod locks;
mod packing;
mod rows;
mod transaction;
mod unpacking;

pub use answer::{Answer, Answers};
pub use call::{Call, Control, Reply, TableCall};
pub use copying::since;
pub use key::{Key, main_table};
pub use laws::{
    groups_are_there_or_not, groups_of_one, logs_show_what_is_seen, others_stay_right,
    strict_locking, what_a_write_shows,
};
pub use locks::{Mode, stripe_of};
pub use rows::{Rows, Tables};
pub use transaction::{Calls, CallsWithRoom, Done, Entries, History};
pub use unpacking::{KeptRows, Told};
