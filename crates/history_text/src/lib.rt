//! The text of callers' work: the lines that were passed over, the history, what became of the other transactions, the records, and
//! what readers were answered.
//!
//! What the text is stands in `specs/Text.antt` (`work_text`), which is to be read first: a function of the work alone, so that the same
//! history has one text. Each module writes one kind of line (`transactions`, `fates`, `tables`, `answers`), and none of them has a law: that
//! nothing is left out or told twice is that the text written is this one.
#![tactic(auto)]

mod answers;
mod fates;
mod faults;
mod keys;
mod number_line;
mod tables;
mod transactions;

pub use answers::write_answers;
pub use fates::write_fates;
pub use faults::write_faults;
pub use number_line::append_number;
pub use tables::{count_records, write_tables};
pub use transactions::put_history;
