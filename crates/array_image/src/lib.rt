//! What an image of an array stands for. It has no code that runs: definitions, lemmas on images that differ in a few places, and laws.
//!
//! Read first `specs/Decided` (which rows are decided, and the data that an image settles to) and `specs/Standing` (which images are lawful,
//! and what data they stand for); they are the heart of the crash theorem. The one law under all: parts that are written again change
//! nothing. From it follows what recovery may do to a lawful image at each moment.
#![tactic(auto)]

mod laws;

pub use laws::{
    application_changes_nothing, applied_again_is_applied, decided_together,
    dropped_votes_change_nothing, lowest_votes_change_nothing, order_of_loggers_is_free,
    orders_one_after_another, recovery_applies, recovery_clears, recovery_drops,
    suffix_changes_nothing,
};
