//! Commits that wait for their write-back, the oldest first, and what an image of the array is between the phases of a commit and of a
//! write-back. It has no code that runs: definitions, lemmas and laws.
//!
//! Read first `specs/Queue` (a commit, and an image that has a queue of them) and `specs/Between` (what stands between two calls of the
//! array, and between the phases of one). The laws in `laws.rt`: the newest commit counts whole or not at all while its votes are cast, and
//! the oldest may be written into the data, torn or whole, without a change of what the image stands for.
#![tactic(auto)]

mod laws;

pub use laws::{
    alike_commits_wait_alike, cells_change_nothing, deferred_are_counted,
    free_writes_keep_the_queue, group_applies_lists_in_turn, held_stands,
    newest_counts_all_or_none, nothing_waits_after_recovery, oldest_is_written_back,
    oldest_parts_change_nothing, oldest_votes_change_nothing, other_rows_stay_unvoted,
    queue_stands, votes_join_the_queue, votes_leave_the_queue,
};
