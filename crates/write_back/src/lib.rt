//! Commits that were answered and are not yet written back: which of them wait, where their parts lie, and reads with these parts laid over
//! the data.
//!
//! Read first `commits.rt`: what comes in with one more commit, and what goes once commits are written back. `queue.rt` has the ballots that
//! wait, the oldest first, and one table of the cells that they name; `deferred.rt` the entries of each number. Of `specs/` read `Waiting`
//! (which queue of commits that is on the medium, and what data the array then stands for), `Steps` (what a write-back and a commit do),
//! `Turns` (the order in which deferred parts are applied) and `Tied` (what ties the entries in memory to the queue: a read then gives the
//! data with all commits that wait). A page without a deferred part is read at no further cost; on another page each deferred part in the
//! range costs one read of its cell.
#![tactic(auto)]

mod commits;
mod deferred;
mod entry;
mod forgetting;
mod laws;
mod marks;
mod overlay;
mod queue;
mod reading;

pub use commits::LateData;
pub use deferred::DeferredParts;
pub use entry::Entry;
pub use laws::{
    cells_keep_waiting, entries_are_of_the_array, newest_comes_last, oldest_goes_first,
    one_number_changes, others_do_not_matter, parts_are_the_queue, same_cells_same_parts,
    waiting_are_counted, waiting_stand,
};
