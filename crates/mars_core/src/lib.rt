//! `Core`: callers by turns over the records of any `EawStore` under any index, with locks on keys and the history of what was committed.
//!
//! Read first `turns.rt`, whose `step` is one step of `caller_steps`. `step_locked` is the same where locks
//! outside of the core have made sure that no other caller stands in the way. `specs/Held` says what a core shows, `specs/Over` how that is
//! tied to the store below, and `specs/Kept` is the invariant.
#![tactic(auto)]

mod asking;
mod fault;
mod live;
mod locks;
mod making;
mod masks;
mod offer;
mod purging;
mod reading;
mod replies;
mod seat;
mod seats;
mod turns;

pub use fault::CoreFault;
pub use making::make_table;
pub use reading::read_records;
pub use turns::Core;
