//! Transactions over any core of records, one typed call at a time: each call has a result of its own in the place of a reply.
//!
//! Read first `calls.rt`, then `specs/Told` (which reply a result tells), `specs/Went` (that a refusal is the core's) and `specs/Adds`
//! (what a call leaves of a transaction). `making.rt` makes a whole transaction of some work: it commits if the work is done, and aborts if
//! not.
#![tactic(auto)]

mod calls;
mod laws;
mod making;
mod numbers;
mod refusal;
mod work;

pub use calls::{abort, back, begin, commit, del, get, put, save, scan};
pub use laws::calls_join;
pub use making::{transaction, transaction_retried};
pub use numbers::{number_in, value_of};
pub use refusal::Refusal;
pub use work::{Stop, Work};
