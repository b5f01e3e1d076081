// What readers are answered.
use crate::key::Key;
use mars_base::Listed;
use record_slots::Value;

/// What a reader is answered for a key.
#[derive(Clone, Copy, Debug, PartialEq, Eq)]
pub enum Answer {
    /// The value of the key after the first `at` transactions, `None` if it has no record then.
    Value {
        key: Key,
        at: u64,
        value: Option<Value>,
    },
    /// There is no table of its name.
    NoTable,
}

/// The answers of one reader, in their order.
pub type Answers = Listed<Answer>;
