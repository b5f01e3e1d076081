// What a caller has offered.

/// What a caller has offered and not settled.
#[derive(Clone, Copy, PartialEq, Eq)]
pub enum Offer {
    Nothing,
    /// Its live transaction, which takes no more calls.
    Offered,
    /// A transaction that a group has committed since, with this number.
    Committed { at: u64 },
}
