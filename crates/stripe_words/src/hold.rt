// What a pass may have of a stripe.

/// What a pass has of a stripe.
#[derive(Clone, Copy, Debug, PartialEq, Eq)]
pub enum Hold {
    Free,
    /// Its mark is set, but it does not hold the stripe: it found another's exclusive lock, and takes the mark back.
    Trying,
    Shared,
    Exclusive,
}
