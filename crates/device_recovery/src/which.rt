// Which rows recovery goes over at a time.

/// Rows that recovery goes over together.
#[derive(Clone, Copy)]
pub(crate) enum Which {
    /// The voted rows that are not decided.
    Dropped,
    /// The decided rows with this order number.
    DecidedAs(u16),
}
