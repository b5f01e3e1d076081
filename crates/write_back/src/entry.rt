/// A logged part: where it is to go, and the cell of its logger that holds it.
#[derive(Clone, Copy, Debug, PartialEq, Eq)]
pub struct Entry {
    /// The first address of the data that it goes to.
    pub addr: u64,
    /// How many bytes it has, 1 to 512.
    pub len: u16,
    /// Which cell of its number at its logger holds it.
    pub cell: u16,
}
