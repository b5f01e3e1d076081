/// Where an address of the data lies.
#[derive(Clone, Copy, Debug, PartialEq, Eq)]
pub struct Place {
    /// The logger that has its page.
    pub logger: u8,
    /// The offset within that logger's data, in bytes.
    pub offset: u64,
}
