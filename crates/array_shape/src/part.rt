/// A part of a range of the data that lies within one page.
#[derive(Clone, Copy, Debug, PartialEq, Eq)]
pub struct Part {
    /// The logger that has its page.
    pub logger: u8,
    /// Its first address.
    pub addr: u64,
    /// How many bytes it has, 1 to 512.
    pub len: u16,
}
