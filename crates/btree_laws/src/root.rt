/// Where the tree of a table hangs: its root page, and the number of the table.
#[derive(Clone, Copy, Debug, PartialEq, Eq)]
pub struct Root {
    pub page: u32,
    pub table: u8,
}
