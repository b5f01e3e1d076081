// What a change of the chain of a table is told.

/// A key of a table, told by the page of its root, and the number that changes its chain.
#[derive(Clone, Copy)]
pub struct Change {
    pub tid: u8,
    pub root: u32,
    pub table: u8,
    pub key: u64,
}
