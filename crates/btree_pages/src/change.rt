// What a change of the tree of a table is told.
use btree_laws::Root;

/// A key of a table, told by its root, and the number that changes its tree.
#[derive(Clone, Copy)]
pub struct Change {
    pub tid: u8,
    pub root: Root,
    pub key: u64,
}
