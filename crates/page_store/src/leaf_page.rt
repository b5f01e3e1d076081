use crate::index::NEXT_MAX;
use arrayvec::ArrayVec;

/// A page of level 0 as it was read: its link and its pairs.
#[derive(Drop)]
pub struct LeafPage {
    pub page: u32,
    pub link: u32,
    pub pairs: ArrayVec<(u64, u64), NEXT_MAX>,
}

/// Where a key is in an index, or where it is to go.
#[derive(Drop)]
pub enum Sought {
    /// The index has the key, with this slot.
    Slot(u32),
    /// It lacks the key, whose pair goes into this page. No page on the way there is full.
    Place(LeafPage),
    /// It lacks the key, and a page is full that is to be split first.
    Split,
}
