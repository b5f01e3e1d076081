ghost use Rattle.btree_pages.specs.Props.{AreSoundTrees-prop};
ghost use Rattle.btree_pages.specs.Trees.{trees_rise, trees_given, trees_count, trees_rest, trees_extend, trees_excluded, trees_first};
ghost use Rattle.btree_pages.specs.Index.{tree, tree_access};

use crate::change::Change;
use crate::checking::{FORM, check_tables};
use crate::insertion::{insert_above, insert_below, is_index_page, is_slot_left, node_of};
use crate::look::{Leaf, Reached, Start, WAY_MAX, begun, descend, reach};
use crate::node::fetch_node;
use crate::page::slot_in;
use crate::removal::{lose_pair, release_slot, remove_below};
use crate::write::NO_LINK;
use btree_laws::Root;
use eaw_face::EawStore;
use index_pages::{
    PAGE_LEN, PAIRS_MAX, SLOTS_IN_PAGE, check_lists, check_super, fetch_super, index_page_count,
    read_pairs,
};
use noted::Keeper;
use page_store::{
    CheckFault, IndexFault, KeyIndex, LeafPage, NextPairs, PageFault, Pages, Sought, TableRows,
};
use std::alloc::Global;

/// Indexes that are B+ trees of pages, one for each table. A look-up reads the pages from the root down to the leaf of its key, eight at
/// most. A look for the next pairs from a key on goes on to the next leaf if the key's has none: from the page below the one where both ways
/// part, without those above. An insertion splits each full page on its way down and then adds the pair. A split is one nested top action of
/// four parts: both pages, the one that names them, and the super page. A leaf that rising keys fill is split at its end, any other page in
/// the middle. Adding the pair takes three parts: the slot, the leaf and the super page. Free pages and free slots are taken first.
///
/// A removal takes the pair out of its leaf. A leaf that has no other is joined with the leaf to its right under the same parent, or else
/// with the one to its left, and the right one of the two is freed; an only child keeps its last pair. All of it is one nested top action:
/// the slot, the leaf, the parent, the freed page and the super page. No inner page is joined, and a tree never loses a level.
#[derive(Clone, Copy, Debug)]
pub struct BTreePages {}

impl KeyIndex for BTreePages {
    ghost index = { tree };

    ghost access = { tree_access };

    ghost alone = { AreSoundTrees-prop };

    fn check<S: EawStore, H: Keeper>(
        alloc: Global,
        pages: &mut Pages<S>,
        tables: &mut TableRows<H>,
    ) -> Result<(), CheckFault> {
        let front = check_super(pages, FORM)?;
        check_lists(pages, &front)?;
        check_tables(alloc, pages, tables, &front)
    }

    fn find<S: EawStore>(
        pages: &mut Pages<S>,
        root: u32,
        table: u8,
        key: u64,
    ) -> Result<Option<u32>, PageFault> {
        let count = index_page_count(pages);
        let start = Start {
            page: root,
            key,
            most: WAY_MAX,
        };
        let mut bytes = [0; PAGE_LEN];
        let leaf = descend(pages, Root { page: root, table }, start, &mut bytes)?;
        let Some(slot) = slot_in(&bytes, leaf.count, key) else {
            return Ok(None);
        };
        if slot >= u64::from(SLOTS_IN_PAGE * count) {
            return Err(PageFault::Damaged { page: leaf.page });
        }
        Ok(Some(slot as u32))
    }

    fn find_place<S: EawStore>(
        pages: &mut Pages<S>,
        root: u32,
        table: u8,
        key: u64,
    ) -> Result<Sought, PageFault> {
        let count = index_page_count(pages);
        let start = Start {
            page: root,
            key,
            most: WAY_MAX,
        };
        let mut bytes = [0; PAGE_LEN];
        let leaf = descend(pages, Root { page: root, table }, start, &mut bytes)?;
        let Leaf { page, full, .. } = leaf;
        if let Some(slot) = slot_in(&bytes, leaf.count, key) {
            if slot >= u64::from(SLOTS_IN_PAGE * count) {
                return Err(PageFault::Damaged { page });
            }
            return Ok(Sought::Slot(slot as u32));
        }
        if full {
            return Ok(Sought::Split);
        }
        if !is_index_page(page, count) {
            return Err(PageFault::Damaged { page });
        }
        Ok(Sought::Place(LeafPage {
            page,
            link: NO_LINK,
            pairs: read_pairs(&bytes, leaf.count),
        }))
    }

    fn next_pairs<S: EawStore>(
        pages: &mut Pages<S>,
        root: u32,
        table: u8,
        from: u64,
    ) -> Result<NextPairs, PageFault> {
        let root = Root { page: root, table };
        let start = Start {
            page: root.page,
            key: from,
            most: WAY_MAX,
        };
        let at = reach(pages, root, start)?;
        let Reached { some, behind, .. } = at;
        if !some.is_empty() {
            return Ok(some);
        }
        let Some(next_start) = behind else {
            return Ok(some);
        };
        let later = reach(pages, root, next_start)?;
        begun(later)
    }

    fn insert<S: EawStore>(
        pages: &mut Pages<S>,
        tid: u8,
        root: u32,
        table: u8,
        key: u64,
        place: Option<LeafPage>,
    ) -> Result<u32, IndexFault> {
        let root = Root { page: root, table };
        let change = Change { tid, root, key };
        let count = index_page_count(pages);
        let front = fetch_super(pages, FORM)?;
        if !is_slot_left(&front, count) {
            return Err(IndexFault::SlotsFull {
                slots: front.next_slot,
            });
        }
        if let Some(leaf) = place {
            return insert_below(pages, change, front, node_of(leaf));
        }
        if !is_index_page(root.page, count) {
            return Err(IndexFault::Damaged { page: 0 });
        }
        let top = fetch_node(pages, root.page)?;
        if top.pairs.len() < PAIRS_MAX {
            return insert_below(pages, change, front, top);
        }
        insert_above(pages, change, front, top)
    }

    fn remove<S: EawStore>(
        pages: &mut Pages<S>,
        tid: u8,
        root: u32,
        table: u8,
        key: u64,
    ) -> Result<bool, PageFault> {
        let root = Root { page: root, table };
        let change = Change { tid, root, key };
        let count = index_page_count(pages);
        let front = fetch_super(pages, FORM)?;
        if !is_index_page(root.page, count) {
            return Err(PageFault::Damaged { page: 0 });
        }
        let top = fetch_node(pages, root.page)?;
        if top.level > 0 {
            return remove_below(pages, change, &front, top);
        }
        let Some(slot) = release_slot(&front, &top, key) else {
            return Err(PageFault::Damaged { page: top.page });
        };
        lose_pair(pages, change, &slot, top)
    }

    ghost rises = { trees_rise };

    ghost given = { trees_given };

    ghost counts = { trees_count };

    ghost rests = { trees_rest };

    ghost extends = { trees_extend };

    ghost excluded = { trees_excluded };

    ghost first = { trees_first };
}
