ghost use Rattle.key_list.specs.Props.{IsSoundChain-prop};
ghost use Rattle.key_list.specs.ChainFacts.{sound_chain_rises};
ghost use Rattle.key_list.specs.Seen.{chain_excludes, chain_first};
ghost use Rattle.key_list.specs.Resting.{sound_table, sound_chain_given, sound_chain_counts, sound_chains_rest};
ghost use Rattle.key_list.specs.Extending.{sound_chains_extend};
ghost use Rattle.key_list.specs.Index.{chain, chain_access};

use crate::change::Change;
use crate::checking::check_tables;
use crate::insertion::{has_slot, insert_cut, insert_here};
use crate::look::{page_for, reach};
use crate::place::{FORM, locate, locate_for, room_in, slot_in};
use crate::removal::remove_here;
use eaw_face::EawStore;
use index_pages::{
    PAGE_LEN, PAIRS_MAX, SLOTS_IN_PAGE, check_lists, check_super, index_page_count, next_pair,
    rest_of,
};
use noted::Keeper;
use page_store::{
    CheckFault, IndexFault, KeyIndex, LeafPage, NextPairs, PageFault, Pages, Sought, TableRows,
};
use std::alloc::Global;

/// Indexes that are chains of pages in the order of their keys, one for each table: it begins in the table's root and follows the links. A
/// look-up reads each page of the chain up to that of its key, and so does an insertion or a removal, unless it is told the page; besides,
/// it reads the super page, and what it takes from a list. An insertion is one nested top action of three parts: the slot, the page and the
/// super page. If the page has 30 pairs, it is cut first, by another action of three parts: the page, the page that is due, which takes the
/// upper half and the link, and the super page. A removal is one action of three parts too: the slot, which is free then, the page and the
/// super page. A page keeps its last pair, unless it is the root and no page follows it: so no page is ever freed.
#[derive(Clone, Copy, Debug)]
pub struct KeyList {}

impl KeyIndex for KeyList {
    ghost index = { chain };

    ghost access = { chain_access };

    ghost alone = { IsSoundChain-prop };

    fn check<S: EawStore, H: Keeper>(
        alloc: Global,
        pages: &mut Pages<S>,
        tables: &mut TableRows<H>,
    ) -> Result<(), CheckFault> {
        let front = check_super(pages, FORM)?;
        check_lists(pages, &front)?;
        check_tables(alloc, pages, tables, &front)
    }

    fn find<S: EawStore>(
        pages: &mut Pages<S>,
        root: u32,
        table: u8,
        key: u64,
    ) -> Result<Option<u32>, PageFault> {
        let slots = SLOTS_IN_PAGE * index_page_count(pages);
        let mut bytes = [0; PAGE_LEN];
        let at = match reach(pages, root, table, key, &mut bytes) {
            Ok(Some(at)) => at,
            Ok(None) => return Ok(None),
            Err(fault) => return Err(fault),
        };
        let Some((least, slot)) = next_pair(&bytes, at.count, key) else {
            return Ok(None);
        };
        if slot >= u64::from(slots) {
            return Err(PageFault::Damaged { page: at.page });
        }
        if least == key {
            Ok(Some(slot as u32))
        } else {
            Ok(None)
        }
    }

    fn find_place<S: EawStore>(
        pages: &mut Pages<S>,
        root: u32,
        table: u8,
        key: u64,
    ) -> Result<Sought, PageFault> {
        let count = index_page_count(pages);
        let mut bytes = [0; PAGE_LEN];
        let at = page_for(pages, root, table, key, &mut bytes)?;
        let Some(slot) = slot_in(&at, &bytes, key) else {
            return Ok(room_in(&at, &bytes));
        };
        if slot >= u64::from(SLOTS_IN_PAGE * count) {
            return Err(PageFault::Damaged { page: at.page });
        }
        Ok(Sought::Slot(slot as u32))
    }

    fn next_pairs<S: EawStore>(
        pages: &mut Pages<S>,
        root: u32,
        table: u8,
        from: u64,
    ) -> Result<NextPairs, PageFault> {
        let slots = SLOTS_IN_PAGE * index_page_count(pages);
        let mut bytes = [0; PAGE_LEN];
        let at = match reach(pages, root, table, from, &mut bytes) {
            Ok(Some(at)) => at,
            Ok(None) => return Ok(NextPairs::new()),
            Err(fault) => return Err(fault),
        };
        let Some(some) = rest_of(&bytes, at.count, from, slots) else {
            return Err(PageFault::Damaged { page: at.page });
        };
        Ok(some)
    }

    fn insert<S: EawStore>(
        pages: &mut Pages<S>,
        tid: u8,
        root: u32,
        table: u8,
        key: u64,
        place: Option<LeafPage>,
    ) -> Result<u32, IndexFault> {
        let change = Change {
            tid,
            root,
            table,
            key,
        };
        let at = locate_for(pages, root, table, key, place)?;
        let slots = SLOTS_IN_PAGE * index_page_count(pages);
        if !has_slot(&at.front, slots) {
            return Err(IndexFault::SlotsFull { slots });
        }
        if at.pairs.len() < PAIRS_MAX {
            return insert_here(pages, change, at);
        }
        insert_cut(pages, change, at)
    }

    fn remove<S: EawStore>(
        pages: &mut Pages<S>,
        tid: u8,
        root: u32,
        table: u8,
        key: u64,
    ) -> Result<bool, PageFault> {
        let change = Change {
            tid,
            root,
            table,
            key,
        };
        let at = locate(pages, root, table, key)?;
        remove_here(pages, change, at)
    }

    ghost rises = { λ bytes table root sound is. sound_chain_rises bytes root table (sound_table bytes table root sound is) };

    ghost given = { λ bytes table root sound is. sound_chain_given bytes root table (sound_table bytes table root sound is) };

    ghost counts = { sound_chain_counts };

    ghost rests = { λ old new sound keeps. ((sound_chains_rest old new sound keeps).0, λ table root is. ((sound_chains_rest old new sound keeps).1 table root is, λ i. 0)) };

    ghost extends = { λ old new sound extends. let all = sound_chains_extend old new sound extends in
        (all.0, (λ table root is. (all.1 table root is, λ i. 0)), (λ table root is later empty. (all.2 table root is later empty, λ i. 0))) };

    ghost excluded = { chain_excludes };

    ghost first = { chain_first };
}
