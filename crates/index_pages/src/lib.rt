//! What both indexes share: the codec of an index page, the words for pairs on pages, and nested top actions of a few parts.
//!
//! Read first `specs/Page` (what a page says) and `specs/Pieces` (pairs in pieces, each under its low key), then `action.rt`.
#![tactic(auto)]

mod action;
mod adding;
mod checking;
mod cut;
mod fetch;
mod giving;
mod held;
mod laws;
mod page;
mod place;
mod rest;
mod taking;

pub use action::{PagePart, act_all};
pub use adding::{add_pair, front_part, slot_part, whole_page, with_pair};
pub use checking::{check_lists, check_slot};
pub use cut::{copy_of, middle_of};
pub use fetch::{
    SLOTS_IN_PAGE, check_super, fetch_free_page, fetch_free_slot, fetch_page, fetch_slot,
    fetch_super, index_page_count,
};
pub use giving::{Release, give_page, give_slot, remove_pair, without_pair};
pub use held::{HeldPage, fetch_held_slot};
pub use laws::{free_lists_are_stacks, insertion_adds, pieces_answer};
pub use page::{
    HALF, Head, LEVEL_MAX, PAGE_LEN, PAIRS_MAX, Pairs, next_pair, read_head, read_pair, read_pairs,
    write_page,
};
pub use page_store::LeafPage;
pub use place::{place_found, place_of};
pub use rest::rest_of;
pub use taking::{Claim, take_page, take_slot};
