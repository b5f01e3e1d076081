//! Pages with savepoints and nested top actions over any `EawStore`, and the trait `KeyIndex` of an index over them.
//!
//! Read first `specs/State` and `specs/Command` (the model: a line for each call), then `pages.rt`. What an index has to do is `index.rt`
//! with `specs/Index`. The laws in `laws.rt`: a write is seen, a way back restores, the end of a top action keeps all views.
#![tactic(auto)]

mod fault;
mod index;
mod index_fault;
mod laws;
mod leaf_page;
mod marks;
mod pages;
mod room;
mod table_rows;

pub use fault::PageFault;
pub use index::{KeyIndex, NEXT_MAX, NextPairs};
pub use index_fault::{CheckFault, IndexFault};
pub use laws::{
    a_top_is_one_write, a_write_is_seen, back_restores, commands_are_the_stores, commands_keep,
    others_stay, parts_are_read, top_end_keeps_views, writes_edit_exactly,
};
pub use leaf_page::{LeafPage, Sought};
pub use marks::SAVES_MAX;
pub use pages::Pages;
pub use room::SaveRoom;
pub use table_rows::TableRows;
