//! The bytes of records: a value, the slot of 64 bytes that holds it, the super page with the names of the tables, the head of an index
//! page, and where they lie in the data.
//!
//! Read first `specs/Slots`, `specs/Super` and `specs/Places`, which are the layout of `docs/FORMAT.md`, and `specs/Fresh`: the pages of
//! data without records. The laws in `laws.rt`: what is written into a slot or into the super page is read back.
#![tactic(auto)]

mod entries;
mod free;
mod fresh;
mod index_head;
mod laws;
mod name;
mod names;
mod slot;
mod super_page;
mod value;

pub use entries::{has_tables, table_root};
pub use free::{Free, read_free_page, read_free_slot, write_free_page, write_free_slot};
pub use fresh::fresh_page;
pub use index_head::{INDEX_HEAD_LEN, IndexHead, index_head_bytes, read_index_head};
pub use laws::{slot_round_trip, super_page_round_trip};
pub use name::{NAME_MAX, Name};
pub use names::{Names, with_table};
pub use slot::{SLOT_LEN, Slot, read_slot, write_slot};
pub use super_page::{
    ENTRIES_LEN, ENTRY_LEN, PART_AT, PART_LEN, Super, TABLES_MAX, TableEntry, VERSION, main_super,
    read_super, write_super, write_super_part,
};
pub use value::{VALUE_MAX, Value};
