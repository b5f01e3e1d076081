// The super page.
ghost use Rattle.std.specs.Prelude.{◌≡◌, ◌≤◌, ◌^◌, ◌<◌, length};
ghost use Rattle.record_slots.specs.Super.{entry_bytes, super_bytes};
ghost use Rattle.table_builder.specs.Plan.{entries_for, front_for, rows_count};

use byteorder::{ByteOrder, LittleEndian};
use history::Rows;
use record_slots::{ENTRIES_LEN, ENTRY_LEN, Name, Super, VERSION, write_super};

// The form of an index that is a tree.
const TREE: u8 = 1;

// Where the name of an entry begins, and its root.
const NAME_AT: usize = 1;

const ROOT_AT: usize = 20;

/// The super page of an array with these tables and so many rows and pages, of which none is free.
pub fn front_page(tables: &[(Name, Rows)], rows: u32, pages: u32) -> [u8; 512]
    requires few { length tables.now ≤ 8 }
    requires rows { rows ≡ rows_count tables.now }
    ensures { result ≡ super_bytes (front_for tables.now pages) }
{
    let front = Super {
        version: VERSION,
        form: TREE,
        next_slot: rows,
        next_page: pages,
        entries: entries_of(tables),
        free_slot: 0,
        free_page: 0,
        free_slots: 0,
        free_pages: 0,
    };
    let mut bytes = [0; 512];
    write_super(&front, &mut bytes);
    bytes
}

// The entries of the tables, whose roots lie side by side behind the super page.
fn entries_of(tables: &[(Name, Rows)]) -> [u8; ENTRIES_LEN]
    requires { length tables.now ≤ 8 }
    ensures { result ≡ entries_for tables.now }
{
    let mut entries = [0; ENTRIES_LEN];
    for (j, table) in tables.iter().enumerate() {
        let at = ENTRY_LEN * j;
        entries[at..at + ENTRY_LEN].copy_from_slice(&entry_of(&table.0, 1 + j as u32));
    }
    entries
}

// The entry of a table.
fn entry_of(name: &Name, root: u32) -> [u8; ENTRY_LEN]
    ensures bytes { result ≡ entry_bytes (record { name = name.now; root = root }) }
    ensures size { length result ≡ 32 }
{
    let text = name.as_bytes();
    let mut entry = [0; ENTRY_LEN];
    entry[0] = text.len() as u8;
    entry[NAME_AT..NAME_AT + text.len()].copy_from_slice(text);
    LittleEndian::write_u32(&mut entry[ROOT_AT..ROOT_AT + 4], root);
    entry
}
