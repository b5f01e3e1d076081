// The entries of the tables in a super page.
ghost use Rattle.std.specs.Prelude.{◌≡◌, ◌<◌, ◌≤◌, ◌*◌, ◌↔◌, IsTrue, drop, length, slice_index, slice_get};
ghost use Rattle.std.specs.Option.{option_map};
ghost use Rattle.byteorder.specs.Endian.{little_from};
ghost use Rattle.record_slots.specs.Super.{HasTables, AreTables, IsApart, are_named, is_name, main_entries, name_said, tables_in, tables_used};

use crate::Name;
use crate::super_page::{ENTRIES_LEN, ENTRY_LEN, Super, TABLES_MAX, VERSION};
use byteorder::{ByteOrder, LittleEndian};

// Where the name of an entry begins, and its root.
pub const NAME_AT: usize = 1;

pub const ROOT_AT: usize = 20;

const MAIN: &[u8] = b"main";

const MAIN_ROOT: u32 = 1;

/// Whether the entries are those of tables whose roots are given pages. Version 1 has no entries.
pub fn has_tables(front: &Super) -> bool
    ensures { IsTrue result ↔ HasTables front.now.version front.now.next_page front.now.entries }
{
    if front.version != VERSION {
        return true;
    }
    if !have_names(&front.entries) {
        return false;
    }
    are_tables(&front.entries, front.next_page)
}

/// The root of a table, if there is a table of this number.
pub fn table_root(front: &Super, table: u8) -> Option<u32>
    requires { table < 8 }
    ensures { result ≡ option_map (λ entry. entry.root) (slice_get (tables_in front.now.version front.now.entries) table) }
{
    let j = usize::from(table);
    if front.version == 1 {
        return if j == 0 { Some(MAIN_ROOT) } else { None };
    }
    if j < used_count(&front.entries) {
        Some(root_at(&front.entries, j))
    } else {
        None
    }
}

// The entries of the table `main` alone.
pub fn main_entries() -> [u8; ENTRIES_LEN]
    ensures { result ≡ main_entries }
{
    let mut entries = [0; ENTRIES_LEN];
    entries[0] = MAIN.len() as u8;
    entries[NAME_AT..NAME_AT + MAIN.len()].copy_from_slice(MAIN);
    LittleEndian::write_u32(&mut entries[ROOT_AT..ROOT_AT + 4], MAIN_ROOT);
    entries
}

// Whether each used entry has a name, and behind a free one all are free.
fn have_names(entries: &[u8; ENTRIES_LEN]) -> bool
    ensures { result ≡ are_named entries.now }
{
    let mut used = true;
    for j in 0..TABLES_MAX {
        if entries[ENTRY_LEN * j] == 0 {
            used = false;
            continue;
        }
        if !used {
            return false;
        }
        if !has_name(entries, j) {
            return false;
        }
    }
    true
}

// Whether the used entries are those of tables whose roots are among so many pages.
fn are_tables(entries: &[u8; ENTRIES_LEN], pages: u32) -> bool
    requires { IsTrue (are_named entries.now) }
    ensures { IsTrue result ↔ AreTables pages (tables_used entries.now) }
{
    let count = used_count(entries);
    if count == 0 {
        return false;
    }
    if name_at(entries, 0) != MAIN {
        return false;
    }
    if root_at(entries, 0) != MAIN_ROOT {
        return false;
    }
    for j in 1..count {
        if root_at(entries, j) < 2 {
            return false;
        }
        if root_at(entries, j) >= pages {
            return false;
        }
        if !is_apart(entries, j) {
            return false;
        }
    }
    true
}

// Whether no entry before entry `j` has its name or its root.
fn is_apart(entries: &[u8; ENTRIES_LEN], j: usize) -> bool
    requires named { IsTrue (are_named entries.now) }
    requires used { j < length (tables_used entries.now) }
    ensures { IsTrue result ↔ IsApart (tables_used entries.now) j }
{
    for i in 0..j {
        if root_at(entries, i) == root_at(entries, j) {
            return false;
        }
        if name_at(entries, i) == name_at(entries, j) {
            return false;
        }
    }
    true
}

// How many entries are used, up to the first that is free.
pub fn used_count(entries: &[u8; ENTRIES_LEN]) -> usize
    ensures count { result ≡ length (tables_used entries.now) }
    ensures most { result ≤ 8 }
{
    for j in 0..TABLES_MAX {
        if entries[ENTRY_LEN * j] == 0 {
            return j;
        }
    }
    TABLES_MAX
}

// The root in entry `j`.
fn root_at(entries: &[u8; ENTRIES_LEN], j: usize) -> u32
    requires { j < 8 }
    ensures { result ≡ little_from 20 4 (drop (32 * j) entries.now) }
{
    LittleEndian::read_u32(&entries[ENTRY_LEN * j + ROOT_AT..])
}

// The name in entry `j`.
pub fn name_at(entries: &[u8; ENTRIES_LEN], j: usize) -> &[u8]
    requires entry { j < 8 }
    requires short { slice_index entries.now (32 * j) ≤ 16 }
    ensures { result.now ≡ name_said (drop (32 * j) entries.now) }
{
    let at = ENTRY_LEN * j + NAME_AT;
    &entries[at..at + usize::from(entries[ENTRY_LEN * j])]
}

// Whether entry `j` has a name.
fn has_name(entries: &[u8; ENTRIES_LEN], j: usize) -> bool
    requires { j < 8 }
    ensures { result ≡ is_name (name_said (drop (32 * j) entries.now)) }
{
    if entries[ENTRY_LEN * j] > 16 {
        return false;
    }
    Name::of(name_at(entries, j)).is_some()
}
