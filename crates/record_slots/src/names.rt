// The names of the tables of an array, and a table more.
ghost use Rattle.std.specs.Prelude.{◌≡◌, ◌≢◌, ◌+◌, ◌^◌, ◌<◌, ◌≤◌, [], ◌∷◌, ◌++◌, ℕ, IfSome, IfNone, Some, length, slice_get};
ghost use Rattle.record_slots.specs.Super.{HasTables, entry_bytes, tables_in, tables_used};
ghost use Rattle.record_slots.specs.Names.{names_in, number_of, with_last, with_entries};
ghost use Rattle.record_slots.specs.Text.{IsName};

use crate::Name;
use crate::entries::{NAME_AT, ROOT_AT, main_entries, name_at, used_count};
use crate::super_page::{ENTRIES_LEN, ENTRY_LEN, Super, TABLES_MAX, VERSION};
use byteorder::{ByteOrder, LittleEndian};
use std::marker::Model;

/// The names of the tables of an array, by their numbers. There are at most eight.
#[derive(Drop)]
pub struct Names {
    // As a super page of version 2 has them.
    entries: [u8; ENTRIES_LEN],
}

impl Model for Names {
    ghost use Rattle.std.specs.Prelude.{List, ℕ, IsTrue};
    ghost use Rattle.record_slots.specs.Super.{are_named, tables_used};
    ghost use Rattle.record_slots.specs.Names.{names_in};

    ghost Value = { List (List ℕ) };

    ghost view = { λ n. names_in (tables_used n.entries) };

    ghost invariant = { λ n. IsTrue (are_named n.entries) };
}

impl Names {
    /// The names of the tables that a super page says.
    pub fn of(front: &Super) -> Names
        requires oldest { 1 ≤ front.now.version }
        requires newest { front.now.version ≤ 2 }
        requires tables { HasTables front.now.version front.now.next_page front.now.entries }
        ensures { result ≡ names_in (tables_in front.now.version front.now.entries) }
    {
        if front.version == VERSION {
            Names {
                entries: front.entries,
            }
        } else {
            Names {
                entries: main_entries(),
            }
        }
    }

    pub fn copy(&self) -> Names
        ensures { result ≡ self.now }
    {
        Names {
            entries: self.entries,
        }
    }

    /// How many tables there are.
    pub fn count(&self) -> u8
        ensures count { result ≡ length self.now }
        ensures most { result ≤ 8 }
    {
        used_count(&self.entries) as u8
    }

    /// Adds a name behind the others. Where there are eight, nothing changes.
    pub fn push(&mut self, name: &Name)
        ensures added { length self.old < 8 → self.new ≡ self.old ++ name.now ∷ [] }
        ensures full { 8 ≤ length self.old → self.new ≡ self.old }
    {
        let count = used_count(&self.entries);
        if count == TABLES_MAX {
            return;
        }
        let at = ENTRY_LEN * count;
        self.entries[at..at + ENTRY_LEN].copy_from_slice(&entry_of(name, 0));
    }

    /// The number of the table of this name, if there is one.
    pub fn number(&self, name: &Name) -> Option<u8>
        ensures number { result ≡ number_of self.now name.now }
        ensures some { IfSome result (λ j. slice_get self.now j ≡ Some name.now) }
        ensures none { IfNone result ((j : ℕ) → slice_get self.now j ≢ Some name.now) }
    {
        for j in 0..used_count(&self.entries) {
            if name_at(&self.entries, j) == name.as_bytes() {
                return Some(j as u8);
            }
        }
        None
    }

    /// The name of the table of this number, if there is one.
    pub fn name(&self, table: u8) -> Option<Name>
        ensures { result ≡ slice_get self.now table }
    {
        let j = usize::from(table);
        if j < used_count(&self.entries) {
            Name::of(name_at(&self.entries, j))
        } else {
            None
        }
    }
}

/// A super page of version 2 with one table more, behind those that it has. Its root is the next page to give out, which is given out
/// then.
pub fn with_table(front: &Super, name: &Name) -> Super
    requires version { front.now.version ≡ 2 }
    requires tables { HasTables 2 front.now.next_page front.now.entries }
    requires room { length (tables_used front.now.entries) < 8 }
    requires some { 2 ≤ front.now.next_page }
    requires page { front.now.next_page + 1 < 2 ^ 32 }
    requires other { (j : ℕ) → slice_get (names_in (tables_used front.now.entries)) j ≢ Some name.now }
    ensures said { result ≡ with_entries front.now result.entries }
    ensures tables { tables_used result.entries ≡ with_last (tables_used front.now.entries) name.now front.now.next_page }
    ensures has { HasTables 2 result.next_page result.entries }
{
    let at = ENTRY_LEN * used_count(&front.entries);
    let mut after = *front;
    after.entries[at..at + ENTRY_LEN].copy_from_slice(&entry_of(name, front.next_page));
    after.next_page = front.next_page + 1;
    after
}

// The entry of a table.
fn entry_of(name: &Name, root: u32) -> [u8; ENTRY_LEN]
    ensures bytes { result ≡ entry_bytes (record { name = name.now; root = root }) }
    ensures named { IsName name.now }
{
    let text = name.as_bytes();
    let mut entry = [0; ENTRY_LEN];
    entry[0] = text.len() as u8;
    entry[NAME_AT..NAME_AT + text.len()].copy_from_slice(text);
    LittleEndian::write_u32(&mut entry[ROOT_AT..ROOT_AT + 4], root);
    entry
}
