ghost use Rattle.std.specs.Prelude.{◌≡◌, ◌≤◌, IfSome, IfNone};
ghost use Rattle.record_slots.specs.Super.{HasSuperMark, SaysSuper, free_in, main_bytes, main_super, part_bytes, super_bytes};

use crate::Name;
use crate::entries::main_entries;
use byteorder::{ByteOrder, LittleEndian};

/// The most tables of an array.
pub const TABLES_MAX: usize = 8;

/// The bytes of an entry.
pub const ENTRY_LEN: usize = 32;

/// The bytes of all entries.
pub const ENTRIES_LEN: usize = TABLES_MAX * ENTRY_LEN;

/// Where in the super page the part begins that changes: the counts, the entries and the free ones.
pub const PART_AT: usize = 8;

/// How many bytes that part takes.
pub const PART_LEN: usize = 280;

const MARK: [u8; 4] = *b"MREC";

/// The version that has entries of tables, and lists of what is free.
pub const VERSION: u8 = 2;

/// The newest version that is read.
const NEWEST: u8 = 2;

const VERSION_AT: usize = 4;

const FORM_AT: usize = 5;

const NEXT_SLOT_AT: usize = 8;

const NEXT_PAGE_AT: usize = 12;

const ENTRIES_AT: usize = 16;

const FREE_AT: usize = ENTRIES_AT + ENTRIES_LEN;

/// A table as its entry says it: its name, and the page in which its index begins.
#[derive(Clone, Copy, Debug, PartialEq, Eq)]
pub struct TableEntry {
    pub name: Name,
    pub root: u32,
}

/// What the super page says.
#[derive(Clone, Copy, Debug, PartialEq, Eq)]
pub struct Super {
    /// 1 has just the table `main`, and nothing free; 2 has entries of tables, and lists of what is free.
    pub version: u8,
    /// The form of the indexes: 0 is a chain, 1 a tree.
    pub form: u8,
    /// The next slot to give out.
    pub next_slot: u32,
    /// The next page to give out.
    pub next_page: u32,
    /// The entries of the tables, as they stand in the page.
    pub entries: [u8; ENTRIES_LEN],
    /// The first free slot, by its number plus 1; 0 for none.
    pub free_slot: u32,
    /// The first free page, by its number plus 1; 0 for none.
    pub free_page: u32,
    /// How many slots are free.
    pub free_slots: u32,
    /// How many pages are free.
    pub free_pages: u32,
}

/// What a super page says. `None` exactly when it does not begin with the mark and version 1 or 2. The entries are not looked at.
pub fn read_super(bytes: &[u8; 512]) -> Option<Super>
    ensures says { IfSome result (SaysSuper bytes.now) }
    ensures unmarked { IfNone result (¬ HasSuperMark bytes.now) }
{
    if !bytes.starts_with(&MARK) {
        return None;
    }
    let version = bytes[VERSION_AT];
    if version == 0 {
        return None;
    }
    if version > NEWEST {
        return None;
    }
    let mut entries = [0; ENTRIES_LEN];
    entries.copy_from_slice(&bytes[ENTRIES_AT..FREE_AT]);
    Some(Super {
        version,
        form: bytes[FORM_AT],
        next_slot: LittleEndian::read_u32(&bytes[NEXT_SLOT_AT..]),
        next_page: LittleEndian::read_u32(&bytes[NEXT_PAGE_AT..]),
        entries,
        free_slot: read_free(bytes, FREE_AT),
        free_page: read_free(bytes, FREE_AT + 4),
        free_slots: read_free(bytes, FREE_AT + 8),
        free_pages: read_free(bytes, FREE_AT + 12),
    })
}

// One of the four numbers on what is free, which version 1 does not have.
fn read_free(bytes: &[u8; 512], at: usize) -> u32
    requires { at ≤ 508 }
    ensures { result ≡ free_in at bytes.now }
{
    if bytes[VERSION_AT] == 1 {
        return 0;
    }
    LittleEndian::read_u32(&bytes[at..])
}

/// Writes a super page, with zeros where it says nothing.
pub fn write_super(front: &Super, out: &mut [u8; 512])
    ensures { out.new ≡ super_bytes front.now }
{
    let mut part = [0; PART_LEN];
    write_super_part(front, &mut part);
    out.fill(0);
    out[..MARK.len()].copy_from_slice(&MARK);
    out[VERSION_AT] = front.version;
    out[FORM_AT] = front.form;
    out[PART_AT..PART_AT + PART_LEN].copy_from_slice(&part);
}

/// Writes the part of a super page that changes, which stands in it from `PART_AT` on.
pub fn write_super_part(front: &Super, out: &mut [u8; PART_LEN])
    ensures { out.new ≡ part_bytes front.now }
{
    LittleEndian::write_u32(&mut out[..4], front.next_slot);
    LittleEndian::write_u32(&mut out[4..8], front.next_page);
    out[8..264].copy_from_slice(&front.entries);
    LittleEndian::write_u32(&mut out[264..268], front.free_slot);
    LittleEndian::write_u32(&mut out[268..272], front.free_page);
    LittleEndian::write_u32(&mut out[272..276], front.free_slots);
    LittleEndian::write_u32(&mut out[276..], front.free_pages);
}

/// A super page of version 2 with this form and these counts, the table `main` alone, and nothing free.
pub fn main_super(form: u8, next_slot: u32, next_page: u32) -> [u8; 512]
    ensures says { SaysSuper result (main_super form next_slot next_page) }
    ensures bytes { result ≡ main_bytes form next_slot next_page }
{
    let front = Super {
        version: VERSION,
        form,
        next_slot,
        next_page,
        entries: main_entries(),
        free_slot: 0,
        free_page: 0,
        free_slots: 0,
        free_pages: 0,
    };
    let mut bytes = [0; 512];
    write_super(&front, &mut bytes);
    bytes
}
