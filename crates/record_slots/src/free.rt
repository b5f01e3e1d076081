// Slots and pages that were given back.
ghost use Rattle.std.specs.Prelude.{◌≡◌, ◌++◌, ◌^◌, ◌<◌, Some};
ghost use Rattle.byteorder.specs.Endian.{little_bytes};
ghost use Rattle.record_slots.specs.Free.{free_said, free_slot_bytes, free_page_bytes};

use crate::SLOT_LEN;
use byteorder::{ByteOrder, LittleEndian};

const FREE_SLOT: u8 = 0xF0;

const FREE_PAGE: u8 = 0xFF;

/// What a free slot or a free page says of its list.
#[derive(Clone, Copy, Debug, PartialEq, Eq)]
pub struct Free {
    /// The one that follows it, by its number plus 1; 0 for none.
    pub next: u32,
    /// How many there are from it on to the end of the list.
    pub rank: u32,
}

/// What a slot says if it is free.
pub fn read_free_slot(bytes: &[u8; SLOT_LEN]) -> Option<Free>
    ensures { result ≡ free_said 0xF0 2 bytes.now }
{
    if bytes[0] != FREE_SLOT {
        return None;
    }
    Some(Free {
        next: LittleEndian::read_u32(&bytes[2..]),
        rank: LittleEndian::read_u32(&bytes[6..]),
    })
}

/// What a page says if it is free.
pub fn read_free_page(bytes: &[u8; 512]) -> Option<Free>
    ensures { result ≡ free_said 0xFF 4 bytes.now }
{
    if bytes[0] != FREE_PAGE {
        return None;
    }
    Some(Free {
        next: LittleEndian::read_u32(&bytes[4..]),
        rank: LittleEndian::read_u32(&bytes[8..]),
    })
}

/// Writes all 64 bytes of a free slot. Those of which it says nothing are zero.
pub fn write_free_slot(free: &Free, out: &mut [u8; SLOT_LEN])
    ensures written { out.new ≡ free_slot_bytes free.now }
    ensures reads_back { free_said 0xF0 2 out.new ≡ Some free.now }
{
    *out = [0; SLOT_LEN];
    out[0] = FREE_SLOT;
    out[2..10].copy_from_slice(&numbers_of(free.next, free.rank));
}

/// Writes all 512 bytes of a free page. Those of which it says nothing are zero.
pub fn write_free_page(free: &Free, out: &mut [u8; 512])
    ensures written { out.new ≡ free_page_bytes free.now }
    ensures reads_back { free_said 0xFF 4 out.new ≡ Some free.now }
{
    out.fill(0);
    out[0] = FREE_PAGE;
    out[4..12].copy_from_slice(&numbers_of(free.next, free.rank));
}

// The one that follows, and the rank.
fn numbers_of(next: u32, rank: u32) -> [u8; 8]
    ensures numbers { result ≡ little_bytes 4 next ++ little_bytes 4 rank }
    ensures small { (next < 2 ^ 32) × (rank < 2 ^ 32) }
{
    let mut bytes = [0; 8];
    LittleEndian::write_u32(&mut bytes[..4], next);
    LittleEndian::write_u32(&mut bytes[4..], rank);
    bytes
}
