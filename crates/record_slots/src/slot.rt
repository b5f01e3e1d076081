ghost use Rattle.std.specs.Prelude.{◌≡◌, ◌<◌, Some};
ghost use Rattle.record_slots.specs.Slots.{slot_said, value_said, slot_bytes, table_of_slot};

use crate::{VALUE_MAX, Value};
use byteorder::{ByteOrder, LittleEndian};

/// The bytes of a slot: one for the table and the state, one for the length, eight for the key (little-endian), and room for a value.
pub const SLOT_LEN: usize = 64;

const KEY_AT: usize = 2;

const VALUE_AT: usize = 10;

// There are so many states: two for each of eight tables.
const STATES: u8 = 16;

/// What a slot holds for a key of a table, which is one of eight.
#[derive(Clone, Copy, Debug, PartialEq, Eq)]
pub enum Slot {
    Absent { table: u8, key: u64 },
    Present { table: u8, key: u64, value: Value },
}

/// The slot that the bytes say. `None` exactly when they say none. Of an absent slot only the state and the key are read.
pub fn read_slot(bytes: &[u8; SLOT_LEN]) -> Option<Slot>
    ensures { result ≡ slot_said bytes.now }
{
    let state = bytes[0];
    if state >= STATES {
        return None;
    }
    let table = state / 2;
    let key = LittleEndian::read_u64(&bytes[KEY_AT..]);
    if state % 2 == 0 {
        return Some(Slot::Absent { table, key });
    }
    let value = read_value(bytes)?;
    Some(Slot::Present { table, key, value })
}

fn read_value(bytes: &[u8; SLOT_LEN]) -> Option<Value>
    ensures { result ≡ value_said bytes.now }
{
    let len = usize::from(bytes[1]);
    if len > VALUE_MAX {
        return None;
    }
    Value::of(&bytes[VALUE_AT..VALUE_AT + len])
}

/// Writes all 64 bytes. Those of which the slot says nothing are zero.
pub fn write_slot(slot: &Slot, out: &mut [u8; SLOT_LEN])
    requires { table_of_slot slot.now < 8 }
    ensures written { out.new ≡ slot_bytes slot.now }
    ensures reads_back { slot_said out.new ≡ Some slot.now }
{
    *out = [0; SLOT_LEN];
    match slot {
        Slot::Absent { table, key } => {
            out[0] = 2 * *table;
            LittleEndian::write_u64(&mut out[KEY_AT..], *key);
        }
        Slot::Present { table, key, value } => {
            let text = value.as_bytes();
            out[0] = 2 * *table + 1;
            out[1] = text.len() as u8;
            LittleEndian::write_u64(&mut out[KEY_AT..], *key);
            out[VALUE_AT..VALUE_AT + text.len()].copy_from_slice(text);
        }
    }
}
