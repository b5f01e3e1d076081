// Bytes of blocks, which stand in a room in the order in which the blocks were first kept.
ghost use Rattle.std.specs.Prelude.{◌≡◌, ◌+◌, ◌-◌, ◌*◌, ◌/◌, ◌%◌, ◌<◌, ◌≤◌, ◌^◌, ◌↔◌, ℕ, length, slice_index, get_or, IsTrue};
ghost use Rattle.resident_media.specs.Blocks.{spot};

use crate::flags::BLOCK;

/// Where in the room a byte stands, whose block has a place.
pub fn spot(places: &[usize], at: usize) -> usize
    requires there { at / 16384 < length places.now }
    requires placed { 0 < get_or places.now (at / 16384) 0 }
    requires fits { get_or places.now (at / 16384) 0 * 16384 < 2 ^ 63 }
    ensures { result ≡ spot places.now at }
{
    (places[at / BLOCK] - 1) * BLOCK + at % BLOCK
}

/// Copies bytes from the room. Their blocks have places.
pub fn copy_out(room: &[u8], places: &[usize], at: usize, buf: &mut [u8])
    requires within { at + length buf.old ≤ length places.now * 16384 }
    requires small { at + length buf.old < 2 ^ 64 }
    requires placed { (i : ℕ) → at ≤ i → i < at + length buf.old → 0 < get_or places.now (i / 16384) 0 }
    requires room { (b : ℕ) → get_or places.now b 0 * 16384 ≤ length room.now }
    ensures bytes { (i : ℕ) → i < length buf.old → slice_index buf.new i ≡ slice_index room.now (spot places.now (at + i)) }
{
    let mut done = 0;
    while done < buf.len() {
        let from = spot(places, at + done);
        let part = (BLOCK - (at + done) % BLOCK).min(buf.len() - done);
        buf[done..done + part].copy_from_slice(&room[from..from + part]);
        done += part;
    }
}

/// The same where all lies in one block.
pub fn copy_one(room: &[u8], places: &[usize], at: usize, buf: &mut [u8])
    requires there { at / 16384 < length places.now }
    requires one { at % 16384 + length buf.old ≤ 16384 }
    requires placed { 0 < get_or places.now (at / 16384) 0 }
    requires room { get_or places.now (at / 16384) 0 * 16384 ≤ length room.now }
    ensures { (i : ℕ) → i < length buf.old → slice_index buf.new i ≡ slice_index room.now (spot places.now (at + i)) }
{
    let from = spot(places, at);
    buf.copy_from_slice(&room[from..from + buf.len()]);
}

/// Whether these bytes stand in the room. Their blocks have places.
pub fn is_there(room: &[u8], places: &[usize], at: usize, bytes: &[u8]) -> bool
    requires within { at + length bytes.now ≤ length places.now * 16384 }
    requires small { at + length bytes.now < 2 ^ 64 }
    requires placed { (i : ℕ) → at ≤ i → i < at + length bytes.now → 0 < get_or places.now (i / 16384) 0 }
    requires room { (b : ℕ) → get_or places.now b 0 * 16384 ≤ length room.now }
    ensures { IsTrue result ↔ ((i : ℕ) → i < length bytes.now → slice_index room.now (spot places.now (at + i)) ≡ slice_index bytes.now i) }
{
    let mut done = 0;
    while done < bytes.len() {
        let from = spot(places, at + done);
        let part = (BLOCK - (at + done) % BLOCK).min(bytes.len() - done);
        if room[from..from + part] != bytes[done..done + part] {
            return false;
        }
        done += part;
    }
    true
}
