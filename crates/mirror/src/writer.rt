// The bytes of a frame, written one behind the other into a buffer that has room for them.
ghost use Rattle.std.specs.Prelude.{◌≡◌, ◌+◌, ◌*◌, ◌-◌, ◌^◌, ◌≤◌, ◌<◌, ◌∷◌, ◌++◌, length, drop, flat_map, All, vec_capacity};
ghost use Rattle.byteorder.specs.Endian.{little_bytes};
ghost use Rattle.eaw_face.specs.Frame.{mark, part_bytes, group_bytes, IsByte};
ghost use Rattle.mirror.specs.Sending.{HasBytes, AreShort, group_of};
ghost use Rattle.mirror.specs.Groups.{IsListed, HasByteLog, groups_of};
ghost use Rattle.array_shape.specs.NumberSet.{members};

use crate::log::PlainLog;
use crate::place::MARK;
use array_shape::NumberSet;

// Bytes are below 256.
fn are_bytes(bytes: &[u8])
    ensures { All IsByte bytes.now }
{
    for byte in bytes {
        let _value = *byte;
    }
}

fn append(frame: &mut Vec<u8>, bytes: &[u8])
    requires { length frame.old.items + length bytes.now ≤ vec_capacity frame.old }
    ensures items { frame.new.items ≡ frame.old.items ++ bytes.now }
    ensures room { vec_capacity frame.old ≤ vec_capacity frame.new }
{
    let _done = frame.extend_from_slice(bytes);
}

/// Begins a frame of this sequence, of so many numbers.
pub(crate) fn begin_frame(frame: &mut Vec<u8>, sequence: u64, count: u16)
    requires { 14 ≤ vec_capacity frame.old }
    ensures items { frame.new.items ≡ mark ++ little_bytes 8 sequence ++ little_bytes 2 count }
    ensures room { vec_capacity frame.old ≤ vec_capacity frame.new }
{
    frame.clear();
    append(frame, &MARK);
    append(frame, &sequence.to_le_bytes());
    append(frame, &count.to_le_bytes());
}

/// Begins what a number wrote, which has so many parts.
pub(crate) fn begin_group(frame: &mut Vec<u8>, number: u8, count: u16)
    requires { length frame.old.items + 3 ≤ vec_capacity frame.old }
    ensures items { frame.new.items ≡ frame.old.items ++ number ∷ little_bytes 2 count }
    ensures room { vec_capacity frame.old ≤ vec_capacity frame.new }
{
    append(frame, &[number]);
    append(frame, &count.to_le_bytes());
}

/// Writes a part.
pub(crate) fn append_part(frame: &mut Vec<u8>, addr: u64, bytes: &[u8])
    requires len { length bytes.now ≤ 512 }
    requires room { length frame.old.items + (10 + length bytes.now) ≤ vec_capacity frame.old }
    ensures items { frame.new.items ≡ frame.old.items ++ part_bytes (addr, bytes.now) }
    ensures bytes { All IsByte bytes.now }
    ensures room { vec_capacity frame.old ≤ vec_capacity frame.new }
{
    are_bytes(bytes);
    append(frame, &addr.to_le_bytes());
    append(frame, &(bytes.len() as u16).to_le_bytes());
    append(frame, bytes);
}

// Writes the parts of a log from `offset` on.
fn append_parts(frame: &mut Vec<u8>, log: &PlainLog, offset: usize)
    requires offset { offset ≤ length log.now.parts }
    requires short { AreShort log.now.parts }
    requires room { length frame.old.items + length (flat_map part_bytes (drop offset log.now.parts)) ≤ vec_capacity frame.old }
    ensures items { frame.new.items ≡ frame.old.items ++ flat_map part_bytes (drop offset log.now.parts) }
    ensures bytes { All HasBytes (drop offset log.now.parts) }
    ensures room { vec_capacity frame.old ≤ vec_capacity frame.new }
{
    for pos in offset..log.len() {
        let (addr, bytes) = log.part(pos);
        append_part(frame, addr, bytes);
    }
}

/// Writes what a number has logged from `offset` on as a group, if that is anything.
pub(crate) fn append_group(frame: &mut Vec<u8>, number: u8, log: &PlainLog, offset: usize)
    requires offset { offset ≤ length log.now.parts }
    requires short { AreShort log.now.parts }
    requires few { length log.now.parts < 2 ^ 16 }
    requires room { length frame.old.items + length (flat_map group_bytes (group_of number (drop offset log.now.parts))) ≤ vec_capacity frame.old }
    ensures items { frame.new.items ≡ frame.old.items ++ flat_map group_bytes (group_of number (drop offset log.now.parts)) }
    ensures bytes { All HasBytes (drop offset log.now.parts) }
    ensures room { vec_capacity frame.old ≤ vec_capacity frame.new }
{
    let count = log.len() - offset;
    if count > 0 {
        begin_group(frame, number, count as u16);
        append_parts(frame, log, offset);
    }
}

/// How many of these numbers have logged anything.
pub(crate) fn count_groups(tids: NumberSet, logs: &[PlainLog]) -> u16
    requires logs { All (IsListed logs.now) (members tids) }
    requires few { length (groups_of logs.now (members tids)) ≤ 64 }
    ensures { result ≡ length (groups_of logs.now (members tids)) }
{
    let mut count = 0;
    for tid in tids.members() {
        if logs[usize::from(tid)].len() > 0 {
            count += 1;
        }
    }
    count
}

/// Writes what each of these numbers has logged as a group, if that is anything.
pub(crate) fn append_groups(frame: &mut Vec<u8>, tids: NumberSet, logs: &[PlainLog])
    requires logs { All (IsListed logs.now) (members tids) }
    requires room { length frame.old.items + length (flat_map group_bytes (groups_of logs.now (members tids))) ≤ vec_capacity frame.old }
    ensures items { frame.new.items ≡ frame.old.items ++ flat_map group_bytes (groups_of logs.now (members tids)) }
    ensures bytes { All (HasByteLog logs.now) (members tids) }
    ensures room { vec_capacity frame.old ≤ vec_capacity frame.new }
{
    for tid in tids.members() {
        append_group(frame, tid, &logs[usize::from(tid)], 0);
    }
}
