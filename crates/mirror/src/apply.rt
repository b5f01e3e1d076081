// A whole frame, written into a store.
ghost use Rattle.std.specs.Prelude.{◌≡◌, ◌+◌, ◌<◌, ◌≤◌, length, take, drop, slice_index, None, IfOk, IfErr, OnOk, IsTrue};
ghost use Rattle.byteorder.specs.Endian.{little_number};
ghost use Rattle.eaw_face.specs.Causes.{IsAlive};
ghost use Rattle.eaw_face.specs.StoreView.{LeavesOnly};
ghost use Rattle.eaw_face.specs.Frame.{AreFrame};
ghost use Rattle.mirror.specs.Applying.{HasParts, WroteParts, IsNewFault, IsFree, Applied, OpensEither};

use array_shape::NumberSet;
use byteorder::{ByteOrder, LittleEndian};
use eaw_face::{EawFault, EawStore};

// The bytes of a frame before its groups: the mark, the sequence and their count.
const FRAME_HEAD: usize = 14;

// The bytes of a part before its data: its address and its length.
const PART_HEAD: usize = 10;

// The address and the bytes of the part that comes first, and what is behind it.
fn cut_part<'a>(bytes: &'a [u8]) -> (u64, &'a [u8], &'a [u8])
    requires { 10 + little_number 2 (drop 8 bytes.now) ≤ length bytes.now }
    ensures addr { result.0 ≡ little_number 8 bytes.now }
    ensures part { result.1.now ≡ take (little_number 2 (drop 8 bytes.now)) (drop 10 bytes.now) }
    ensures rest { result.2.now ≡ drop (10 + little_number 2 (drop 8 bytes.now)) bytes.now }
{
    let (head, behind) = bytes.split_at(PART_HEAD);
    let addr = LittleEndian::read_u64(head);
    let len = LittleEndian::read_u16(&head[8..]);
    let (part, rest) = behind.split_at(usize::from(len));
    (addr, part, rest)
}

// Logs parts under a number, one after another, and returns the bytes behind them.
fn log_parts<'a, S: EawStore>(
    store: &mut S,
    number: u8,
    count: u16,
    bytes: &'a [u8],
) -> Result<&'a [u8], EawFault>
    requires alive { IsAlive (S.view store.old) }
    requires number { number < (S.view store.old).shape.numbers }
    requires free { (S.view store.old).ranges number ≡ None }
    requires parts { HasParts (S.view store.old).shape count bytes.now }
    ensures wrote { IfOk result (λ rest. WroteParts S.tells number count bytes.now rest.now (S.view store.old) (S.view store.new)) }
    ensures fault { IfErr result (IsNewFault (S.view store.old) (S.view store.new)) }
    ensures moments { IsTrue S.tells → LeavesOnly (λ image. S.opens (S.view store.old).shape image (S.view store.old).state.bytes) (S.view store.old) (S.view store.new) }
{
    let mut rest = bytes;
    for _part in 0..count {
        let (addr, part, behind) = cut_part(rest);
        if let Err(fault) = store.log_write(number, addr, part) {
            return Err(fault);
        }
        rest = behind;
    }
    Ok(rest)
}

// The number of the group that comes first, the count of its parts, and what is behind them.
fn cut_group<'a>(bytes: &'a [u8]) -> (u8, u16, &'a [u8])
    requires { 3 ≤ length bytes.now }
    ensures number { result.0 ≡ slice_index bytes.now 0 }
    ensures count { result.1 ≡ little_number 2 (drop 1 bytes.now) }
    ensures rest { result.2.now ≡ drop 3 bytes.now }
{
    (bytes[0], LittleEndian::read_u16(&bytes[1..]), &bytes[3..])
}

// Writes a whole frame into a store that has no number live: it is logged under its numbers, and they are committed as one group.
pub(crate) fn apply_frame<S: EawStore>(store: &mut S, frame: &[u8]) -> Result<(), EawFault>
    requires alive { IsAlive (S.view store.old) }
    requires free { IsFree (S.view store.old) }
    requires frame { AreFrame (S.view store.old).shape frame.now }
    ensures applied { OnOk result (Applied S.tells frame.now (S.view store.old) (S.view store.new)) }
    ensures fault { IfErr result (IsNewFault (S.view store.old) (S.view store.new)) }
    ensures moments { IsTrue S.tells → LeavesOnly (OpensEither S.opens frame.now (S.view store.old)) (S.view store.old) (S.view store.new) }
{
    let count = LittleEndian::read_u16(&frame[12..]);
    let mut rest = &frame[FRAME_HEAD..];
    let mut numbers = NumberSet::empty();
    for _group in 0..count {
        let (number, parts, behind) = cut_group(rest);
        rest = log_parts(store, number, parts, behind)?;
        numbers = numbers.with(number);
    }
    store.commit_group(numbers)
}
