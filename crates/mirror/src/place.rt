// The place in a frame where the next byte stands.
ghost use Rattle.std.specs.Prelude.{◌↔◌, ◌<◌, ℕ, List, [], ◌∷◌, IsTrue};
ghost use Rattle.array_shape.specs.Places.{IsShape};
ghost use Rattle.array_shape.specs.declared.shape.Shape.{Shape};
ghost use Rattle.eaw_face.specs.Frame.{AreFrame};
ghost use Rattle.mirror.specs.declared.place.Place.{Place};
ghost use Rattle.mirror.specs.Rest.{Rest, HasNumbers, HasEntries, IsOpen, Begins, GoesOn, Takes, IsPartsRest};

use crate::partial_number::PartialNumber;
use crate::to_come::{Groups, Parts};
use array_shape::{LOGGERS_MAX, PAGE_LEN, Shape};

/// The first four bytes of a frame.
pub(crate) const MARK: [u8; 4] = *b"MFR1";

/// What the next byte of a frame belongs to.
#[derive(Clone, Copy)]
pub(crate) enum Place {
    Mark {
        taken: u8,
    },
    Sequence {
        number: PartialNumber,
    },
    GroupCount {
        number: PartialNumber,
    },
    Number {
        groups: Groups,
    },
    PartCount {
        number: PartialNumber,
        groups: Groups,
    },
    Address {
        number: PartialNumber,
        parts: Parts,
    },
    Length {
        number: PartialNumber,
        addr: u64,
        parts: Parts,
    },
    Bytes {
        left: u16,
        parts: Parts,
    },
    End,
}

// The place behind the bytes of a part.
fn after_part(parts: Parts) -> Place
    ensures ready { (shape : Shape) → HasEntries shape parts → IsOpen shape result }
    ensures begins { Begins result }
    ensures same { (shape : Shape) → IsShape shape → (bytes : List ℕ) → IsPartsRest shape parts bytes ↔ Rest shape result bytes }
{
    if parts.count > 0 {
        return Place::Address {
            number: PartialNumber::new(8),
            parts,
        };
    }
    if parts.behind.count > 0 {
        return Place::Number {
            groups: parts.behind,
        };
    }
    Place::End
}

fn take_mark(taken: u8, byte: u8) -> Option<Place>
    requires { taken < 4 }
    ensures { (shape : Shape) → Takes shape (Place.Mark taken) byte result }
{
    if byte != MARK[usize::from(taken)] {
        return None;
    }
    if taken < 3 {
        return Some(Place::Mark { taken: taken + 1 });
    }
    Some(Place::Sequence {
        number: PartialNumber::new(8),
    })
}

fn take_sequence(number: PartialNumber, byte: u8) -> Place
    requires { 0 < number.left }
    ensures ready { (shape : Shape) → IsOpen shape result }
    ensures goes_on { GoesOn (Place.Sequence number) result }
    ensures same { (shape : Shape) (bytes : List ℕ) → Rest shape (Place.Sequence number) (byte ∷ bytes) ↔ Rest shape result bytes }
{
    let number = number.take(byte);
    if number.left > 0 {
        return Place::Sequence { number };
    }
    Place::GroupCount {
        number: PartialNumber::new(2),
    }
}

fn take_group_count(shape: Shape, number: PartialNumber, byte: u8) -> Option<Place>
    requires { 0 < number.left }
    ensures { Takes shape (Place.GroupCount number) byte result }
{
    let number = number.take(byte);
    if number.left > 0 {
        return Some(Place::GroupCount { number });
    }
    if number.value == 0 {
        return None;
    }
    if number.value > u64::from(shape.numbers) {
        return None;
    }
    let count = number.value as u16;
    Some(Place::Number {
        groups: Groups { count, low: 0 },
    })
}

fn take_number(shape: Shape, groups: Groups, byte: u8) -> Option<Place>
    requires { 0 < groups.count }
    ensures { Takes shape (Place.Number groups) byte result }
{
    let count = groups.count - 1;
    if byte < groups.low {
        return None;
    }
    // Room for a number of each group behind it.
    if u32::from(byte) + u32::from(count) >= u32::from(shape.numbers) {
        return None;
    }
    Some(Place::PartCount {
        number: PartialNumber::new(2),
        groups: Groups {
            count,
            low: byte + 1,
        },
    })
}

fn take_part_count(shape: Shape, number: PartialNumber, groups: Groups, byte: u8) -> Option<Place>
    requires number { 0 < number.left }
    requires groups { HasNumbers shape groups }
    ensures { Takes shape (Place.PartCount number groups) byte result }
{
    let number = number.take(byte);
    if number.left > 0 {
        return Some(Place::PartCount { number, groups });
    }
    let most = u64::from(shape.loggers) * u64::from(shape.entries);
    if number.value == 0 {
        return None;
    }
    if number.value > most {
        return None;
    }
    Some(after_part(Parts {
        count: number.value as u16,
        held: [0; 8],
        behind: groups,
    }))
}

fn take_address(shape: Shape, number: PartialNumber, parts: Parts, byte: u8) -> Option<Place>
    requires number { 0 < number.left }
    requires parts { 0 < parts.count }
    requires entries { HasEntries shape parts }
    ensures { Takes shape (Place.Address number parts) byte result }
{
    let number = number.take(byte);
    if number.left > 0 {
        return Some(Place::Address { number, parts });
    }
    let addr = number.value;
    if addr >= shape.data_len() {
        return None;
    }
    let logger = usize::from(shape.place(addr).logger);
    if parts.held[logger] >= shape.entries {
        return None;
    }
    let mut parts = parts;
    parts.count -= 1;
    parts.held[logger] += 1;
    Some(Place::Length {
        number: PartialNumber::new(2),
        addr,
        parts,
    })
}

fn take_length(number: PartialNumber, addr: u64, parts: Parts, byte: u8) -> Option<Place>
    requires { 0 < number.left }
    ensures { (shape : Shape) → HasEntries shape parts → Takes shape (Place.Length number addr parts) byte result }
{
    let number = number.take(byte);
    if number.left > 0 {
        return Some(Place::Length {
            number,
            addr,
            parts,
        });
    }
    if number.value == 0 {
        return None;
    }
    if number.value > PAGE_LEN - addr % PAGE_LEN {
        return None;
    }
    Some(Place::Bytes {
        left: number.value as u16,
        parts,
    })
}

fn take_byte(left: u16, parts: Parts, byte: u8) -> Place
    requires { 0 < left }
    ensures ready { (shape : Shape) → HasEntries shape parts → IsOpen shape result }
    ensures begins { Begins result }
    ensures same { (shape : Shape) → IsShape shape → (bytes : List ℕ) → Rest shape (Place.Bytes left parts) (byte ∷ bytes) ↔ Rest shape result bytes }
{
    if left > 1 {
        return Place::Bytes {
            left: left - 1,
            parts,
        };
    }
    after_part(parts)
}

impl Place {
    /// The place where a frame begins.
    pub(crate) fn start() -> Place
        ensures ready { (shape : Shape) → IsOpen shape result }
        ensures begins { Begins result }
        ensures same { (shape : Shape) (bytes : List ℕ) → AreFrame shape bytes ↔ Rest shape result bytes }
    {
        Place::Mark { taken: 0 }
    }

    /// The place behind one more byte, or `None` if no bytes behind it make this a frame for an array of the shape. It is `None` at the
    /// last byte of the field that shows it.
    pub(crate) fn after(self, shape: Shape, byte: u8) -> Option<Place>
        requires { IsOpen shape self }
        ensures { Takes shape self byte result }
    {
        match self {
            Place::Mark { taken } => take_mark(taken, byte),
            Place::Sequence { number } => Some(take_sequence(number, byte)),
            Place::GroupCount { number } => take_group_count(shape, number, byte),
            Place::Number { groups } => take_number(shape, groups, byte),
            Place::PartCount { number, groups } => take_part_count(shape, number, groups, byte),
            Place::Address { number, parts } => take_address(shape, number, parts, byte),
            Place::Length {
                number,
                addr,
                parts,
            } => take_length(number, addr, parts, byte),
            Place::Bytes { left, parts } => Some(take_byte(left, parts, byte)),
            Place::End => None,
        }
    }

    /// Whether the frame is whole.
    pub(crate) fn is_end(self) -> bool
        ensures { (shape : Shape) → IsOpen shape self → IsTrue result ↔ Rest shape self [] }
    {
        matches!(self, Place::End)
    }
}
