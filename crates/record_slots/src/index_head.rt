// The head of an index page.
ghost use Rattle.std.specs.Prelude.{◌≡◌};
ghost use Rattle.record_slots.specs.IndexHead.{index_head_said, index_head_bytes};

use byteorder::{ByteOrder, LittleEndian};

/// How many bytes the head of an index page takes. Its pairs follow.
pub const INDEX_HEAD_LEN: usize = 8;

const COUNT_AT: usize = 2;

const LINK_AT: usize = 4;

/// What the first eight bytes of an index page say.
#[derive(Clone, Copy, Debug, PartialEq, Eq)]
pub struct IndexHead {
    /// 1 is a leaf of a tree or a page of a chain, 2 an inner page of a tree.
    pub kind: u8,
    /// How many levels it stands above the leaves.
    pub level: u8,
    /// How many pairs it has.
    pub count: u16,
    /// In a chain the page that follows it, 0 for none.
    pub link: u32,
}

/// What the head of an index page says.
pub fn read_index_head(bytes: &[u8; 512]) -> IndexHead
    ensures { result ≡ index_head_said bytes.now }
{
    IndexHead {
        kind: bytes[0],
        level: bytes[1],
        count: LittleEndian::read_u16(&bytes[COUNT_AT..]),
        link: LittleEndian::read_u32(&bytes[LINK_AT..]),
    }
}

/// The bytes of a head.
pub fn index_head_bytes(head: &IndexHead) -> [u8; INDEX_HEAD_LEN]
    ensures { result ≡ index_head_bytes head.now }
{
    let IndexHead {
        kind,
        level,
        count,
        link,
    } = *head;
    let mut bytes = [0; INDEX_HEAD_LEN];
    bytes[0] = kind;
    bytes[1] = level;
    LittleEndian::write_u16(&mut bytes[COUNT_AT..], count);
    LittleEndian::write_u32(&mut bytes[LINK_AT..], link);
    bytes
}
