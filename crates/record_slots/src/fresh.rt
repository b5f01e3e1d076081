// Data without records.
ghost use Rattle.std.specs.Prelude.{◌≡◌};
ghost use Rattle.record_slots.specs.Fresh.{fresh_page};

use crate::{INDEX_HEAD_LEN, IndexHead, index_head_bytes, main_super};

// The form of a fresh array's index.
const TREE: u8 = 1;

// The first page to give out, behind the super page and the root.
const FIRST_GIVEN: u32 = 2;

/// A page of data without records: page 0 is the super page with the table `main`, whose index is a tree, page 1 its root, which is a
/// leaf without pairs, and all others are zero.
pub fn fresh_page(page: u64) -> [u8; 512]
    ensures { result ≡ fresh_page page }
{
    match page {
        0 => main_super(TREE, 0, FIRST_GIVEN),
        1 => fresh_root(),
        _ => [0; 512],
    }
}

fn fresh_root() -> [u8; 512]
    ensures { result ≡ fresh_page 1 }
{
    let leaf = IndexHead {
        kind: 1,
        level: 0,
        count: 0,
        link: 0,
    };
    let mut bytes = [0; 512];
    bytes[..INDEX_HEAD_LEN].copy_from_slice(&index_head_bytes(&leaf));
    bytes
}
