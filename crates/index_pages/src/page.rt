// The bytes of a page of an index.
ghost use Rattle.std.specs.Prelude.{◌≡◌, ◌+◌, ◌*◌, ◌^◌, ◌≤◌, ◌<◌, ◌↔◌, IsTrue, IfSome, IfNone, length};
ghost use Rattle.mars_base.specs.Bytes.{put};
ghost use Rattle.page_store.specs.Pairs.{next};
ghost use Rattle.index_pages.specs.Page.{count_said, pair_said, pairs_said};
ghost use Rattle.index_pages.specs.Written.{IsKind, IsPage, SaysHead, AreSmall, kind_for, front_bytes, written_page, pair_bytes};

use arrayvec::ArrayVec;
use byteorder::{ByteOrder, LittleEndian};

/// The bytes of a page.
pub const PAGE_LEN: usize = 512;

/// The most pairs of a page.
pub const PAIRS_MAX: usize = 30;

/// How many of the most pairs stay when a full page is cut.
pub const HALF: usize = PAIRS_MAX / 2;

const PAIRS_AT: usize = 8;

const PAIR_LEN: usize = 16;

/// The highest level of a page.
pub const LEVEL_MAX: u8 = 7;

const KIND_AT: usize = 0;

const LEVEL_AT: usize = 1;

const COUNT_AT: usize = 2;

const LINK_AT: usize = 4;

// The kind of a page with no pages below it.
const LEAF: u8 = 1;

// The kind of a page that names the pages below it.
const INNER: u8 = 2;

/// The pairs of a page: keys, and what each leads to.
pub type Pairs = ArrayVec<(u64, u64), PAIRS_MAX>;

/// The head of a page.
#[derive(Clone, Copy, Debug, PartialEq, Eq)]
pub struct Head {
    /// How many levels of pages are below it, 0 to 7.
    pub level: u8,
    /// How many pairs it has, at most 30.
    pub count: u16,
    /// The page that follows it, 0 for none.
    pub link: u32,
}

/// The head of a page. `None` exactly when its kind is not that of its level, its level is above 7, or its count is above 30.
pub fn read_head(page: &[u8; PAGE_LEN]) -> Option<Head>
    ensures says { IfSome result (SaysHead page.now) }
    ensures other { IfNone result (¬ IsPage page.now) }
{
    let level = page[LEVEL_AT];
    let count = LittleEndian::read_u16(&page[COUNT_AT..]);
    let link = LittleEndian::read_u32(&page[LINK_AT..]);
    if usize::from(count) > PAIRS_MAX {
        return None;
    }
    if !is_kind(page[KIND_AT], level) {
        return None;
    }
    Some(Head { level, count, link })
}

// Whether a page of this level has this kind.
fn is_kind(kind: u8, level: u8) -> bool
    ensures { IsTrue result ↔ IsKind kind level }
{
    match kind {
        LEAF => level == 0,
        INNER => 1 <= level && level <= LEVEL_MAX,
        _ => false,
    }
}

/// Pair `i` of a page.
pub fn read_pair(page: &[u8; PAGE_LEN], i: u16) -> (u64, u64)
    requires { i < 30 }
    ensures pair { result ≡ pair_said page.now i }
    ensures small { (result.0 < 2 ^ 64) × (result.1 < 2 ^ 64) }
{
    let at = PAIRS_AT + PAIR_LEN * usize::from(i);
    (
        LittleEndian::read_u64(&page[at..]),
        LittleEndian::read_u64(&page[at + 8..]),
    )
}

/// The pairs of a page.
pub fn read_pairs(page: &[u8; PAGE_LEN], count: u16) -> Pairs
    requires count { count ≡ count_said page.now }
    requires most { count ≤ 30 }
    ensures pairs { result.items ≡ pairs_said page.now }
    ensures small { AreSmall result.items }
{
    let mut pairs = Pairs::new();
    for i in 0..count {
        pairs.push(read_pair(page, i));
    }
    pairs
}

/// The first pair of a page whose key is not below `from`, if there is one.
pub fn next_pair(page: &[u8; PAGE_LEN], count: u16, from: u64) -> Option<(u64, u64)>
    requires count { count ≡ count_said page.now }
    requires most { count ≤ 30 }
    ensures { result ≡ next (pairs_said page.now) from }
{
    for i in 0..count {
        let pair = read_pair(page, i);
        if from <= pair.0 {
            return Some(pair);
        }
    }
    None
}

/// Writes a page of this level with this link and these pairs, and zeros behind them.
pub fn write_page(level: u8, link: u32, pairs: &[(u64, u64)], out: &mut [u8; PAGE_LEN])
    requires { length pairs.now ≤ 30 }
    ensures { out.new ≡ written_page level link pairs.now }
{
    out.fill(0);
    out[..PAIRS_AT].copy_from_slice(&front_of(level, pairs.len() as u16, link));
    for (i, pair) in pairs.iter().enumerate() {
        put_pair(out, PAIRS_AT + PAIR_LEN * i, *pair);
    }
}

// Kind, level, count and link.
fn front_of(level: u8, count: u16, link: u32) -> [u8; PAIRS_AT]
    ensures { result ≡ front_bytes level count link }
{
    let mut front = [0; PAIRS_AT];
    front[KIND_AT] = kind_of(level);
    front[LEVEL_AT] = level;
    LittleEndian::write_u16(&mut front[COUNT_AT..], count);
    LittleEndian::write_u32(&mut front[LINK_AT..], link);
    front
}

// The kind of a page of this level.
fn kind_of(level: u8) -> u8
    ensures { result ≡ kind_for level }
{
    if level == 0 {
        return LEAF;
    }
    INNER
}

// Puts a pair at a place.
fn put_pair(out: &mut [u8; PAGE_LEN], at: usize, pair: (u64, u64))
    requires { at + 16 ≤ 512 }
    ensures { out.new ≡ put out.old at (pair_bytes pair) }
{
    overwrite(out, at, &bytes_of(pair));
}

fn overwrite(bytes: &mut [u8], at: usize, more: &[u8])
    requires { at + length more.now ≤ length bytes.old }
    ensures { bytes.new ≡ put bytes.old at more.now }
{
    bytes[at..at + more.len()].copy_from_slice(more);
}

fn bytes_of(pair: (u64, u64)) -> [u8; PAIR_LEN]
    ensures { result ≡ pair_bytes pair }
{
    let mut bytes = [0; PAIR_LEN];
    LittleEndian::write_u64(&mut bytes[..8], pair.0);
    LittleEndian::write_u64(&mut bytes[8..], pair.1);
    bytes
}
