// Which blocks are known.
ghost use Rattle.std.specs.Prelude.{◌≡◌, ◌+◌, ◌/◌, ◌<◌, ◌≤◌, ◌^◌, ℕ, length, get_or, false, true};
ghost use Rattle.resident_media.specs.Blocks.{AreKnown, IsMarked, StaysOutside, end_block};

/// Bytes of a block.
pub const BLOCK: usize = 16_384;

/// The first unknown block from `first` on, or `end`.
pub fn first_unknown(known: &[bool], first: usize, end: usize) -> usize
    requires order { first ≤ end }
    requires few { end ≤ length known.now }
    ensures low { first ≤ result }
    ensures high { result ≤ end }
    ensures before { AreKnown known.now first result }
    ensures there { result < end → get_or known.now result false ≡ false }
{
    for b in first..end {
        if !known[b] {
            return b;
        }
    }
    end
}

/// The block behind the last unknown one of those from `first`, which is unknown, up to `end`.
pub fn behind_unknown(known: &[bool], first: usize, end: usize) -> usize
    requires order { first < end }
    requires few { end ≤ length known.now }
    requires there { get_or known.now first false ≡ false }
    ensures low { first < result }
    ensures high { result ≤ end }
    ensures after { AreKnown known.now result end }
{
    let mut to = end;
    while known[to - 1] {
        to -= 1;
    }
    to
}

// Makes the blocks from `first` up to `end` unknown.
fn unmark(known: &mut [bool], first: usize, end: usize)
    requires order { first ≤ end }
    requires few { end ≤ length known.old }
    ensures { IsMarked first end false known.old known.new }
{
    for b in first..end {
        known[b] = false;
    }
}

/// Makes the blocks unknown that lie in these `count` bytes, in whole or in part.
pub fn forget(known: &mut [bool], at: u64, count: usize)
    requires { length known.old ≤ 2 ^ 50 }
    ensures long { length known.new ≡ length known.old }
    ensures inside { (i : ℕ) → at ≤ i → i < at + count → get_or known.new (i / 16384) false ≡ false }
    ensures others { (b : ℕ) → get_or known.new b false ≡ true → get_or known.old b false ≡ true }
    ensures outside { StaysOutside (at / 16384) (end_block at count) known.old known.new }
{
    let blocks = known.len() as u64;
    let first = (at / BLOCK as u64).min(blocks);
    let end = at
        .saturating_add(count as u64)
        .div_ceil(BLOCK as u64)
        .min(blocks);
    unmark(known, first as usize, end as usize);
}
