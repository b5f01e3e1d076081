// The masks of pages: for each page the numbers that have a deferred part on it, one bit each.
ghost use Rattle.std.specs.Prelude.{◌≡◌, ◌/◌, ◌<◌, ◌&&◌, ◌||◌, ℕ, All, length, nat_eq, not, slice_index};
ghost use Rattle.array_shape.specs.NumberSet.{has};
ghost use Rattle.write_back.specs.Kept.{lies_on};

use crate::entry::Entry;
use array_shape::PAGE_LEN;

// The page of the data that has an address.
pub(crate) fn page_of(addr: u64) -> usize
    ensures { result ≡ addr / 512 }
{
    (addr / PAGE_LEN) as usize
}

// Whether a mask has a number.
pub(crate) fn has(mask: u64, tid: u8) -> bool
    requires { tid < 64 }
    ensures { result ≡ has mask tid }
{
    (mask >> tid) & 1 == 1
}

// The mask of a page; of a page without one it is 0.
pub(crate) fn mask_at(masks: &[u64], page: usize) -> u64
    ensures { result ≡ slice_index masks.now page }
{
    if page < masks.len() { masks[page] } else { 0 }
}

// The number has a part on the page.
pub(crate) fn set_mark(masks: &mut [u64], tid: u8, page: usize)
    requires tid { tid < 64 }
    requires page { page < length masks.old }
    ensures { (p t : ℕ) → t < 64 → has (slice_index masks.new p) t ≡ ((nat_eq page p && nat_eq t tid) || has (slice_index masks.old p) t) }
{
    masks[page] |= 1 << tid;
}

// The number has none of the entries any more.
pub(crate) fn clear_marks(masks: &mut [u64], tid: u8, entries: &[Entry])
    requires tid { tid < 64 }
    requires pages { All (λ e. e.addr / 512 < length masks.old) entries.now }
    ensures { (p t : ℕ) → t < 64 → has (slice_index masks.new p) t ≡ (not (nat_eq t tid && lies_on p entries.now) && has (slice_index masks.old p) t) }
{
    for entry in entries {
        masks[page_of(entry.addr)] &= !(1 << tid);
    }
}
