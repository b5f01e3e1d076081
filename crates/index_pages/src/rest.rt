// The pairs of a page from a key on.
ghost use Rattle.std.specs.Prelude.{◌≡◌, ◌-◌, ◌≤◌, ◌↔◌, IsTrue, IfSome, IfNone};
ghost use Rattle.page_store.specs.Pairs.{AreInside};
ghost use Rattle.index_pages.specs.Keys.{from_on, low_for};
ghost use Rattle.index_pages.specs.Page.{count_said, pairs_from, pairs_said};

use crate::page::{PAGE_LEN, read_pair};
use page_store::NextPairs;

/// The pairs of a page of level 0 from the first on whose key is not below `from`. `None` exactly if their keys do not rise, or one of them
/// leads to no slot of so many.
pub fn rest_of(page: &[u8; PAGE_LEN], count: u16, from: u64, slots: u32) -> Option<NextPairs>
    requires count { count ≡ count_said page.now }
    requires most { count ≤ 30 }
    ensures rest { IfSome result (λ some. some.items ≡ from_on (pairs_said page.now) from) }
    ensures inside { IfSome result (λ some. AreInside from slots some.items) }
    ensures none { IfNone result (¬ AreInside from slots (from_on (pairs_said page.now) from)) }
{
    let first = first_from(page, count, from);
    let mut some = NextPairs::new();
    let mut last = None;
    for i in first..count {
        let (key, slot) = read_pair(page, i);
        if !may_follow(from, last, key) {
            return None;
        }
        if slot >= u64::from(slots) {
            return None;
        }
        some.push((key, slot as u32));
        last = Some(key);
    }
    Some(some)
}

// The place of the first pair of a page whose key is not below `from`; the count, if there is none.
fn first_from(page: &[u8; PAGE_LEN], count: u16, from: u64) -> u16
    requires count { count ≡ count_said page.now }
    requires most { count ≤ 30 }
    ensures most { result ≤ count }
    ensures rest { pairs_from page.now result (count - result) ≡ from_on (pairs_said page.now) from }
{
    for i in 0..count {
        if from <= read_pair(page, i).0 {
            return i;
        }
    }
    count
}

// Whether a key may come behind the last one, or be the first from a key on.
fn may_follow(from: u64, last: Option<u64>, key: u64) -> bool
    ensures { IsTrue result ↔ (low_for from last ≤ key) }
{
    match last {
        None => from <= key,
        Some(last) => last < key,
    }
}
