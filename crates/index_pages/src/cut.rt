// The halves of a full page.
ghost use Rattle.std.specs.Prelude.{◌≡◌, ◌≤◌, length};
ghost use Rattle.index_pages.specs.Keys.{key_at};

use crate::page::{HALF, Pairs};

/// The first key of the upper half of 30 pairs.
pub fn middle_of(pairs: &Pairs) -> u64
    requires { length pairs.now.items ≡ 30 }
    ensures { result ≡ key_at pairs.now.items 15 }
{
    pairs.as_slice()[HALF].0
}

/// A copy of the pairs of a half.
pub fn copy_of(pairs: &[(u64, u64)]) -> Pairs
    requires { length pairs.now ≤ 30 }
    ensures { result.items ≡ pairs.now }
{
    let mut copy = Pairs::new();
    for pair in pairs {
        copy.push(*pair);
    }
    copy
}
