// Places among the pairs of a page.
ghost use Rattle.std.specs.Prelude.{◌≡◌, ◌≤◌, ◌<◌, ℕ, Some, None, IfSome, IfNone, length, get_or};
ghost use Rattle.std.specs.List.{insert, remove};
ghost use Rattle.page_store.specs.Pairs.{found, inserted, removed};

/// The place of a key among pairs: before the first pair whose key is above it.
pub fn place_of(pairs: &[(u64, u64)], key: u64) -> usize
    ensures place { (to : ℕ) → insert pairs.now result (key, to) ≡ inserted pairs.now key to }
    ensures most { result ≤ length pairs.now }
{
    for (i, pair) in pairs.iter().enumerate() {
        if key < pair.0 {
            return i;
        }
    }
    pairs.len()
}

/// The place of the pair of a key, if there is one.
pub fn place_found(pairs: &[(u64, u64)], key: u64) -> Option<usize>
    ensures inside { IfSome result (λ place. place < length pairs.now) }
    ensures removes { IfSome result (λ place. remove pairs.now place ≡ removed pairs.now key) }
    ensures finds { IfSome result (λ place. found pairs.now key ≡ Some (get_or pairs.now place (0, 0)).1) }
    ensures none { IfNone result ((found pairs.now key ≡ None) × (removed pairs.now key ≡ pairs.now)) }
{
    for (i, pair) in pairs.iter().enumerate() {
        if pair.0 == key {
            return Some(i);
        }
    }
    None
}
