// The entries of a parent of leaves, of which one goes.
ghost use Rattle.std.specs.Prelude.{◌≡◌, ◌<◌, ◌≤◌, IfSome, IfNone, length, get_or};
ghost use Rattle.std.specs.List.{remove};
ghost use Rattle.btree_laws.specs.Removals.{right_of, without_right, without_last};

use index_pages::Pairs;

// The place of the entry behind that of a key's child, if there is one.
pub fn place_behind(entries: &[(u64, u64)], key: u64) -> Option<usize>
    ensures inside { IfSome result (λ place. place < length entries.now) }
    ensures names { IfSome result (λ place. right_of entries.now key ≡ (get_or entries.now place (0, 0)).1) }
    ensures removes { IfSome result (λ place. remove entries.now place ≡ without_right entries.now key) }
    ensures last { IfNone result (right_of entries.now key ≡ 0) }
{
    for i in 1..entries.len() {
        if key < entries[i].0 {
            return Some(i);
        }
    }
    None
}

// The entries without that of the page to the right of a key's child.
pub fn without_place(entries: Pairs, place: usize) -> Pairs
    requires { place < length entries.items }
    ensures { result.items ≡ remove entries.items place }
{
    let mut entries = entries;
    entries.remove(place);
    entries
}

// The entries without the last.
pub fn without_end(entries: Pairs) -> Pairs
    ensures { result.items ≡ without_last entries.items }
{
    let mut entries = entries;
    entries.pop();
    entries
}
