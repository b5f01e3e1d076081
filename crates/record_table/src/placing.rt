// What a look-up for a key tells the insertion behind it.
ghost use Rattle.std.specs.Prelude.{◌≡◌};
ghost use Rattle.page_store.specs.Placed.{slot_sought};
ghost use Rattle.record_table.specs.Placing.{place_sought};

use page_store::{LeafPage, Sought};

// The slot of the key, if the index has it.
pub fn slot_of(sought: &Sought) -> Option<u32>
    ensures { result ≡ slot_sought sought.now }
{
    match sought {
        Sought::Slot(slot) => Some(*slot),
        _ => None,
    }
}

// The place where the key goes, if it is known.
pub fn place_of(sought: Sought) -> Option<LeafPage>
    ensures { result ≡ place_sought sought }
{
    match sought {
        Sought::Place(leaf) => Some(leaf),
        _ => None,
    }
}
