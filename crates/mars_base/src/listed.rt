// A list that contracts see as the list of its items.
ghost use Rattle.std.specs.Prelude.{◌≡◌, ◌↔◌, [], ◌∷◌, ◌++◌, length, IsNone, IfErr, OnOk, OnErr};
ghost use Rattle.std.specs.Option.{option_to_list};

use std::alloc::{AllocFailed, Global};
use std::marker::Model;

/// A list that grows at its end. Contracts see the list of its items, and nothing of the room that it has taken.
#[derive(Debug, Drop)]
pub struct Listed<T> {
    items: Vec<T>,
}

impl<T> Model for Listed<T> {
    ghost use Rattle.std.specs.Prelude.{List};

    ghost Value = { List T };

    ghost view = { λ l. l.items.items };
}

impl<T> Listed<T> {
    pub fn new(alloc: Global) -> Self
        ensures { result ≡ [] }
    {
        Listed {
            items: Vec::new(alloc),
        }
    }

    /// Appends an item, or returns it if there is no memory.
    pub fn push(&mut self, item: T) -> Result<(), AllocFailed<T>>
        ensures ok { OnOk result (self.new ≡ self.old ++ item ∷ []) }
        ensures err { OnErr result (self.new ≡ self.old) }
        ensures given_back { IfErr result (λ failed. failed.value ≡ item) }
    {
        self.items.push(item)
    }

    /// Removes and returns the last item.
    pub fn pop(&mut self) -> Option<T>
        ensures last { self.old ≡ self.new ++ option_to_list result }
        ensures empty { IsNone result ↔ (self.old ≡ []) }
    {
        self.items.pop()
    }

    pub fn as_slice(&self) -> &[T]
        ensures { result.now ≡ self.now }
    {
        &self.items
    }

    pub fn len(&self) -> usize
        ensures { result ≡ length self.now }
    {
        self.items.len()
    }

    /// The items in a vector, so that room can be made before several are added.
    pub fn into_items(self) -> Vec<T>
        ensures { result.items ≡ self }
    {
        self.items
    }
}

impl<T> From<Vec<T>> for Listed<T> {
    ghost from_gives = { λ items made. made ≡ items.items };

    fn from(items: Vec<T>) -> Self {
        Listed { items }
    }
}
