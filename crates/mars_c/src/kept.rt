// What C keeps of an open array, or of a closed one.
ghost use Rattle.std.specs.Prelude.{◌≡◌, Option, Some, None, is_some, MatchOption};
ghost use Rattle.taped_records.specs.declared.records.TapedRecords.{TapedRecords as Inside};
ghost use Rattle.mars_c.specs.Held.{held_coded, held_owns};

use box_parts::Parts;
use std::alloc::Global;
use std::marker::Model;
use std::mem::replace;
use std::ptr::null_mut;
use taped_records::TapedRecords;

/// A `Box<TapedRecords>` as a pointer that C keeps, or none: a type that names no type with memory of its own.
#[repr(C)]
#[derive(Drop)]
pub struct Held {
    at: *mut u8,
    alloc: Global,
    pub ghost array: { Option Inside } by { held_coded },
}

impl Model for Held {
    ghost also_owns = { λ h. held_owns h.alloc h.at h.array };
}

impl Held {
    pub fn of_parts(parts: Parts<TapedRecords, Global>) -> Held
        ensures { result.array ≡ parts.value }
    {
        let Parts { ptr, alloc } = parts;
        Held {
            at: ptr.cast::<u8>(),
            alloc,
        }
    }

    pub fn into_parts(self) -> Parts<TapedRecords, Global>
        ensures { result.value ≡ self.array }
    {
        let Held { at, alloc } = self;
        Parts {
            ptr: at.cast::<TapedRecords>(),
            alloc,
        }
    }
}

/// An array, open or closed, as C keeps it.
#[repr(C)]
#[derive(Drop)]
pub struct Kept {
    pub held: Held,
    is_open: bool,
    ghost told: { is_open ≡ is_some held.array },
}

impl Kept {
    fn closed(alloc: Global) -> Kept
        ensures { result.held.array ≡ None }
    {
        let at: *mut u8 = null_mut();
        Kept {
            held: Held::of_parts(Parts::none(at, alloc)),
            is_open: false,
        }
    }

    /// Takes out what is open, and leaves it closed.
    pub fn take(&mut self, alloc: Global) -> Option<Box<TapedRecords>>
        ensures array { MatchOption result (self.old.held.array ≡ None) (λ array. self.old.held.array ≡ Some array.value) }
        ensures closed { self.new.held.array ≡ None }
    {
        let Kept { held, is_open } = replace(self, Kept::closed(alloc));
        if !is_open {
            return None;
        }
        Some(held.into_parts().into_box())
    }

    /// Puts this in its place.
    pub fn put(&mut self, array: Box<TapedRecords>)
        ensures { self.new.held.array ≡ Some array.value }
    {
        *self = Kept {
            held: Held::of_parts(Parts::of(array)),
            is_open: true,
        };
    }
}
