// A `Box` with its fields in sight, or none.
ghost use Rattle.std.specs.Prelude.{◌≡◌, Option, Some, None, IsSome};
ghost use Rattle.std.specs.Coded.{coded_option};
ghost use Rattle.box_parts.specs.Owned.{owned};

use std::alloc::Allocator;
use std::marker::Model;

/// A box, taken apart, or none, whatever the pointer: what it pointed at is still its own.
pub struct Parts<T, A: Allocator> {
    pub ptr: *mut T,
    pub alloc: A,
    pub ghost value: { Option T } by { coded_option T.code },
}

impl<T, A: Allocator> Model for Parts<T, A> {
    ghost also_owns = { λ p. owned (A.dealloc_token p.alloc) T.row p.ptr p.value };
}

impl<T, A: Allocator> Parts<T, A> {
    pub fn none(at: *mut u8, alloc: A) -> Parts<T, A>
        ensures { result.value ≡ None }
    {
        Parts {
            ptr: at.cast::<T>(),
            alloc,
        }
    }

    pub fn of(b: Box<T, A>) -> Parts<T, A>
    where
        T: Drop,
        ensures { result.value ≡ Some b.value }
    {
        let (ptr, alloc) = Box::into_raw_with_allocator(b);
        Parts { ptr, alloc }
    }

    pub fn into_box(self) -> Box<T, A>
        requires { IsSome self.value }
        ensures { self.value ≡ Some result.value }
    {
        let Parts { ptr, alloc } = self;
        unsafe { Box::from_raw(alloc, ptr) }
    }
}
