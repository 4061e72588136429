//! Splits a box into its two parts, the pointer and the allocator, and makes a box of them again. Whoever has the parts
//! owns what the box owned.

ghost use Rattle.std.specs.Prelude.{◌≡◌};
ghost use Rattle.std.specs.Box.Ownership.{box_owns};

use std::alloc::Allocator;
use std::marker::Model;

/// The parts of a box: they own its value and the right to free its block. To drop them, make the box again.
pub struct Parts<T, A: Allocator> {
    /// The pointer to the value.
    pub ptr: *mut T,
    /// The allocator of its block.
    pub alloc: A,
    pub ghost value: { T },
}

impl<T, A: Allocator> Model for Parts<T, A> {
    ghost also_owns = { λ p. box_owns (A.dealloc_token p.alloc) T.row p.ptr p.value };
}

impl<T, A: Allocator> Parts<T, A> {
    /// The parts of the box.
    pub fn of(boxed: Box<T, A>) -> Parts<T, A>
    where
        T: Drop,
        ensures { result.value ≡ boxed.value }
    {
        let (ptr, alloc) = Box::into_raw_with_allocator(boxed);
        Parts { ptr, alloc }
    }

    /// The box of these parts.
    pub fn into_box(self) -> Box<T, A>
        ensures { result.value ≡ self.value }
    {
        let Parts { ptr, alloc } = self;
        unsafe { Box::from_raw(alloc, ptr) }
    }
}
