//! A box taken apart.
ghost use Rattle.std.specs.Prelude.{◌≡◌};
ghost use Rattle.std.specs.Box.Ownership.{box_owns};

use std::alloc::Allocator;
use std::marker::Model;

/// A value on the heap, with the right to free it, as a pointer and an allocator.
#[derive(Drop)]
pub(crate) struct Block<T, A: Allocator> {
    pub(crate) at: *mut T,
    pub(crate) alloc: A,
    pub(crate) ghost value: { T },
}

impl<T, A: Allocator> Model for Block<T, A> {
    ghost also_owns = { λ b. box_owns (A.dealloc_token b.alloc) T.row b.at b.value };
}

impl<T, A: Allocator> Block<T, A> {
    /// Takes a box apart.
    pub(crate) fn of(owned: Box<T, A>) -> Block<T, A>
    where
        T: Drop,
        ensures { result.value ≡ owned.value }
    {
        let (at, alloc) = Box::into_raw_with_allocator(owned);
        Block { at, alloc }
    }

    /// Makes it a box again.
    pub(crate) fn into_box(self) -> Box<T, A>
        ensures { result.value ≡ self.value }
    {
        let Block { at, alloc } = self;
        unsafe { Box::from_raw(alloc, at) }
    }
}
