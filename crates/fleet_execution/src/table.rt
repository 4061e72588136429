//! Lists of a fixed length.

ghost use Rattle.std.specs.Prelude.{◌≡◌, ◌<◌, length, replicate, slice_index_or, slice_set, IfOk};

use std::alloc::{AllocError, Allocator, Global};
use std::marker::Model;

/// A list whose length stays.
#[derive(Drop)]
pub(crate) struct Table<T: Copy, A: Allocator = Global> {
    items: Vec<T, A>,
}

impl<T: Copy, A: Allocator> Model for Table<T, A> {
    ghost use Rattle.std.specs.Prelude.{List};

    ghost Value = { List T };

    ghost view = { λ t. t.items.items };
}

impl<T: Copy, A: Allocator> Table<T, A> {
    /// A value this often.
    pub(crate) fn new(alloc: A, length: usize, value: T) -> Result<Self, AllocError>
        ensures { IfOk result (λ t. t ≡ replicate length value) }
    {
        let mut items = Vec::with_capacity(alloc, length)?;
        items.resize(length, value)?;
        Ok(Table { items })
    }

    /// How many values there are.
    pub(crate) fn len(&self) -> usize
        ensures { result ≡ length self.now }
    {
        self.items.len()
    }

    /// The value at a place.
    pub(crate) fn get(&self, at: usize) -> T
        requires { at < length self.now }
        ensures { (d : T) → result ≡ slice_index_or self.now at d }
    {
        self.items[at]
    }

    /// Writes a value at a place.
    pub(crate) fn set(&mut self, at: usize, value: T)
        requires { at < length self.old }
        ensures { self.new ≡ slice_set self.old at value }
    {
        self.items[at] = value;
    }
}
