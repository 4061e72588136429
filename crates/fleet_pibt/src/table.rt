//! Tables of numbers most of whose entries are empty.

ghost use Rattle.std.specs.Prelude.{◌≡◌, ℕ, ◌<◌, length, slice_set, IfOk, Some, None};
ghost use Rattle.fleet_pibt.specs.inside.Entry.{table, IsEmpty};

use std::alloc::{AllocError, Allocator, Global};
use std::marker::Model;

/// What is written for no number.
const NOTHING: u32 = u32::MAX;

/// A list whose entries are numbers or empty, in four bytes each.
#[derive(Drop)]
pub(crate) struct Table<A: Allocator + Copy = Global> {
    entries: Vec<u32, A>,
}

impl<A: Allocator + Copy> Model for Table<A> {
    ghost use Rattle.std.specs.Prelude.{List, Option, ℕ, map};
    ghost use Rattle.fleet_pibt.specs.inside.Entry.{entry};

    ghost Value = { List (Option ℕ) };

    ghost view = { λ t. map entry t.entries.items };
}

impl<A: Allocator + Copy> Table<A> {
    /// This many empty entries.
    pub(crate) fn new(alloc: A, len: u32) -> Result<Table<A>, AllocError>
        ensures { IfOk result (λ t. (length t ≡ len) × IsEmpty t) }
    {
        Ok(Table {
            entries: vec![in alloc; NOTHING; len as usize]?,
        })
    }

    /// The number of entries.
    pub(crate) fn len(&self) -> usize
        ensures { result ≡ length self.now }
    {
        self.entries.len()
    }

    /// The entry at a place.
    pub(crate) fn get(&self, at: u32) -> Option<u32>
        requires { at < length self.now }
        ensures { result ≡ table self.now at }
    {
        let number = self.entries[at as usize];
        if number == NOTHING {
            None
        } else {
            Some(number)
        }
    }

    /// Enters a number at a place.
    pub(crate) fn set(&mut self, at: u32, number: u32)
        requires inside { at < length self.old }
        requires small { number < 4294967295 }
        ensures { self.new ≡ slice_set self.old at (Some number) }
    {
        self.entries[at as usize] = number;
    }

    /// Empties the entry at a place.
    pub(crate) fn clear(&mut self, at: u32)
        requires { at < length self.old }
        ensures { self.new ≡ slice_set self.old at None }
    {
        self.entries[at as usize] = NOTHING;
    }
}
