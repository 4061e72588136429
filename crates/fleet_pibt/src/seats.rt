//! Who stands on each cell, and who has reserved it.

ghost use Rattle.std.specs.Prelude.{◌≡◌, ℕ, ◌<◌, length, slice_set, IfOk, Some, None};
ghost use Rattle.fleet_pibt.specs.inside.Entry.{short_entry, table, IsEmpty};

use std::alloc::{AllocError, Allocator, Global};
use std::marker::Model;

/// What is written for nobody.
const NOBODY: u16 = u16::MAX;

/// Who stands on a cell before the step, and who has reserved it.
#[derive(Clone, Copy)]
pub(crate) struct Seat {
    stander: u16,
    holder: u16,
}

impl Seat {
    /// A cell with nobody.
    const EMPTY: Seat = Seat {
        stander: NOBODY,
        holder: NOBODY,
    };
}

/// The robot that is written so; `None` if nobody is written.
fn robot_in(entry: u16) -> Option<u32>
    ensures { result ≡ short_entry entry }
{
    if entry == NOBODY {
        None
    } else {
        Some(u32::from(entry))
    }
}

/// A list of cells, most of which have no robot. For each cell the robot on it and the robot that has reserved it are
/// next to each other, in two bytes each: a step needs both, and gets them from one line of memory.
#[derive(Drop)]
pub(crate) struct Seats<A: Allocator + Copy = Global> {
    entries: Vec<Seat, A>,
}

impl<A: Allocator + Copy> Model for Seats<A> {
    ghost use Rattle.std.specs.Prelude.{map};
    ghost use Rattle.fleet_pibt.specs.inside.Seating.{Seating, stander_in, holder_in};

    ghost Value = { Seating };

    ghost view = { λ s. record { standing = map stander_in s.entries.items; holder = map holder_in s.entries.items } };
}

impl<A: Allocator + Copy> Seats<A> {
    /// This many cells with nobody.
    pub(crate) fn new(alloc: A, len: u32) -> Result<Seats<A>, AllocError>
        ensures standing { IfOk result (λ s. (length s.standing ≡ len) × IsEmpty s.standing) }
        ensures holder { IfOk result (λ s. (length s.holder ≡ len) × IsEmpty s.holder) }
    {
        Ok(Seats {
            entries: vec![in alloc; Seat::EMPTY; len as usize]?,
        })
    }

    /// The number of cells.
    pub(crate) fn len(&self) -> usize
        ensures { result ≡ length self.now.standing }
    {
        self.entries.len()
    }

    /// The robot that stands on the cell.
    pub(crate) fn stander(&self, cell: u32) -> Option<u32>
        requires { cell < length self.now.standing }
        ensures { result ≡ table self.now.standing cell }
    {
        robot_in(self.entries[cell as usize].stander)
    }

    /// The robot that has reserved the cell.
    pub(crate) fn holder(&self, cell: u32) -> Option<u32>
        requires { cell < length self.now.holder }
        ensures { result ≡ table self.now.holder cell }
    {
        robot_in(self.entries[cell as usize].holder)
    }

    /// The robot stands on the cell.
    pub(crate) fn enter(&mut self, cell: u32, robot: u32)
        requires inside { cell < length self.old.standing }
        requires small { robot < 65535 }
        ensures standing { self.new.standing ≡ slice_set self.old.standing cell (Some robot) }
        ensures holder { self.new.holder ≡ self.old.holder }
    {
        self.entries[cell as usize].stander = robot as u16;
    }

    /// Nobody stands on the cell.
    pub(crate) fn leave(&mut self, cell: u32)
        requires { cell < length self.old.standing }
        ensures standing { self.new.standing ≡ slice_set self.old.standing cell None }
        ensures holder { self.new.holder ≡ self.old.holder }
    {
        self.entries[cell as usize].stander = NOBODY;
    }

    /// The robot has reserved the cell.
    pub(crate) fn reserve(&mut self, cell: u32, robot: u32)
        requires inside { cell < length self.old.holder }
        requires small { robot < 65535 }
        ensures standing { self.new.standing ≡ self.old.standing }
        ensures holder { self.new.holder ≡ slice_set self.old.holder cell (Some robot) }
    {
        self.entries[cell as usize].holder = robot as u16;
    }

    /// Nobody has reserved the cell.
    pub(crate) fn release(&mut self, cell: u32)
        requires { cell < length self.old.holder }
        ensures standing { self.new.standing ≡ self.old.standing }
        ensures holder { self.new.holder ≡ slice_set self.old.holder cell None }
    {
        self.entries[cell as usize].holder = NOBODY;
    }
}
