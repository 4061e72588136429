//! The plan of one step so far.

ghost use Rattle.std.specs.Prelude.{◌≡◌, ◌≢◌, ℕ, ◌+◌, ◌<◌, ◌≤◌, length, slice_set, Option, Some, None, IfOk};
ghost use Rattle.fleet_pibt.specs.inside.Entry.{table, IsEmpty};

use crate::seats::Seats;
use crate::table::Table;
use std::alloc::{AllocError, Allocator, Global};

/// The cell that each robot has decided on, and for each cell the robot on it and the robot that has reserved it.
#[derive(Drop)]
pub(crate) struct Board<A: Allocator + Copy = Global> {
    pub(crate) target: Table<A>,
    pub(crate) seats: Seats<A>,
}

impl<A: Allocator + Copy> Board<A> {
    /// A board for this many cells and robots, on which nobody stands and no robot has decided.
    pub(crate) fn new(alloc: A, cells: u32, robots: u32) -> Result<Board<A>, AllocError>
        ensures target { IfOk result (λ b. (length b.target ≡ robots) × IsEmpty b.target) }
        ensures standing { IfOk result (λ b. (length b.seats.standing ≡ cells) × IsEmpty b.seats.standing) }
        ensures holder { IfOk result (λ b. (length b.seats.holder ≡ cells) × IsEmpty b.seats.holder) }
    {
        let target = Table::new(alloc, robots)?;
        let seats = Seats::new(alloc, cells)?;
        Ok(Board { target, seats })
    }

    /// The robot decides on the cell, which nobody has reserved.
    pub(crate) fn reserve(&mut self, robot: u32, cell: u32)
        requires known { robot < length self.old.target }
        requires inside { cell < length self.old.seats.holder }
        requires few_robots { robot < 65535 }
        requires few_cells { cell < 4294967295 }
        ensures target { self.new.target ≡ slice_set self.old.target robot (Some cell) }
        ensures holder { self.new.seats.holder ≡ slice_set self.old.seats.holder cell (Some robot) }
        ensures standing { self.new.seats.standing ≡ self.old.seats.standing }
    {
        self.target.set(robot, cell);
        self.seats.reserve(cell, robot);
    }

    /// The other robot stays on its cell, and the robot that had reserved it has not decided.
    pub(crate) fn hand_back(&mut self, robot: u32, other: u32, cell: u32)
        requires known { robot < length self.old.target }
        requires other_known { other < length self.old.target }
        requires inside { cell < length self.old.seats.holder }
        requires few_robots { other < 65535 }
        requires few_cells { cell < 4294967295 }
        ensures target { self.new.target ≡ slice_set (slice_set self.old.target robot None) other (Some cell) }
        ensures holder { self.new.seats.holder ≡ slice_set self.old.seats.holder cell (Some other) }
        ensures standing { self.new.seats.standing ≡ self.old.seats.standing }
    {
        self.target.clear(robot);
        self.reserve(other, cell);
    }

    /// Takes a robot that has decided, and its cell, off the board, and returns the cell.
    pub(crate) fn release(&mut self, robot: u32) -> u32
        requires known { robot < length self.old.target }
        requires decided { table self.old.target robot ≢ None }
        requires inside { (c : ℕ) → table self.old.target robot ≡ Some c → c < length self.old.seats.holder }
        ensures decided { table self.old.target robot ≡ Some result }
        ensures target { self.new.target ≡ slice_set self.old.target robot None }
        ensures holder { self.new.seats.holder ≡ slice_set self.old.seats.holder result None }
        ensures standing { self.new.seats.standing ≡ self.old.seats.standing }
    {
        let Some(cell) = self.target.get(robot) else {
            unreachable!()
        };
        self.target.clear(robot);
        self.seats.release(cell);
        cell
    }
}
