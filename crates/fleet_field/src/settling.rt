//! How the search goes on until a cell's ways are known.

ghost use Rattle.std.specs.Prelude.{◌≡◌, ℕ, ◌+◌, ◌*◌, ◌<◌, ◌≤◌, ◌⊎◌, ◌↔◌, [], length, slice_index, OnOk, IsTrue};
ghost use Rattle.fleet_grid.specs.Floor.{Floor, IsFloor};
ghost use Rattle.fleet_field.specs.Growing.{Serves, IsFound, IsOver, IsSettled, to_do, may_wait};

use crate::growing::GrowingField;
use fleet_grid::Grid;
use std::alloc::{AllocError, Allocator};
use std::mem;

impl<A: Allocator + Copy> GrowingField<A> {
    /// Leaves the last cell that is still to be left.
    fn leave_last<B: Allocator + Copy>(&mut self, grid: &Grid<B>) -> Result<(), AllocError>
        requires serves { Serves grid.now self.old }
        requires some { 0 < length self.old.now.items }
        ensures serves { Serves grid.now self.new }
        ensures goal { self.new.goal ≡ self.old.goal }
        ensures smaller { OnOk result (to_do self.new < to_do self.old) }
        ensures fewer { may_wait self.new ≤ may_wait self.old }
    {
        self.make_room()?;
        self.now.reserve(4)?;
        let Some(cell) = self.now.pop() else {
            return Ok(());
        };
        self.spread(grid.exits(cell), cell);
        Ok(())
    }

    /// Comes to the last cell that waits, if the search has not come to it before.
    fn take_last(&mut self) -> Result<(), AllocError>
        requires some { 0 < length self.old.next.items }
        requires inside { (m : Floor) × Serves m self.old }
        ensures serves { (m : Floor) → Serves m self.old → Serves m self.new }
        ensures goal { self.new.goal ≡ self.old.goal }
        ensures smaller { OnOk result (to_do self.new < to_do self.old) }
        ensures fewer { may_wait self.new ≤ may_wait self.old }
    {
        self.now.reserve(1)?;
        let Some(cell) = self.next.pop() else {
            return Ok(());
        };
        if self.labels[cell as usize] != 0 {
            return Ok(());
        }
        self.labels[cell as usize] = self.mark;
        self.now.push_reserved(cell);
        Ok(())
    }

    /// Takes one cell from the lists.
    fn step<B: Allocator + Copy>(&mut self, grid: &Grid<B>) -> Result<(), AllocError>
        requires serves { Serves grid.now self.old }
        requires some { 0 < length self.old.now.items + length self.old.next.items }
        ensures serves { Serves grid.now self.new }
        ensures goal { self.new.goal ≡ self.old.goal }
        ensures smaller { OnOk result (to_do self.new < to_do self.old) }
        ensures fewer { may_wait self.new ≤ may_wait self.old }
    {
        if self.now.is_empty() {
            self.take_last()
        } else {
            self.leave_last(grid)
        }
    }

    /// Whether some cell is still to be left, or waits in this round.
    pub(crate) fn has_more(&self) -> bool
        ensures { IsTrue result ↔ (0 < length self.entry.now.now.items + length self.entry.now.next.items) }
    {
        !self.now.is_empty() || !self.next.is_empty()
    }

    /// Goes on in this round until the ways from the cell are known, or the round is over.
    fn go_round<B: Allocator + Copy>(&mut self, grid: &Grid<B>, cell: u32) -> Result<(), AllocError>
        requires serves { Serves grid.now self.old }
        requires floor { IsFloor grid.now cell }
        ensures serves { Serves grid.now self.new }
        ensures goal { self.new.goal ≡ self.old.goal }
        ensures done { OnOk result (IsFound grid.now self.new cell ⊎ IsOver self.new) }
        ensures fewer { may_wait self.new ≤ may_wait self.old }
    {
        let mut wanted = cell;
        while self.has_more() {
            if self.labels[wanted as usize] != 0 {
                match self.wanted(grid, cell) {
                    Some(next) => wanted = next,
                    None => return Ok(()),
                }
            }
            self.step(grid)?;
        }
        Ok(())
    }

    /// Goes on to the cells that have one step more away from the target.
    fn go_on(&mut self)
        ensures serves { (m : Floor) → Serves m self.old → self.old.now.items ≡ [] → self.old.next.items ≡ [] → Serves m self.new }
        ensures goal { self.new.goal ≡ self.old.goal }
        ensures labels { self.new.labels ≡ self.old.labels }
        ensures now { self.new.now ≡ self.old.now }
        ensures next { self.new.next ≡ self.old.later }
        ensures later { self.new.later ≡ self.old.next }
    {
        mem::swap(&mut self.next, &mut self.later);
        self.mark = 1 + self.mark % 2;
    }

    /// Whether the search has not come to the cell, and may yet.
    pub(crate) fn is_open(&self, cell: u32) -> bool
        requires { cell < length self.now.labels.items }
        ensures { IsTrue result ↔ ((slice_index self.entry.now.labels.items cell ≡ 0) × (0 < length self.entry.now.later.items)) }
    {
        self.labels[cell as usize] == 0 && !self.later.is_empty()
    }

    /// Goes on until the ways from the cell are known.
    pub(crate) fn reach<B: Allocator + Copy>(
        &mut self,
        grid: &Grid<B>,
        cell: u32,
    ) -> Result<(), AllocError>
        requires serves { Serves grid.now self.old }
        requires floor { IsFloor grid.now cell }
        ensures serves { Serves grid.now self.new }
        ensures goal { self.new.goal ≡ self.old.goal }
        ensures settled { OnOk result (IsSettled grid.now self.new cell) }
    {
        self.go_round(grid, cell)?;
        while self.is_open(cell) {
            self.go_on();
            self.go_round(grid, cell)?;
        }
        Ok(())
    }
}
