//! Whether a field tells a cell's ways yet, and the search for them.

ghost use Rattle.std.specs.Prelude.{◌≡◌, ◌<◌, true, false, OnOk};
ghost use Rattle.fleet_grid.specs.Floor.{IsFloor};
ghost use Rattle.fleet_field.specs.Growing.{Serves, Tells, cells_left, goal_of, growth_of};

use crate::growing::GrowingField;
use fleet_grid::Grid;
use std::alloc::{AllocError, Allocator};

impl<A: Allocator + Copy> GrowingField<A> {
    /// Whether the ways from a floor cell are known, so that `outlook` searches nothing for it.
    pub fn tells<B: Allocator + Copy>(&self, grid: &Grid<B>, cell: u32) -> bool
        requires serves { Serves grid.now self.now }
        requires floor { IsFloor grid.now cell }
        ensures told { result ≡ true → Tells grid.now (growth_of self.entry.now) cell }
        ensures left { result ≡ false → 0 < cells_left (growth_of self.entry.now) }
    {
        if !self.has_more() {
            return !self.is_open(cell);
        }
        match self.wanted(grid, cell) {
            Some(_next) => false,
            None => true,
        }
    }

    /// Searches until the ways from a floor cell are known. The only error is out of memory; then the search goes on
    /// from there when it is asked again.
    pub fn search<B: Allocator + Copy>(
        &mut self,
        grid: &Grid<B>,
        cell: u32,
    ) -> Result<(), AllocError>
        requires serves { Serves grid.now self.old }
        requires floor { IsFloor grid.now cell }
        ensures told { OnOk result (Tells grid.now (growth_of self.new) cell) }
        ensures serves { Serves grid.now self.new }
        ensures goal { goal_of self.new ≡ goal_of self.old }
    {
        self.reach(grid, cell)
    }
}
