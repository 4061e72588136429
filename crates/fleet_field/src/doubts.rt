//! To which cells the search has to come before the ways from a cell are known.

ghost use Rattle.std.specs.Prelude.{◌≡◌, ◌≢◌, ℕ, ◌<◌, Some, None, length, slice_index, IfSome};
ghost use Rattle.fleet_grid.specs.Floor.{IsFloor, IsNeighbourIn};
ghost use Rattle.fleet_grid.specs.Ways.{AreOpen, IsLess};
ghost use Rattle.fleet_grid.specs.Distance.{distance};
ghost use Rattle.fleet_field.specs.Growing.{Serves, IsFound};

use crate::growing::{FIRST, GrowingField};
use crate::target::Target;
use fleet_grid::{Dir, Grid, Ways};
use std::alloc::Allocator;

impl<A: Allocator + Copy> GrowingField<A> {
    /// The neighbour in a direction, if it may be nearer to the goal than the cell, and the search has not come to it.
    fn doubt<B: Allocator + Copy>(
        &self,
        grid: &Grid<B>,
        exits: Ways,
        cell: u32,
        dir: Dir,
    ) -> Option<u32>
        requires serves { Serves grid.now self.now }
        requires floor { IsFloor grid.now cell }
        requires open { AreOpen grid.now cell exits.byte }
        requires come { slice_index self.now.labels.items cell ≢ 0 }
        ensures none { result ≡ None → (w : ℕ) → IsNeighbourIn grid.now dir cell w → IsLess (distance grid.now w self.entry.now.goal) (distance grid.now cell self.entry.now.goal) → slice_index self.entry.now.labels.items w ≢ 0 }
        ensures inside { IfSome result (λ next. next < length self.entry.now.labels.items) }
    {
        if !exits.has(dir) {
            return None;
        }
        // Toward the target all is known of this cell's round and of those before it.
        if self.target.is_toward(cell, dir) {
            return None;
        }
        let next = dir.across(grid.width(), cell);
        if self.labels[next as usize] != 0 {
            return None;
        }
        // In the first round no walk goes round an obstacle, so none is shorter by going farther from the goal.
        if self.mark == FIRST {
            let home = Target::of(grid.width(), self.goal);
            if !home.is_toward(cell, dir) {
                return None;
            }
        }
        Some(next)
    }

    /// A cell to which the search has to come before the ways from this one are known, unless its round is over before:
    /// the cell itself, or a neighbour that may be nearer to the goal.
    pub(crate) fn wanted<B: Allocator + Copy>(&self, grid: &Grid<B>, cell: u32) -> Option<u32>
        requires serves { Serves grid.now self.now }
        requires floor { IsFloor grid.now cell }
        ensures found { result ≡ None → IsFound grid.now self.entry.now cell }
        ensures inside { IfSome result (λ next. next < length self.entry.now.labels.items) }
    {
        let here = self.labels[cell as usize];
        if here == 0 {
            return Some(cell);
        }
        // What is known of a round before this one is all.
        if here != self.mark {
            return None;
        }
        let exits = grid.exits(cell);
        if let Some(next) = self.doubt(grid, exits, cell, Dir::North) {
            return Some(next);
        }
        if let Some(next) = self.doubt(grid, exits, cell, Dir::East) {
            return Some(next);
        }
        if let Some(next) = self.doubt(grid, exits, cell, Dir::South) {
            return Some(next);
        }
        self.doubt(grid, exits, cell, Dir::West)
    }
}
