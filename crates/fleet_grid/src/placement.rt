//! Whether cells are a placement, which a step begins with.

ghost use Rattle.std.specs.Prelude.{◌≢◌, ◌↔◌, ◌<◌, ℕ, IsTrue, length, slice_index};
ghost use Rattle.fleet_grid.specs.Floor.{IsFloor};
ghost use Rattle.fleet_grid.specs.Step.{IsPlacement};

use crate::grid::Grid;
use std::alloc::Allocator;

/// Whether each cell is floor.
fn are_on_floor<A: Allocator + Copy>(grid: &Grid<A>, cells: &[u32]) -> bool
    ensures { IsTrue result ↔ ((r : ℕ) → r < length cells.now → IsFloor grid.now (slice_index cells.now r)) }
{
    for robot in 0..cells.len() {
        if !grid.is_floor(cells[robot]) {
            return false;
        }
    }
    true
}

/// Whether no cell before place `upper` is the same as the one there.
fn is_alone(cells: &[u32], upper: usize) -> bool
    requires { upper < length cells.now }
    ensures { IsTrue result ↔ ((i : ℕ) → i < upper → slice_index cells.now i ≢ slice_index cells.now upper) }
{
    for lower in 0..upper {
        if cells[lower] == cells[upper] {
            return false;
        }
    }
    true
}

/// Whether no two cells are the same.
fn are_distinct(cells: &[u32]) -> bool
    ensures { IsTrue result ↔ ((i j : ℕ) → i < j → j < length cells.now → slice_index cells.now i ≢ slice_index cells.now j) }
{
    for upper in 0..cells.len() {
        if !is_alone(cells, upper) {
            return false;
        }
    }
    true
}

/// Whether robots may stand on these cells, one on each: all are floor, and no two are the same. The time grows with
/// the square of their number; `check_placement` of fleet_check names the first fault, and is made for many cells.
pub fn is_placement<A: Allocator + Copy>(grid: &Grid<A>, cells: &[u32]) -> bool
    ensures { IsTrue result ↔ IsPlacement grid.now cells.now }
{
    are_on_floor(grid, cells) && are_distinct(cells)
}
