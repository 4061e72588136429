//! How many robots each cell of a map is roomy for.

ghost use Rattle.std.specs.Prelude.{◌≡◌, ℕ, ◌<◌, ◌≤◌, ◌^◌, ◌↔◌, length, vec_len, slice_index, IfOk};
ghost use Rattle.fleet_grid.specs.Floor.{IsFloor, IsNeighbour};
ghost use Rattle.fleet_grid.specs.Walk.{IsRoomy};

use crate::caps::searched_roominess;
use crate::settled::shown_roominess;
use crate::sides::Sides;
use fleet_grid::Grid;
use std::alloc::{AllocError, Allocator};

/// For each floor cell the greatest number of robots that it is roomy for: the size of the smallest side of a bridge
/// that has the cell, or `u32::MAX` where no side of a bridge has it. What is said of a wall has no meaning.
/// `AllocError` if memory runs out.
pub fn roominess<A: Allocator + Copy, B: Allocator + Copy>(
    alloc: A,
    grid: &Grid<B>,
) -> Result<Vec<u32, A>, AllocError>
    ensures size { IfOk result (λ most. vec_len most ≡ length grid.now.letters) }
    ensures exact { IfOk result (λ most. (cell n : ℕ) → IsFloor grid.now cell → n < 2 ^ 32 → (n ≤ slice_index most.items cell) ↔ IsRoomy (IsNeighbour grid.now) n cell) }
{
    if let Some(most) = shown_roominess(alloc, &Sides::new(grid))? {
        return Ok(most);
    }
    searched_roominess(alloc, grid)
}
