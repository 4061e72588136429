//! Callers of `fleet_roomy`.

ghost use Rattle.std.specs.Prelude.{◌↔◌, IfOk, IsTrue};
ghost use Rattle.fleet_grid.specs.Floor.{IsFloor, IsNeighbour};
ghost use Rattle.fleet_grid.specs.Walk.{IsRoomy};

use fleet_grid::Grid;
use fleet_roomy::unroomy_cells;
use std::alloc::{AllocError, Global};

/// Whether an errand to the cell may block this many robots for ever.
pub fn may_block(alloc: Global, grid: &Grid, robots: u32, cell: u32) -> Result<bool, AllocError>
    ensures { IfOk result (λ blocks. IsTrue blocks ↔ (IsFloor grid.now cell × (IsRoomy (IsNeighbour grid.now) robots cell → ⊥))) }
{
    let unroomy = unroomy_cells(alloc, grid, robots)?;
    Ok(unroomy.has(cell))
}
