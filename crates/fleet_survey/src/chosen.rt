//! The floor cells that are roomy for a number of robots, and those that are not.

ghost use Rattle.std.specs.Prelude.{◌≡◌, ◌↔◌, ◌++◌, IfOk, IsTrue, OnOk, false};
ghost use Rattle.fleet_grid.specs.Floor.{IsFloor};
ghost use Rattle.fleet_roomy.specs.Unroomy.{IsUnroomyCell, has};
ghost use Rattle.fleet_survey.specs.Survey.{AreCells, cell_if};

use fleet_grid::Grid;
use fleet_roomy::{UnroomyCells, unroomy_cells};
use std::alloc::{AllocError, Global};

/// Whether the cell is floor and roomy.
pub(crate) fn is_roomy(grid: &Grid, unroomy: &UnroomyCells, cell: u32) -> bool
    ensures { IsTrue result ↔ (IsFloor grid.now cell × (has unroomy.now.marks.items cell ≡ false)) }
{
    grid.is_floor(cell) && !unroomy.has(cell)
}

/// Whether the cell is floor, and unroomy or not.
fn is_wanted(grid: &Grid, unroomy: &UnroomyCells, are_unroomy: bool, cell: u32) -> bool
    ensures { IsTrue result ↔ (IsFloor grid.now cell × (has unroomy.now.marks.items cell ≡ are_unroomy)) }
{
    grid.is_floor(cell) && unroomy.has(cell) == are_unroomy
}

/// Adds the cell, if it is wanted.
fn push_if(cells: &mut Vec<u32>, wanted: bool, cell: u32) -> Result<(), AllocError>
    ensures { OnOk result (cells.new.items ≡ cells.old.items ++ cell_if wanted cell) }
{
    if wanted {
        cells.push(cell)?;
    }
    Ok(())
}

/// The floor cells that are unroomy, or those that are not, in their order.
pub(crate) fn floor_cells(
    alloc: Global,
    grid: &Grid,
    unroomy: &UnroomyCells,
    are_unroomy: bool,
) -> Result<Vec<u32>, AllocError>
    ensures { IfOk result (λ cells. AreCells (λ c. IsFloor grid.now c × (has unroomy.now.marks.items c ≡ are_unroomy)) cells.items) }
{
    let mut cells = Vec::new(alloc);
    for cell in 0..grid.cell_count() {
        push_if(
            &mut cells,
            is_wanted(grid, unroomy, are_unroomy, cell),
            cell,
        )?;
    }
    Ok(cells)
}

/// The floor cells that are not roomy for this many robots, in their order. `AllocError` if memory runs out.
pub fn unroomy_list(alloc: Global, grid: &Grid, robots: u32) -> Result<Vec<u32>, AllocError>
    ensures { IfOk result (λ cells. AreCells (IsUnroomyCell grid.now robots) cells.items) }
{
    let unroomy = unroomy_cells(alloc, grid, robots)?;
    floor_cells(alloc, grid, &unroomy, true)
}
