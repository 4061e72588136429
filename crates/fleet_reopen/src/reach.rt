//! How far apart the cells of a map are at least.

ghost use Rattle.std.specs.Prelude.{ℕ, ◌≤◌, IfOk, IfSome};
ghost use Rattle.fleet_grid.specs.Floor.{IsFloor, IsNeighbour};
ghost use Rattle.fleet_grid.specs.Walk.{IsDistance};
ghost use Rattle.fleet_bound.specs.Reach.{reach};

use fleet_field::Field;
use fleet_grid::Grid;
use std::alloc::{AllocError, Allocator};

/// A cell, and how far it is from a cell that was searched from.
#[derive(Clone, Copy)]
pub(crate) struct Far {
    pub(crate) cell: u32,
    pub(crate) edges: u32,
}

/// The farther of a cell and this one, if it has a distance.
fn farther(far: Far, cell: u32, edges: Option<u32>) -> Far
    ensures most { (most : ℕ) → far.edges ≤ most → IfSome edges (λ e. e ≤ most) → result.edges ≤ most }
    ensures far { far.edges ≤ result.edges }
    ensures edges { IfSome edges (λ e. e ≤ result.edges) }
{
    match edges {
        None => far,
        Some(edges) => if edges > far.edges {
            Far { cell, edges }
        } else {
            far
        },
    }
}

/// The cell that is farthest from this one, and the greater of 1 and its distance.
pub(crate) fn farthest<A: Allocator + Copy>(
    alloc: A,
    grid: &Grid<A>,
    from: u32,
) -> Result<Far, AllocError>
    requires { IsFloor grid.now from }
    ensures within { IfOk result (λ far. far.edges ≤ reach grid.now) }
    ensures wide { IfOk result (λ far. (cell d : ℕ) → IsDistance (IsNeighbour grid.now) cell from d → d ≤ far.edges) }
{
    let field = Field::from(alloc, grid, from)?;
    let mut far = Far {
        cell: from,
        edges: 1,
    };
    for cell in 0..grid.cell_count() {
        far = farther(far, cell, field.at(cell));
    }
    Ok(far)
}

/// A number that two cells of the map are apart at least, by two searches: from this cell, and from the cell that is
/// farthest from it. No cell is farther from this one.
pub(crate) fn apart<A: Allocator + Copy>(
    alloc: A,
    grid: &Grid<A>,
    from: u32,
) -> Result<u32, AllocError>
    requires { IsFloor grid.now from }
    ensures within { IfOk result (λ edges. edges ≤ reach grid.now) }
    ensures wide { IfOk result (λ edges. (cell d : ℕ) → IsDistance (IsNeighbour grid.now) cell from d → d ≤ edges) }
{
    let far = farthest(alloc, grid, from)?;
    if !grid.is_floor(far.cell) {
        return Ok(far.edges);
    }
    let next = farthest(alloc, grid, far.cell)?;
    if next.edges > far.edges {
        Ok(next.edges)
    } else {
        Ok(far.edges)
    }
}
