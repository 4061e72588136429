//! For how many robots all cells of a map are served, where robots take turns.

ghost use Rattle.std.specs.Prelude.{◌≡◌, ◌≤◌, ◌↔◌, ℕ, IfOk, IfSome};
ghost use Rattle.fleet_grid.specs.Floor.{IsFloor};
ghost use Rattle.fleet_bridge.specs.Rooms.{AreRooms};
ghost use Rattle.fleet_survey.specs.Served.{IsServedLimit, capacity_at};

use crate::least::lesser;
use fleet_bridge::{Rooms, rooms_of};
use fleet_grid::Grid;
use std::alloc::{AllocError, Global};

/// This number, or the capacity of the cell's part where that is less. Of a wall the number.
fn least_with(grid: &Grid, rooms: &Rooms, least: u32, cell: u32) -> u32
    ensures { (n : ℕ) → (n ≤ result) ↔ ((n ≤ least) × (IsFloor grid.now cell → n ≤ capacity_at rooms.now cell)) }
{
    if grid.is_floor(cell) {
        lesser(least, rooms.capacity(cell))
    } else {
        least
    }
}

/// The least capacity of a part.
fn least_capacity(grid: &Grid, rooms: &Rooms) -> u32
    requires { AreRooms grid.now rooms.now }
    ensures { IsServedLimit grid.now result }
{
    let mut least = u32::MAX;
    for cell in 0..grid.cell_count() {
        least = least_with(grid, rooms, least, cell);
    }
    least
}

/// The greatest number of robots for which all floor cells are served, where robots take turns; `u32::MAX` if there is no
/// floor cell. `None` if the rooms of the map do not pass their checks, which was met on no map that was tried. `AllocError`
/// if memory runs out.
pub fn served_for(alloc: Global, grid: &Grid) -> Result<Option<u32>, AllocError>
    ensures { IfOk result (λ found. IfSome found (IsServedLimit grid.now)) }
{
    match rooms_of(alloc, grid)? {
        Some(rooms) => Ok(Some(least_capacity(grid, &rooms))),
        None => Ok(None),
    }
}
