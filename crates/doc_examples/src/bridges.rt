//! Callers of `fleet_bridge`.

ghost use Rattle.std.specs.Prelude.{ℕ, ◌≤◌, ◌↔◌, IfOk, IfSome, IsTrue};
ghost use Rattle.fleet_grid.specs.Floor.{IsFloor, IsNeighbour};
ghost use Rattle.fleet_grid.specs.Walk.{IsBridgeless, IsRoomy};
ghost use Rattle.fleet_bridge.specs.Rooms.{IsServed};

use fleet_bridge::{first_bridge, roominess, rooms_of, rooms_serve};
use fleet_grid::Grid;
use std::alloc::{AllocError, Global};

/// Whether every wait on this map is bounded, since it has no bridge.
pub fn has_no_bridge(alloc: Global, grid: &Grid) -> Result<bool, AllocError>
    ensures { IfOk result (λ safe. IsTrue safe ↔ IsBridgeless (IsNeighbour grid.now)) }
{
    match first_bridge(alloc, grid)? {
        None => Ok(true),
        Some((_lower, _upper)) => Ok(false),
    }
}

/// Whether the cell is roomy for this many robots.
pub fn is_roomy(alloc: Global, grid: &Grid, cell: u32, robots: u32) -> Result<bool, AllocError>
    requires { IsFloor grid.now cell }
    ensures { IfOk result (λ roomy. IsTrue roomy ↔ IsRoomy (IsNeighbour grid.now) robots cell) }
{
    let most = roominess(alloc, grid)?;
    Ok(robots <= most[cell as usize])
}

/// For how many robots all cells of the cell's part are served, and so this one: it is roomy for them, or in a room whose
/// mouth is roomy for them without the room.
pub fn served_robots(alloc: Global, grid: &Grid, cell: u32) -> Result<Option<u32>, AllocError>
    requires { IsFloor grid.now cell }
    ensures { IfOk result (λ found. IfSome found (λ most. (n : ℕ) → n ≤ most → IsServed (IsNeighbour grid.now) n cell)) }
{
    let found = rooms_of(alloc, grid)?;
    rooms_serve();
    match found {
        Some(rooms) => Ok(Some(rooms.capacity(cell))),
        None => Ok(None),
    }
}
