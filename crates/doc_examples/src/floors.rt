//! A caller of `fleet_grid`.

ghost use Rattle.std.specs.Prelude.{◌↔◌, IsTrue};
ghost use Rattle.fleet_grid.specs.Floor.{IsFloor, IsNeighbour};
ghost use Rattle.fleet_grid.specs.Walk.{AreJoined};

use fleet_grid::Grid;

/// Whether a robot can walk from one cell to the other.
pub fn can_walk(grid: &Grid, from: u32, to: u32) -> bool
    ensures { IsTrue result ↔ (IsFloor grid.now from × IsFloor grid.now to × AreJoined (IsNeighbour grid.now) from to) }
{
    grid.is_floor(from) && grid.is_floor(to) && grid.same_part(from, to)
}
