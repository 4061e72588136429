//! Whether a tick may be planned.

ghost use Rattle.std.specs.Prelude.{◌≡◌, ◌↔◌, ℕ, ◌<◌, length, IsTrue};
ghost use Rattle.fleet_grid.specs.Floor.{IsFloor, IsNeighbour};
ghost use Rattle.fleet_grid.specs.Walk.{AreJoined};
ghost use Rattle.fleet_turns.specs.Planning.{IsReady, IsReadyAt};

use fleet_grid::{Grid, is_placement};
use std::alloc::Allocator;

/// Robots have waited less than this: ranks have no room for more.
const EARLY: u64 = (1 << 63) - 1;

/// Whether a walk leads from a floor cell to the goal.
fn has_way<A: Allocator + Copy>(grid: &Grid<A>, cell: u32, goal: u32) -> bool
    requires { IsFloor grid.now cell }
    ensures { IsTrue result ↔ AreJoined (IsNeighbour grid.now) cell goal }
{
    grid.is_floor(goal) && grid.same_part(cell, goal)
}

/// Whether a robot on this cell waits exactly while it has a goal, to which a walk leads, and has waited for less than 2^63 - 1 ticks.
fn is_ready_at<A: Allocator + Copy>(
    grid: &Grid<A>,
    cell: u32,
    goal: Option<u32>,
    wait: Option<u64>,
) -> bool
    requires { IsFloor grid.now cell }
    ensures { IsTrue result ↔ IsReadyAt grid.now cell goal wait }
{
    match (goal, wait) {
        (Some(goal), Some(wait)) => wait < EARLY && has_way(grid, cell, goal),
        (None, None) => true,
        _ => false,
    }
}

/// Whether a tick may be planned for robots on these cells, with these goals, that have waited so long: they are on distinct floor
/// cells, and each waits exactly while it has a goal, to which a walk leads. A caller that knows this need not ask.
pub fn is_ready<A: Allocator + Copy>(
    grid: &Grid<A>,
    goals: &[Option<u32>],
    cells: &[u32],
    waits: &[Option<u64>],
) -> bool
    ensures { IsTrue result ↔ IsReady grid.now goals.now cells.now waits.now }
{
    if goals.len() != cells.len() || waits.len() != cells.len() || !is_placement(grid, cells) {
        return false;
    }
    for robot in 0..cells.len() {
        if !is_ready_at(grid, cells[robot], goals[robot], waits[robot]) {
            return false;
        }
    }
    true
}
