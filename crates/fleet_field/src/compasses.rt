//! Several compasses at once.

ghost use Rattle.std.specs.Prelude.{◌≡◌, ℕ, ◌<◌, length, slice_index, IfOk};
ghost use Rattle.fleet_grid.specs.Floor.{IsFloor};
ghost use Rattle.fleet_field.specs.Field.{IsField};
ghost use Rattle.fleet_field.specs.Several.{AreFields};

use crate::compass::Compass;
use crate::work::of_each;
use fleet_grid::Grid;
use std::alloc::{AllocError, Allocator};
use std::thread::Threads;

/// The compass of a goal, where that is a floor cell, as each goal is that is asked for.
fn compass_of<A: Allocator + Copy, B: Allocator + Copy>(
    alloc: A,
    grid: &Grid<B>,
    goal: u32,
) -> Result<Compass<A>, AllocError>
    ensures { IsFloor grid.now goal → IfOk result (λ compass. IsField grid.now goal compass) }
{
    if !grid.is_floor(goal) {
        return Err(AllocError);
    }
    Compass::from(alloc, grid, goal)
}

/// The compasses of several goals, which are floor cells: for each goal in turn, the one that `Compass::from` makes.
/// Much work is done by several threads, and so are many goals, whatever the map.
pub(crate) fn compasses<A: Allocator + Copy + Send + Sync, B: Allocator + Copy + Send + Sync>(
    rt: &(impl Threads + Sync),
    alloc: A,
    grid: &Grid<B>,
    goals: &[u32],
) -> Result<Vec<Compass<A>, A>, AllocError>
    requires { (i : ℕ) → i < length goals.now → IsFloor grid.now (slice_index goals.now i) }
    ensures { IfOk result (λ compasses. AreFields grid.now goals.now compasses.items) }
{
    of_each(
        rt,
        alloc,
        grid.cell_count(),
        goals,
        |goal: &u32| -> Result<Compass<A>, AllocError>
            ensures { IsFloor grid.entry.now goal.now → IfOk result (λ compass. IsField grid.entry.now goal.now compass) }
        { compass_of(alloc, grid, *goal) },
    )
}
