//! Several fields at once.

ghost use Rattle.std.specs.Prelude.{◌≡◌, ℕ, ◌<◌, length, slice_index, IfOk};
ghost use Rattle.fleet_grid.specs.Floor.{IsFloor};
ghost use Rattle.fleet_field.specs.Field.{IsField};
ghost use Rattle.fleet_field.specs.Several.{AreFields};

use crate::field::Field;
use crate::work::of_each;
use fleet_grid::Grid;
use std::alloc::{AllocError, Allocator};
use std::thread::Threads;

/// The field of a goal, where that is a floor cell, as each goal is that is asked for.
fn field_of<A: Allocator + Copy, B: Allocator + Copy>(
    alloc: A,
    grid: &Grid<B>,
    goal: u32,
) -> Result<Field<A>, AllocError>
    ensures { IsFloor grid.now goal → IfOk result (λ field. IsField grid.now goal field) }
{
    if !grid.is_floor(goal) {
        return Err(AllocError);
    }
    Field::from(alloc, grid, goal)
}

/// The fields of several goals, which are floor cells: for each goal in turn, the one that `Field::from` makes. Much
/// work is done by several threads, and so are many goals, whatever the map.
pub fn fields<A: Allocator + Copy + Send + Sync, B: Allocator + Copy + Send + Sync>(
    rt: &(impl Threads + Sync),
    alloc: A,
    grid: &Grid<B>,
    goals: &[u32],
) -> Result<Vec<Field<A>, A>, AllocError>
    requires { (i : ℕ) → i < length goals.now → IsFloor grid.now (slice_index goals.now i) }
    ensures { IfOk result (λ fields. AreFields grid.now goals.now fields.items) }
{
    of_each(
        rt,
        alloc,
        grid.cell_count(),
        goals,
        |goal: &u32| -> Result<Field<A>, AllocError>
            ensures { IsFloor grid.entry.now goal.now → IfOk result (λ field. IsField grid.entry.now goal.now field) }
        { field_of(alloc, grid, *goal) },
    )
}
