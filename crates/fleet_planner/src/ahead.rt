//! Goals of the next errands.

ghost use Rattle.std.specs.Prelude.{◌≡◌, ℕ, ◌<◌, length, slice_index, IfSome, IfOk, OnErr};
ghost use Rattle.fleet_field.specs.Store.{Keeps};
ghost use Rattle.fleet_grid.specs.Floor.{IsFloor};

use crate::courses::Courses;
use fleet_field::FieldCache;
use fleet_grid::Grid;
use fleet_queue::ErrandQueue;
use fleet_state::FleetState;
use std::alloc::{AllocError, Allocator};
use std::thread::Threads;

/// The cell of the errand after a queue's front, if its robot is to share a whole field to it that no robot has yet: a
/// new goal's field grows, and is left out. Each errand's cell is floor; this is tested again here, so that no history
/// is needed.
fn goal_ahead<A: Allocator + Copy>(
    courses: &Courses<A>,
    cache: &FieldCache<A>,
    grid: &Grid<A>,
    queue: &ErrandQueue<A>,
) -> Option<u32>
    ensures { IfSome result (λ cell. IsFloor grid.now cell) }
{
    let next = queue.get(1)?;
    if !grid.is_floor(next.cell) || !courses.will_share(cache, next.cell) {
        return None;
    }
    Some(next.cell)
}

/// The cells of the errands after the queues' fronts to which robots are to share whole fields that no robot has yet.
fn goals_ahead<A: Allocator + Copy>(
    alloc: A,
    courses: &Courses<A>,
    cache: &FieldCache<A>,
    grid: &Grid<A>,
    queues: &[ErrandQueue<A>],
) -> Result<Vec<u32, A>, AllocError>
    ensures { IfOk result (λ goals. (i : ℕ) → i < length goals.items → IsFloor grid.now (slice_index goals.items i)) }
{
    let mut goals = Vec::new(alloc);
    for queue in queues {
        if let Some(goal) = goal_ahead(courses, cache, grid, queue) {
            goals.push(goal)?;
        }
    }
    Ok(goals)
}

/// Searches, side by side, the whole fields of the next goals that robots are to share, and returns whether all fit in
/// the cache.
pub(crate) fn search_goals<A: Allocator + Copy + Send + Sync>(
    rt: &(impl Threads + Sync),
    alloc: A,
    courses: &Courses<A>,
    grid: &Grid<A>,
    state: &FleetState<A>,
    cache: &mut FieldCache<A>,
) -> Result<bool, AllocError>
    requires { Keeps grid.now cache.old }
    ensures keeps { Keeps grid.now cache.new }
    ensures refused { OnErr result (cache.new ≡ cache.old) }
{
    let goals = goals_ahead(alloc, courses, cache, grid, state.queues())?;
    cache.search_ahead(rt, grid, &goals)
}
