//! The same work for several goals.

ghost use Rattle.std.specs.Prelude.{IfOk};
ghost use Rattle.fleet_field.specs.inside.Work.{AreMadeOf};

use rayon::prelude::*;
use std::alloc::{AllocError, Allocator};
use std::thread::Threads;

/// From this many cells to search on, threads save more time than they cost.
const LARGE: u64 = 1_048_576;

/// From this many goals on, threads search them whatever the map.
const MANY: usize = 2_048;

/// Whether the searches of this many goals are worth several threads.
fn is_large(cell_count: u32, goal_count: usize) -> bool {
    let searched = u64::from(cell_count).saturating_mul(goal_count as u64);
    goal_count >= MANY || goal_count >= 2 && searched >= LARGE
}

/// What the work makes of each goal, one after another.
fn in_turn<A: Allocator + Copy, T: Drop, F: Fn(&u32) -> Result<T, AllocError> + Copy>(
    alloc: A,
    goals: &[u32],
    work: F,
) -> Result<Vec<T, A>, AllocError>
    requires { F.IsAlwaysCallable work }
    ensures { IfOk result (λ made. AreMadeOf (F.post work) goals.now made.items) }
{
    let mut made = Vec::with_capacity(alloc, goals.len())?;
    for goal in goals {
        let one = work(goal)?;
        made.push_reserved(one);
    }
    Ok(made)
}

/// What the work makes of each goal, from as many threads as there are processors.
fn side_by_side<
    A: Allocator + Copy + Send + Sync,
    T: Send + Drop,
    F: Fn(&u32) -> Result<T, AllocError> + Copy + Send + Sync,
>(rt: &(impl Threads + Sync), alloc: A, goals: &[u32], work: F) -> Result<Vec<T, A>, AllocError>
    requires { F.IsAlwaysCallable work }
    ensures { IfOk result (λ made. AreMadeOf (F.post work) goals.now made.items) }
{
    goals
        .par_iter()
        .with_min_len(1)
        .map(work)
        .collect::<Result<Vec<T, A>, AllocError>>(rt, alloc)?
}

/// What the work makes of each goal of a map of this many cells. Large work is done by several threads, and so is that
/// for many goals, whatever the map.
pub(crate) fn of_each<
    A: Allocator + Copy + Send + Sync,
    T: Send + Drop,
    F: Fn(&u32) -> Result<T, AllocError> + Copy + Send + Sync,
>(
    rt: &(impl Threads + Sync),
    alloc: A,
    cell_count: u32,
    goals: &[u32],
    work: F,
) -> Result<Vec<T, A>, AllocError>
    requires { F.IsAlwaysCallable work }
    ensures { IfOk result (λ made. AreMadeOf (F.post work) goals.now made.items) }
{
    if is_large(cell_count, goals.len()) {
        side_by_side(rt, alloc, goals, work)
    } else {
        in_turn(alloc, goals, work)
    }
}
