//! Whether waits leave room for the bound on waits.

ghost use Rattle.std.specs.Prelude.{◌≡◌, ◌↔◌, ◌^◌, ◌+◌, ◌*◌, ◌<◌, ◌≤◌, ℕ, max, Some, None, IsTrue, IfOk, false, length, slice_index_or};
ghost use Rattle.fleet_bound.specs.Waiting.{comes_before};
ghost use Rattle.fleet_grid.specs.Floor.{IsFloor, IsNeighbour};
ghost use Rattle.fleet_grid.specs.Walk.{IsBridgeless, IsDistance};
ghost use Rattle.fleet_pibt.specs.Eldest.{IsEldest};
ghost use Rattle.fleet_planner.specs.Aimed.{first_goal};
ghost use Rattle.fleet_history.specs.History.{History, clock};
ghost use Rattle.fleet_bound.specs.Bound.{KeepsBound};
ghost use Rattle.fleet_state.specs.State.{IsStateOf};
ghost use Rattle.fleet_reopen.specs.Room.{count_before, HaveRoom, HasNoRoom, WaitTooLong};

use crate::reach::apart;
use fleet_bridge::first_bridge;
use fleet_field::Field;
use fleet_grid::Grid;
use fleet_planner::eldest;
use fleet_state::FleetState;
use std::alloc::{AllocError, Allocator};

/// Whether robot q with this wait comes before robot r, which has waited `wait`.
fn comes_before(other: Option<u64>, q: usize, wait: u64, r: usize) -> bool
    ensures { result ≡ comes_before other q wait r }
{
    match other {
        None => false,
        Some(longer) => wait < longer || (longer == wait && q < r),
    }
}

/// How many robots come before robot r, which has waited `wait`.
fn count_before(waits: &[Option<u64>], r: usize, wait: u64) -> u64
    requires { length waits.now ≤ 512 }
    ensures { result ≡ count_before waits.now r wait }
{
    let mut count = 0;
    for q in 0..waits.len() {
        if comes_before(waits[q], q, wait, r) {
            count += 1;
        }
    }
    count
}

fn at_least_one(edges: u32) -> u64
    ensures { result ≡ max 1 edges }
{
    if edges < 1 { 1 } else { u64::from(edges) }
}

/// Whether a wait, a walk, and a way of `reach` edges for each robot before, are together at most `all`.
fn fits(wait: u64, walk: u64, before: u64, reach: u32, all: u64) -> bool
    requires wait { wait ≤ 2 ^ 62 }
    requires walk { walk < 2 ^ 33 }
    requires before { before ≤ 512 }
    ensures { IsTrue result ↔ (wait + walk + before * reach ≤ all) }
{
    wait + walk + before * u64::from(reach) <= all
}

/// Whether each robot has room to wait while the eldest walks this far, and each robot before it a longest way.
fn have_room(waits: &[Option<u64>], far: u32, reach: u32) -> bool
    requires few { length waits.now ≤ 512 }
    requires small { (r w : ℕ) → slice_index_or waits.now r None ≡ Some w → w ≤ 2 ^ 62 }
    ensures { IsTrue result ↔ HaveRoom waits.now far reach }
{
    let all = waits.len() as u64 * u64::from(reach);
    let walk = at_least_one(far);
    for r in 0..waits.len() {
        if let Some(wait) = waits[r] {
            let before = count_before(waits, r, wait);
            if !fits(wait, walk, before, reach, all) {
                return false;
            }
        }
    }
    true
}

/// How far the robot is from the cell; 0 if no walk leads there.
fn walk_of<A: Allocator + Copy>(
    alloc: A,
    grid: &Grid<A>,
    from: u32,
    to: u32,
) -> Result<u32, AllocError>
    requires { IsFloor grid.now to }
    ensures { IfOk result (λ far. (d : ℕ) → IsDistance (IsNeighbour grid.now) from to d → d ≡ far) }
{
    let field = Field::from(alloc, grid, to)?;
    Ok(field.at(from).unwrap_or(0))
}

/// Whether the waits leave room while the eldest robot goes to its goal.
fn keeps_bound<A: Allocator + Copy>(
    alloc: A,
    grid: &Grid<A>,
    state: &FleetState<A>,
    robot: u32,
    goal: u32,
) -> Result<bool, AllocError>
    requires is { (h : History A) × IsStateOf grid.now h state.now × (clock h ≤ 2 ^ 62) }
    requires eldest { IsEldest state.now.waits robot }
    requires goal { first_goal state.now.queues robot ≡ Some goal }
    ensures yes { IfOk result (λ within. IsTrue within → (h : History A) → IsStateOf grid.now h state.now → KeepsBound grid.now h) }
    ensures no { IfOk result (λ within. within ≡ false → (h : History A) → IsStateOf grid.now h state.now → HasNoRoom grid.now h) }
{
    let far = walk_of(alloc, grid, state.place()[robot as usize], goal)?;
    let reach = apart(alloc, grid, goal)?;
    Ok(have_room(state.waits(), far, reach))
}

/// Whether the map has no bridge.
fn has_no_bridge<A: Allocator + Copy>(alloc: A, grid: &Grid<A>) -> Result<bool, AllocError>
    ensures { IfOk result (λ none. IsTrue none ↔ IsBridgeless (IsNeighbour grid.now)) }
{
    Ok(first_bridge(alloc, grid)?.is_none())
}

/// Whether a history in this state keeps the bound on waits if the map has no bridge. The answer may be no where two
/// cells are further apart than two searches find.
pub(crate) fn is_within_bound<A: Allocator + Copy>(
    alloc: A,
    grid: &Grid<A>,
    state: &FleetState<A>,
) -> Result<bool, AllocError>
    requires is { (h : History A) × IsStateOf grid.now h state.now × (clock h ≤ 2 ^ 62) }
    ensures yes { IfOk result (λ within. IsTrue within → (h : History A) → IsStateOf grid.now h state.now → IsBridgeless (IsNeighbour grid.now) → KeepsBound grid.now h) }
    ensures no { IfOk result (λ within. within ≡ false → (h : History A) → IsStateOf grid.now h state.now → WaitTooLong grid.now h) }
{
    if !has_no_bridge(alloc, grid)? {
        return Ok(true);
    }
    let Some(robot) = eldest(state.waits()) else {
        return Ok(true);
    };
    let Some(front) = state.front(robot) else {
        return Ok(true);
    };
    keeps_bound(alloc, grid, state, robot, front.cell)
}
