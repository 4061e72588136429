//! Calls that need only a map.

ghost use Rattle.std.specs.Prelude.{⊤, ◌≡◌, ◌<◌, ◌≤◌, ◌^◌, ℕ, IfErr, OnOk, length, slice_index, slice_index_or, None};
ghost use Rattle.fleet_grid.specs.Floor.{IsFloor};
ghost use Rattle.fleet_grid.specs.Step.{IsPlacement, IsConflictFree};
ghost use Rattle.fleet_c.specs.Maps.{OnMap, IsMapFault, IsStepChecked, IsStepRefusal, HasBridge, AreAway, told_away};

use crate::codes::{DONE, GOAL_BLOCKED, NO_BRIDGE, NO_MEMORY, WRONG_LENGTH};
use crate::edge::Edge;
use crate::fault::Fault;
use crate::opening::grid_of;
use crate::refusal::map_fault;
use crate::step_refusal::StepRefusal;
use fleet_bridge::first_bridge;
use fleet_check::{StepFault, check_placement, check_step};
use fleet_field::Field;
use fleet_grid::Grid;
use fleet_map::MapFault;
use std::alloc::Global;

/// The distance of a cell from which no walk leads to the goal.
const FAR: u32 = 4_294_967_295;

/// Tells a map's fault.
pub(crate) fn tell(why: MapFault, fault: &mut Fault) -> u32
    ensures { IsMapFault why result fault.new }
{
    *fault = map_fault(why);
    fault.code
}

/// A step, after the cells before it.
fn step_on(alloc: Global, grid: &Grid, from: &[u32], to: &[u32]) -> Result<(), StepRefusal>
    ensures ok { OnOk result (IsPlacement grid.now from.now × IsConflictFree grid.now from.now to.now) }
    ensures err { IfErr result (λ why. IsStepRefusal grid.now from.now to.now why) }
{
    if from.len() > grid.cell_count() as usize {
        return Err(StepRefusal::TooMany);
    }
    match check_placement(alloc, grid, from) {
        Ok(()) => match check_step(alloc, grid, from, to) {
            Ok(()) => Ok(()),
            Err(StepFault::NoMemory) => Err(StepRefusal::NoMemory),
            Err(why) => Err(StepRefusal::Step(why)),
        },
        Err(StepFault::OffFloor(robot)) => Err(StepRefusal::FromBlocked(robot)),
        Err(StepFault::Vertex(a, b)) => Err(StepRefusal::FromShared(a, b)),
        Err(StepFault::NoMemory) => Err(StepRefusal::NoMemory),
        // A placement has none of the other faults.
        Err(_) => unreachable!(),
    }
}

/// Checks a step, and tells its fault.
pub(crate) fn checked(
    alloc: Global,
    grid: &Grid,
    from: &[u32],
    to: &[u32],
    fault: &mut Fault,
) -> u32
    ensures { IsStepChecked grid.now from.now to.now result fault.old fault.new }
{
    match step_on(alloc, grid, from, to) {
        Ok(()) => DONE,
        Err(why) => {
            *fault = why.fault();
            fault.code
        }
    }
}

/// The first bridge of a floor.
pub(crate) fn bridge_on(alloc: Global, grid: &Grid, edge: &mut Edge) -> u32
    ensures { HasBridge grid.now result edge.old edge.new }
{
    match first_bridge(alloc, grid) {
        Ok(Some((lower, upper))) => {
            *edge = Edge { lower, upper };
            DONE
        }
        Ok(None) => NO_BRIDGE,
        Err(_) => NO_MEMORY,
    }
}

/// How far the cell is from the field's goal.
fn away(field: &Field, cell: u32) -> u32
    ensures { result ≡ told_away (slice_index_or field.now.away cell None) }
{
    match field.at(cell) {
        Some(away) => away,
        None => FAR,
    }
}

/// Writes how far each cell is.
fn write_away(field: &Field, distances: &mut [u32])
    requires { length distances.old < 2 ^ 32 }
    ensures { (cell : ℕ) → cell < length distances.old → slice_index distances.new cell ≡ told_away (slice_index_or field.now.away cell None) }
{
    for cell in 0..distances.len() {
        distances[cell] = away(field, cell as u32);
    }
}

/// The distances of a floor's cells to a goal.
pub(crate) fn distances_on(alloc: Global, grid: &Grid, goal: u32, distances: &mut [u32]) -> u32
    ensures { AreAway grid.now goal distances.old distances.new result }
{
    if distances.len() != grid.cell_count() as usize {
        return WRONG_LENGTH;
    }
    if !grid.is_floor(goal) {
        return GOAL_BLOCKED;
    }
    let Ok(field) = Field::from(alloc, grid, goal) else {
        return NO_MEMORY;
    };
    write_away(&field, distances);
    DONE
}

/// Whether a step is free of conflicts, or its first fault.
///
/// Refused in this order, and told in `fault`: the map's first fault; more cells before the step than the map has; a
/// robot that is not on floor before the step, two that are on one cell; the step's first fault; and out of memory at
/// any time.
#[unsafe(no_mangle)]
pub extern "C" fn nashirudder_check_step(
    alloc: Global,
    map: &[u8],
    from: &[u32],
    to: &[u32],
    fault: &mut Fault,
) -> u32
    ensures { OnMap map.now result fault.new (λ m. IsStepChecked m from.now to.now result fault.old fault.new) ⊤ }
{
    match grid_of(alloc, map) {
        Ok(grid) => checked(alloc, &grid, from, to, fault),
        Err(why) => tell(why, fault),
    }
}

/// The bridge of a map whose lower cell is least, and among those the one whose upper cell is least.
///
/// Refused in this order: the map's first fault, told in `fault`; there is no bridge; and out of memory at any time.
#[unsafe(no_mangle)]
pub extern "C" fn nashirudder_first_bridge(
    alloc: Global,
    map: &[u8],
    edge: &mut Edge,
    fault: &mut Fault,
) -> u32
    ensures { OnMap map.now result fault.new (λ m. HasBridge m result edge.old edge.new × (fault.new ≡ fault.old)) (edge.new ≡ edge.old) }
{
    match grid_of(alloc, map) {
        Ok(grid) => bridge_on(alloc, &grid, edge),
        Err(why) => tell(why, fault),
    }
}

/// The least number of edges of a walk from each cell to the goal.
///
/// Refused in this order: the map's first fault, named in `fault`; the list's length is not the number of cells; the
/// goal is not floor; and out of memory at any time.
#[unsafe(no_mangle)]
pub extern "C" fn nashirudder_distances(
    alloc: Global,
    map: &[u8],
    goal: u32,
    distances: &mut [u32],
    fault: &mut Fault,
) -> u32
    ensures { OnMap map.now result fault.new (λ m. AreAway m goal distances.old distances.new result × (fault.new ≡ fault.old)) (distances.new ≡ distances.old) }
{
    match grid_of(alloc, map) {
        Ok(grid) => distances_on(alloc, &grid, goal, distances),
        Err(why) => tell(why, fault),
    }
}
