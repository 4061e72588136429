//! What one robot does wrong in a step.

ghost use Rattle.std.specs.Prelude.{◌≡◌, ◌++◌, ◌∷◌, [], ◌<◌, ◌^◌, ◌⊎◌, ◌↔◌, ℕ, List, OnOk, IsTrue, MatchOption, length, slice_index, if◌then◌else◌};
ghost use Rattle.std.specs.Ordering.{nat_cmp};
ghost use Rattle.std.specs.BTreeMap.{get};
ghost use Rattle.fleet_check.specs.Fault.{Moves};
ghost use Rattle.fleet_check.specs.inside.Seats.{IsSeat};
ghost use Rattle.fleet_grid.specs.Floor.{IsFloor, IsNeighbour};
ghost use Rattle.fleet_conflicts.specs.Conflicts.{Shares, Swaps, IsPart, IsPair, OfRobot};

use crate::seats::seat_at;
use fleet_check::StepFault;
use fleet_grid::Grid;
use std::alloc::{AllocError, Global};
use std::collections::BTreeMap;

/// Whether a robot stays or crosses an edge.
fn moves(grid: &Grid, from: u32, to: u32) -> bool
    ensures { IsTrue result ↔ ((to ≡ from) ⊎ IsNeighbour grid.now from to) }
{
    to == from || grid.has_edge(from, to)
}

/// The first robot that comes to the robot's cell, if it has a lesser number.
fn sharer(to: &[u32], seats: &BTreeMap<u32, u32, Global>, robot: usize) -> Option<u32>
    requires inside { robot < length to.now }
    requires seats { (c : ℕ) → IsSeat to.now 0 c (get nat_cmp seats.now c) }
    ensures { MatchOption result ((j : ℕ) → Shares to.now robot j → ⊥) (Shares to.now robot) }
{
    match seat_at(seats, to[robot]) {
        Some(other) if (other as usize) < robot => Some(other),
        _ => None,
    }
}

/// The first robot that comes to the cell that the robot leaves, if it has a lesser number and the two exchange their cells.
fn swapper(
    from: &[u32],
    to: &[u32],
    seats: &BTreeMap<u32, u32, Global>,
    robot: usize,
) -> Option<u32>
    requires inside { robot < length to.now }
    requires equal { length to.now ≡ length from.now }
    requires seats { (c : ℕ) → IsSeat to.now 0 c (get nat_cmp seats.now c) }
    ensures { MatchOption result ((j : ℕ) → Swaps from.now to.now robot j → ⊥) (Swaps from.now to.now robot) }
{
    if to[robot] == from[robot] {
        return None;
    }
    match seat_at(seats, from[robot]) {
        Some(other) => {
            let at = other as usize;
            if at < robot && from[at] == to[robot] {
                Some(other)
            } else {
                None
            }
        }
        None => None,
    }
}

/// Adds the fault if it is there.
fn add_if(
    faults: &mut Vec<StepFault, Global>,
    there: bool,
    fault: StepFault,
) -> Result<(), AllocError>
    ensures { OnOk result (faults.new.items ≡ faults.old.items ++ (if there then fault ∷ [] else [])) }
{
    if there {
        faults.push(fault)?;
    }
    Ok(())
}

/// Adds that the robot is on a cell that is no floor.
fn add_off(
    faults: &mut Vec<StepFault, Global>,
    grid: &Grid,
    to: &[u32],
    robot: usize,
) -> Result<(), AllocError>
    requires inside { robot < length to.now }
    requires few { length to.now < 2 ^ 32 }
    ensures { OnOk result ((now : List StepFault) × IsPart (IsFloor grid.now (slice_index to.now robot) → ⊥) (StepFault.OffFloor robot) now × (faults.new.items ≡ faults.old.items ++ now)) }
{
    let off = !grid.is_floor(to[robot]);
    add_if(faults, off, StepFault::OffFloor(robot as u32))
}

/// Adds that the robot neither stays nor crosses an edge.
fn add_far(
    faults: &mut Vec<StepFault, Global>,
    grid: &Grid,
    from: &[u32],
    to: &[u32],
    robot: usize,
) -> Result<(), AllocError>
    requires inside { robot < length to.now }
    requires equal { length to.now ≡ length from.now }
    requires few { length to.now < 2 ^ 32 }
    ensures { OnOk result ((now : List StepFault) × IsPart (Moves grid.now from.now to.now robot → ⊥) (StepFault.NotAdjacent robot) now × (faults.new.items ≡ faults.old.items ++ now)) }
{
    let far = !moves(grid, from[robot], to[robot]);
    add_if(faults, far, StepFault::NotAdjacent(robot as u32))
}

/// Adds that another robot comes to the robot's cell.
fn add_shared(
    faults: &mut Vec<StepFault, Global>,
    to: &[u32],
    seats: &BTreeMap<u32, u32, Global>,
    robot: usize,
) -> Result<(), AllocError>
    requires inside { robot < length to.now }
    requires few { length to.now < 2 ^ 32 }
    requires seats { (c : ℕ) → IsSeat to.now 0 c (get nat_cmp seats.now c) }
    ensures { OnOk result ((now : List StepFault) × IsPair (Shares to.now robot) (λ j. StepFault.Vertex j robot) now × (faults.new.items ≡ faults.old.items ++ now)) }
{
    match sharer(to, seats, robot) {
        Some(other) => {
            faults.push(StepFault::Vertex(other, robot as u32))?;
            Ok(())
        }
        None => Ok(()),
    }
}

/// Adds that another robot exchanges its cell with the robot's.
fn add_swapped(
    faults: &mut Vec<StepFault, Global>,
    from: &[u32],
    to: &[u32],
    seats: &BTreeMap<u32, u32, Global>,
    robot: usize,
) -> Result<(), AllocError>
    requires inside { robot < length to.now }
    requires equal { length to.now ≡ length from.now }
    requires few { length to.now < 2 ^ 32 }
    requires seats { (c : ℕ) → IsSeat to.now 0 c (get nat_cmp seats.now c) }
    ensures { OnOk result ((now : List StepFault) × IsPair (Swaps from.now to.now robot) (λ j. StepFault.Swap j robot) now × (faults.new.items ≡ faults.old.items ++ now)) }
{
    match swapper(from, to, seats, robot) {
        Some(other) => {
            faults.push(StepFault::Swap(other, robot as u32))?;
            Ok(())
        }
        None => Ok(()),
    }
}

/// Adds what the robot does wrong.
pub(crate) fn add_robot(
    faults: &mut Vec<StepFault, Global>,
    grid: &Grid,
    from: &[u32],
    to: &[u32],
    seats: &BTreeMap<u32, u32, Global>,
    robot: usize,
) -> Result<(), AllocError>
    requires inside { robot < length to.now }
    requires equal { length to.now ≡ length from.now }
    requires few { length to.now < 2 ^ 32 }
    requires seats { (c : ℕ) → IsSeat to.now 0 c (get nat_cmp seats.now c) }
    ensures { OnOk result ((now : List StepFault) × OfRobot grid.now from.now to.now robot now × (faults.new.items ≡ faults.old.items ++ now)) }
{
    add_off(faults, grid, to, robot)?;
    add_far(faults, grid, from, to, robot)?;
    add_shared(faults, to, seats, robot)?;
    add_swapped(faults, from, to, seats, robot)
}
