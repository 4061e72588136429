//! What is wrong with one step.

ghost use Rattle.std.specs.Prelude.{◌≡◌, ◌∷◌, [], ◌<◌, ◌^◌, IfOk, length};
ghost use Rattle.fleet_conflicts.specs.Conflicts.{OfRobots, OfStep};

use crate::robot::add_robot;
use crate::seats::seats_of;
use fleet_check::StepFault;
use fleet_grid::Grid;
use std::alloc::{AllocError, Global};

/// What the robots do wrong, by their numbers.
fn faults_of_robots(
    alloc: Global,
    grid: &Grid,
    from: &[u32],
    to: &[u32],
) -> Result<Vec<StepFault>, AllocError>
    requires equal { length to.now ≡ length from.now }
    requires few { length to.now < 2 ^ 32 }
    ensures { IfOk result (λ faults. OfRobots grid.now from.now to.now (length to.now) faults.items) }
{
    let seats = seats_of(alloc, to)?;
    let mut faults = Vec::new(alloc);
    for robot in 0..to.len() {
        add_robot(&mut faults, grid, from, to, &seats, robot)?;
    }
    Ok(faults)
}

/// A step that has another number of cells than robots.
fn uneven(alloc: Global) -> Result<Vec<StepFault>, AllocError>
    ensures { IfOk result (λ faults. faults.items ≡ StepFault.Length ∷ []) }
{
    let mut faults = Vec::new(alloc);
    faults.push(StepFault::Length)?;
    Ok(faults)
}

/// What is wrong with a step.
pub(crate) fn faults_of(
    alloc: Global,
    grid: &Grid,
    from: &[u32],
    to: &[u32],
) -> Result<Vec<StepFault>, AllocError>
    requires { length to.now < 2 ^ 32 }
    ensures { IfOk result (λ faults. OfStep grid.now from.now to.now faults.items) }
{
    if to.len() != from.len() {
        return uneven(alloc);
    }
    faults_of_robots(alloc, grid, from, to)
}
