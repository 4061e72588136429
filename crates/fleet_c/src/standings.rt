//! How the robots stand.

ghost use Rattle.std.specs.Prelude.{◌≡◌, ◌≢◌, ◌<◌, ◌≤◌, ◌==◌, ℕ, false, length, map, slice_index, slice_index_or};
ghost use Rattle.fleet_history.specs.History.{place, robots};
ghost use Rattle.fleet_c.specs.Errands.{HasStandings, standing_of};
ghost use Rattle.fleet_c.specs.Handles.{OfFleet};
ghost use Rattle.fleet_c.specs.inside.Runs.{run, noted, shut_if, shut_by, begun, AreAll};

use crate::chore::Chore;
use crate::codes::{DONE, NO_MEMORY, NOT_OPEN, WRONG_LENGTH};
use crate::errands::all_errands;
use crate::handle::Handle;
use crate::standing::{NOWHERE, SHUT, Standing, state_of};
use fleet_core::{Core, Entry, RobotState};
use std::alloc::Global;

/// Whether the robot was shut at the opening.
fn was_shut(robots: &[RobotState], robot: u32) -> bool
    ensures { result ≡ slice_index_or (map (λ x. x.shut) robots.now) robot false }
{
    let robot = robot as usize;
    if robot < robots.len() {
        robots[robot].shut
    } else {
        false
    }
}

/// The robot's cell.
fn cell_of(core: &Core, robot: u32) -> u32
    ensures { result ≡ slice_index (place core.now.history) robot }
{
    match core.placement().get(robot as usize) {
        Some(cell) => *cell,
        None => 0,
    }
}

/// The robot's cell and wait. Its errands are not noted, nor that it was shut since the opening.
fn begin(core: &Core, robot: u32) -> Standing
    requires { robot < robots core.now.history }
    ensures { result ≡ begun core.now robot }
{
    let is_shut = was_shut(core.chapter().opening.robots.as_slice(), robot);
    let wait = core.wait_of(robot);
    Standing {
        wait: wait.unwrap_or(0),
        errands: 0,
        cell: cell_of(core, robot),
        goal: NOWHERE,
        state: state_of(is_shut, wait.is_some()),
    }
}

/// Writes the robots' cells and waits.
fn begin_all(core: &Core, standings: &mut [Standing])
    requires few { length standings.old ≤ 512 }
    requires places { length standings.old ≡ robots core.now.history }
    ensures { (r : ℕ) (d : Standing) → r < length standings.old → slice_index_or standings.new r d ≡ begun core.now r }
{
    for robot in 0..standings.len() {
        standings[robot] = begin(core, robot as u32);
    }
}

/// Notes an errand at its robot.
fn note_errand(chore: Chore, standings: &mut [Standing])
    ensures { (r : ℕ) (d : Standing) → r < length standings.old → slice_index_or standings.new r d ≡ noted r chore (slice_index_or standings.old r d) }
{
    let robot = chore.robot as usize;
    if robot < standings.len() {
        standings[robot] = standings[robot].with(chore);
    }
}

/// Notes the errands at their robots.
fn note_errands(all: &[Chore], standings: &mut [Standing])
    ensures { (r : ℕ) (d : Standing) → r < length standings.old → slice_index_or standings.new r d ≡ run (noted r) all.now (slice_index_or standings.old r d) }
{
    for at in 0..all.len() {
        note_errand(all[at], standings);
    }
}

/// Notes that the robot is shut, if there is such a robot.
fn note_robot_shut(robot: u32, standings: &mut [Standing])
    ensures { (r : ℕ) (d : Standing) → r < length standings.old → slice_index_or standings.new r d ≡ shut_if (robot == r) (slice_index_or standings.old r d) }
{
    let robot = robot as usize;
    if robot < standings.len() {
        standings[robot] = Standing {
            state: SHUT,
            ..standings[robot]
        };
    }
}

/// Notes a shut, if the entry is one.
fn note_shut(entry: &Entry, standings: &mut [Standing])
    ensures { (r : ℕ) (d : Standing) → r < length standings.old → slice_index_or standings.new r d ≡ shut_by r entry.now (slice_index_or standings.old r d) }
{
    match entry {
        Entry::Shut { robot, farewell: _ } => note_robot_shut(*robot, standings),
        Entry::Take { .. } => {}
        Entry::Tick { .. } => {}
    }
}

/// Notes the shuts.
fn note_shuts(entries: &[Entry], standings: &mut [Standing])
    ensures { (r : ℕ) (d : Standing) → r < length standings.old → slice_index_or standings.new r d ≡ run (shut_by r) entries.now (slice_index_or standings.old r d) }
{
    for at in 0..entries.len() {
        note_shut(&entries[at], standings);
    }
}

/// Writes how the robots stand.
fn write_standings(all: &[Chore], core: &Core, standings: &mut [Standing])
    requires all { AreAll core.now.history all.now }
    requires places { length standings.old ≡ robots core.now.history }
    ensures { (r : ℕ) (d : Standing) → r < robots core.now.history → slice_index_or standings.new r d ≡ standing_of core.now r }
{
    begin_all(core, standings);
    note_errands(all, standings);
    note_shuts(core.chapter().entries.as_slice(), standings);
}

/// How the robots stand, if the list has a place for each.
fn list_standings(alloc: Global, core: &Core, standings: &mut [Standing]) -> u32
    ensures { HasStandings core.now result standings.old standings.new }
{
    if standings.len() != core.robots() {
        return WRONG_LENGTH;
    }
    let Ok(all) = all_errands(alloc, core) else {
        return NO_MEMORY;
    };
    write_standings(all.as_slice(), core, standings);
    DONE
}

/// How each robot stands, by number: its cell, its goal, how many errands it has, how long it has waited, and whether
/// it is free, busy or shut.
///
/// Refused in this order: the handle is closed, the list's length is not the number of robots, out of memory.
#[unsafe(no_mangle)]
pub extern "C" fn nashirudder_standings(
    alloc: Global,
    fleet: &mut Handle,
    standings: &mut [Standing],
) -> u32
    ensures says { OfFleet fleet.old.owned.held fleet.new.owned.held result (λ w. HasStandings w result standings.old standings.new) }
    ensures untouched { (result ≢ DONE) → standings.new ≡ standings.old }
{
    let Some(held) = fleet.take(alloc) else {
        return NOT_OPEN;
    };
    let code = list_standings(alloc, &held.core, standings);
    fleet.put(held);
    code
}
