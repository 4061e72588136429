//! Calls that look at a fleet. None of them changes it.

ghost use Rattle.std.specs.Prelude.{◌≡◌, ◌↔◌, ◌≢◌, IsTrue};
ghost use Rattle.fleet_planner.specs.Aimed.{IsIdle};
ghost use Rattle.fleet_grid.specs.Floor.{IsNeighbour};
ghost use Rattle.fleet_grid.specs.Walk.{IsBridgeless};
ghost use Rattle.fleet_history.specs.History.{clock};
ghost use Rattle.fleet_c.specs.Views.{Places, Waits, HasEldest, HasLongest, HasIdle, HasLimit};
ghost use Rattle.fleet_c.specs.Handles.{OfFleet};

use crate::codes::{DONE, HAS_BRIDGE, IDLE, NO_ROBOT, NOT_OPEN, WRONG_LENGTH};
use crate::handle::Handle;
use fleet_core::Core;
use std::alloc::Global;

/// Copies the robots' cells.
pub(crate) fn placement(core: &Core, cells: &mut [u32]) -> u32
    ensures { Places core.now result cells.old cells.new }
{
    let placement = core.placement();
    if cells.len() != placement.len() {
        return WRONG_LENGTH;
    }
    cells.copy_from_slice(placement);
    DONE
}

/// How long the robot has waited.
fn wait_of(core: &Core, robot: u32, ticks: &mut u64) -> u32
    ensures says { Waits core.now robot result ticks.new }
    ensures untouched { (result ≢ DONE) → ticks.new ≡ ticks.old }
{
    if robot as usize >= core.robots() {
        return NO_ROBOT;
    }
    match core.wait_of(robot) {
        Some(wait) => {
            *ticks = wait;
            DONE
        }
        None => IDLE,
    }
}

/// The eldest robot.
fn eldest(core: &Core, robot: &mut u32) -> u32
    ensures says { HasEldest core.now result robot.new }
    ensures untouched { (result ≢ DONE) → robot.new ≡ robot.old }
{
    match core.eldest() {
        Some(eldest) => {
            *robot = eldest;
            DONE
        }
        None => IDLE,
    }
}

/// How long the eldest robot has waited.
fn longest_wait(core: &Core, ticks: &mut u64) -> u32
    ensures says { HasLongest core.now result ticks.new }
    ensures untouched { (result ≢ DONE) → ticks.new ≡ ticks.old }
{
    match core.longest_wait() {
        Some(longest) => {
            *ticks = longest;
            DONE
        }
        None => IDLE,
    }
}

/// Within how many ticks no robot has an errand.
fn idle_within(core: &Core, ticks: &mut u64) -> u32
    ensures says { HasIdle core.now result ticks.new }
    ensures untouched { (result ≢ DONE) → ticks.new ≡ ticks.old }
{
    match core.idle_within() {
        Some(most) => {
            *ticks = most;
            DONE
        }
        None => HAS_BRIDGE,
    }
}

/// How many ticks no wait reaches.
fn wait_limit(core: &Core, ticks: &mut u64) -> u32
    ensures says { HasLimit core.now result ticks.new }
    ensures untouched { (result ≢ DONE) → ticks.new ≡ ticks.old }
{
    match core.wait_limit() {
        Some(limit) => {
            *ticks = limit;
            DONE
        }
        None => HAS_BRIDGE,
    }
}

/// The robots' cells, by number.
///
/// Refused in this order: the handle is closed, the list's length is not the number of robots.
#[unsafe(no_mangle)]
pub extern "C" fn nashirudder_placement(alloc: Global, fleet: &mut Handle, cells: &mut [u32]) -> u32
    ensures says { OfFleet fleet.old.owned.held fleet.new.owned.held result (λ w. Places w result cells.old cells.new) }
    ensures untouched { (result ≢ DONE) → cells.new ≡ cells.old }
{
    let Some(held) = fleet.take(alloc) else {
        return NOT_OPEN;
    };
    let code = placement(&held.core, cells);
    fleet.put(held);
    code
}

/// The ticks made so far. Refused where the handle is closed.
#[unsafe(no_mangle)]
pub extern "C" fn nashirudder_clock(alloc: Global, fleet: &mut Handle, ticks: &mut u64) -> u32
    ensures says { OfFleet fleet.old.owned.held fleet.new.owned.held result (λ w. (result ≡ DONE) × (ticks.new ≡ clock w.history)) }
    ensures untouched { (result ≢ DONE) → ticks.new ≡ ticks.old }
{
    let Some(held) = fleet.take(alloc) else {
        return NOT_OPEN;
    };
    *ticks = held.core.clock();
    fleet.put(held);
    DONE
}

/// How many ticks a robot has waited for the arrival at its front errand's cell.
///
/// Refused in this order: the handle is closed, there is no such robot, it has no errand.
#[unsafe(no_mangle)]
pub extern "C" fn nashirudder_wait_of(
    alloc: Global,
    fleet: &mut Handle,
    robot: u32,
    ticks: &mut u64,
) -> u32
    ensures says { OfFleet fleet.old.owned.held fleet.new.owned.held result (λ w. Waits w robot result ticks.new) }
    ensures untouched { (result ≢ DONE) → ticks.new ≡ ticks.old }
{
    let Some(held) = fleet.take(alloc) else {
        return NOT_OPEN;
    };
    let code = wait_of(&held.core, robot, ticks);
    fleet.put(held);
    code
}

/// The robot with the longest wait; on a tie, the one with the lowest number.
///
/// Refused in this order: the handle is closed, no robot has an errand.
#[unsafe(no_mangle)]
pub extern "C" fn nashirudder_eldest(alloc: Global, fleet: &mut Handle, robot: &mut u32) -> u32
    ensures says { OfFleet fleet.old.owned.held fleet.new.owned.held result (λ w. HasEldest w result robot.new) }
    ensures untouched { (result ≢ DONE) → robot.new ≡ robot.old }
{
    let Some(held) = fleet.take(alloc) else {
        return NOT_OPEN;
    };
    let code = eldest(&held.core, robot);
    fleet.put(held);
    code
}

/// How many ticks the eldest robot has waited.
///
/// Refused in this order: the handle is closed, no robot has an errand.
#[unsafe(no_mangle)]
pub extern "C" fn nashirudder_longest_wait(
    alloc: Global,
    fleet: &mut Handle,
    ticks: &mut u64,
) -> u32
    ensures says { OfFleet fleet.old.owned.held fleet.new.owned.held result (λ w. HasLongest w result ticks.new) }
    ensures untouched { (result ≢ DONE) → ticks.new ≡ ticks.old }
{
    let Some(held) = fleet.take(alloc) else {
        return NOT_OPEN;
    };
    let code = longest_wait(&held.core, ticks);
    fleet.put(held);
    code
}

/// Whether no robot has an errand. Refused where the handle is closed.
#[unsafe(no_mangle)]
pub extern "C" fn nashirudder_is_idle(alloc: Global, fleet: &mut Handle, is_idle: &mut bool) -> u32
    ensures says { OfFleet fleet.old.owned.held fleet.new.owned.held result (λ w. (result ≡ DONE) × (IsTrue is_idle.new ↔ IsIdle w.history)) }
    ensures untouched { (result ≢ DONE) → is_idle.new ≡ is_idle.old }
{
    let Some(held) = fleet.take(alloc) else {
        return NOT_OPEN;
    };
    *is_idle = held.core.is_idle();
    fleet.put(held);
    DONE
}

/// The number of ticks after which no robot has an errand, if no order is taken meanwhile.
///
/// Refused in this order: the handle is closed, the map has a bridge.
#[unsafe(no_mangle)]
pub extern "C" fn nashirudder_idle_within(alloc: Global, fleet: &mut Handle, ticks: &mut u64) -> u32
    ensures says { OfFleet fleet.old.owned.held fleet.new.owned.held result (λ w. HasIdle w result ticks.new) }
    ensures untouched { (result ≢ DONE) → ticks.new ≡ ticks.old }
{
    let Some(held) = fleet.take(alloc) else {
        return NOT_OPEN;
    };
    let code = idle_within(&held.core, ticks);
    fleet.put(held);
    code
}

/// A number of ticks that no wait reaches, whatever is ordered.
///
/// Refused in this order: the handle is closed, the map has a bridge.
#[unsafe(no_mangle)]
pub extern "C" fn nashirudder_wait_limit(alloc: Global, fleet: &mut Handle, ticks: &mut u64) -> u32
    ensures says { OfFleet fleet.old.owned.held fleet.new.owned.held result (λ w. HasLimit w result ticks.new) }
    ensures untouched { (result ≢ DONE) → ticks.new ≡ ticks.old }
{
    let Some(held) = fleet.take(alloc) else {
        return NOT_OPEN;
    };
    let code = wait_limit(&held.core, ticks);
    fleet.put(held);
    code
}

/// Whether the map has no bridge. Refused where the handle is closed.
#[unsafe(no_mangle)]
pub extern "C" fn nashirudder_is_bridgeless(
    alloc: Global,
    fleet: &mut Handle,
    is_bridgeless: &mut bool,
) -> u32
    ensures says { OfFleet fleet.old.owned.held fleet.new.owned.held result (λ w. (result ≡ DONE) × (IsTrue is_bridgeless.new ↔ IsBridgeless (IsNeighbour w.floor))) }
    ensures untouched { (result ≢ DONE) → is_bridgeless.new ≡ is_bridgeless.old }
{
    let Some(held) = fleet.take(alloc) else {
        return NOT_OPEN;
    };
    *is_bridgeless = held.core.is_bridgeless();
    fleet.put(held);
    DONE
}
