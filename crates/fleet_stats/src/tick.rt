//! What a tick shows, by the waits and the cells before it.

ghost use Rattle.std.specs.Prelude.{◌≡◌, ◌++◌, ◌^◌, ◌<◌, length, count_by, slice_index, unwrap_or, IfOk, OnOk};
ghost use Rattle.std.specs.List.{range_with_len};
ghost use Rattle.fleet_stats.specs.Noted.{wait_at, is_busy, is_idle, moves, stands, longest, tick_row, cell_if, stood_below, no_leg, leg_at, step_more, walked, begun_on, arrives, leg_after, legs_after, landed_by};

use crate::rows::{Landed, Leg, TickRow};
use fleet_history::Arrival;
use std::alloc::{AllocError, Global};

/// The robot's cell; 0 if there is no such robot.
pub(crate) fn cell_at(cells: &[u32], robot: usize) -> u32
    ensures { result ≡ slice_index cells.now robot }
{
    if robot < cells.len() { cells[robot] } else { 0 }
}

/// The number at a place; 0 past the end.
pub(crate) fn number_at(numbers: &[u64], place: usize) -> u64
    ensures { result ≡ slice_index numbers.now place }
{
    if place < numbers.len() {
        numbers[place]
    } else {
        0
    }
}

/// The robot's wait.
fn wait_at(waits: &[Option<u64>], robot: usize) -> Option<u64>
    ensures { result ≡ wait_at waits.now robot }
{
    if robot < waits.len() {
        waits[robot]
    } else {
        None
    }
}

/// Whether the robot has an errand.
fn is_busy(waits: &[Option<u64>], robot: usize) -> bool
    ensures { result ≡ is_busy (wait_at waits.now robot) }
{
    match wait_at(waits, robot) {
        Some(_) => true,
        None => false,
    }
}

/// Whether the robot changes its cell.
fn moves(from: &[u32], to: &[u32], robot: usize) -> bool
    ensures { result ≡ moves from.now to.now robot }
{
    cell_at(from, robot) != cell_at(to, robot)
}

/// Whether the robot has an errand and stays on its cell.
fn stands(waits: &[Option<u64>], from: &[u32], to: &[u32], robot: usize) -> bool
    ensures { result ≡ stands waits.now from.now to.now robot }
{
    is_busy(waits, robot) && cell_at(from, robot) == cell_at(to, robot)
}

/// How many robots change their cells.
fn moves_of(from: &[u32], to: &[u32]) -> usize
    ensures { result ≡ count_by (moves from.now to.now) (range_with_len 0 (length to.now)) }
{
    (0..to.len())
        .filter(|robot| moves(from, to, *robot))
        .count()
}

/// How many robots have no errand.
fn idle_of(waits: &[Option<u64>]) -> usize
    ensures { result ≡ count_by is_idle waits.now }
{
    waits.iter().filter(|wait| matches!(wait, None)).count()
}

/// A wait, 0 if there is none.
fn wait_or_none(wait: Option<u64>) -> u64
    ensures { result ≡ unwrap_or wait 0 }
{
    match wait {
        Some(wait) => wait,
        None => 0,
    }
}

/// The longest wait.
fn longest(waits: &[Option<u64>]) -> u64
    ensures { result ≡ longest waits.now }
{
    waits
        .iter()
        .fold(0, |most: u64, wait| most.max(wait_or_none(*wait)))
}

/// The row of a tick.
pub(crate) fn tick_row(
    clock: u64,
    waits: &[Option<u64>],
    from: &[u32],
    to: &[u32],
    arrived: &[Arrival],
) -> TickRow
    requires { clock < 2 ^ 63 }
    ensures { result ≡ tick_row clock waits.now from.now to.now arrived.now }
{
    TickRow {
        tick: clock + 1,
        arrivals: arrived.len() as u64,
        moves: moves_of(from, to) as u64,
        idle: idle_of(waits) as u64,
        waited: longest(waits),
    }
}

/// Adds the cell, if a robot stands there.
fn push_if(cells: &mut Vec<u32>, stands: bool, cell: u32) -> Result<(), AllocError>
    ensures { OnOk result (cells.new.items ≡ cells.old.items ++ cell_if stands cell) }
{
    if stands {
        cells.push(cell)?;
    }
    Ok(())
}

/// Adds the cells of the robots that stand.
pub(crate) fn push_stood(
    cells: &mut Vec<u32>,
    waits: &[Option<u64>],
    from: &[u32],
    to: &[u32],
) -> Result<(), AllocError>
    ensures { OnOk result (cells.new.items ≡ cells.old.items ++ stood_below waits.now from.now to.now (length to.now)) }
{
    for robot in 0..to.len() {
        push_if(cells, stands(waits, from, to, robot), to[robot])?;
    }
    Ok(())
}

/// The robot's way.
fn leg_at(legs: &[Leg], robot: usize) -> Leg
    ensures { result ≡ leg_at legs.now robot }
{
    if robot < legs.len() {
        legs[robot]
    } else {
        Leg { from: 0, steps: 0 }
    }
}

/// The steps of a way, with one more if the robot moves.
fn step_more(moves: bool, steps: u64) -> u64
    ensures { result ≡ step_more moves steps }
{
    if moves {
        steps.saturating_add(1)
    } else {
        steps
    }
}

/// The robot's way, with the step of the tick.
fn walked(from: &[u32], to: &[u32], legs: &[Leg], robot: usize) -> Leg
    ensures { result ≡ walked from.now to.now legs.now robot }
{
    let leg = leg_at(legs, robot);
    Leg {
        from: leg.from,
        steps: step_more(moves(from, to, robot), leg.steps),
    }
}

/// Whether the robot is one of those that arrived.
fn arrives(arrived: &[Arrival], robot: usize) -> bool
    ensures { result ≡ arrives arrived.now robot }
{
    arrived
        .iter()
        .any(|arrival| arrival.robot as usize == robot)
}

/// The robot's way after the tick.
fn leg_after(
    waits: &[Option<u64>],
    from: &[u32],
    to: &[u32],
    arrived: &[Arrival],
    legs: &[Leg],
    robot: usize,
) -> Leg
    ensures { result ≡ leg_after waits.now from.now to.now arrived.now legs.now robot }
{
    if is_busy(waits, robot) && !arrives(arrived, robot) {
        walked(from, to, legs, robot)
    } else {
        Leg {
            from: cell_at(to, robot),
            steps: 0,
        }
    }
}

/// The robots' ways after the tick.
pub(crate) fn legs_after(
    alloc: Global,
    waits: &[Option<u64>],
    from: &[u32],
    to: &[u32],
    arrived: &[Arrival],
    legs: &[Leg],
) -> Result<Vec<Leg>, AllocError>
    ensures { IfOk result (λ after. after.items ≡ legs_after waits.now from.now to.now arrived.now legs.now) }
{
    (0..to.len())
        .map(|robot| leg_after(waits, from, to, arrived, legs, robot))
        .collect(alloc)
}

/// The errand of an arrival.
pub(crate) fn landed_by(
    clock: u64,
    waits: &[Option<u64>],
    from: &[u32],
    to: &[u32],
    legs: &[Leg],
    arrival: Arrival,
) -> Landed
    requires { clock < 2 ^ 63 }
    ensures { result ≡ landed_by clock waits.now from.now to.now legs.now arrival }
{
    let robot = arrival.robot as usize;
    let wait = wait_or_none(wait_at(waits, robot));
    Landed {
        client: arrival.client,
        number: arrival.number,
        robot: arrival.robot,
        cell: cell_at(to, robot),
        begun: clock.saturating_sub(wait),
        arrived: clock + 1,
        leg: walked(from, to, legs, robot),
    }
}
