//! Vehicles are found again where they stand, after the fleet's program ended and goes on.

ghost use Rattle.std.specs.Prelude.{◌≡◌, ◌≤◌, ◌<◌, ℕ, true, IfOk, IfSome, OnOk, length, map, slice_index};
ghost use Rattle.fleet_execution.specs.Course.{Course, course_at};
ghost use Rattle.live_vehicles.specs.Follows.{Follows};
ghost use Rattle.live_vehicles.specs.Opened.{HasMoved, IsFound, with_steps};

use crate::answering::Out;
use crate::opening::{Known, open_known};
use crate::print::tell_move;
use crate::rules::Rules;
use crate::vehicles::Vehicles;
use fleet_execution::Move;
use std::alloc::{AllocError, Global};

/// Where vehicles were found.
#[derive(Drop)]
pub enum Regained {
    /// They follow the plan from there.
    Found(Vehicles),
    /// The rule never lets this robot stand on its cell while the others stand on theirs.
    Off(u32),
    /// The turns that are known are no plan.
    NoPlan,
}

/// The last step up to this one after which a robot is on a cell, by the placement and the turns since.
fn last_visit(
    placement: &[u32],
    known: &[Known],
    robot: usize,
    cell: u32,
    most: u64,
) -> Option<u64> {
    let mut found = None;
    if placement.get(robot) == Some(&cell) {
        found = Some(0);
    }
    let mut step = 0u64;
    for turn in known {
        step = step.saturating_add(1);
        if step <= most && turn.to.get(robot) == Some(&cell) {
            found = Some(step);
        }
    }
    found
}

/// Lowers each robot's stop to its last visit of its cell up to there. Returns the first robot that has none.
fn lower(stops: &mut [u64], placement: &[u32], known: &[Known], at: &[u32]) -> Option<usize> {
    for robot in 0..stops.len() {
        let cell = *at.get(robot)?;
        match last_visit(placement, known, robot, cell, stops[robot]) {
            Some(step) => stops[robot] = step,
            None => return Some(robot),
        }
    }
    None
}

/// Lets a robot pass up to its stop. A move after that is written, and is under way.
fn pass(
    vehicles: &mut Vehicles,
    alloc: Global,
    begun: Move,
    stop: u64,
    out: &mut Out,
) -> Result<(), AllocError>
    ensures moved { OnOk result ((o : Course) → HasMoved o vehicles.old → HasMoved o vehicles.new) }
    ensures first { vehicles.new.first ≡ vehicles.old.first }
{
    if begun.tick > stop {
        return tell_move(&mut out.told, vehicles.first, begun);
    }
    vehicles.reached(alloc, begun.robot, &mut out.due)?;
    Ok(())
}

/// The stop of a robot; 0 if it has none.
fn stop_of(stops: &[u64], robot: u32) -> u64 {
    match stops.get(robot as usize) {
        Some(stop) => *stop,
        None => 0,
    }
}

/// Lets all robots go on up to their stops, as far as the rule allows.
fn go_up_to(
    vehicles: &mut Vehicles,
    alloc: Global,
    stops: &[u64],
    out: &mut Out,
) -> Result<(), AllocError>
    ensures moved { OnOk result ((o : Course) → Follows vehicles.old o → HasMoved o vehicles.new) }
    ensures first { vehicles.new.first ≡ vehicles.old.first }
{
    for _move in 0..u64::MAX {
        let Some(begun) = vehicles.begin() else {
            return Ok(());
        };
        pass(vehicles, alloc, begun, stop_of(stops, begun.robot), out)?;
    }
    Ok(())
}

/// Whether a robot has reached this cell last.
fn is_at(vehicles: &Vehicles, robot: usize, cell: u32) -> bool
    ensures { result ≡ true → (o : Course) → Follows vehicles.now o → o.run.plan.cell (o.run.reached robot) robot ≡ cell }
{
    if robot > u32::MAX as usize {
        return false;
    }
    match vehicles.standing(robot as u32) {
        Some(standing) => standing.cell == cell,
        None => false,
    }
}

/// Whether each robot has reached its cell last.
fn are_at(vehicles: &Vehicles, at: &[u32]) -> bool
    ensures { result ≡ true → (o : Course) → Follows vehicles.now o → (r : ℕ) → r < o.run.plan.robots → o.run.plan.cell (o.run.reached r) r ≡ slice_index at.now r }
{
    if at.len() != vehicles.places.len() {
        return false;
    }
    for robot in 0..at.len() {
        if !is_at(vehicles, robot, at[robot]) {
            return false;
        }
    }
    true
}

/// Lowers the stop of each robot that has not reached its cell last to how far it came.
fn lower_far(vehicles: &Vehicles, stops: &mut [u64], at: &[u32]) {
    for robot in 0..stops.len().min(at.len()) {
        if let Some(place) = vehicles.places.get(robot) {
            if !is_at(vehicles, robot, at[robot]) {
                stops[robot] = place.reached;
            }
        }
    }
}

/// What is known of a fleet whose vehicles are found again.
#[derive(Drop)]
pub struct Before {
    /// The robots' cells before the first turn that is known.
    pub placement: Vec<u32>,
    /// The turns since.
    pub known: Vec<Known>,
}

/// Vehicles that have gone on up to these stops, as far as the rule allows; `None` if the turns cannot be planned.
fn gone_up_to(
    alloc: Global,
    rules: Rules,
    before: &Before,
    stops: &[u64],
    out: &mut Out,
) -> Result<Option<Vehicles>, AllocError>
    ensures moved { IfOk result (λ found. IfSome found (λ v. HasMoved (with_steps (course_at rules.clearance before.now.placement.items) (map (λ k. k.to.items) before.now.known.items)) v)) }
    ensures first { IfOk result (λ found. IfSome found (λ v. v.first ≡ rules.first)) }
{
    out.told.clear();
    out.due.clear();
    let found = open_known(alloc, rules, &before.placement, &before.known, &mut out.due)?;
    let Some(mut vehicles) = found else {
        return Ok(None);
    };
    go_up_to(&mut vehicles, alloc, stops, out)?;
    Ok(Some(vehicles))
}

/// Vehicles that go on from these stops, or from the furthest before them.
fn search(
    alloc: Global,
    rules: Rules,
    before: &Before,
    stops: &mut [u64],
    at: &[u32],
    out: &mut Out,
) -> Result<Regained, AllocError>
    ensures { IfOk result (IsFound rules.first (with_steps (course_at rules.clearance before.now.placement.items) (map (λ k. k.to.items) before.now.known.items)) at.now) }
{
    let most = at
        .len()
        .saturating_mul(before.known.len().saturating_add(1));
    for _try in 0..=most {
        if let Some(robot) = lower(stops, &before.placement, &before.known, at) {
            return Ok(Regained::Off(robot.min(u32::MAX as usize) as u32));
        }
        let found = gone_up_to(alloc, rules, before, stops, out)?;
        let Some(vehicles) = found else {
            return Ok(Regained::NoPlan);
        };
        if are_at(&vehicles, at) {
            return Ok(Regained::Found(vehicles));
        }
        lower_far(&vehicles, stops, at);
    }
    Ok(Regained::NoPlan)
}

/// Finds vehicles again, which stand on these cells, by robot: they follow the plan of the turns that are known from the
/// furthest point at which the rule lets each of them have reached its cell last, if there is one. Moves that are under way
/// from there on are in `out`, with the arrivals whose robots stand where they are to.
///
/// Else a robot is named that cannot be on its cell: it is on it after none of these turns, or only if another one has gone
/// further than it can have; or the turns are no plan, or there are more of them than may be made ahead.
pub fn regain(
    alloc: Global,
    rules: Rules,
    before: &Before,
    at: &[u32],
    out: &mut Out,
) -> Result<Regained, AllocError>
    ensures { IfOk result (IsFound rules.first (with_steps (course_at rules.clearance before.now.placement.items) (map (λ k. k.to.items) before.now.known.items)) at.now) }
{
    let mut stops = Vec::with_capacity(alloc, at.len())?;
    stops.resize(at.len(), u64::MAX)?;
    search(alloc, rules, before, &mut stops, at, out)
}
