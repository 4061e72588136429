//! Details about an entry that breaks a rule.

ghost use Rattle.std.specs.Prelude.{◌≡◌, ◌<◌, ◌≤◌, length, map, IfOk};
ghost use Rattle.fleet_grid.specs.Step.{IsPlacement};
ghost use Rattle.fleet_history.specs.History.{history_of, clients, place, place_after};
ghost use Rattle.fleet_history.specs.Legal.{IsLegal};
ghost use Rattle.fleet_trace.specs.Judged.{IsFirstIllegal};
ghost use Rattle.fleet_trace.specs.Judged.{before};
ghost use Rattle.fleet_explain.specs.Details.{IsVerdictDetail, IsStepDetail, why_not_shut, IsDetail};

use crate::arrival::{ArrivalName, arrivals_at};
use crate::farewell::farewells_at;
use crate::stamp::{RobotStamp, stamp_at};
use fleet_book::{Order, Verdict};
use fleet_check::{StepFault, check_step};
use fleet_grid::Grid;
use fleet_history::{Chapter, Entry, RobotState};
use fleet_trace::{OpeningPart, opening_fault, verdict_after};
use std::alloc::{AllocError, Global};

/// Details about an entry that breaks a rule.
#[derive(Clone, Copy, Debug, PartialEq, Eq)]
pub enum Detail {
    /// Nothing.
    Nothing,
    /// The first part of the opening that is not in order.
    Opening(OpeningPart),
    /// The verdict that its order gets.
    Due(Verdict),
    /// The first fault of its step.
    Step(StepFault),
    /// The arrival is due, and the tick does not show it.
    Missing(ArrivalName),
    /// The tick shows the arrival, and it is not due.
    Extra(ArrivalName),
    /// The farewell of this robot is due, and the entry does not show it.
    MissingFarewell(u32),
    /// The entry shows the farewell of this robot, and it is not due.
    ExtraFarewell(u32),
    /// The first stamp of the entry that is outside of its robot's law, those of arrivals before those of farewells.
    Stamp(RobotStamp),
    /// The take is of a client that there is not: the trace has this many.
    Clients(u64),
    /// The shut is of a robot that there is not: the trace has this many.
    Robots(u64),
    /// The shut is of a robot that is shut already.
    ShutBefore,
}

/// The robots' cells at the opening.
fn opened_cells(alloc: Global, robots: &[RobotState]) -> Result<Vec<u32>, AllocError>
    ensures { IfOk result (λ cells. cells.items ≡ map (λ x. x.cell) robots.now) }
{
    robots.iter().map(|robot| robot.cell).collect(alloc)
}

/// The cells, after the entries, of robots that were on these cells.
fn place_after<'a>(cells: &'a [u32], entries: &'a [Entry]) -> &'a [u32]
    ensures { result.now ≡ place_after cells.now entries.now }
{
    let mut place = cells;
    for entry in entries {
        if let Entry::Tick { to, .. } = entry {
            place = to.as_slice();
        }
    }
    place
}

/// The first fault of a step to these cells, after this many entries of the chapter.
fn step_detail(
    alloc: Global,
    grid: &Grid,
    chapter: &Chapter,
    entries: usize,
    to: &[u32],
) -> Result<Detail, AllocError>
    requires inside { entries ≤ length chapter.now.entries.items }
    requires placed { IsPlacement grid.now (place (before (history_of chapter.now) entries)) }
    ensures { IfOk result (λ detail. IsStepDetail grid.now (place (before (history_of chapter.now) entries)) to.now detail) }
{
    let cells = opened_cells(alloc, chapter.opening.robots.as_slice())?;
    let place = place_after(&cells, &chapter.entries[..entries]);
    match check_step(alloc, grid, place, to) {
        Ok(()) => Ok(Detail::Nothing),
        Err(StepFault::NoMemory) => Err(AllocError),
        Err(fault) => Ok(Detail::Step(fault)),
    }
}

/// The verdict that an order of the client gets after this many entries of the chapter.
fn due_verdict(
    alloc: Global,
    grid: &Grid,
    chapter: &Chapter,
    entries: usize,
    client: u32,
    order: Order,
) -> Result<Detail, AllocError>
    requires inside { entries ≤ length chapter.now.entries.items }
    requires legal { IsLegal grid.now (before (history_of chapter.now) entries) }
    requires client { client < clients (history_of chapter.now) }
    ensures { IfOk result (λ detail. IsVerdictDetail grid.now (before (history_of chapter.now) entries) client order detail) }
{
    let due = verdict_after(alloc, grid, chapter, entries, client, order)?;
    Ok(Detail::Due(due))
}

/// The verdict that was due at the take that breaks the third rule.
fn verdict_at(alloc: Global, grid: &Grid, chapter: &Chapter, at: u64) -> Result<Detail, AllocError>
    requires { IsFirstIllegal grid.now (history_of chapter.now) at 3 }
    ensures { IfOk result (λ detail. IsDetail grid.now (history_of chapter.now) at 3 detail) }
{
    let entries = at as usize - 1;
    match &chapter.entries[entries] {
        Entry::Take { client, order, .. } => {
            due_verdict(alloc, grid, chapter, entries, *client, *order)
        }
        Entry::Tick { .. } | Entry::Shut { .. } => Ok(Detail::Nothing),
    }
}

/// What is wrong with the step of the tick that breaks the fourth rule.
fn step_at(alloc: Global, grid: &Grid, chapter: &Chapter, at: u64) -> Result<Detail, AllocError>
    requires { IsFirstIllegal grid.now (history_of chapter.now) at 4 }
    ensures { IfOk result (λ detail. IsDetail grid.now (history_of chapter.now) at 4 detail) }
{
    let entries = at as usize - 1;
    match &chapter.entries[entries] {
        Entry::Tick { to, .. } => step_detail(alloc, grid, chapter, entries, to.as_slice()),
        _ => Ok(Detail::Nothing),
    }
}

/// Why a robot cannot be shut, where there are this many.
fn why_not_shut(robots: usize, robot: u32) -> Detail
    ensures { result ≡ why_not_shut robots robot }
{
    if (robot as usize) < robots {
        Detail::ShutBefore
    } else {
        Detail::Robots(robots as u64)
    }
}

/// Why the robot of the shut that breaks the eighth rule cannot be shut.
fn shut_at(grid: &Grid, chapter: &Chapter, at: u64) -> Detail
    requires { IsFirstIllegal grid.now (history_of chapter.now) at 8 }
    ensures { IsDetail grid.now (history_of chapter.now) at 8 result }
{
    let entries = at as usize - 1;
    match &chapter.entries[entries] {
        Entry::Shut { robot, .. } => why_not_shut(chapter.opening.robots.len(), *robot),
        _ => Detail::Nothing,
    }
}

/// Which part of the opening that breaks the first rule is not in order.
fn opening_at(alloc: Global, grid: &Grid, chapter: &Chapter, at: u64) -> Result<Detail, AllocError>
    requires { IsFirstIllegal grid.now (history_of chapter.now) at 1 }
    ensures { IfOk result (λ detail. IsDetail grid.now (history_of chapter.now) at 1 detail) }
{
    match opening_fault(alloc, grid, &chapter.opening)? {
        Some(part) => Ok(Detail::Opening(part)),
        None => Ok(Detail::Nothing),
    }
}

/// What more there is to say of the first entry that breaks a rule.
pub(crate) fn detail_of(
    alloc: Global,
    grid: &Grid,
    chapter: &Chapter,
    at: u64,
    rule: u8,
) -> Result<Detail, AllocError>
    requires { IsFirstIllegal grid.now (history_of chapter.now) at rule }
    ensures { IfOk result (λ detail. IsDetail grid.now (history_of chapter.now) at rule detail) }
{
    match rule {
        1 => opening_at(alloc, grid, chapter, at),
        2 => Ok(Detail::Clients(chapter.opening.clients.len() as u64)),
        3 => verdict_at(alloc, grid, chapter, at),
        4 => step_at(alloc, grid, chapter, at),
        5 => arrivals_at(alloc, grid, chapter, at),
        6 => farewells_at(alloc, grid, chapter, at),
        7 => Ok(stamp_at(grid, chapter, at)),
        8 => Ok(shut_at(grid, chapter, at)),
        _ => Ok(Detail::Nothing),
    }
}
