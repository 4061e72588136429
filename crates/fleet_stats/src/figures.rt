//! The figures of a run.

ghost use Rattle.std.specs.Prelude.{◌≡◌, map, count_by, unwrap_or, IfOk};
ghost use Rattle.fleet_trace.specs.Trace.{trace_of};
ghost use Rattle.fleet_stats.specs.Rows.{shown, clients_in};
ghost use Rattle.fleet_stats.specs.Figures.{total_by, greatest_by, service_times, travel_times, arrivals_of, count_of, is_refusal, AreRanks, IsLimit, IsSummary, first_tick};

use crate::follow::robots_in;
use crate::notes::Notes;
use crate::ranks::{Ranks, ranked};
use crate::rows::{ErrandRow, TickRow};
use fleet_bridge::first_bridge;
use fleet_grid::Grid;
use fleet_history::{Chapter, ClientState};
use std::alloc::{AllocError, Global};

/// The figures of a run.
#[derive(Clone, Copy)]
pub(crate) struct Summary {
    pub(crate) robots: u64,
    pub(crate) clients: u64,
    pub(crate) floor_cells: u64,
    /// The clock at the first opening.
    pub(crate) first_tick: u64,
    pub(crate) ticks: u64,
    pub(crate) arrivals: u64,
    /// The errands that are in the robots' queues at the end.
    pub(crate) unfinished: u64,
    pub(crate) moves: u64,
    /// The robots without errands, over all ticks.
    pub(crate) idle: u64,
    /// The robots with errands that stood, over all ticks.
    pub(crate) stands: u64,
    /// The longest wait.
    pub(crate) waited: u64,
    /// What no wait reaches, on a map without bridges.
    pub(crate) limit: Option<u64>,
    /// From the acceptance of an errand to the arrival.
    pub(crate) service: Ranks,
    /// From when a robot began an errand to the arrival.
    pub(crate) travel: Ranks,
    /// The steps of robots on their ways to errands that they did.
    pub(crate) steps: u64,
    /// The distances of these errands.
    pub(crate) distance: u64,
}

/// The times from acceptance to arrival.
pub(crate) fn service_times(alloc: Global, rows: &[ErrandRow]) -> Result<Vec<u64>, AllocError>
    ensures { IfOk result (λ times. times.items ≡ service_times rows.now) }
{
    rows.iter()
        .map(|row| row.done.arrived.saturating_sub(row.accepted))
        .collect(alloc)
}

/// The times from when robots began errands to the arrivals.
pub(crate) fn travel_times(alloc: Global, rows: &[ErrandRow]) -> Result<Vec<u64>, AllocError>
    ensures { IfOk result (λ times. times.items ≡ travel_times rows.now) }
{
    rows.iter()
        .map(|row| row.done.arrived.saturating_sub(row.done.begun))
        .collect(alloc)
}

/// A distance, 0 if there is none.
fn distance_or_none(distance: Option<u32>) -> u64
    ensures { result ≡ unwrap_or distance 0 }
{
    match distance {
        Some(distance) => u64::from(distance),
        None => 0,
    }
}

/// The arrivals of ticks.
pub(crate) fn arrivals_of(alloc: Global, ticks: &[TickRow]) -> Result<Vec<u64>, AllocError>
    ensures { IfOk result (λ list. list.items ≡ arrivals_of ticks.now) }
{
    ticks.iter().map(|row| row.arrivals).collect(alloc)
}

/// What ticks add up to, and the longest wait in any of them.
#[derive(Clone, Copy)]
pub(crate) struct Totals {
    pub(crate) arrivals: u64,
    pub(crate) moves: u64,
    pub(crate) idle: u64,
    pub(crate) waited: u64,
}

/// The totals of ticks.
pub(crate) fn totals_of(ticks: &[TickRow]) -> Totals
    ensures { result ≡ record {
      arrivals = total_by (λ x. x.arrivals) ticks.now;
      moves = total_by (λ x. x.moves) ticks.now;
      idle = total_by (λ x. x.idle) ticks.now;
      waited = greatest_by (λ x. x.waited) ticks.now;
    } }
{
    let (mut arrivals, mut moves, mut idle, mut waited) = (0u64, 0u64, 0u64, 0u64);
    for row in ticks {
        arrivals = arrivals.saturating_add(row.arrivals);
        moves = moves.saturating_add(row.moves);
        idle = idle.saturating_add(row.idle);
        waited = waited.max(row.waited);
    }
    Totals {
        arrivals,
        moves,
        idle,
        waited,
    }
}

/// The steps on the ways to errands, and the distances of these errands.
pub(crate) fn ways_of(rows: &[ErrandRow]) -> (u64, u64)
    ensures steps { result.0 ≡ total_by (λ x. x.done.leg.steps) rows.now }
    ensures distance { result.1 ≡ total_by (λ x. unwrap_or x.distance 0) rows.now }
{
    let (mut steps, mut distance) = (0u64, 0u64);
    for row in rows {
        steps = steps.saturating_add(row.done.leg.steps);
        distance = distance.saturating_add(distance_or_none(row.distance));
    }
    (steps, distance)
}

/// How many verdicts are of the kind.
pub(crate) fn count_of(kinds: &[u8], kind: u8) -> usize
    ensures { result ≡ count_of kinds.now kind }
{
    kinds.iter().filter(|one| **one == kind).count()
}

/// How many verdicts are refusals.
pub(crate) fn refusals_of(kinds: &[u8]) -> usize
    ensures { result ≡ count_by is_refusal kinds.now }
{
    kinds
        .iter()
        .filter(|kind| 0 < **kind && **kind < 11)
        .count()
}

/// What no wait reaches, if the map has no bridge.
fn limit_of(alloc: Global, grid: &Grid, robots: u64) -> Result<Option<u64>, AllocError>
    ensures { IfOk result (λ limit. IsLimit grid.now robots limit) }
{
    match first_bridge(alloc, grid)? {
        Some(_bridge) => Ok(None),
        None => {
            let farthest = u64::from(grid.floor_count()).saturating_sub(1).max(1);
            Ok(Some(robots.saturating_mul(farthest)))
        }
    }
}

/// The clients of the first opening.
pub(crate) fn clients_in(chapters: &[Chapter]) -> &[ClientState]
    ensures { result.now ≡ clients_in (map trace_of chapters.now) }
{
    match chapters.first() {
        Some(first) => first.opening.clients.as_slice(),
        None => &[],
    }
}

/// The clock at the first opening.
pub(crate) fn first_tick(chapters: &[Chapter]) -> u64
    ensures { result ≡ first_tick (map trace_of chapters.now) }
{
    match chapters.first() {
        Some(first) => first.opening.tick,
        None => 0,
    }
}

/// The figures of service times.
pub(crate) fn service_of(alloc: Global, rows: &[ErrandRow]) -> Result<Ranks, AllocError>
    ensures { IfOk result (λ service. AreRanks (service_times rows.now) service) }
{
    Ok(ranked(service_times(alloc, rows)?))
}

/// The figures of travel times.
fn travel_of(alloc: Global, rows: &[ErrandRow]) -> Result<Ranks, AllocError>
    ensures { IfOk result (λ travel. AreRanks (travel_times rows.now) travel) }
{
    Ok(ranked(travel_times(alloc, rows)?))
}

/// The figures of a run, from what was recorded of it and from its errands.
pub(crate) fn summarize(
    alloc: Global,
    grid: &Grid,
    chapters: &[Chapter],
    notes: &Notes,
    rows: &[ErrandRow],
) -> Result<Summary, AllocError>
    ensures { IfOk result (λ s. IsSummary grid.now (map trace_of chapters.now) (shown notes.now) rows.now s) }
{
    let robots = robots_in(chapters).len() as u64;
    let limit = limit_of(alloc, grid, robots)?;
    let service = service_of(alloc, rows)?;
    let travel = travel_of(alloc, rows)?;
    let totals = totals_of(&notes.ticks);
    let (steps, distance) = ways_of(rows);
    Ok(Summary {
        robots,
        clients: clients_in(chapters).len() as u64,
        floor_cells: u64::from(grid.floor_count()),
        first_tick: first_tick(chapters),
        ticks: notes.ticks.len() as u64,
        arrivals: totals.arrivals,
        unfinished: notes.left.len() as u64,
        moves: totals.moves,
        idle: totals.idle,
        stands: notes.stood.len() as u64,
        waited: totals.waited,
        limit,
        service,
        travel,
        steps,
        distance,
    })
}
