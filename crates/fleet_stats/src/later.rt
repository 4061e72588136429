//! Figures of the part of a run that is after a clock.

ghost use Rattle.std.specs.Prelude.{◌≡◌, map, IfOk, IfErr};
ghost use Rattle.fleet_trace.specs.Trace.{trace_of};
ghost use Rattle.fleet_stats.specs.Rows.{shown};
ghost use Rattle.fleet_stats.specs.Chapters.{IsUnfollowed};
ghost use Rattle.fleet_stats.specs.Later.{AreLater, IsLater, last_quarter, later_of, rows_after, served_after, ticks_after};

use crate::errands::served_rows;
use crate::fault::StatsFault;
use crate::figures::{clients_in, service_of, totals_of, travel_times, ways_of};
use crate::follow::follow;
use crate::measure::errand_rows;
use crate::notes::Notes;
use crate::ranks::Ranks;
use crate::rows::{ErrandRow, Served, TickRow};
use crate::spread::total;
use fleet_grid::Grid;
use fleet_history::Chapter;
use std::alloc::{AllocError, Global};

/// The figures of a run after a clock: of its ticks, and of the errands that it accepted and that were done in them.
#[derive(Clone, Copy, Debug)]
pub struct LaterFigures {
    pub ticks: u64,
    pub arrivals: u64,
    /// The arrivals in the last quarter of the ticks, rounded up.
    pub arrivals_at_end: u64,
    /// The longest wait.
    pub waited: u64,
    /// From the acceptance of an errand to the arrival.
    pub service: Ranks,
    /// The times from when robots began errands to the arrivals, added up.
    pub travel: u64,
    /// The distances of these errands, added up.
    pub distance: u64,
}

/// The ticks with numbers above the clock.
fn ticks_after(alloc: Global, clock: u64, ticks: &[TickRow]) -> Result<Vec<TickRow>, AllocError>
    ensures { IfOk result (λ later. later.items ≡ ticks_after clock ticks.now) }
{
    ticks
        .iter()
        .filter(|row| clock < row.tick)
        .copied()
        .collect(alloc)
}

/// The errands that were done after the clock.
fn served_after(alloc: Global, clock: u64, served: &[Served]) -> Result<Vec<Served>, AllocError>
    ensures { IfOk result (λ later. later.items ≡ served_after clock served.now) }
{
    served
        .iter()
        .filter(|one| clock < one.done.arrived)
        .copied()
        .collect(alloc)
}

/// The last quarter of the ticks, rounded up.
fn last_quarter(ticks: &[TickRow]) -> &[TickRow]
    ensures { result.now ≡ last_quarter ticks.now }
{
    let quarter = ticks.len() / 4 + if ticks.len() % 4 == 0 { 0 } else { 1 };
    &ticks[ticks.len() - quarter..]
}

/// The errands that were done after the clock, with their distances.
fn rows_after(
    alloc: Global,
    grid: &Grid,
    chapters: &[Chapter],
    notes: &Notes,
    clock: u64,
) -> Result<Vec<ErrandRow>, AllocError>
    ensures { IfOk result (λ rows. rows.items ≡ rows_after grid.now (map trace_of chapters.now) (shown notes.now) clock) }
{
    let clients = clients_in(chapters);
    let served = served_rows(alloc, clients, &notes.taken, &notes.landed)?;
    let later = served_after(alloc, clock, &served)?;
    errand_rows(alloc, grid, &later)
}

/// The figures of ticks and of the errands that were done in them, with those of service times.
fn later_of(
    alloc: Global,
    ticks: &[TickRow],
    rows: &[ErrandRow],
    service: Ranks,
) -> Result<LaterFigures, AllocError>
    ensures { IfOk result (λ f. f ≡ later_of ticks.now rows.now service) }
{
    let times = travel_times(alloc, rows)?;
    let totals = totals_of(ticks);
    let (_steps, distance) = ways_of(rows);
    Ok(LaterFigures {
        ticks: ticks.len() as u64,
        arrivals: totals.arrivals,
        arrivals_at_end: totals_of(last_quarter(ticks)).arrivals,
        waited: totals.waited,
        service,
        travel: total(&times),
        distance,
    })
}

/// The figures after a clock of what was recorded.
pub(crate) fn later_in(
    alloc: Global,
    grid: &Grid,
    chapters: &[Chapter],
    notes: &Notes,
    clock: u64,
) -> Result<LaterFigures, AllocError>
    ensures { IfOk result (λ f. IsLater grid.now (map trace_of chapters.now) (shown notes.now) clock f) }
{
    let ticks = ticks_after(alloc, clock, &notes.ticks)?;
    let rows = rows_after(alloc, grid, chapters, notes, clock)?;
    let service = service_of(alloc, &rows)?;
    later_of(alloc, &ticks, &rows, service)
}

/// The figures after a clock of chapters, the first of which begins the run. Each chapter is checked: that its clock
/// stays below 2^63, and that it is legal on the map.
pub fn figures_after(
    alloc: Global,
    grid: &Grid,
    chapters: &[Chapter],
    clock: u64,
) -> Result<LaterFigures, StatsFault>
    ensures figures { IfOk result (λ f. AreLater grid.now (map trace_of chapters.now) clock f) }
    ensures fault { IfErr result (λ fault. IsUnfollowed grid.now (map trace_of chapters.now) fault) }
{
    match follow(alloc, grid, chapters) {
        Ok(notes) => match later_in(alloc, grid, chapters, &notes, clock) {
            Ok(figures) => Ok(figures),
            Err(AllocError) => Err(StatsFault::NoMemory),
        },
        Err(fault) => Err(fault),
    }
}
