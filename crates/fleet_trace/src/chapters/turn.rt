//! Whether a chapter continues the one before it.

ghost use Rattle.std.specs.Prelude.{◌≡◌, ◌↔◌, ◌+◌, ◌<◌, ◌^◌, map, length, IfOk, IfSome, IsTrue, MatchOption};
ghost use Rattle.fleet_history.specs.History.{history_of, place_after, clock};
ghost use Rattle.fleet_trace.specs.Trace.{trace_of};
ghost use Rattle.fleet_trace.specs.Chapters.{Continues, AreInTurn, IsFirstUnfit};
ghost use Rattle.fleet_trace.specs.inside.Turns.{goes_on};

use super::openings::is_same_opening;
use crate::judging::opening_after;
use fleet_grid::Grid;
use fleet_history::{Chapter, Entry, RobotState};
use std::alloc::{AllocError, Global};

/// The robots' cells before the first entry.
fn opened_cells(alloc: Global, robots: &[RobotState]) -> Result<Vec<u32>, AllocError>
    ensures { IfOk result (λ cells. cells.items ≡ map (λ x. x.cell) robots.now) }
{
    robots.iter().map(|robot| robot.cell).collect(alloc)
}

/// The robots' cells after the entries.
fn cells_after(
    alloc: Global,
    robots: &[RobotState],
    entries: &[Entry],
) -> Result<Vec<u32>, AllocError>
    ensures { IfOk result (λ cells. cells.items ≡ place_after (map (λ x. x.cell) robots.now) entries.now) }
{
    let mut cells = opened_cells(alloc, robots)?;
    for entry in entries {
        if let Entry::Tick { to, .. } = entry {
            cells = Vec::from_slice(alloc, to.as_slice())?;
        }
    }
    Ok(cells)
}

/// The ticks made up to the end of the chapter; `None` if the number does not fit into 64 bits.
fn clock_of(chapter: &Chapter) -> Option<u64>
    ensures { MatchOption result (2 ^ 64 < clock (history_of chapter.now) + 1) (λ ticks. ticks ≡ clock (history_of chapter.now)) }
{
    let ticks = chapter
        .entries
        .iter()
        .filter(|entry| matches!(entry, Entry::Tick { .. }))
        .count();
    chapter.opening.tick.checked_add(ticks as u64)
}

/// Whether the second chapter has the next number, and its opening the clock, the cells and the limits with which the
/// first ends, and as many clients.
fn goes_on(alloc: Global, first: &Chapter, next: &Chapter) -> Result<bool, AllocError>
    ensures { IfOk result (λ b. b ≡ goes_on (trace_of first.now) (trace_of next.now)) }
{
    let (ended, opened) = (&first.opening, &next.opening);
    if u64::from(next.number) != u64::from(first.number) + 1 {
        return Ok(false);
    }
    if clock_of(first) != Some(opened.tick) {
        return Ok(false);
    }
    let stand = cells_after(alloc, ended.robots.as_slice(), &first.entries)?;
    let begin = opened_cells(alloc, opened.robots.as_slice())?;
    if begin.as_slice() != stand.as_slice() {
        return Ok(false);
    }
    let same = opened.clients.len() == ended.clients.len()
        && opened.queue == ended.queue
        && opened.life == ended.life;
    Ok(same)
}

/// Whether the second chapter continues the first.
fn continues(
    alloc: Global,
    grid: &Grid,
    first: &Chapter,
    next: &Chapter,
) -> Result<bool, AllocError>
    ensures { IfOk result (λ b. IsTrue b ↔ Continues grid.now (trace_of first.now) (trace_of next.now)) }
{
    if !goes_on(alloc, first, next)? {
        return Ok(false);
    }
    match opening_after(alloc, grid, first)? {
        Some(opening) => Ok(is_same_opening(&next.opening, &opening)),
        None => Ok(true),
    }
}

/// The place, from 0, of the first chapter that does not continue the one before it.
pub(crate) fn first_unfit(
    alloc: Global,
    grid: &Grid,
    chapters: &[Chapter],
) -> Result<Option<usize>, AllocError>
    ensures first { IfOk result (λ place. MatchOption place (AreInTurn grid.now (map trace_of chapters.now))
        (λ p. IsFirstUnfit grid.now (map trace_of chapters.now) (p + 1))) }
    ensures within { IfOk result (λ place. IfSome place (λ p. p < length chapters.now)) }
{
    for place in 1..chapters.len() {
        if !continues(alloc, grid, &chapters[place - 1], &chapters[place])? {
            return Ok(Some(place));
        }
    }
    Ok(None)
}
