//! A row by a run, again and again, until no allocation is refused.

use crate::refusals::case::{Case, Row};
use crate::refusals::closures::run_row;
use crate::refusals::rounds::MANY;
use crate::refusals::runs::Run;
use crate::refusals::stage::{Stage, read};
use crate::refusals::tally::{Sheet, tell_end};
use fleet_world::Event;
use std::alloc::{Alloc, AllocError, Global};
use std::fmt::Write;
use test_kit::Ending;

/// Whether a run over the first events, with the same allocation refused, ends without being refused memory at one of
/// them.
fn passes<R: Alloc<A = Global>>(
    rt: &R,
    row: Row<'_, Event>,
    growth: u64,
) -> Result<bool, AllocError> {
    match run_row(rt, row, growth)?.0 {
        Ok(Run::Judge { .. } | Run::Ended { .. }) => Ok(true),
        Ok(Run::Opening | Run::Event(_) | Run::Faulty) | Err(_) => Ok(false),
    }
}

/// Whether the allocation is the event's own: a run over the events before it passes, and one over these and the event
/// names it.
fn is_named<R: Alloc<A = Global>>(
    rt: &R,
    row: Row<'_, Event>,
    growth: u64,
    event: usize,
) -> Result<bool, AllocError> {
    if event >= row.calls.len() {
        return Ok(false);
    }
    let before = Row {
        calls: &row.calls[..event],
        ..row
    };
    let with = Row {
        calls: &row.calls[..event + 1],
        ..row
    };
    if !passes(rt, before, growth)? {
        return Ok(false);
    }
    match run_row(rt, with, growth)?.0 {
        Ok(Run::Event(named)) => Ok(named == event),
        _ => Ok(false),
    }
}

/// Refuses each allocation in turn. The result is whether it ended after the last allocation, always with the same
/// replies and trace, also where fields that were kept made up for an allocation.
fn refuse_each<R: Alloc<A = Global>>(
    rt: &R,
    row: Row<'_, Event>,
    base: &Ending,
    sheet: &mut Sheet,
) -> Result<bool, AllocError> {
    let mut alike = true;
    for growth in 0..100_000 {
        match run_row(rt, row, growth)?.0 {
            Err(stage) => sheet.note_stage(stage),
            Ok(Run::Opening) => sheet.note_stage(Stage::Open),
            Ok(Run::Event(event)) => sheet.note(event, is_named(rt, row, growth, event)?),
            Ok(Run::Judge { again }) => sheet.note_judge(again),
            Ok(Run::Faulty) => return Ok(false),
            Ok(Run::Ended { ending, spent }) => {
                alike &= ending.is_like(base);
                if spent {
                    return Ok(alike);
                }
                sheet.count();
            }
        }
    }
    Ok(false)
}

/// Prints what a run replied and its trace, with these tallies.
fn tell_ending(told: &mut String, base: &Ending, sheet: &Sheet) -> Result<(), AllocError> {
    writeln!(told, "run")?;
    sheet.tell(told, &base.replies)?;
    sheet.judge.tell(told, "judge")?;
    writeln!(told, "{}", base.trace)
}

/// Prints a run that ended so and asked for this many allocations, and how it was refused memory.
fn tell_reruns<R: Alloc<A = Global>>(
    rt: &R,
    row: Row<'_, Event>,
    base: &Ending,
    asked: u64,
    told: &mut String,
) -> Result<(), AllocError> {
    let mut sheet = Sheet::new(rt.alloc(), row.calls.len())?;
    let ended = refuse_each(rt, row, base, &mut sheet)? && sheet.has_all(asked);
    tell_ending(told, base, &sheet)?;
    tell_end(told, ended)
}

/// Runs the events of a row with no allocation refused, and prints that run.
fn tell_run<R: Alloc<A = Global>>(
    rt: &R,
    row: Row<'_, Event>,
    told: &mut String,
) -> Result<(), AllocError> {
    let (run, left) = run_row(rt, row, MANY)?;
    match run {
        Ok(Run::Ended { ending, .. }) => {
            tell_reruns(rt, row, &ending, MANY.wrapping_sub(left), told)
        }
        _ => writeln!(told, "not run"),
    }
}

/// Prints what a run of a row replied to each event, its trace, and how each was refused memory.
pub(crate) fn tell_runs<R: Alloc<A = Global>>(
    rt: &R,
    case: Case<'_>,
    told: &mut String,
) -> Result<(), AllocError> {
    match read(rt.alloc(), case) {
        Ok((_grid, script)) => {
            let (robots, calls) = (script.starts.len(), script.events.as_slice());
            let row = Row {
                case,
                robots,
                calls,
            };
            tell_run(rt, row, told)
        }
        Err(_) => writeln!(told, "no row"),
    }
}
