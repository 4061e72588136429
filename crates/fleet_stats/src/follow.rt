//! A run, chapter by chapter and entry by entry.

ghost use Rattle.std.specs.Prelude.{◌≡◌, map, IfOk, IfErr, OnOk};
ghost use Rattle.fleet_grid.specs.Floor.{Floor};
ghost use Rattle.fleet_history.specs.History.{history_of, start, with_entries};
ghost use Rattle.fleet_trace.specs.Trace.{trace_of};
ghost use Rattle.fleet_stats.specs.Noted.{entries_noted, history_noted, chapters_noted, run_noted, robots_in};
ghost use Rattle.fleet_stats.specs.Rows.{shown};
ghost use Rattle.fleet_trace.specs.Chapters.{IsSound};
ghost use Rattle.fleet_stats.specs.Chapters.{AreSound, IsUnsound, AreUnsound, IsUnfollowed};
ghost use Rattle.fleet_stats.specs.inside.Following.{CanFollow, IsEnd};

use crate::fault::StatsFault;
use crate::left::left_of;
use crate::notes::{Notes, blank, note};
use fleet_grid::Grid;
use fleet_history::{Chapter, Entry, Opening, RobotState};
use fleet_state::FleetState;
use fleet_trace::{JudgeFault, is_early, judge};
use std::alloc::{AllocError, Global};

/// Records the entries that follow an opening; the state is that at the opening.
fn follow_entries(
    alloc: Global,
    opening: &Opening,
    entries: &[Entry],
    state: &mut FleetState,
    notes: &mut Notes,
) -> Result<(), AllocError>
    requires { CanFollow (with_entries (start opening.now) entries.now) state.old }
    ensures noted { OnOk result (shown notes.new ≡ entries_noted (with_entries (start opening.now) entries.now) (shown notes.old)) }
    ensures ended { OnOk result (IsEnd (with_entries (start opening.now) entries.now) state.new) }
{
    for at in 0..entries.len() {
        let entry = &entries[at];
        note(alloc, state, entry, notes)?;
        state.enter(entry);
    }
    Ok(())
}

/// Records a chapter.
fn follow_chapter(
    alloc: Global,
    opening: &Opening,
    entries: &[Entry],
    notes: &mut Notes,
) -> Result<(), AllocError>
    requires { (m : Floor) × IsSound m (with_entries (start opening.now) entries.now) }
    ensures { OnOk result (shown notes.new ≡ history_noted (with_entries (start opening.now) entries.now) (shown notes.old)) }
{
    let mut state = FleetState::open(alloc, opening, opening.queue)?;
    follow_entries(alloc, opening, entries, &mut state, notes)?;
    notes.left = left_of(alloc, state.queues())?;
    Ok(())
}

/// Whether the chapter of this number may be followed: its clock, and the judge's verdict.
fn check_chapter(
    alloc: Global,
    grid: &Grid,
    number: u64,
    chapter: &Chapter,
) -> Result<(), StatsFault>
    ensures sound { OnOk result (IsSound grid.now (history_of chapter.now)) }
    ensures fault { IfErr result (λ fault. IsUnsound grid.now number (history_of chapter.now) fault) }
{
    if !is_early(chapter) {
        return Err(StatsFault::Late(number));
    }
    match judge(alloc, grid, chapter) {
        Ok(()) => Ok(()),
        Err(JudgeFault::Illegal { at, rule }) => Err(StatsFault::Illegal { number, at, rule }),
        Err(JudgeFault::NoMemory) => Err(StatsFault::NoMemory),
    }
}

/// Checks a chapter and records it.
fn follow_one(
    alloc: Global,
    grid: &Grid,
    number: u64,
    chapter: &Chapter,
    notes: &mut Notes,
) -> Result<(), StatsFault>
    ensures noted { OnOk result (shown notes.new ≡ history_noted (history_of chapter.now) (shown notes.old)) }
    ensures sound { OnOk result (IsSound grid.now (history_of chapter.now)) }
    ensures fault { IfErr result (λ fault. IsUnsound grid.now number (history_of chapter.now) fault) }
{
    match check_chapter(alloc, grid, number, chapter) {
        Ok(()) => match follow_chapter(alloc, &chapter.opening, &chapter.entries, notes) {
            Ok(()) => Ok(()),
            Err(AllocError) => Err(StatsFault::NoMemory),
        },
        Err(fault) => Err(fault),
    }
}

/// Records chapters, each of which is checked before. The fault is that of the first chapter that has one.
fn follow_all(
    alloc: Global,
    grid: &Grid,
    chapters: &[Chapter],
    notes: &mut Notes,
) -> Result<(), StatsFault>
    ensures noted { OnOk result (shown notes.new ≡ chapters_noted (map trace_of chapters.now) (shown notes.old)) }
    ensures sound { OnOk result (AreSound grid.now (map trace_of chapters.now)) }
    ensures fault { IfErr result (λ fault. AreUnsound grid.now 1 (map trace_of chapters.now) fault) }
{
    let mut number = 1;
    for chapter in chapters {
        follow_one(alloc, grid, number, chapter, notes)?;
        number += 1;
    }
    Ok(())
}

/// The robots of the first opening.
pub(crate) fn robots_in(chapters: &[Chapter]) -> &[RobotState]
    ensures { result.now ≡ robots_in (map trace_of chapters.now) }
{
    match chapters.first() {
        Some(first) => first.opening.robots.as_slice(),
        None => &[],
    }
}

/// What is recorded of a run.
pub(crate) fn follow(alloc: Global, grid: &Grid, chapters: &[Chapter]) -> Result<Notes, StatsFault>
    ensures noted { IfOk result (λ notes. shown notes ≡ run_noted (map trace_of chapters.now)) }
    ensures sound { OnOk result (AreSound grid.now (map trace_of chapters.now)) }
    ensures fault { IfErr result (λ fault. IsUnfollowed grid.now (map trace_of chapters.now) fault) }
{
    let mut notes = blank(alloc, robots_in(chapters))?;
    match follow_all(alloc, grid, chapters, &mut notes) {
        Ok(()) => Ok(notes),
        Err(fault) => Err(fault),
    }
}
