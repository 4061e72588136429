//! Plans that are not valid, as traces to be looked at.

ghost use Rattle.std.specs.Prelude.{◌≡◌, ◌≤◌, Ok, length, IfOk};
ghost use Rattle.fleet_map.specs.Grammar.{view, map_of};
ghost use Rattle.fleet_convert.specs.Shown.{are_cells, are_on, fits, IsShownAs, IsInvalidShown};

use crate::tracing::{MOST_ROBOTS, chapter_of, map_fault};
use fleet_map::{MapText, read_map};
use fleet_plans::{MOST_PLAN_BYTES, Placements, Study, study_texts};
use fleet_trace::write_trace;
use std::alloc::{AllocError, Global};

/// Whether a map of this many cells has all of these.
fn are_cells(count: usize, cells: &[u32]) -> bool
    ensures { result ≡ are_cells count cells.now }
{
    cells.iter().all(|cell| (*cell as usize) < count)
}

/// Whether it has the cells of each placement.
fn are_on(count: usize, places: &Placements) -> bool
    ensures { result ≡ are_on count places.now }
{
    for time in 0..places.len() {
        if !are_cells(count, places.at(time)) {
            return false;
        }
    }
    true
}

/// Whether the placements are of 512 robots at most, on a map of this many cells.
fn fits(count: usize, places: &Placements) -> bool
    ensures { result ≡ fits count places.now }
{
    places.at(0).len() <= MOST_ROBOTS as usize && are_on(count, places)
}

/// The text of the trace of a plan that was studied, if it is not valid and fits a map of this many cells.
fn shown(alloc: Global, count: usize, study: &Study) -> Result<Option<String>, AllocError>
    ensures { IfOk result (IsShownAs count study.now.answer study.now.places) }
{
    if !study.answer.is_invalid() || !fits(count, &study.places) {
        return Ok(None);
    }
    let chapter = chapter_of(alloc, &study.places)?;
    Ok(Some(write_trace(alloc, &chapter)?))
}

/// How many cells the map has.
fn cell_count(floor: &MapText) -> usize
    ensures { result ≡ length (view floor.now).cells }
{
    floor.cells.len()
}

/// The same for a plan on a map that was read.
fn shown_on(
    alloc: Global,
    floor: &MapText,
    bytes: &[u8],
    plan: &[u8],
) -> Result<Option<String>, AllocError>
    requires read { map_of bytes.now ≡ Ok (view floor.now) }
    requires short { length plan.now ≤ MOST_PLAN_BYTES }
    ensures { IfOk result (IsInvalidShown bytes.now plan.now) }
{
    let count = cell_count(floor);
    let study = study_texts(alloc, bytes, plan)?;
    shown(alloc, count, &study)
}

/// The text of a plan that is not valid, as a trace to be looked at, which is not legal: the robots stand on their first
/// cells, and make a tick for each step. There is one client, which sends nothing, and no robot has an errand. `None` if
/// the map or the plan cannot be read, the plan is valid, it begins with more than 512 robots, or a robot is on a cell that
/// the map does not have.
pub fn trace_of_invalid(
    alloc: Global,
    bytes: &[u8],
    plan: &[u8],
) -> Result<Option<String>, AllocError>
    requires { length plan.now ≤ MOST_PLAN_BYTES }
    ensures { IfOk result (IsInvalidShown bytes.now plan.now) }
{
    match read_map(alloc, bytes) {
        Ok(floor) => shown_on(alloc, &floor, bytes, plan),
        Err(fault) => {
            map_fault(fault)?;
            Ok(None)
        }
    }
}
