//! All conflicts of a plan's text.

ghost use Rattle.std.specs.Prelude.{◌≡◌, ◌≤◌, ◌++◌, IfOk, OnOk, length, map};
ghost use Rattle.fleet_map.specs.Form.{HasSides};
ghost use Rattle.fleet_grid.specs.Floor.{floor_of_map};
ghost use Rattle.fleet_map.specs.Grammar.{view};
ghost use Rattle.fleet_conflicts.specs.Conflicts.{AreConflictsOf, UpTo, at_time};

use crate::step::faults_of;
use fleet_check::StepFault;
use fleet_grid::Grid;
use fleet_map::{MapText, read_map};
use fleet_plans::{MOST_PLAN_BYTES, Placements, TextForm, study_form};
use std::alloc::{AllocError, Global};

/// What is wrong with the placement at a time, as `fleet check` names it. Of two robots the one with the lesser number
/// comes first.
#[derive(Clone, Copy, Debug, PartialEq, Eq)]
pub struct Conflict {
    pub time: usize,
    pub fault: StepFault,
}

/// Adds these faults of a time.
fn add_time(
    conflicts: &mut Vec<Conflict>,
    time: usize,
    faults: &[StepFault],
) -> Result<(), AllocError>
    ensures { OnOk result (conflicts.new.items ≡ conflicts.old.items ++ map (at_time time) faults.now) }
{
    for fault in faults {
        conflicts.push(Conflict {
            time,
            fault: *fault,
        })?;
    }
    Ok(())
}

/// The conflicts of these placements. Memory cannot hold one of 2^32 robots.
fn conflicts_on(
    alloc: Global,
    grid: &Grid,
    places: &Placements,
) -> Result<Vec<Conflict>, AllocError>
    ensures { IfOk result (λ conflicts. UpTo grid.now places.now (length places.now) conflicts.items) }
{
    let mut conflicts = Vec::new(alloc);
    for time in 0..places.len() {
        let to = places.at(time);
        if to.len() > u32::MAX as usize {
            return Err(AllocError);
        }
        let faults = faults_of(alloc, grid, places.at(time.saturating_sub(1)), to)?;
        add_time(&mut conflicts, time, &faults)?;
    }
    Ok(conflicts)
}

/// The conflicts of these placements on a map.
fn conflicts_in(
    alloc: Global,
    floor: MapText,
    places: &Placements,
) -> Result<Vec<Conflict>, AllocError>
    requires { HasSides (view floor) }
    ensures { IfOk result (λ conflicts. UpTo (floor_of_map (view floor)) places.now (length places.now) conflicts.items) }
{
    let grid = Grid::new(floor)?;
    conflicts_on(alloc, &grid, places)
}

/// All conflicts of a plan's text that is read in this form: by their times, and at one time by the robots. None where
/// the map or the text cannot be read, or the plan is valid. The only error is out of memory: all placements are kept.
pub fn conflicts_of(
    alloc: Global,
    form: TextForm,
    bytes: &[u8],
    text: &[u8],
) -> Result<Vec<Conflict>, AllocError>
    requires { length text.now ≤ MOST_PLAN_BYTES }
    ensures { IfOk result (λ conflicts. AreConflictsOf form bytes.now text.now conflicts.items) }
{
    let study = study_form(alloc, form, bytes, text)?;
    if !study.answer.is_invalid() {
        return Ok(Vec::new(alloc));
    }
    match read_map(alloc, bytes) {
        Ok(floor) => conflicts_in(alloc, floor, &study.places),
        // It was read before, so memory ran out.
        Err(_) => Err(AllocError),
    }
}
