//! The steps of a chapter, one after another.

use fleet_check::{StepFault, check_step};
use fleet_grid::{Grid, is_placement};
use fleet_history::{Chapter, Entry};
use std::alloc::{AllocError, Global};

/// What is found of a chapter's steps.
#[derive(Clone, Copy)]
pub(crate) enum Finding {
    /// Each of this many is conflict-free, and they bring this many arrivals.
    ConflictFree { steps: u32, arrivals: u64 },
    /// The step of this number, from 1, is not.
    Refused { step: u32, fault: StepFault },
    /// The step of this number does not begin with distinct floor cells.
    Misplaced { step: u32 },
}

/// The robots' cells at the opening.
fn cells_of(alloc: Global, chapter: &Chapter) -> Result<Vec<u32>, AllocError> {
    let robots = chapter.opening.robots.as_slice();
    robots.iter().map(|robot| robot.cell).collect(alloc)
}

/// Judges each step of these entries by itself. The first begins on these cells.
fn walk_from<'a>(
    alloc: Global,
    grid: &Grid,
    cells: &'a [u32],
    entries: &'a [Entry],
) -> Result<Finding, AllocError> {
    let mut from = cells;
    let mut step = 0u32;
    let mut arrivals = 0u64;
    for entry in entries {
        let Entry::Tick { to, arrived, .. } = entry else {
            continue;
        };
        step = step.saturating_add(1);
        if !is_placement(grid, from) {
            return Ok(Finding::Misplaced { step });
        }
        match check_step(alloc, grid, from, to.as_slice()) {
            Ok(()) => {}
            Err(StepFault::NoMemory) => return Err(AllocError),
            Err(fault) => return Ok(Finding::Refused { step, fault }),
        }
        from = to.as_slice();
        arrivals = arrivals.saturating_add(arrived.len() as u64);
    }
    Ok(Finding::ConflictFree {
        steps: step,
        arrivals,
    })
}

/// Judges each step of a chapter by itself.
pub(crate) fn walk(alloc: Global, grid: &Grid, chapter: &Chapter) -> Result<Finding, AllocError> {
    let cells = cells_of(alloc, chapter)?;
    walk_from(alloc, grid, &cells, &chapter.entries)
}
