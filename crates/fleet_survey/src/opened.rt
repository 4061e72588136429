//! Maps with some of their walls opened.

ghost use Rattle.std.specs.Prelude.{◌≡◌, IfOk, length, slice_set, true};
ghost use Rattle.fleet_survey.specs.Mended.{AreMarked, IsOpened};

use crate::prune::{map_of, marks_of};
use fleet_grid::Grid;
use fleet_roomy::UnroomyCells;
use std::alloc::{AllocError, Global};

/// Marks a cell.
fn mark(marks: &mut [bool], cell: u32)
    ensures { marks.new ≡ slice_set marks.old cell true }
{
    let at = cell as usize;
    if at < marks.len() {
        marks[at] = true;
    }
}

/// Marks these cells.
#[tactic(auto, using(crate::proofs::Opens::marked_none, crate::proofs::Opens::marked_next))]
fn mark_all(marks: &mut [bool], cells: &[u32])
    ensures { AreMarked cells.now (length cells.now) marks.old marks.new }
{
    for at in 0..cells.len() {
        mark(marks, cells[at]);
    }
}

/// The map with these walls opened.
pub(crate) fn opened(alloc: Global, grid: &Grid, walls: &[u32]) -> Result<Grid, AllocError>
    ensures { IfOk result (λ map. IsOpened grid.now walls.now map) }
{
    let mut marks = marks_of(alloc, grid, &UnroomyCells::none(alloc))?;
    mark_all(&mut marks, walls);
    map_of(alloc, grid, &marks)
}
