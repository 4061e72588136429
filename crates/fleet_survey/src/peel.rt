//! Cells with one neighbour at most: a map that is fit for two robots or more has none of them.

ghost use Rattle.std.specs.Prelude.{◌≡◌, false, slice_set};
ghost use Rattle.fleet_survey.specs.Peeled.{IsPeeled};

use crate::around::{Around, is_marked, marked_around};
use fleet_grid::Grid;

/// Takes the mark from a cell.
fn unmark(marks: &mut [bool], cell: u32)
    ensures { marks.new ≡ slice_set marks.old cell false }
{
    let at = cell as usize;
    if at < marks.len() {
        marks[at] = false;
    }
}

/// Takes the mark from a cell that has one marked neighbour at most. Returns that neighbour.
fn peel_one(grid: &Grid, marks: &mut [bool], cell: u32) -> Option<u32>
    ensures { IsPeeled grid.now marks.old marks.new }
{
    if !is_marked(marks, cell) {
        return None;
    }
    match marked_around(grid, marks, cell) {
        Around::Nobody => {
            unmark(marks, cell);
            None
        }
        Around::One(next) => {
            unmark(marks, cell);
            Some(next)
        }
        Around::More => None,
    }
}

/// The same with a cell, then with that neighbour, and so on.
fn peel_from(grid: &Grid, marks: &mut [bool], first: u32)
    ensures { IsPeeled grid.now marks.old marks.new }
{
    let mut cell = first;
    for _ in 0..grid.cell_count() {
        match peel_one(grid, marks, cell) {
            Some(next) => cell = next,
            None => return,
        }
    }
}

/// Takes the marks from cells that have one marked neighbour at most, until each has two or more.
pub(crate) fn peel(grid: &Grid, marks: &mut [bool])
    ensures { IsPeeled grid.now marks.old marks.new }
{
    for cell in 0..grid.cell_count() {
        peel_from(grid, marks, cell);
    }
}
