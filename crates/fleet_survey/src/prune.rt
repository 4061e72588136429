//! Maps without the cells that are not roomy. Where such cells become walls the sides that had them get smaller, so this
//! is repeated until all floor cells are roomy.

ghost use Rattle.std.specs.Prelude.{◌≡◌, IfOk, length, map};
ghost use Rattle.fleet_survey.specs.Peeled.{IsPeeledFor};
ghost use Rattle.fleet_survey.specs.Pruned.{AreMarks, IsMapOf, IsPruned, Keeps, Spares, letter_for};

use crate::chosen::is_roomy;
use crate::peel::peel;
use fleet_grid::Grid;
use fleet_map::MapText;
use fleet_roomy::{UnroomyCells, unroomy_cells};
use std::alloc::{AllocError, Global};

/// The letter of a cell.
fn letter_for(is_floor: bool) -> u8
    ensures { result ≡ letter_for is_floor }
{
    if is_floor { b'.' } else { b'@' }
}

/// The letters of a map whose floor cells are the marked ones.
fn letters_of(alloc: Global, marks: &[bool]) -> Result<Vec<u8>, AllocError>
    ensures { IfOk result (λ letters. letters.items ≡ map letter_for marks.now) }
{
    marks
        .iter()
        .map(|is_floor| letter_for(*is_floor))
        .collect(alloc)
}

/// The map whose floor cells are the marked ones.
pub(crate) fn map_of(alloc: Global, grid: &Grid, marks: &[bool]) -> Result<Grid, AllocError>
    requires { length marks.now ≡ length grid.now.letters }
    ensures { IfOk result (λ map. IsMapOf grid.now marks.now map) }
{
    let cells = letters_of(alloc, marks)?;
    Grid::new(MapText {
        height: grid.height(),
        width: grid.width(),
        cells,
    })
}

/// For each cell whether it is floor and none of the others.
pub(crate) fn marks_of(
    alloc: Global,
    grid: &Grid,
    others: &UnroomyCells,
) -> Result<Vec<bool>, AllocError>
    ensures { IfOk result (λ marks. AreMarks grid.now others.now.marks.items marks.items) }
{
    let mut marks = Vec::with_capacity(alloc, grid.cell_count() as usize)?;
    for cell in 0..grid.cell_count() {
        marks.push(is_roomy(grid, others, cell))?;
    }
    Ok(marks)
}

/// Takes the marks from cells that no map has which is fit for this many robots, as long as that can be seen from their
/// neighbours. For one robot all maps are fit.
#[tactic(auto, using(crate::proofs::Prunes::peeled_for, crate::proofs::Prunes::not_peeled))]
fn peel_for(grid: &Grid, robots: u32, marks: &mut [bool])
    ensures { IsPeeledFor robots grid.now marks.old marks.new }
{
    if robots > 1 {
        peel(grid, marks);
    }
}

/// The map without some cells, which no map has that is fit for this many robots, and without more such cells.
fn without(
    alloc: Global,
    grid: &Grid,
    robots: u32,
    others: &UnroomyCells,
) -> Result<Grid, AllocError>
    requires { Spares robots grid.now others.now.marks.items }
    ensures { IfOk result (λ map. Keeps robots grid.now map) }
{
    let mut marks = marks_of(alloc, grid, others)?;
    peel_for(grid, robots, &mut marks);
    map_of(alloc, grid, &marks)
}

/// The map without the cells that are not roomy for this many robots, nor those that are not roomy without them, and so
/// on: all its floor cells are roomy. A map within it stays, if all its cells are roomy and each of its parts has as
/// many cells as there are robots. `AllocError` if memory runs out.
pub fn pruned(alloc: Global, grid: &Grid, robots: u32) -> Result<Grid, AllocError>
    ensures { IfOk result (λ map. IsPruned robots grid.now map) }
{
    let mut map = without(alloc, grid, robots, &UnroomyCells::none(alloc))?;
    // Each round makes one cell a wall at least.
    for _ in 0..=grid.cell_count() {
        let unroomy = unroomy_cells(alloc, &map, robots)?;
        if unroomy.count() == 0 {
            return Ok(map);
        }
        map = without(alloc, &map, robots, &unroomy)?;
    }
    // So it never comes here.
    Err(AllocError)
}
