//! Dead ends: cells that are not roomy and hang together. Each is a side of a bridge, and the cell beyond that bridge is
//! its mouth; a part of the map that has no roomy cell is one without a mouth.

ghost use Rattle.std.specs.Prelude.{◌≡◌, ℕ, IfOk, OnOk, false, true};
ghost use Rattle.std.specs.List.{Contains};
ghost use Rattle.fleet_grid.specs.Floor.{IsNeighbour, IsNeighbourIn};
ghost use Rattle.fleet_roomy.specs.Unroomy.{has};
ghost use Rattle.fleet_survey.specs.DeadEnds.{AreDeadEnds, IsFree, IsMarked, IsMouth};
ghost use Rattle.fleet_survey.specs.Taken.{AreAllTaken, AreFound, IsFound, IsTaken, TakesAround, TakesIn};

use crate::chosen::is_roomy;
use fleet_grid::{Dir, Grid};
use fleet_roomy::UnroomyCells;
use std::alloc::{AllocError, Global};

/// Cells that are not roomy and hang together.
#[derive(Debug, Drop)]
pub struct DeadEnd {
    /// The roomy cell next to it; `None` if it is a whole part of the map, which then has no roomy cell.
    pub mouth: Option<u32>,
    /// Its cells, from the lowest one on, each next to one before it.
    pub cells: Vec<u32>,
}

/// Whether the cell is left.
fn is_left(left: &Vec<bool>, cell: u32) -> bool
    ensures { result ≡ has left.now.items cell }
{
    match left.get(cell as usize) {
        Some(is_one) => *is_one,
        None => false,
    }
}

/// Takes a cell, if it is left.
#[tactic(auto, using(crate::proofs::Taken::is_taken, crate::proofs::Taken::not_taken))]
fn take(left: &mut Vec<bool>, cells: &mut Vec<u32>, cell: u32) -> Result<(), AllocError>
    ensures { OnOk result (IsTaken cell left.old.items left.new.items cells.old.items cells.new.items) }
{
    if is_left(left, cell) {
        let at = cell as usize;
        if at < left.len() {
            left[at] = false;
        }
        cells.push(cell)?;
    }
    Ok(())
}

/// Takes the neighbour of a cell in a direction, if it is left.
fn take_in(
    grid: &Grid,
    left: &mut Vec<bool>,
    cells: &mut Vec<u32>,
    cell: u32,
    dir: Dir,
) -> Result<(), AllocError>
    ensures { OnOk result (TakesIn grid.now dir cell left.old.items left.new.items cells.old.items cells.new.items) }
{
    match grid.neighbour(cell, dir) {
        Some(next) => take(left, cells, next),
        None => Ok(()),
    }
}

/// Takes the neighbours of a cell that are left.
fn take_around(
    grid: &Grid,
    left: &mut Vec<bool>,
    cells: &mut Vec<u32>,
    cell: u32,
) -> Result<(), AllocError>
    ensures { OnOk result (TakesAround grid.now cell left.old.items left.new.items cells.old.items cells.new.items) }
{
    take_in(grid, left, cells, cell, Dir::North)?;
    take_in(grid, left, cells, cell, Dir::East)?;
    take_in(grid, left, cells, cell, Dir::South)?;
    take_in(grid, left, cells, cell, Dir::West)
}

/// Takes all cells that hang together with one.
pub(crate) fn take_all(
    alloc: Global,
    grid: &Grid,
    left: &mut Vec<bool>,
    first: u32,
) -> Result<Vec<u32>, AllocError>
    ensures { IfOk result (λ cells. AreAllTaken grid.now first left.old.items left.new.items cells.items) }
{
    let mut cells = Vec::new(alloc);
    take(left, &mut cells, first)?;
    let mut place = 0usize;
    while place < cells.len() {
        let cell = cells[place];
        take_around(grid, left, &mut cells, cell)?;
        place += 1;
    }
    Ok(cells)
}

/// The roomy neighbour of a cell in a direction.
fn roomy_in(grid: &Grid, unroomy: &UnroomyCells, cell: u32, dir: Dir) -> Option<u32>
    ensures { IsFound (λ d. IsNeighbourIn grid.now dir cell d × IsFree grid.now unroomy.now.marks.items d) result }
{
    match grid.neighbour(cell, dir) {
        Some(next) => {
            if is_roomy(grid, unroomy, next) {
                Some(next)
            } else {
                None
            }
        }
        None => None,
    }
}

/// The first roomy neighbour of a cell.
#[tactic(auto, using(crate::proofs::Taken::found_beside))]
fn roomy_beside(grid: &Grid, unroomy: &UnroomyCells, cell: u32) -> Option<u32>
    ensures { IsFound (λ d. IsNeighbour grid.now cell d × IsFree grid.now unroomy.now.marks.items d) result }
{
    let north = roomy_in(grid, unroomy, cell, Dir::North);
    let east = roomy_in(grid, unroomy, cell, Dir::East);
    let south = roomy_in(grid, unroomy, cell, Dir::South);
    let west = roomy_in(grid, unroomy, cell, Dir::West);
    north.or(east).or(south).or(west)
}

/// The first roomy cell next to one of the cells.
#[tactic(auto, using(crate::proofs::Taken::mouth_found))]
fn mouth_of(grid: &Grid, unroomy: &UnroomyCells, cells: &[u32]) -> Option<u32>
    ensures { IsMouth grid.now (IsFree grid.now unroomy.now.marks.items) cells.now result }
{
    for place in 0..cells.len() {
        if let Some(mouth) = roomy_beside(grid, unroomy, cells[place]) {
            return Some(mouth);
        }
    }
    None
}

/// Takes the dead end of a cell that is left.
fn take_end(
    alloc: Global,
    grid: &Grid,
    unroomy: &UnroomyCells,
    left: &mut Vec<bool>,
    first: u32,
) -> Result<DeadEnd, AllocError>
    ensures cells { IfOk result (λ e. AreAllTaken grid.now first left.old.items left.new.items e.cells.items) }
    ensures mouth { IfOk result (λ e. IsMouth grid.now (IsFree grid.now unroomy.now.marks.items) e.cells.items e.mouth) }
{
    let cells = take_all(alloc, grid, left, first)?;
    let mouth = mouth_of(grid, unroomy, &cells);
    Ok(DeadEnd { mouth, cells })
}

/// Takes the dead end of a cell, if the cell is left.
fn push_end(
    alloc: Global,
    grid: &Grid,
    unroomy: &UnroomyCells,
    left: &mut Vec<bool>,
    ends: &mut Vec<DeadEnd>,
    cell: u32,
) -> Result<(), AllocError>
    requires { AreFound grid.now unroomy.now.marks.items left.old.items ends.old.items }
    ensures found { OnOk result (AreFound grid.now unroomy.now.marks.items left.new.items ends.new.items) }
    ensures gone { OnOk result (has left.new.items cell ≡ false) }
    ensures still { OnOk result ((c : ℕ) → has left.old.items c ≡ false → has left.new.items c ≡ false) }
{
    if !is_left(left, cell) {
        return Ok(());
    }
    let end = take_end(alloc, grid, unroomy, left, cell)?;
    ends.push(end)?;
    Ok(())
}

/// The dead ends, by their lowest cells. `cells` has the unroomy cells in their order.
pub(crate) fn dead_ends(
    alloc: Global,
    grid: &Grid,
    unroomy: &UnroomyCells,
    cells: &[u32],
) -> Result<Vec<DeadEnd>, AllocError>
    requires { (c : ℕ) → IsMarked unroomy.now.marks.items c → Contains cells.now c }
    ensures { IfOk result (λ ends. AreDeadEnds grid.now (IsMarked unroomy.now.marks.items) (IsFree grid.now unroomy.now.marks.items) ends.items) }
{
    let mut left = Vec::from_slice(alloc, &unroomy.marks)?;
    let mut ends = Vec::new(alloc);
    for place in 0..cells.len() {
        push_end(alloc, grid, unroomy, &mut left, &mut ends, cells[place])?;
    }
    Ok(ends)
}
