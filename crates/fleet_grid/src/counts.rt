//! How many floor cells and edges a map has.

ghost use Rattle.std.specs.Prelude.{◌≡◌, ◌+◌, ◌≤◌, length};
ghost use Rattle.fleet_grid.specs.Counts.{floor_count, edge_count, has_east, has_south};

use crate::cells::Cells;
use crate::dir::Dir;
use crate::letters::is_floor_byte;
use std::alloc::Allocator;

/// How many of the cells are floor.
pub(crate) fn floor_count_of<A: Allocator + Copy>(cells: &Cells<A>) -> u32
    ensures { result ≡ floor_count cells.now }
{
    let letters = cells.letters();
    let _count = cells.count();
    letters
        .iter()
        .filter(|letter| is_floor_byte(**letter))
        .count() as u32
}

/// Whether an edge leads east from the cell.
#[tactic(auto, using(crate::proofs::Neighbours::east_some, crate::proofs::Neighbours::east_none))]
fn leads_east<A: Allocator + Copy>(cells: &Cells<A>, cell: u32) -> bool
    ensures { result ≡ has_east cells.now cell }
{
    match cells.neighbour(cell, Dir::East) {
        Some(_) => true,
        None => false,
    }
}

/// Whether an edge leads south from the cell.
#[tactic(auto, using(crate::proofs::Neighbours::south_some, crate::proofs::Neighbours::south_none))]
fn leads_south<A: Allocator + Copy>(cells: &Cells<A>, cell: u32) -> bool
    ensures { result ≡ has_south cells.now cell }
{
    match cells.neighbour(cell, Dir::South) {
        Some(_) => true,
        None => false,
    }
}

/// How many pairs of floor cells share a side.
pub(crate) fn edge_count_of<A: Allocator + Copy>(cells: &Cells<A>) -> u32
    ensures { result ≡ edge_count cells.now }
{
    let mut east = 0;
    let mut south = 0;
    for cell in 0..cells.count() {
        east += u32::from(leads_east(cells, cell));
        south += u32::from(leads_south(cells, cell));
    }
    east + south
}
