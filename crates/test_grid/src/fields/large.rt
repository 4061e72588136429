//! Distances on a map of 1,024 by 1,024 cells.

use crate::floor::{are_floor, grid_of};
use crate::squares::{Shape, letters};
use fleet_field::{Field, fields};
use fleet_grid::Grid;
use std::alloc::Global;
use std::process::Abort;
use std::thread::Threads;

fn open_map(rt: &impl Abort, alloc: Global) -> Grid {
    let cells = letters(alloc, 1024, Shape::Open).expect(rt, "memory for a map");
    grid_of(rt, alloc, 1024, 1024, &cells)
}

/// The distance of a cell to cell 0.
fn distance_from(rt: &impl Abort, alloc: Global, grid: &Grid, cell: u32) -> Option<u32> {
    assert!(rt; grid.is_floor(0));
    let field = Field::from(alloc, grid, 0).expect(rt, "memory for a field");
    field.at(cell)
}

#[test]
fn large_open_map(rt: HostRuntime) {
    let grid = open_map(&rt, rt.alloc());
    assert!(rt; distance_from(&rt, rt.alloc(), &grid, 1048575) == Some(2046));
}

/// The distances between two cells, from two fields that are searched in parallel.
fn distances_between(
    rt: &(impl Abort + Threads + Sync),
    alloc: Global,
    grid: &Grid,
    a: u32,
    b: u32,
) -> [Option<u32>; 2] {
    let goals = [a, b];
    assert!(rt; are_floor(grid, &goals));
    let both = fields(rt, alloc, grid, &goals).expect(rt, "memory for fields");
    assert!(rt; both.len() == 2);
    [both[0].at(b), both[1].at(a)]
}

#[test]
fn large_map_side_by_side(rt: HostRuntime) {
    let grid = open_map(&rt, rt.alloc());
    let both = distances_between(&rt, rt.alloc(), &grid, 0, 1048575);
    assert!(rt; both == [Some(2046), Some(2046)]);
}
