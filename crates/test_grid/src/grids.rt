//! Maps of known counts and parts, and a refused allocation.

use crate::floor::{grid_of, grid_of_text};
use crate::squares::{Shape, letters};
use fleet_grid::{Dir, FAR, Grid, WALL, place_of};
use fleet_map::read_map;
use std::alloc::{Alloc, Allocator, Global};
use std::process::Abort;
use test_kit::Refusing;

/// How many cells, floor cells and edges there are.
fn counts<A: Allocator + Copy>(grid: &Grid<A>) -> [u32; 3] {
    [grid.cell_count(), grid.floor_count(), grid.edge_count()]
}

/// Whether a walk joins two floor cells; `None` if one of them is not floor.
fn are_joined(grid: &Grid, a: u32, b: u32) -> Option<bool> {
    if grid.is_floor(a) && grid.is_floor(b) {
        Some(grid.same_part(a, b))
    } else {
        None
    }
}

/// The height, the width and the counts of a map that is read; `None` if it is not a map, or an allocation is refused.
fn sides_and_counts<A: Allocator + Copy>(heap: A, text: &[u8]) -> Option<(u32, u32, [u32; 3])> {
    // The first allocation is the map's own.
    let map = read_map(heap, text).ok()?;
    match grid_of_text(map) {
        Ok(Some(grid)) => Some((grid.height(), grid.width(), counts(&grid))),
        _ => None,
    }
}

#[test]
fn blank_behind_a_row(rt: HostRuntime) {
    let text = b"type octile\r\nwidth 2\r\nheight 1\r\nmap\r\n.G ";
    assert!(rt; sides_and_counts(rt.alloc(), text) == Some((1, 2, [2, 2, 1])));
}

/// Cells and directions on the ring, and the neighbours there.
const NEIGHBOURS: [(u32, Dir, Option<u32>); 9] = [
    (0, Dir::North, None),
    (0, Dir::East, Some(1)),
    (0, Dir::South, Some(3)),
    (0, Dir::West, None),
    // The row ends, and the row begins.
    (2, Dir::East, None),
    (3, Dir::West, None),
    // To the wall, and from the wall.
    (1, Dir::South, None),
    (4, Dir::South, None),
    (8, Dir::North, Some(5)),
];

fn check_neighbours(rt: &impl Abort, grid: &Grid) {
    for (cell, dir, next) in NEIGHBOURS {
        assert!(rt; grid.neighbour(cell, dir) == next);
    }
}

#[test]
fn ring_of_eight(rt: HostRuntime) {
    let grid = grid_of(&rt, rt.alloc(), 3, 3, b"....@....");
    assert!(rt; grid.is_floor(3) && !grid.is_floor(4) && !grid.is_floor(9));
    check_neighbours(&rt, &grid);
}

/// Maps by their sides and letters; how many cells, floor cells and edges they have; and whether a walk joins two given
/// cells.
const MAPS: [(u32, u32, &[u8], [u32; 3], (u32, u32), Option<bool>); 3] = [
    // ring_of_eight
    (3, 3, b"....@....", [9, 8, 8], (0, 8), Some(true)),
    // water_parts_the_floor
    (1, 5, b".W.@.", [5, 3, 0], (0, 2), Some(false)),
    // map_without_cells
    (0, 7, b"", [0, 0, 0], (0, 0), None),
];

/// The counts of a map, and whether a walk joins these two cells.
fn counted_and_joined(
    rt: &impl Abort,
    alloc: Global,
    height: u32,
    width: u32,
    cells: &[u8],
    ends: (u32, u32),
) -> ([u32; 3], Option<bool>) {
    let grid = grid_of(rt, alloc, height, width, cells);
    (counts(&grid), are_joined(&grid, ends.0, ends.1))
}

#[test]
fn worked_maps(rt: HostRuntime) {
    for (height, width, cells, counts, ends, joined) in MAPS {
        let found = counted_and_joined(&rt, rt.alloc(), height, width, cells, ends);
        assert!(rt; found == (counts, joined));
    }
}

/// How many of the places have this value.
fn count_of(places: &[u32], wanted: u32) -> usize {
    places.iter().filter(|place| **place == wanted).count()
}

/// The length of the padded rows, and the numbers of all places, of free places and of walls.
fn padding(grid: &Grid) -> (u32, [usize; 3]) {
    let (stride, places) = grid.padded();
    (
        stride,
        [places.len(), count_of(places, FAR), count_of(places, WALL)],
    )
}

#[test]
fn padded_form(rt: HostRuntime) {
    assert!(rt; place_of(3, 20, 2) == 22);
    let grid = grid_of(&rt, rt.alloc(), 1, 3, b".@.");
    assert!(rt; padding(&grid) == (4, [12, 2, 10]));
}

#[test]
fn ways_from_each_cell(rt: HostRuntime) {
    // North is 1, east 2, south 4 and west 8. The wall is next to the first cell, and the last row is open.
    let grid = grid_of(&rt, rt.alloc(), 2, 3, b".@....");
    assert!(rt; grid.ways() == [4, 0, 4, 3, 10, 9].as_slice());
}

#[test]
fn directions_in_order(rt: HostRuntime) {
    let numbers = [
        Dir::North.number(),
        Dir::East.number(),
        Dir::South.number(),
        Dir::West.number(),
    ];
    assert!(rt; numbers == [0, 1, 2, 3]);
    assert!(rt; Dir::ALL == [Dir::North, Dir::East, Dir::South, Dir::West]);
}

fn first_floor(grid: &Grid) -> Option<u32> {
    for cell in 0..grid.cell_count() {
        if grid.is_floor(cell) {
            return Some(cell);
        }
    }
    None
}

fn last_floor(grid: &Grid) -> Option<u32> {
    let count = grid.cell_count();
    for behind in 0..count {
        let cell = count - 1 - behind;
        if grid.is_floor(cell) {
            return Some(cell);
        }
    }
    None
}

/// Whether the first and the last floor cell are in one part.
fn ends_meet(grid: &Grid) -> bool {
    match (first_floor(grid), last_floor(grid)) {
        (Some(first), Some(last)) => are_joined(grid, first, last) == Some(true),
        _ => false,
    }
}

/// How many floor cells and edges a square map of side 1,024 has, and whether its ends meet.
fn large(rt: &impl Abort, alloc: Global, shape: Shape) -> (u32, u32, bool) {
    let cells = letters(alloc, 1024, shape).expect(rt, "memory for a map");
    let grid = grid_of(rt, alloc, 1024, 1024, &cells);
    (grid.floor_count(), grid.edge_count(), ends_meet(&grid))
}

/// Maps of 1,024 cells a side, how many floor cells and edges they have, and whether their ends meet.
const LARGE: [(Shape, (u32, u32, bool)); 5] = [
    (Shape::Open, (1_048_576, 2_095_104, true)),
    (Shape::Border, (4_092, 4_092, true)),
    (Shape::BlockedBorder, (4_091, 4_090, true)),
    (Shape::Snake, (512 * 1024 + 512, 512 * 1024 + 511, true)),
    (Shape::Stripes, (512 * 1024, 512 * 1023, false)),
];

#[test]
fn large_maps(rt: HostRuntime) {
    for (shape, counts) in LARGE {
        assert!(rt; large(&rt, rt.alloc(), shape) == counts);
    }
}

/// Whether an allocation is refused. Otherwise the counts of a map with one row of three cells are right.
fn is_refused(rt: &impl Abort, heap: impl Allocator + Copy) -> bool {
    match sides_and_counts(heap, b"type octile\nheight 1\nwidth 3\nmap\n...\n") {
        Some(told) => {
            assert!(rt; told == (1, 3, [3, 3, 2]));
            false
        }
        None => true,
    }
}

#[test]
fn refused_growths(rt: HostRuntime) {
    let mut refused = 0;
    for before in 0..8 {
        if is_refused(&rt, &Refusing::after(rt.alloc(), before)) {
            refused = before + 1;
        }
    }
    // A grid takes memory for its padded form, its ways, its labels and its search.
    assert!(rt; refused == 5);
}
