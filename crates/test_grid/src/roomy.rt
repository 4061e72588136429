//! How roomy cells are: maps worked by hand, random maps beside the definition, a long corridor, and each allocation
//! refused in turn.

use crate::floor::grid_of;
use crate::squares::{Shape, letters};
use fleet_bridge::roominess;
use fleet_grid::{Dir, Grid};
use std::alloc::{Allocator, Global};
use std::process::Abort;
use test_kit::{Random, Refusing};

/// Roomy for every number of robots.
const ALL: u32 = u32::MAX;

/// Whether each floor cell is roomy for the number of robots in the list. What the list has for a wall says nothing.
fn is_as_wanted(rt: &impl Abort, heap: impl Allocator + Copy, grid: &Grid, wanted: &[u32]) -> bool {
    let most = roominess(heap, grid).expect(rt, "memory for a tree");
    for cell in 0..grid.cell_count() {
        if grid.is_floor(cell) && most.get(cell as usize) != wanted.get(cell as usize) {
            return false;
        }
    }
    most.len() == wanted.len()
}

/// Two rings of four cells, joined by a corridor of three with a stub of one below its middle.
const RINGS: (u32, u32, &[u8], &[u32]) = (
    3,
    7,
    b"..@@@..\
      .......\
      @@@.@@@",
    &[
        4, 4, 0, 0, 0, 4, 4, //
        4, 4, 5, 7, 5, 4, 4, //
        0, 0, 0, 1, 0, 0, 0,
    ],
);

/// Maps by their sides and letters, and how many robots each cell is roomy for.
const MAPS: [(u32, u32, &[u8], &[u32]); 7] = [
    RINGS,
    // A ring has no bridge, nor has a single cell.
    (2, 2, b"....", &[ALL, ALL, ALL, ALL]),
    (1, 1, b".", &[ALL]),
    (1, 1, b"@", &[0]),
    (1, 3, b"...", &[1, 2, 1]),
    // A ring with a stub of one cell.
    (2, 3, b"..@...", &[4, 4, 0, 4, 4, 1]),
    // Two parts: corridors of three and of two cells.
    (3, 3, b"...@@@..@", &[1, 2, 1, 0, 0, 0, 1, 1, 0]),
];

#[test]
fn maps_by_hand(rt: HostRuntime) {
    for (height, width, cells, wanted) in MAPS {
        let grid = grid_of(&rt, rt.alloc(), height, width, cells);
        assert!(rt; is_as_wanted(&rt, rt.alloc(), &grid, wanted));
    }
}

/// Marks a cell, if it is not marked, and puts it on the stack.
fn mark(rt: &impl Abort, marked: &mut Vec<bool>, stack: &mut Vec<u32>, cell: u32) {
    if let Some(seen) = marked.get_mut(cell as usize)
        && !*seen
    {
        *seen = true;
        stack.push(cell).expect(rt, "memory for a stack");
    }
}

/// The cells that walks from `to` reach without the edge between `from` and `to`.
pub(crate) fn side(rt: &impl Abort, alloc: Global, grid: &Grid, from: u32, to: u32) -> Vec<bool> {
    let mut marked = vec![in alloc; false; grid.cell_count() as usize].expect(
        rt,
        "memory for marks",
    );
    let mut stack = Vec::new(alloc);
    mark(rt, &mut marked, &mut stack, to);
    for _ in 0..grid.cell_count() {
        let Some(cell) = stack.pop() else {
            break;
        };
        for dir in Dir::ALL {
            if let Some(next) = grid.neighbour(cell, dir)
                && !(cell == from && next == to)
                && !(cell == to && next == from)
            {
                mark(rt, &mut marked, &mut stack, next);
            }
        }
    }
    marked
}

/// Lowers the numbers of the cells of a side to its size, if the edge is a bridge.
fn lower(marked: &[bool], from: u32, wanted: &mut [u32]) {
    if marked.get(from as usize) == Some(&true) {
        return;
    }
    let size = marked.iter().filter(|mark| **mark).count();
    for (most, is_in) in wanted.iter_mut().zip(marked.iter()) {
        if *is_in && (*most as usize) > size {
            *most = size as u32;
        }
    }
}

/// How roomy each cell is, by the definition.
fn by_definition(rt: &impl Abort, alloc: Global, grid: &Grid) -> Vec<u32> {
    let mut wanted = vec![in alloc; ALL; grid.cell_count() as usize].expect(
        rt,
        "memory for a list",
    );
    for from in 0..grid.cell_count() {
        for dir in Dir::ALL {
            if let Some(to) = grid.neighbour(from, dir) {
                lower(&side(rt, alloc, grid, from, to), from, &mut wanted);
            }
        }
    }
    wanted
}

/// A random map of at most eight rows and columns, with none to half of its cells walls.
pub(crate) fn random_map(rt: &impl Abort, alloc: Global, random: &mut Random) -> Grid {
    let height = random.below(8) + 1;
    let width = random.below(8) + 1;
    let walls = random.below(6) * 10;
    let mut cells = Vec::new(alloc);
    for _ in 0..64 {
        let is_wall = random.below(100) < walls;
        cells
            .push(if is_wall { b'@' } else { b'.' })
            .expect(rt, "memory for a map");
    }
    cells.truncate(height * width);
    grid_of(rt, alloc, height as u32, width as u32, &cells)
}

#[test]
pub(crate) fn random_maps_beside_the_definition(rt: HostRuntime) {
    let mut random = Random::from_seed(76);
    for _ in 0..5000 {
        let grid = random_map(&rt, rt.alloc(), &mut random);
        let wanted = by_definition(&rt, rt.alloc(), &grid);
        assert!(rt; is_as_wanted(&rt, rt.alloc(), &grid, &wanted));
    }
}

/// How many cells of the corridor `Shape::Snake` of 1,024 rows and columns come before a floor cell.
fn before_in_snake(row: u32, col: u32) -> u32 {
    let start = (row / 2).saturating_mul(1025);
    if row % 2 == 1 {
        start.saturating_add(1024)
    } else if row % 4 == 0 {
        start.saturating_add(col)
    } else {
        start.saturating_add(1023).saturating_sub(col)
    }
}

/// How roomy the cells of that corridor are: each has two sides, and is at the end of both.
fn snake_numbers(rt: &impl Abort, alloc: Global) -> Vec<u32> {
    let mut wanted = Vec::new(alloc);
    for row in 0..1024 {
        for col in 0..1024 {
            let before = before_in_snake(row, col);
            let after = (512u32 * 1025).saturating_sub(before);
            wanted
                .push(before.saturating_add(1).min(after))
                .expect(rt, "memory for a list");
        }
    }
    wanted
}

#[test]
fn long_corridor(rt: HostRuntime) {
    let cells = letters(rt.alloc(), 1024, Shape::Snake).expect(&rt, "memory for a map");
    let grid = grid_of(&rt, rt.alloc(), 1024, 1024, &cells);
    let wanted = snake_numbers(&rt, rt.alloc());
    assert!(rt; is_as_wanted(&rt, rt.alloc(), &grid, &wanted));
}

/// Whether an allocation is refused. After a refusal, the next call with the same memory finds the numbers.
fn is_refused(rt: &impl Abort, heap: impl Allocator + Copy, grid: &Grid, wanted: &[u32]) -> bool {
    let met = roominess(heap, grid).is_err();
    assert!(rt; !met || is_as_wanted(rt, heap, grid, wanted));
    met
}

#[test]
fn refused_growths(rt: HostRuntime) {
    let (height, width, cells, wanted) = RINGS;
    let grid = grid_of(&rt, rt.alloc(), height, width, cells);
    let mut refused = 0;
    for before in 0..64 {
        if is_refused(&rt, &Refusing::after(rt.alloc(), before), &grid, wanted) {
            refused = before + 1;
        }
    }
    assert!(rt; 0 < refused && refused < 64);
}
