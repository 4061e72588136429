//! All bridges: maps worked by hand, small and random maps next to a search for each edge, a long corridor, and each
//! allocation refused in turn.

use crate::bridges::{SIDES, drawn};
use crate::floor::grid_of;
use crate::roomy::random_map;
use crate::squares::{Shape, letters};
use fleet_bridge::{bridges, is_bridge};
use fleet_grid::{Dir, Grid};
use std::alloc::{Allocator, Global};
use std::process::Abort;
use test_kit::{Random, Refusing};

/// Whether these are all bridges, in that order.
fn is_as_wanted(
    rt: &impl Abort,
    heap: impl Allocator + Copy,
    grid: &Grid,
    wanted: &[(u32, u32)],
) -> bool {
    let all = bridges(heap, grid).expect(rt, "memory for a tree");
    if all.len() != wanted.len() {
        return false;
    }
    for (found, edge) in all.iter().zip(wanted.iter()) {
        if found != edge {
            return false;
        }
    }
    true
}

/// Two rings of four cells, joined by a corridor of three with a stub of one below its middle.
const RINGS: (u32, u32, &[u8], &[(u32, u32)]) = (
    3,
    7,
    b"..@@@..\
      .......\
      @@@.@@@",
    &[(8, 9), (9, 10), (10, 11), (10, 17), (11, 12)],
);

/// Maps by their sides and letters, and their bridges.
const MAPS: [(u32, u32, &[u8], &[(u32, u32)]); 9] = [
    RINGS,
    // A ring has no bridge, nor has a single cell.
    (2, 2, b"....", &[]),
    (1, 1, b".", &[]),
    (1, 1, b"@", &[]),
    // A row, and a column: there the cell to the south has the next number.
    (1, 3, b"...", &[(0, 1), (1, 2)]),
    (3, 1, b"...", &[(0, 1), (1, 2)]),
    // Two bridges from one cell.
    (2, 2, b"...@", &[(0, 1), (0, 2)]),
    // A ring with a stub of one cell.
    (2, 3, b"..@...", &[(4, 5)]),
    // Two parts: corridors of three and of two cells.
    (3, 3, b"...@@@..@", &[(0, 1), (1, 2), (6, 7)]),
];

#[test]
fn maps_by_hand(rt: HostRuntime) {
    for (height, width, cells, wanted) in MAPS {
        let grid = grid_of(&rt, rt.alloc(), height, width, cells);
        assert!(rt; is_as_wanted(&rt, rt.alloc(), &grid, wanted));
    }
}

/// All bridges, by a search for each edge.
fn by_searches(rt: &impl Abort, alloc: Global, grid: &Grid) -> Vec<(u32, u32)> {
    let mut found = Vec::new(alloc);
    for cell in 0..grid.cell_count() {
        for dir in [Dir::East, Dir::South] {
            if let Some(next) = grid.neighbour(cell, dir)
                && is_bridge(alloc, grid, cell, next).expect(rt, "memory for a search")
            {
                found.push((cell, next)).expect(rt, "memory for a list");
            }
        }
    }
    found
}

/// Whether the bridges are those that the searches find.
fn is_as_searched(rt: &impl Abort, alloc: Global, grid: &Grid) -> bool {
    let wanted = by_searches(rt, alloc, grid);
    is_as_wanted(rt, alloc, grid, &wanted)
}

#[test]
fn small_maps_beside_the_searches(rt: HostRuntime) {
    for (height, width, count, maps) in SIDES {
        for bits in 0..maps {
            let cells = drawn(&rt, rt.alloc(), count, bits);
            let grid = grid_of(&rt, rt.alloc(), height, width, &cells);
            assert!(rt; is_as_searched(&rt, rt.alloc(), &grid));
        }
    }
}

#[test]
fn random_maps_beside_the_searches(rt: HostRuntime) {
    let mut random = Random::from_seed(1976);
    for _ in 0..1000 {
        let grid = random_map(&rt, rt.alloc(), &mut random);
        assert!(rt; is_as_searched(&rt, rt.alloc(), &grid));
    }
}

#[test]
fn long_corridor(rt: HostRuntime) {
    let cells = letters(rt.alloc(), 512, Shape::Snake).expect(&rt, "memory for a map");
    let grid = grid_of(&rt, rt.alloc(), 512, 512, &cells);
    let all = bridges(rt.alloc(), &grid).expect(&rt, "memory for a tree");
    // Each of its 256 * 513 cells but the last has a next one.
    assert!(rt; all.len() == 256 * 513 - 1);
}

/// Whether an allocation is refused. After a refusal, the next call with the same memory finds the bridges.
fn is_refused(
    rt: &impl Abort,
    heap: impl Allocator + Copy,
    grid: &Grid,
    wanted: &[(u32, u32)],
) -> bool {
    let met = bridges(heap, grid).is_err();
    assert!(rt; !met || is_as_wanted(rt, heap, grid, wanted));
    met
}

#[test]
fn refused_growths(rt: HostRuntime) {
    let (height, width, cells, wanted) = RINGS;
    let grid = grid_of(&rt, rt.alloc(), height, width, cells);
    let mut refused = 0;
    for before in 0..64 {
        if is_refused(&rt, &Refusing::after(rt.alloc(), before), &grid, wanted) {
            refused = before + 1;
        }
    }
    assert!(rt; 0 < refused && refused < 64);
}
