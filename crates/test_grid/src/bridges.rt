//! The worked maps, small maps compared with a plain search, large maps, and each allocation refused in turn.

use crate::floor::grid_of;
use crate::squares::{Shape, letters};
use fleet_bridge::{first_bridge, is_bridge};
use fleet_grid::{Dir, Grid};
use std::alloc::{Allocator, Global};
use std::process::Abort;
use test_kit::Refusing;

/// The first bridge.
fn first_in(rt: &impl Abort, heap: impl Allocator + Copy, grid: &Grid) -> Option<(u32, u32)> {
    first_bridge(heap, grid).expect(rt, "memory for a search")
}

/// The first bridge of a map whose letters fill its sides.
fn first_of(
    rt: &impl Abort,
    alloc: Global,
    height: u32,
    width: u32,
    cells: &[u8],
) -> Option<(u32, u32)> {
    let grid = grid_of(rt, alloc, height, width, cells);
    first_in(rt, alloc, &grid)
}

/// Maps by their sides and letters, and their first bridge.
const MAPS: [(u32, u32, &[u8], Option<(u32, u32)>); 4] = [
    // full_cycle
    (2, 2, b"....", None),
    // corridor_standoff
    (1, 3, b"...", Some((0, 1))),
    // failed_push
    (2, 3, b"..@...", Some((4, 5))),
    // ring_of_eight
    (3, 3, b"....@....", None),
];

#[test]
fn worked_maps(rt: HostRuntime) {
    for (height, width, cells, first) in MAPS {
        assert!(rt; first_of(&rt, rt.alloc(), height, width, cells) == first);
    }
}

#[test]
fn failed_push(rt: HostRuntime) {
    let grid = grid_of(&rt, rt.alloc(), 2, 3, b"..@...");
    assert!(rt; edge_is_bridge(&rt, rt.alloc(), &grid, 0, Dir::East) == Some(false));
    assert!(rt; edge_is_bridge(&rt, rt.alloc(), &grid, 5, Dir::West) == Some(true));
}

/// Whether the edge in that direction is a bridge; `None` if no edge leads there.
fn edge_is_bridge(
    rt: &impl Abort,
    alloc: Global,
    grid: &Grid,
    cell: u32,
    dir: Dir,
) -> Option<bool> {
    let next = grid.neighbour(cell, dir)?;
    Some(is_bridge(alloc, grid, cell, next).expect(rt, "memory for a search"))
}

/// The first bridge, by a search for each edge.
fn first_by_search(rt: &impl Abort, alloc: Global, grid: &Grid) -> Option<(u32, u32)> {
    for cell in 0..grid.cell_count() {
        for dir in [Dir::East, Dir::South] {
            if let Some(next) = grid.neighbour(cell, dir)
                && is_bridge(alloc, grid, cell, next).expect(rt, "memory for a search")
            {
                return Some((cell, next));
            }
        }
    }
    None
}

/// The letters of a map: each cell is given by one bit of the number.
pub(crate) fn drawn(rt: &impl Abort, alloc: Global, count: u32, mut bits: u32) -> Vec<u8> {
    let mut cells = Vec::new(alloc);
    for _ in 0..count {
        cells
            .push(if bits % 2 == 0 { b'.' } else { b'@' })
            .expect(rt, "memory for a map");
        bits /= 2;
    }
    cells
}

/// Whether the first bridge of such a map is the one that a search for each edge finds.
fn is_as_searched(rt: &impl Abort, alloc: Global, height: u32, width: u32, cells: &[u8]) -> bool {
    let grid = grid_of(rt, alloc, height, width, cells);
    first_in(rt, alloc, &grid) == first_by_search(rt, alloc, &grid)
}

/// The sides of small maps, how many cells they have, and how many such maps there are.
pub(crate) const SIDES: [(u32, u32, u32, u32); 4] = [
    (3, 3, 9, 512),
    (2, 5, 10, 1024),
    (1, 4, 4, 16),
    (4, 3, 12, 4096),
];

#[test]
fn small_maps_beside_the_plain_search(rt: HostRuntime) {
    for (height, width, count, maps) in SIDES {
        for bits in 0..maps {
            let cells = drawn(&rt, rt.alloc(), count, bits);
            assert!(rt; is_as_searched(&rt, rt.alloc(), height, width, &cells));
        }
    }
}

/// Maps of 1,024 cells a side, and their first bridge.
const LARGE: [(Shape, Option<(u32, u32)>); 3] = [
    (Shape::Open, None),
    (Shape::Border, None),
    (Shape::BlockedBorder, Some((0, 1))),
];

#[test]
fn large_maps(rt: HostRuntime) {
    for (shape, first) in LARGE {
        let cells = letters(rt.alloc(), 1024, shape).expect(&rt, "memory for a map");
        assert!(rt; first_of(&rt, rt.alloc(), 1024, 1024, &cells) == first);
    }
}

/// A ring of 76 cells, and next to cell 200 the cell 201, to which no other way leads.
fn ring_with_tail(rt: &impl Abort, alloc: Global) -> Grid {
    let mut cells = letters(alloc, 20, Shape::Border).expect(rt, "memory for a map");
    assert!(rt; cells.len() > 201);
    cells[201] = b'.';
    grid_of(rt, alloc, 20, 20, &cells)
}

#[test]
fn bridge_behind_a_long_ring(rt: HostRuntime) {
    let grid = ring_with_tail(&rt, rt.alloc());
    assert!(rt; first_in(&rt, rt.alloc(), &grid) == Some((200, 201)));
}

/// Whether an allocation is refused. After a refusal, the next call with the same memory finds the first bridge.
fn is_refused(
    rt: &impl Abort,
    heap: impl Allocator + Copy,
    grid: &Grid,
    first: (u32, u32),
) -> bool {
    let met = first_bridge(heap, grid).is_err();
    assert!(rt; !met || first_in(rt, heap, grid) == Some(first));
    met
}

/// Refuses each allocation in turn, until none is refused.
fn refuse_growths(rt: &impl Abort, alloc: Global, grid: &Grid, first: (u32, u32)) {
    let mut refused = 0;
    for before in 0..64 {
        if is_refused(rt, &Refusing::after(alloc, before), grid, first) {
            refused = before + 1;
        }
    }
    assert!(rt; 0 < refused && refused < 64);
}

#[test]
fn refused_growths(rt: HostRuntime) {
    let ring = ring_with_tail(&rt, rt.alloc());
    refuse_growths(&rt, rt.alloc(), &ring, (200, 201));
    let grid = grid_of(&rt, rt.alloc(), 2, 3, b"..@...");
    refuse_growths(&rt, rt.alloc(), &grid, (4, 5));
}

/// Whether an allocation of the search for one edge is refused. After a refusal, the next call with the same memory
/// finds that the edge is a bridge.
fn is_search_refused(rt: &impl Abort, heap: impl Allocator + Copy, grid: &Grid) -> bool {
    let Some(next) = grid.neighbour(200, Dir::East) else {
        return false;
    };
    let met = is_bridge(heap, grid, 200, next).is_err();
    assert!(rt; !met || is_bridge(heap, grid, 200, next).expect(rt, "memory for a search"));
    met
}

#[test]
fn refused_searches(rt: HostRuntime) {
    let ring = ring_with_tail(&rt, rt.alloc());
    let mut refused = 0;
    for before in 0..64 {
        if is_search_refused(&rt, &Refusing::after(rt.alloc(), before), &ring) {
            refused = before + 1;
        }
    }
    assert!(rt; 0 < refused && refused < 64);
}
