//! Rooms and capacities: maps worked by hand, larger random maps, and each allocation refused in turn.

use crate::floor::grid_of;
use fleet_bridge::{Room, Rooms, cores_serve, rooms_of, rooms_serve};
use fleet_grid::Grid;
use std::alloc::{Allocator, Global};
use std::process::Abort;
use test_kit::{Random, Refusing};

/// The rooms of a map.
pub(crate) fn found<A: Allocator + Copy>(rt: &impl Abort, heap: A, grid: &Grid) -> Rooms<A> {
    rooms_of(heap, grid)
        .expect(rt, "memory for a tree")
        .expect(rt, "a tree that passes its checks")
}

/// A plus of five cells: its middle, and four rooms of one cell.
const PLUS: (u32, u32, &[u8], u32, &[(u32, u32, u32, u32)]) = (
    3,
    3,
    b"@.@\
      ...\
      @.@",
    3,
    &[(1, 4, 1, 1), (3, 4, 3, 1), (5, 4, 5, 1), (7, 4, 7, 1)],
);

/// Maps of one part by their sides and letters, their capacity, and all cells in rooms: each with the mouth, the door and
/// the size.
const MAPS: [(u32, u32, &[u8], u32, &[(u32, u32, u32, u32)]); 6] = [
    PLUS,
    // No bridge.
    (2, 2, b"....", 4, &[]),
    (1, 1, b".", 1, &[]),
    // Two blocks with a bridge between them, of four cells and of six.
    (
        3,
        5,
        b"..@@@\
          .....\
          @@...",
        6,
        &[(0, 7, 6, 4), (1, 7, 6, 4), (5, 7, 6, 4), (6, 7, 6, 4)],
    ),
    // A block of four cells with two stubs, of one cell and of two.
    (
        3,
        4,
        b"....\
          ..@@\
          @.@@",
        4,
        &[(2, 1, 2, 2), (3, 1, 2, 2), (9, 5, 9, 1)],
    ),
    // A ring of four cells with a stub of one.
    (2, 4, b"...@..@@", 4, &[(2, 1, 2, 1)]),
];

/// Whether the rooms of all floor cells are the wanted ones, and each has that capacity.
fn has_rooms<A: Allocator + Copy>(
    grid: &Grid,
    rooms: &Rooms<A>,
    capacity: u32,
    wanted: &[(u32, u32, u32, u32)],
) -> bool {
    let mut met = 0;
    for cell in 0..grid.cell_count() {
        if grid.is_floor(cell) && rooms.capacity(cell) != capacity {
            return false;
        }
        if grid.is_floor(cell)
            && let Some(Room { mouth, door, size }) = rooms.room(cell)
        {
            if wanted.get(met) != Some(&(cell, mouth, door, size)) {
                return false;
            }
            met += 1;
        }
    }
    met == wanted.len()
}

#[test]
fn maps_by_hand(rt: HostRuntime) {
    for (height, width, cells, capacity, wanted) in MAPS {
        let grid = grid_of(&rt, rt.alloc(), height, width, cells);
        let rooms = found(&rt, rt.alloc(), &grid);
        assert!(rt; has_rooms(&grid, &rooms, capacity, wanted));
    }
    cores_serve();
    rooms_serve();
}

/// Each cell of a path has all others on one side or two.
#[test]
fn path(rt: HostRuntime) {
    let grid = grid_of(&rt, rt.alloc(), 1, 5, b".....");
    let rooms = found(&rt, rt.alloc(), &grid);
    for cell in 0..5 {
        assert!(rt; rooms.capacity(cell) == 1);
    }
}

/// Each part has its own core: a path of two cells, and a ring of four.
#[test]
fn two_parts(rt: HostRuntime) {
    let grid = grid_of(&rt, rt.alloc(), 2, 5, b"..@..@@@..");
    let rooms = found(&rt, rt.alloc(), &grid);
    assert!(rt; rooms.capacity(0) == 1 && rooms.capacity(1) == 1);
    assert!(rt; rooms.capacity(3) == 4 && rooms.capacity(9) == 4);
    assert!(rt; rooms.room(0).is_some() != rooms.room(1).is_some());
    assert!(rt; rooms.room(3).is_none() && rooms.room(9).is_none());
}

/// Three arms of thirty cells around a middle: two of them are left out, so 31 remain.
#[test]
fn three_arms(rt: HostRuntime) {
    let mut cells = Vec::new(rt.alloc());
    for row in 0..31 {
        for col in 0..61 {
            let is_floor = row == 0 || col == 30;
            cells
                .push(if is_floor { b'.' } else { b'@' })
                .expect(&rt, "memory for a map");
        }
    }
    let grid = grid_of(&rt, rt.alloc(), 31, 61, &cells);
    let rooms = found(&rt, rt.alloc(), &grid);
    assert!(rt; rooms.capacity(0) == 31);
    assert!(rt; rooms.room(30).is_none());
    assert!(rt;
        rooms.room(0)
            == Some(Room {
                mouth: 30,
                door: 29,
                size: 30
            })
    );
    assert!(rt;
        rooms.room(1860)
            == Some(Room {
                mouth: 30,
                door: 91,
                size: 30
            })
    );
}

/// Maps of 64 rows and columns, with none to half of their cells walls, have trees that pass their checks: each cell has
/// its part's capacity, which is not 0.
#[test]
fn larger_maps_have_rooms(rt: HostRuntime) {
    let mut random = Random::from_seed(78);
    for round in 0..24 {
        let mut cells = Vec::new(rt.alloc());
        for _ in 0..4096 {
            let is_wall = random.below(100) < round % 6 * 10;
            cells
                .push(if is_wall { b'@' } else { b'.' })
                .expect(&rt, "memory for a map");
        }
        let grid = grid_of(&rt, rt.alloc(), 64, 64, &cells);
        let rooms = found(&rt, rt.alloc(), &grid);
        for cell in 0..grid.cell_count() {
            assert!(rt; !grid.is_floor(cell) || rooms.capacity(cell) > 0);
        }
    }
}

/// Whether an allocation is refused. After a refusal, the next call with the same memory finds the rooms.
fn is_refused(rt: &impl Abort, heap: impl Allocator + Copy, grid: &Grid) -> bool {
    let met = rooms_of(heap, grid).is_err();
    let (_height, _width, _cells, capacity, wanted) = PLUS;
    assert!(rt; !met || has_rooms(grid, &found(rt, heap, grid), capacity, wanted));
    met
}

#[test]
fn refused_growths(rt: HostRuntime) {
    let (height, width, cells, _capacity, _wanted) = PLUS;
    let grid = grid_of(&rt, rt.alloc(), height, width, cells);
    let mut refused = 0;
    for before in 0..64 {
        if is_refused(&rt, &Refusing::after(rt.alloc(), before), &grid) {
            refused = before + 1;
        }
    }
    assert!(rt; 0 < refused && refused < 64);
}
