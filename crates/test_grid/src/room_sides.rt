//! Rooms and capacities of random maps, next to a search by the definition.

use crate::rooms::found;
use crate::roomy::{random_map, side};
use fleet_bridge::{Room, Rooms};
use fleet_grid::{Dir, Grid};
use std::alloc::Global;
use std::process::Abort;
use test_kit::Random;

/// A side of a bridge, by the bridge's ends and marks of the side's cells.
#[derive(Drop)]
struct Beyond {
    mouth: u32,
    door: u32,
    marked: Vec<bool>,
    size: usize,
}

/// Whether the cell is marked.
fn is_in(marked: &[bool], cell: u32) -> bool {
    marked.get(cell as usize) == Some(&true)
}

/// How many cells are marked.
fn marks(marked: &[bool]) -> usize {
    marked.iter().filter(|mark| **mark).count()
}

/// Both sides of each bridge.
fn all_sides(rt: &impl Abort, alloc: Global, grid: &Grid) -> Vec<Beyond> {
    let mut sides = Vec::new(alloc);
    for mouth in 0..grid.cell_count() {
        for dir in Dir::ALL {
            if let Some(door) = grid.neighbour(mouth, dir) {
                let marked = side(rt, alloc, grid, mouth, door);
                if !is_in(&marked, mouth) {
                    let size = marks(&marked);
                    let beyond = Beyond {
                        mouth,
                        door,
                        marked,
                        size,
                    };
                    sides.push(beyond).expect(rt, "memory for sides");
                }
            }
        }
    }
    sides
}

/// The largest side within a part that does not have the cell, and has the other one, if there is one.
fn largest<'a>(
    sides: &'a [Beyond],
    part: &[bool],
    without: u32,
    with: Option<u32>,
) -> Option<&'a Beyond> {
    let mut best: Option<&Beyond> = None;
    let mut size = 0;
    for beyond in sides {
        let has = match with {
            Some(cell) => is_in(&beyond.marked, cell),
            None => true,
        };
        if has
            && is_in(part, beyond.door)
            && !is_in(&beyond.marked, without)
            && size < beyond.size
        {
            best = Some(beyond);
            size = beyond.size;
        }
    }
    best
}

/// Whether no cell is marked in both lists.
fn are_apart(one: &[bool], other: &[bool]) -> bool {
    for (a, b) in one.iter().zip(other.iter()) {
        if *a && *b {
            return false;
        }
    }
    true
}

/// The size of the largest side within a part that does not have the cell, nor a cell of the other side.
fn size_apart(sides: &[Beyond], part: &[bool], other: &Beyond, without: u32) -> usize {
    let mut size = 0;
    for beyond in sides {
        if is_in(part, beyond.door)
            && !is_in(&beyond.marked, without)
            && are_apart(&beyond.marked, &other.marked)
            && size < beyond.size
        {
            size = beyond.size;
        }
    }
    size
}

/// How many cells are left of the part of a cell without the two greatest sides around the cell's block.
fn left_around(sides: &[Beyond], part: &[bool], cell: u32) -> usize {
    let all = marks(part);
    match largest(sides, part, cell, None) {
        None => all,
        Some(first) => all
            .saturating_sub(first.size)
            .saturating_sub(size_apart(sides, part, first, cell)),
    }
}

/// The greatest of these numbers in a part.
fn capacity_of(sides: &[Beyond], part: &[bool], count: u32) -> usize {
    let mut most = 0;
    for cell in 0..count {
        if is_in(part, cell) {
            most = most.max(left_around(sides, part, cell));
        }
    }
    most
}

/// Whether a cell's room is the largest side that has the cell and not the core, if there is one.
fn is_room_right(
    sides: &[Beyond],
    part: &[bool],
    core: u32,
    cell: u32,
    room: Option<Room>,
) -> bool {
    match (largest(sides, part, core, Some(cell)), room) {
        (None, None) => true,
        (Some(beyond), Some(Room { mouth, door, size })) => {
            beyond.mouth == mouth && beyond.door == door && beyond.size == size as usize
        }
        _ => false,
    }
}

/// Whether all that is found of a cell is as the definition says.
fn is_cell_right(
    rt: &impl Abort,
    alloc: Global,
    grid: &Grid,
    sides: &[Beyond],
    rooms: &Rooms,
    cell: u32,
) -> bool {
    let part = side(rt, alloc, grid, cell, cell);
    let core = rooms.core.get(cell as usize).copied().expect(rt, "a core");
    let capacity = capacity_of(sides, &part, grid.cell_count());
    is_in(&part, core)
        && capacity == rooms.capacity(cell) as usize
        && capacity == left_around(sides, &part, core)
        && is_room_right(sides, &part, core, cell, rooms.room(cell))
}

/// Whether all that is found of a map is.
fn is_map_right(rt: &impl Abort, alloc: Global, grid: &Grid) -> bool {
    let sides = all_sides(rt, alloc, grid);
    let rooms = found(rt, alloc, grid);
    for cell in 0..grid.cell_count() {
        if grid.is_floor(cell) && !is_cell_right(rt, alloc, grid, &sides, &rooms, cell) {
            return false;
        }
    }
    true
}

#[test]
fn random_maps_next_to_the_definition(rt: HostRuntime) {
    let mut random = Random::from_seed(77);
    for _ in 0..1000 {
        let grid = random_map(&rt, rt.alloc(), &mut random);
        assert!(rt; is_map_right(&rt, rt.alloc(), &grid));
    }
}
