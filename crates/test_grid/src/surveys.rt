//! What a map offers for a number of robots: maps worked by hand, and random maps next to the definitions.

use crate::floor::grid_of;
use crate::roomy::random_map;
use fleet_bridge::roominess;
use fleet_grid::{Dir, Grid};
use fleet_survey::{CellsFault, Standing, Survey, pruned, read_cells, survey_of};
use std::alloc::Global;
use std::process::Abort;
use test_kit::Random;

/// Two rings of four cells, joined by a corridor of three with a stub of one below its middle.
const RINGS: (u32, u32, &[u8]) = (
    3,
    7,
    b"..@@@..\
      .......\
      @@@.@@@",
);

/// The survey of a map.
fn surveyed(rt: &impl Abort, alloc: Global, grid: &Grid, robots: u32) -> Survey {
    survey_of(alloc, grid, robots).expect(rt, "memory for a survey")
}

/// The rings.
fn rings(rt: &impl Abort, alloc: Global) -> Grid {
    let (height, width, cells) = RINGS;
    grid_of(rt, alloc, height, width, cells)
}

#[test]
fn rings_for_four_robots(rt: HostRuntime) {
    let grid = rings(&rt, rt.alloc());
    let found = surveyed(&rt, rt.alloc(), &grid, 4);
    assert!(rt; found.robots == 4 && found.floor == 12 && found.edges == 13);
    assert!(rt; found.height == 3 && found.width == 7);
    assert!(rt; found.bridges.len() == 5 && found.roomy.len() == 11);
    // Only the stub is not roomy; its mouth is the middle of the corridor.
    assert!(rt; found.unroomy.as_slice() == [17u32].as_slice());
    assert!(rt; found.ends.len() == 1);
    for end in found.ends.iter() {
        assert!(rt; end.mouth == Some(10) && end.cells.as_slice() == [17u32].as_slice());
    }
    assert!(rt; found.standing == Standing::SomeRoomy);
}

#[test]
fn rings_for_five_robots(rt: HostRuntime) {
    let grid = rings(&rt, rt.alloc());
    let found = surveyed(&rt, rt.alloc(), &grid, 5);
    // Now the rings are dead ends too, of four cells each.
    assert!(rt; found.roomy.as_slice() == [9u32, 10, 11].as_slice());
    let wanted: [(u32, &[u32]); 3] = [(9, &[0, 1, 7, 8]), (11, &[5, 6, 12, 13]), (10, &[17])];
    assert!(rt; found.ends.len() == 3);
    for (end, (mouth, cells)) in found.ends.iter().zip(wanted.iter()) {
        assert!(rt; end.mouth == Some(*mouth) && end.cells.len() == cells.len());
        for cell in end.cells.iter() {
            assert!(rt; cells.contains(cell));
        }
    }
    // With nine robots no cell is roomy: the part as a whole is a dead end without a mouth.
    let found = surveyed(&rt, rt.alloc(), &grid, 9);
    assert!(rt; found.standing == Standing::NoneRoomy && found.ends.len() == 1);
    for end in found.ends.iter() {
        assert!(rt; end.mouth.is_none() && end.cells.len() == 12);
    }
}

#[test]
fn standings(rt: HostRuntime) {
    let ring = grid_of(&rt, rt.alloc(), 2, 2, b"....");
    let found = surveyed(&rt, rt.alloc(), &ring, 512);
    assert!(rt; found.standing == Standing::Bridgeless);
    let found = surveyed(&rt, rt.alloc(), &rings(&rt, rt.alloc()), 1);
    assert!(rt; found.standing == Standing::AllRoomy && found.ends.is_empty());
}

/// Whether a text lists these cells.
fn lists(alloc: Global, grid: &Grid, text: &[u8], wanted: &[u32]) -> bool {
    match read_cells(alloc, grid, text) {
        Ok(cells) => cells.as_slice() == wanted,
        Err(_) => false,
    }
}

/// Whether a text is refused for its line with this number.
fn refused_at(alloc: Global, grid: &Grid, text: &[u8], number: u64) -> bool {
    match read_cells(alloc, grid, text) {
        Ok(_) => false,
        Err(fault) => fault == CellsFault::Line(number),
    }
}

#[test]
fn lists_of_cells(rt: HostRuntime) {
    let grid = rings(&rt, rt.alloc());
    assert!(rt; lists(rt.alloc(), &grid, b"", [].as_slice()));
    assert!(rt; lists(rt.alloc(), &grid, b"10\n", [10u32].as_slice()));
    // Column 3 and row 1 are cell 10, column 2 and row 1 cell 9.
    let three = [10u32, 10, 9];
    assert!(rt; lists(rt.alloc(), &grid, b"3,1 10\n\n2,1\r\n", three.as_slice()));
    let three = [10u32, 17, 0];
    assert!(rt; lists(rt.alloc(), &grid, b"10\n17 0", three.as_slice()));
    // A wall, a row past the last one, a column past the last one, and no number.
    assert!(rt; refused_at(rt.alloc(), &grid, b"10\n2", 2));
    assert!(rt; refused_at(rt.alloc(), &grid, b"0,3", 1));
    assert!(rt; refused_at(rt.alloc(), &grid, b"7,0", 1));
    assert!(rt; refused_at(rt.alloc(), &grid, b"\n\nx", 3));
}

/// Whether the pruned map has these floor cells.
fn has_floor(rt: &impl Abort, alloc: Global, grid: &Grid, robots: u32, wanted: &[u32]) -> bool {
    let map = pruned(alloc, grid, robots).expect(rt, "memory for a map");
    let mut count = 0u32;
    for cell in 0..map.cell_count() {
        if map.is_floor(cell) {
            if !wanted.contains(&cell) {
                return false;
            }
            count = count.saturating_add(1);
        }
    }
    count as usize == wanted.len()
}

#[test]
fn pruned_maps(rt: HostRuntime) {
    let grid = rings(&rt, rt.alloc());
    let eleven = [0u32, 1, 5, 6, 7, 8, 9, 10, 11, 12, 13];
    assert!(rt; has_floor(&rt, rt.alloc(), &grid, 4, eleven.as_slice()));
    // Without the rings and the stub, the corridor of three cells is too small itself.
    assert!(rt; has_floor(&rt, rt.alloc(), &grid, 5, [].as_slice()));
    // A ring of four cells, a corridor of two to the right of it, and at its end two stubs of one: for two robots only
    // the stubs are not roomy, but without them the end of the corridor is not, and then the rest of it.
    let fork = grid_of(&rt, rt.alloc(), 3, 4, b"@@@.......@.");
    let found = surveyed(&rt, rt.alloc(), &fork, 2);
    assert!(rt; found.unroomy.as_slice() == [3u32, 11].as_slice() && found.roomy.len() == 6);
    assert!(rt; has_floor(&rt, rt.alloc(), &fork, 2, [4u32, 5, 8, 9].as_slice()));
}

/// Whether all that hangs together with a cell without roomy cells has the same end.
fn is_whole(grid: &Grid, found: &Survey, cell: u32, cells: &[u32]) -> bool {
    for dir in Dir::ALL {
        if let Some(next) = grid.neighbour(cell, dir)
            && found.unroomy.contains(&next)
            && !cells.contains(&next)
        {
            return false;
        }
    }
    true
}

/// Whether the dead ends have each cell once that is not roomy, and what hangs together is one.
fn are_ends(grid: &Grid, found: &Survey) -> bool {
    let mut count = 0usize;
    for end in found.ends.iter() {
        count = count.saturating_add(end.cells.len());
        for cell in end.cells.iter() {
            if !found.unroomy.contains(cell) || !is_whole(grid, found, *cell, &end.cells) {
                return false;
            }
        }
    }
    count == found.unroomy.len()
}

/// Whether each roomy cell next to a dead end is its mouth.
fn have_one_mouth(grid: &Grid, found: &Survey) -> bool {
    for end in found.ends.iter() {
        for cell in end.cells.iter() {
            for dir in Dir::ALL {
                if let Some(next) = grid.neighbour(*cell, dir)
                    && found.roomy.contains(&next)
                    && end.mouth != Some(next)
                {
                    return false;
                }
            }
        }
    }
    true
}

/// Whether all floor cells of the pruned map are roomy, and floor of the map.
fn is_pruned(rt: &impl Abort, alloc: Global, grid: &Grid, robots: u32) -> bool {
    let map = pruned(alloc, grid, robots).expect(rt, "memory for a map");
    let most = roominess(alloc, &map).expect(rt, "memory for a tree");
    for cell in 0..map.cell_count() {
        if map.is_floor(cell) {
            let is_roomy = most.get(cell as usize).is_some_and(|most| robots <= *most);
            if !is_roomy || !grid.is_floor(cell) {
                return false;
            }
        }
    }
    true
}

#[test]
fn random_maps(rt: HostRuntime) {
    let mut random = Random::from_seed(761);
    for _ in 0..2000 {
        let grid = random_map(&rt, rt.alloc(), &mut random);
        let robots = random.below(12) as u32 + 1;
        let found = surveyed(&rt, rt.alloc(), &grid, robots);
        assert!(rt; are_ends(&grid, &found) && have_one_mouth(&grid, &found));
        assert!(rt; is_pruned(&rt, rt.alloc(), &grid, robots));
    }
}
