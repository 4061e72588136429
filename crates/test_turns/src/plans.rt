//! Ticks of turns on a ring of four cells with a stub of two, as `tools/turns/rows` plans them by its model.

ghost use Rattle.std.specs.Prelude.{◌≡◌, ◌<◌, ℕ, Some, true, length};
ghost use Rattle.fleet_grid.specs.Floor.{IsFloor};
ghost use Rattle.fleet_turns.specs.Planning.{IsPlannerOf};

use fleet_field::FieldCache;
use fleet_grid::Grid;
use fleet_hooks::TieHook;
use fleet_map::MapText;
use fleet_pibt::Door;
use fleet_planner::{GoalChange, Lending};
use fleet_turns::{Fleet, NoTurns, TurnPlanner, is_ready};
use std::alloc::{Alloc, Global};
use std::process::Abort;

/// A grid with these letters, row by row.
pub fn grid_of(rt: &impl Abort, alloc: Global, height: u32, width: u32, letters: &[u8]) -> Grid {
    assert!(rt; height <= 1024 && width <= 1024);
    assert!(rt; letters.len() == (height * width) as usize);
    let cells = Vec::from_slice(alloc, letters).expect(rt, "letters");
    let map = MapText {
        height,
        width,
        cells,
    };
    Grid::new(map).expect(rt, "memory for a grid")
}

/// Whether the goal, if there is one, is a floor cell.
fn is_goal(grid: &Grid, goal: Option<u32>) -> bool
    ensures { result ≡ true → (cell : ℕ) → goal ≡ Some cell → IsFloor grid.now cell }
{
    match goal {
        Some(cell) => grid.is_floor(cell),
        None => true,
    }
}

/// Gives a robot a goal, or takes its goal.
pub fn aim(
    rt: &impl Abort,
    alloc: Global,
    planner: &mut TurnPlanner,
    grid: &Grid,
    cells: &[u32],
    robot: u32,
    goal: Option<u32>,
)
    requires known { robot < length cells.now }
    requires planner { IsPlannerOf grid.now (length cells.now) planner.old }
    ensures planner { IsPlannerOf grid.now (length cells.now) planner.new }
{
    assert!(rt; is_goal(grid, goal));
    let mut cache = FieldCache::new(alloc, 0);
    let change = GoalChange { robot, goal };
    planner
        .turn(&mut cache, grid, cells, &[change])
        .expect(rt, "memory for a goal");
}

/// Where three robots go from these cells, and what is lent.
fn planned(
    rt: &impl Abort,
    alloc: Global,
    cells: [u32; 3],
    goals: [Option<u32>; 3],
    waits: [Option<u64>; 3],
) -> ([u32; 3], Lending) {
    // The cells 0, 1, 4 and 5 are the ring; 2 and 3 are the stub beyond cell 1.
    let grid = grid_of(rt, alloc, 2, 4, b"......@@");
    let mut planner = TurnPlanner::open(alloc, &grid, 3).expect(rt, "a planner");
    aim(rt, alloc, &mut planner, &grid, &cells, 0, goals[0]);
    aim(rt, alloc, &mut planner, &grid, &cells, 1, goals[1]);
    aim(rt, alloc, &mut planner, &grid, &cells, 2, goals[2]);
    assert!(rt; is_ready(&grid, planner.goals(), &cells, &waits));
    let ties = [
        TieHook::fixed([0; 4]),
        TieHook::fixed([0; 4]),
        TieHook::fixed([0; 4]),
    ];
    let mut to = cells;
    let fleet = Fleet {
        cells: &cells,
        waits: &waits,
        tick: 1,
    };
    let lending = planner
        .plan(&grid, fleet, &ties, &mut to)
        .expect(rt, "memory for a tick");
    (to, lending)
}

/// The door from cell 1 to cell 2.
fn shut(lender: Option<u32>) -> Lending {
    Lending {
        lender,
        door: Some(Door { from: 1, to: 2 }),
    }
}

const NOTHING: Lending = Lending {
    lender: None,
    door: None,
};

#[test]
fn turn_lent_in_a_stub(rt: HostRuntime) {
    let alloc = rt.alloc();
    let waits = [Some(9), Some(2), Some(1)];
    // Robots 1 and 2 are in the stub that robot 0 goes to: robot 2 leaves first.
    let there = planned(&rt, alloc, [0, 3, 2], [Some(3), Some(0), Some(4)], waits);
    assert!(rt; there == ([0, 2, 1], shut(Some(2))));
    // Robot 1 is idle there.
    let idle = planned(
        &rt,
        alloc,
        [0, 3, 2],
        [Some(3), None, Some(4)],
        [Some(9), None, Some(1)],
    );
    assert!(rt; idle == ([0, 3, 1], shut(Some(2))));
}

#[test]
fn stub_without_others(rt: HostRuntime) {
    let alloc = rt.alloc();
    let goals = [Some(3), Some(4), Some(0)];
    let waits = [Some(9), Some(2), Some(1)];
    // Robot 0 is at the mouth, inside, and on its way.
    assert!(rt; planned(&rt, alloc, [1, 0, 4], goals, waits) == ([2, 4, 5], NOTHING));
    assert!(rt; planned(&rt, alloc, [2, 0, 4], goals, waits) == ([3, 4, 5], shut(None)));
    assert!(rt; planned(&rt, alloc, [0, 1, 4], goals, waits) == ([1, 5, 0], shut(None)));
}

#[test]
fn goal_on_the_ring(rt: HostRuntime) {
    let goals = [Some(4), Some(0), None];
    let there = planned(&rt, rt.alloc(), [0, 3, 2], goals, [Some(9), Some(2), None]);
    assert!(rt; there == ([4, 2, 1], NOTHING));
}

#[test]
fn why_no_planner_opens(rt: HostRuntime) {
    assert!(rt; NoTurns::NoMemory != NoTurns::NoRooms);
}
