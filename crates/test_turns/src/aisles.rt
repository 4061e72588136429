//! Four robots that go to the ends of blind aisles, tick by tick. The cells are those of a model (`tools/turns/rows`, and the one
//! that the rule was found by).

ghost use Rattle.std.specs.Prelude.{◌≡◌, ◌<◌, length};
ghost use Rattle.fleet_turns.specs.Planning.{IsPlannerOf};

use crate::plans::{aim, grid_of};
use fleet_grid::Grid;
use fleet_hooks::TieHook;
use fleet_turns::{Fleet, TurnPlanner, is_ready};
use std::alloc::{Alloc, Global};
use std::process::Abort;

/// Three aisles of two cells at a ring of twelve.
const MAP: &[u8] = b".@.@..@.@.......@@@......";

const STARTS: [u32; 4] = [2, 7, 0, 4];

/// The ends of the aisles, two robots to the same.
const GOALS: [Option<u32>; 4] = [Some(0), Some(4), Some(2), Some(0)];

/// Where the robots are after each tick. No two cells are further apart than 8, and an aisle's end is 2 from its mouth: so a turn is
/// 8 + 2 * 2 ticks, and each errand arrives within 48.
const ROWS: &[[u32; 4]; 16] = &[
    [7, 12, 5, 9],
    [12, 13, 10, 14],
    [11, 14, 10, 9],
    [10, 9, 15, 4],
    [5, 9, 10, 4],
    [0, 9, 11, 4],
    [0, 14, 12, 9],
    [0, 19, 7, 14],
    [0, 14, 2, 13],
    [0, 9, 2, 12],
    [0, 4, 2, 11],
    [5, 4, 2, 10],
    [10, 4, 2, 11],
    [15, 4, 2, 10],
    [15, 4, 2, 5],
    [15, 4, 2, 0],
];

/// How long the robots have waited that got their goals before the first tick.
fn waits_at(goals: &[Option<u32>], tick: u64) -> [Option<u64>; 4]
    requires { length goals.now ≡ 4 }
{
    [
        goals[0].and(Some(tick)),
        goals[1].and(Some(tick)),
        goals[2].and(Some(tick)),
        goals[3].and(Some(tick)),
    ]
}

/// Takes the robot's goal if the robot is there.
fn land(
    rt: &impl Abort,
    alloc: Global,
    planner: &mut TurnPlanner,
    grid: &Grid,
    cells: &[u32; 4],
    robot: u32,
)
    requires known { robot < 4 }
    requires planner { IsPlannerOf grid.now 4 planner.old }
    ensures planner { IsPlannerOf grid.now 4 planner.new }
{
    let at = robot as usize;
    if planner.goals()[at] == Some(cells[at]) {
        aim(rt, alloc, planner, grid, cells, robot, None);
    }
}

/// Where the robots go from these cells in a tick.
fn tick_from(
    rt: &impl Abort,
    planner: &mut TurnPlanner,
    grid: &Grid,
    cells: [u32; 4],
    tick: u64,
) -> [u32; 4]
    requires { IsPlannerOf grid.now 4 planner.old }
    ensures { IsPlannerOf grid.now 4 planner.new }
{
    let waits = waits_at(planner.goals(), tick);
    assert!(rt; is_ready(grid, planner.goals(), &cells, &waits));
    let ties = [
        TieHook::fixed([0; 4]),
        TieHook::fixed([0; 4]),
        TieHook::fixed([0; 4]),
        TieHook::fixed([0; 4]),
    ];
    let mut to = cells;
    let fleet = Fleet {
        cells: &cells,
        waits: &waits,
        tick,
    };
    planner
        .plan(grid, fleet, &ties, &mut to)
        .expect(rt, "memory for a tick");
    to
}

/// A planner of these goals.
fn planner_of(rt: &impl Abort, alloc: Global, grid: &Grid) -> TurnPlanner
    ensures { IsPlannerOf grid.now 4 result }
{
    let mut planner = TurnPlanner::open(alloc, grid, 4).expect(rt, "a planner");
    aim(rt, alloc, &mut planner, grid, &STARTS, 0, GOALS[0]);
    aim(rt, alloc, &mut planner, grid, &STARTS, 1, GOALS[1]);
    aim(rt, alloc, &mut planner, grid, &STARTS, 2, GOALS[2]);
    aim(rt, alloc, &mut planner, grid, &STARTS, 3, GOALS[3]);
    planner
}

/// Makes the ticks until the last robot has arrived.
fn run(rt: &impl Abort, alloc: Global, planner: &mut TurnPlanner, grid: &Grid)
    requires { IsPlannerOf grid.now 4 planner.old }
{
    let mut cells = STARTS;
    for tick in 0..ROWS.len() {
        cells = tick_from(rt, planner, grid, cells, tick as u64);
        assert!(rt; cells == ROWS[tick]);
        land(rt, alloc, planner, grid, &cells, 0);
        land(rt, alloc, planner, grid, &cells, 1);
        land(rt, alloc, planner, grid, &cells, 2);
        land(rt, alloc, planner, grid, &cells, 3);
    }
    assert!(rt; planner.goals() == [None; 4].as_slice());
}

/// By plain priorities they stand still for ever after five ticks: `blind_aisles_without_turns` of test_grid.
#[test]
fn blind_aisles_are_reached(rt: HostRuntime) {
    let alloc = rt.alloc();
    let grid = grid_of(&rt, alloc, 5, 5, MAP);
    let mut planner = planner_of(&rt, alloc, &grid);
    // Of the 18 cells all but those of two aisles.
    assert!(rt; planner.capacity(0) == 14);
    run(&rt, alloc, &mut planner, &grid);
}
