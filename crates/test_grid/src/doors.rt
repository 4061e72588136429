//! Steps with a door, worked out by hand: four robots in a corridor, and four on a ring that is full.

ghost use Rattle.std.specs.Prelude.{◌≡◌, ◌<◌, ◌∷◌, [], ℕ, true, None, Some, length, replicate, slice_index};
ghost use Rattle.fleet_grid.specs.Floor.{IsNeighbour};
ghost use Rattle.fleet_grid.specs.Walk.{AreJoined};
ghost use Rattle.fleet_grid.specs.Step.{IsPlacement};
ghost use Rattle.fleet_pibt.specs.Goals.{AreGoals};
ghost use Rattle.fleet_planner.specs.Courses.{goals_of, goal, away, AreOn};

use crate::floor::grid_of;
use fleet_field::FieldCache;
use fleet_grid::{Grid, is_placement};
use fleet_hooks::TieHook;
use fleet_pibt::{Door, Stepper};
use fleet_planner::Courses;
use std::alloc::Global;
use std::process::Abort;

/// How long the robots have waited: the lower a robot's number, the longer.
const WAITS: [Option<u64>; 4] = [Some(9), Some(5), Some(3), Some(1)];

/// Gives four robots these goals.
fn aim_all(
    rt: &impl Abort,
    alloc: Global,
    courses: &mut Courses,
    grid: &Grid,
    from: &[u32; 4],
    goals: [u32; 4],
)
    requires none { goals_of courses.old ≡ replicate 4 None }
    requires on { AreOn grid.now courses.old }
    ensures goals { goals_of courses.new ≡ Some (slice_index goals 0) ∷ Some (slice_index goals 1) ∷ Some (slice_index goals 2) ∷ Some (slice_index goals 3) ∷ [] }
    ensures on { AreOn grid.now courses.new }
{
    let mut cache = FieldCache::new(alloc, 0);
    let [a, b, c, d] = goals;
    assert!(rt; grid.is_floor(a) && grid.is_floor(b) && grid.is_floor(c) && grid.is_floor(d));
    courses
        .aim(&mut cache, grid, from, 0, a)
        .expect(rt, "memory for a goal");
    courses
        .aim(&mut cache, grid, from, 1, b)
        .expect(rt, "memory for a goal");
    courses
        .aim(&mut cache, grid, from, 2, c)
        .expect(rt, "memory for a goal");
    courses
        .aim(&mut cache, grid, from, 3, d)
        .expect(rt, "memory for a goal");
}

/// Whether both are floor cells that a walk joins.
fn is_way(grid: &Grid, a: u32, b: u32) -> bool
    ensures { result ≡ true → AreJoined (IsNeighbour grid.now) a b }
{
    grid.is_floor(a) && grid.is_floor(b) && grid.same_part(a, b)
}

/// Whether a walk joins each robot's cell and its goal.
fn are_ways(grid: &Grid, from: &[u32; 4], goals: &[u32; 4]) -> bool
    ensures { result ≡ true → (r : ℕ) → r < 4 → AreJoined (IsNeighbour grid.now) (slice_index from.now r) (slice_index goals.now r) }
{
    is_way(grid, from[0], goals[0])
        && is_way(grid, from[1], goals[1])
        && is_way(grid, from[2], goals[2])
        && is_way(grid, from[3], goals[3])
}

/// A walk joins each robot's cell and its goal.
fn check_ways(rt: &impl Abort, grid: &Grid, from: &[u32; 4], goals: &[u32; 4])
    ensures joined { (r : ℕ) → r < 4 → AreJoined (IsNeighbour grid.now) (slice_index from.now r) (slice_index goals.now r) }
    ensures four { length from.now ≡ 4 }
{
    assert!(rt; are_ways(grid, from, goals));
}

/// Where four robots go from these cells while the door is shut. All ranks are equal.
fn step_for(
    rt: &impl Abort,
    alloc: Global,
    grid: &Grid,
    courses: &mut Courses,
    from: &[u32; 4],
    door: Option<Door>,
) -> [u32; 4]
    requires placed { IsPlacement grid.now from.now }
    requires goals { AreGoals grid.now from.now (Some 9 ∷ Some 5 ∷ Some 3 ∷ Some 1 ∷ []) (goal courses.old) (away courses.old grid.now) }
    requires on { AreOn grid.now courses.old }
{
    let mut stepper = Stepper::new(alloc, grid.cell_count(), 4).expect(rt, "memory for a step");
    let ties = [
        TieHook::fixed([0; 4]),
        TieHook::fixed([0; 4]),
        TieHook::fixed([0; 4]),
        TieHook::fixed([0; 4]),
    ];
    let mut to = [0; 4];
    stepper
        .step_with_door(grid, from, &WAITS, courses, &ties, door, 1, &mut to)
        .expect(rt, "memory for a field");
    to
}

/// Where four robots go from these cells to these goals while the door is shut.
fn step_of(
    rt: &impl Abort,
    alloc: Global,
    grid: &Grid,
    from: [u32; 4],
    goals: [u32; 4],
    door: Option<Door>,
) -> [u32; 4] {
    let mut courses = Courses::new(alloc, 4, grid.cell_count()).expect(rt, "memory for goals");
    aim_all(rt, alloc, &mut courses, grid, &from, goals);
    assert!(rt; is_placement(grid, &from));
    check_ways(rt, grid, &from, &goals);
    step_for(rt, alloc, grid, &mut courses, &from, door)
}

/// The door that keeps a robot on `from` from going to `to`.
fn door(from: u32, to: u32) -> Option<Door> {
    Some(Door { from, to })
}

/// Robot 0 pushes the others along a corridor, unless a door keeps one of them.
#[test]
fn corridor_with_a_door(rt: HostRuntime) {
    let alloc = rt.alloc();
    let grid = grid_of(&rt, alloc, 1, 6, b"......");
    let from = [0, 1, 2, 3];
    let goals = [5, 1, 2, 3];
    assert!(rt; step_of(&rt, alloc, &grid, from, goals, None) == [1, 2, 3, 4]);
    // The robot on cell 2 may not be pushed to cell 3, and the last one not to the empty cell 4.
    assert!(rt; step_of(&rt, alloc, &grid, from, goals, door(2, 3)) == from);
    assert!(rt; step_of(&rt, alloc, &grid, from, goals, door(3, 4)) == from);
    // A door that is shut from the other side, or elsewhere, keeps nobody.
    assert!(rt; step_of(&rt, alloc, &grid, from, goals, door(3, 2)) == [1, 2, 3, 4]);
    assert!(rt; step_of(&rt, alloc, &grid, from, goals, door(4, 5)) == [1, 2, 3, 4]);
}

/// On a ring of four cells, all taken, robot 0 goes to the far corner. Its first choice is east, and the others follow it round.
#[test]
fn ring_through_a_door(rt: HostRuntime) {
    let alloc = rt.alloc();
    let grid = grid_of(&rt, alloc, 2, 2, b"....");
    let from = [0, 1, 3, 2];
    let goals = [3, 1, 3, 2];
    assert!(rt; step_of(&rt, alloc, &grid, from, goals, None) == [1, 3, 2, 0]);
    assert!(rt; step_of(&rt, alloc, &grid, from, goals, door(3, 1)) == [1, 3, 2, 0]);
    // Its way east is shut, so they go round the other way.
    assert!(rt; step_of(&rt, alloc, &grid, from, goals, door(0, 1)) == [2, 0, 1, 3]);
    // Robot 1 can't make way and stays for good, so that the way south is shut too.
    assert!(rt; step_of(&rt, alloc, &grid, from, goals, door(1, 3)) == from);
}

/// Four robots go to the ends of three blind aisles and block each other: all wait equally long, so what happens once happens for ever.
/// `blind_aisles_are_reached` of test_turns has the same robots.
#[test]
fn blind_aisles_without_turns(rt: HostRuntime) {
    let alloc = rt.alloc();
    let grid = grid_of(&rt, alloc, 5, 5, b".@.@..@.@.......@@@......");
    let goals = [0, 4, 2, 0];
    assert!(rt; step_of(&rt, alloc, &grid, [2, 7, 0, 4], goals, None) == [7, 12, 5, 9]);
    assert!(rt; step_of(&rt, alloc, &grid, [7, 12, 5, 9], goals, None) == [12, 13, 10, 14]);
    assert!(rt; step_of(&rt, alloc, &grid, [12, 13, 10, 14], goals, None) == [11, 14, 10, 9]);
    assert!(rt; step_of(&rt, alloc, &grid, [11, 14, 10, 9], goals, None) == [10, 9, 5, 4]);
    assert!(rt; step_of(&rt, alloc, &grid, [10, 9, 5, 4], goals, None) == [5, 9, 0, 4]);
    assert!(rt; step_of(&rt, alloc, &grid, [5, 9, 0, 4], goals, None) == [5, 9, 0, 4]);
}
