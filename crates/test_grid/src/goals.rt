//! Goals given and turned, robots that share a goal, and each allocation refused in turn.

mod allowed;

ghost use Rattle.std.specs.Prelude.{◌≡◌, ◌<◌, length};
ghost use Rattle.fleet_field.specs.Store.{Keeps};
ghost use Rattle.fleet_planner.specs.Aims.{AreOn};

use crate::floor::grid_of;
use allowed::are_allowed;
use fleet_field::FieldCache;
use fleet_grid::Grid;
use fleet_pibt::Goals;
use fleet_planner::{Aims, GoalChange};
use std::alloc::{AllocError, Allocator, Global};
use std::process::Abort;
use test_kit::Refusing;

/// The map `.../.@./...`.
fn ring(rt: &impl Abort, alloc: Global) -> Grid {
    grid_of(rt, alloc, 3, 3, b"....@....")
}

/// A change of each of two robots' goals.
fn both(first: Option<u32>, second: Option<u32>) -> [GoalChange; 2] {
    [
        GoalChange {
            robot: 0,
            goal: first,
        },
        GoalChange {
            robot: 1,
            goal: second,
        },
    ]
}

/// Gives the robot, one of two, the goal 8.
fn aim_at_corner<A: Allocator + Copy>(
    rt: &impl Abort,
    aims: &mut Aims<A>,
    cache: &mut FieldCache<A>,
    grid: &Grid,
    robot: u32,
) -> Result<(), AllocError>
    requires known { robot < 2 }
    requires robots { length aims.old ≡ 2 }
    requires on { AreOn grid.now aims.old }
    requires keeps { Keeps grid.now cache.old }
    ensures robots { length aims.new ≡ 2 }
    ensures on { AreOn grid.now aims.new }
    ensures keeps { Keeps grid.now cache.new }
{
    assert!(rt; grid.is_floor(8));
    aims.aim(cache, grid, robot, 8)
}

/// Gives two robots new goals.
fn turn_both<A: Allocator + Copy>(
    rt: &impl Abort,
    aims: &mut Aims<A>,
    cache: &mut FieldCache<A>,
    grid: &Grid,
    turns: &[GoalChange; 2],
) -> Result<(), AllocError>
    requires robots { length aims.old ≡ 2 }
    requires on { AreOn grid.now aims.old }
    requires keeps { Keeps grid.now cache.old }
    ensures robots { length aims.new ≡ 2 }
    ensures on { AreOn grid.now aims.new }
    ensures keeps { Keeps grid.now cache.new }
{
    assert!(rt; are_allowed(grid, 2, turns));
    aims.turn(cache, grid, turns)
}

/// Whether the two robots have these goals.
fn have_goals<A: Allocator + Copy>(aims: &Aims<A>, first: Option<u32>, second: Option<u32>) -> bool
    requires { length aims.now ≡ 2 }
{
    aims.goal(0) == first && aims.goal(1) == second
}

/// Whether the cell has this distance to a robot's goal.
fn is_away<A: Allocator + Copy>(aims: &Aims<A>, robot: u32, cell: u32, away: Option<u32>) -> bool
    requires known { robot < 2 }
    requires robots { length aims.now ≡ 2 }
{
    aims.at(robot, cell) == away
}

/// Robot 0 has the goal 8, and robot 1 has none.
fn check_aimed<A: Allocator + Copy>(rt: &impl Abort, aims: &Aims<A>, grid: &Grid)
    requires robots { length aims.now ≡ 2 }
    requires on { AreOn grid.now aims.now }
{
    assert!(rt; have_goals(aims, Some(8), None));
    assert!(rt; is_away(aims, 0, 0, Some(4)));
    assert!(rt; is_away(aims, 0, 5, Some(1)));
    assert!(rt; is_away(aims, 0, 4, None));
    // East and south.
    assert!(rt; aims.ways(grid, 0, 0).byte == 6 && aims.ways(grid, 1, 0).byte == 0);
    assert!(rt; grid.is_floor(0));
    let (goes, idles) = (aims.outlook(grid, 0, 0), aims.outlook(grid, 1, 0));
    assert!(rt; goes.nearer.byte == 6 && goes.exits.byte == 6);
    assert!(rt; idles.nearer.byte == 0 && idles.exits.byte == 6);
}

/// Robot 0 is given the goal 8, then robot 1, and then robot 0 is turned to cell 1.
fn aim_and_turn<A: Allocator + Copy>(
    rt: &impl Abort,
    aims: &mut Aims<A>,
    cache: &mut FieldCache<A>,
    grid: &Grid,
)
    requires robots { length aims.old ≡ 2 }
    requires on { AreOn grid.now aims.old }
    requires keeps { Keeps grid.now cache.old }
{
    assert!(rt; have_goals(aims, None, None) && is_away(aims, 0, 8, None));
    aim_at_corner(rt, aims, cache, grid, 0).expect(rt, "memory for a goal");
    check_aimed(rt, aims, grid);
    aim_at_corner(rt, aims, cache, grid, 1).expect(rt, "memory for a goal");
    turn_both(rt, aims, cache, grid, &both(Some(1), Some(8))).expect(rt, "memory for goals");
    assert!(rt; have_goals(aims, Some(1), Some(8)));
    assert!(rt; is_away(aims, 0, 8, Some(3)) && is_away(aims, 1, 1, Some(3)));
}

fn aim_and_turn_over(rt: &impl Abort, alloc: impl Allocator + Copy, grid: &Grid) {
    let mut aims = Aims::new(alloc, 2).expect(rt, "memory for robots");
    let mut cache = FieldCache::new(alloc, 4096);
    aim_and_turn(rt, &mut aims, &mut cache, grid);
}

#[test]
fn aimed_and_turned(rt: HostRuntime) {
    let grid = ring(&rt, rt.alloc());
    aim_and_turn_over(&rt, rt.alloc(), &grid);
}

/// What robot 0 aims at after it was given cell 1, which may have been refused.
fn goal_after(refused: bool) -> u32 {
    if refused { 8 } else { 1 }
}

/// Whether an allocation is refused while robots get goals and then other goals. A refused call changes nothing.
fn is_turn_refused<A: Allocator + Copy>(
    rt: &impl Abort,
    aims: &mut Aims<A>,
    cache: &mut FieldCache<A>,
    grid: &Grid,
) -> bool
    requires robots { length aims.old ≡ 2 }
    requires on { AreOn grid.now aims.old }
    requires keeps { Keeps grid.now cache.old }
{
    let first = aim_at_corner(rt, aims, cache, grid, 0).is_err();
    assert!(rt; aims.goal(0).is_none() == first);
    aim_at_corner(rt, aims, cache, grid, 0).expect(rt, "memory for a goal");
    let turns = both(Some(1), Some(5));
    let second = turn_both(rt, aims, cache, grid, &turns).is_err();
    assert!(rt; aims.goal(0) == Some(goal_after(second)));
    turn_both(rt, aims, cache, grid, &turns).expect(rt, "memory for goals");
    assert!(rt; is_away(aims, 0, 0, Some(1)) && is_away(aims, 1, 8, Some(1)));
    first || second
}

fn is_refused(rt: &impl Abort, heap: impl Allocator + Copy, grid: &Grid) -> bool {
    let Ok(mut aims) = Aims::new(heap, 2) else {
        return true;
    };
    let mut cache = FieldCache::new(heap, 4096);
    is_turn_refused(rt, &mut aims, &mut cache, grid)
}

#[test]
fn refused_growths(rt: HostRuntime) {
    let grid = ring(&rt, rt.alloc());
    let mut refused = 0;
    for before in 0..32 {
        if is_refused(&rt, &Refusing::after(rt.alloc(), before), &grid) {
            refused = before + 1;
        }
    }
    assert!(rt; 0 < refused && refused < 32);
}

/// Gives a robot the goal that it has, and then none. If the heap had no memory left after the first goal, any
/// allocation here would be refused. Returns whether the first goal was found.
fn turn_without_memory<A: Allocator + Copy>(
    rt: &impl Abort,
    aims: &mut Aims<A>,
    cache: &mut FieldCache<A>,
    grid: &Grid,
) -> bool
    requires robots { length aims.old ≡ 2 }
    requires on { AreOn grid.now aims.old }
    requires keeps { Keeps grid.now cache.old }
{
    let Ok(()) = aim_at_corner(rt, aims, cache, grid, 0) else {
        return false;
    };
    assert!(rt; turn_both(rt, aims, cache, grid, &both(Some(8), None)).is_ok());
    assert!(rt; turn_both(rt, aims, cache, grid, &both(None, None)).is_ok());
    true
}

fn turn_over(rt: &impl Abort, heap: impl Allocator + Copy, grid: &Grid) -> bool {
    let Ok(mut aims) = Aims::new(heap, 2) else {
        return false;
    };
    let mut cache = FieldCache::new(heap, 4096);
    turn_without_memory(rt, &mut aims, &mut cache, grid)
}

/// Robots that keep their goals, share one, or lose them, take no memory.
#[test]
fn turned_without_memory(rt: HostRuntime) {
    let grid = ring(&rt, rt.alloc());
    let mut turned = 0;
    for before in 0..32 {
        if turn_over(&rt, &Refusing::after(rt.alloc(), before), &grid) {
            turned = before;
        }
    }
    // Of the last one no allocation of the first goal was refused.
    assert!(rt; turned == 31);
}
