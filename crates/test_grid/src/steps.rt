//! Orders of priority worked out by hand, the smallest steps, how often a tie closure is called, and each allocation
//! refused in turn. The tests of the crates above make whole runs, over proved distances.

ghost use Rattle.std.specs.Prelude.{◌≡◌, ℕ, Option, Some, None, cond, ◌==◌, ◌<◌, [], ◌∷◌, length};
ghost use Rattle.fleet_grid.specs.Floor.{floor_of};

use crate::floor::grid_of;
use fleet_grid::Grid;
use fleet_hooks::{TieHook, TieLaw, TieView};
use fleet_pibt::{Goals, Stepper, order};
use std::alloc::{Allocator, Global};
use std::process::Abort;
use std::slice;
use std::sync::Arc;
use std::sync::atomic::{AtomicU64, Ordering};
use test_kit::Refusing;

/// No robot has an errand.
struct NoGoals;

impl Goals for NoGoals {
    ghost goal_of = { λ s r. None };

    ghost distance = { λ s r c. None };

    fn goal(&self, _robot: u32) -> Option<u32> {
        None
    }

    fn at(&self, _robot: u32, _cell: u32) -> Option<u32> {
        None
    }
}

/// Each robot goes to cell 1, on the map `..`.
struct ToTheEast;

impl Goals for ToTheEast {
    ghost goal_of = { λ s r. Some 1 };

    ghost distance = { λ s r c. Some (cond (c == 1) 0 1) };

    fn goal(&self, _robot: u32) -> Option<u32> {
        Some(1)
    }

    fn at(&self, _robot: u32, cell: u32) -> Option<u32> {
        Some(if cell == 1 { 0 } else { 1 })
    }
}

#[test]
fn order_by_wait_then_number(rt: HostRuntime) {
    let mut out = [9; 5];
    order(&[Some(1), None, Some(5), Some(1), None], &mut out);
    assert!(rt; out == [2, 0, 3, 1, 4]);
    // A robot whose errand is new comes before an idle one.
    let mut out = [9; 2];
    order(&[None, Some(0)], &mut out);
    assert!(rt; out == [1, 0]);
    let mut out = [];
    order(&[], &mut out);
}

/// Where the idle robot of the map `..` goes from its first cell.
fn step_idle(rt: &impl Abort, alloc: Global, grid: &Grid, ties: &[TieHook]) -> u32
    requires map { grid.now ≡ floor_of 1 2 (46 ∷ 46 ∷ []) }
    requires tied { length ties.now ≡ 1 }
{
    let mut stepper = Stepper::new(alloc, 2, 1).expect(rt, "memory for a step");
    let mut to = [9];
    stepper.step(grid, &[0], &[None], &NoGoals, ties, 1, &mut to);
    to[0]
}

#[test]
fn idle_robot_stays(rt: HostRuntime) {
    let alloc = rt.alloc();
    let grid = grid_of(&rt, alloc, 1, 2, b"..");
    let tie = Box::new(alloc, |_view: TieView| 0).expect(&rt, "memory for a closure");
    let tie = TieHook::new(TieLaw::ANY, tie);
    assert!(rt; step_idle(&rt, alloc, &grid, slice::from_ref(&tie)) == 0);
}

/// Where the only robot on the map `..` goes from this cell, after this wait. Its goal is cell 1.
fn step_east(
    grid: &Grid,
    stepper: &mut Stepper,
    ties: &[TieHook],
    from: u32,
    wait: u64,
    tick: u64,
) -> u32
    requires map { grid.now ≡ floor_of 1 2 (46 ∷ 46 ∷ []) }
    requires inside { from < 2 }
    requires tied { length ties.now ≡ 1 }
    requires made { stepper.old ≡ record { cells = 2; robots = 1 } }
    ensures { stepper.new ≡ stepper.old }
{
    let mut to = [9];
    stepper.step(
        grid,
        &[from],
        &[Some(wait)],
        &ToTheEast,
        ties,
        tick,
        &mut to,
    );
    to[0]
}

#[test]
fn lone_robot_takes_its_goal(rt: HostRuntime) {
    let alloc = rt.alloc();
    let grid = grid_of(&rt, alloc, 1, 2, b"..");
    let mut stepper = Stepper::new(alloc, 2, 1).expect(&rt, "memory for a step");
    let calls = Arc::new(alloc, AtomicU64::new(0)).expect(&rt, "memory for a count");
    let counted = Arc::try_clone(&calls).expect(&rt, "one more owner");
    let asked = move |_view: TieView| {
        counted.fetch_add(1, Ordering::SeqCst);
        7
    };
    let tie = Box::new(alloc, asked).expect(&rt, "memory for a closure");
    let tie = TieHook::new(TieLaw::ANY, tie);
    assert!(rt; step_east(&grid, &mut stepper, slice::from_ref(&tie), 0, 3, 1) == 1);
    // The tie closure is asked once, about the one neighbour.
    assert!(rt; calls.load(Ordering::SeqCst) == 1);
    assert!(rt; step_east(&grid, &mut stepper, slice::from_ref(&tie), 1, 4, 2) == 1);
}

/// Whether the tables can be made.
fn are_made(heap: impl Allocator + Copy) -> bool {
    Stepper::new(heap, 9, 2).is_ok()
}

/// Whether an allocation is refused while the tables are made. After a refusal they are made again.
fn is_refused(rt: &impl Abort, heap: impl Allocator + Copy) -> bool {
    let met = !are_made(heap);
    assert!(rt; !met || are_made(heap));
    met
}

/// Each allocation is refused in turn, until the tables are made without a refusal.
#[test]
fn refused_growths(rt: HostRuntime) {
    let mut refused = 0;
    for before in 0..9 {
        if is_refused(&rt, &Refusing::after(rt.alloc(), before)) {
            refused = before + 1;
        }
    }
    // Two tables, the queue and what the robots see.
    assert!(rt; refused == 4);
}
