//! The worked steps, a whole fleet, and each allocation refused in turn.

ghost use Rattle.fleet_grid.specs.Step.{IsPlacement};

use crate::floor::grid_of;
use crate::squares::{Shape, letters};
use fleet_check::{StepChecker, StepFault, check_step};
use fleet_grid::{Grid, is_placement};
use std::alloc::{Allocator, Global};
use std::process::Abort;
use test_kit::Refusing;

/// The map `../..`.
fn square(rt: &impl Abort, alloc: Global) -> Grid {
    grid_of(rt, alloc, 2, 2, b"....")
}

/// An open map with 32 cells a side.
fn hall(rt: &impl Abort, alloc: Global) -> Grid {
    let cells = letters(alloc, 32, Shape::Open).expect(rt, "memory for a map");
    grid_of(rt, alloc, 32, 32, &cells)
}

/// Whether the check of the step returns this.
fn is_answered(
    heap: impl Allocator + Copy,
    grid: &Grid,
    from: &[u32],
    to: &[u32],
    outcome: Result<(), StepFault>,
) -> bool
    requires { IsPlacement grid.now from.now }
{
    check_step(heap, grid, from, to) == outcome
}

/// Steps of two robots that stand on cells 0 and 1.
const STEPS: [(&[u32], Result<(), StepFault>); 6] = [
    (&[1, 0], Err(StepFault::Swap(0, 1))),
    (&[1, 1], Err(StepFault::Vertex(0, 1))),
    (&[1], Err(StepFault::Length)),
    (&[4, 1], Err(StepFault::OffFloor(0))),
    (&[3, 1], Err(StepFault::NotAdjacent(0))),
    (&[1, 3], Ok(())),
];

fn check_steps(rt: &impl Abort, alloc: Global, grid: &Grid, from: &[u32])
    requires { IsPlacement grid.now from.now }
{
    for (to, outcome) in STEPS {
        assert!(rt; is_answered(alloc, grid, from, to, outcome));
    }
}

#[test]
fn step_faults(rt: HostRuntime) {
    let grid = square(&rt, rt.alloc());
    let from = [0, 1];
    assert!(rt; is_placement(&grid, &from));
    check_steps(&rt, rt.alloc(), &grid, &from);
}

/// The numbers of these cells, of which robot 0 stands on the first.
fn cells_between(rt: &impl Abort, alloc: Global, first: u32, end: u32) -> Vec<u32> {
    let mut cells = Vec::new(alloc);
    for cell in first..end {
        cells.push(cell).expect(rt, "memory for cells");
    }
    cells
}

/// Three conflicts: the last two robots come to one cell, or cross one edge; or robots 0 and 32 cross another edge.
fn change_cells(rt: &impl Abort, alloc: Global, grid: &Grid, from: &[u32], to: &mut [u32])
    requires { IsPlacement grid.now from.now }
{
    assert!(rt; to.len() == 512);
    to[511] = 510;
    assert!(rt; is_answered(alloc, grid, from, to, Err(StepFault::Vertex(510, 511))));
    to[510] = 511;
    assert!(rt; is_answered(alloc, grid, from, to, Err(StepFault::Swap(510, 511))));
    to[0] = 32;
    to[32] = 0;
    assert!(rt; is_answered(alloc, grid, from, to, Err(StepFault::Swap(0, 32))));
}

fn move_fleet(rt: &impl Abort, alloc: Global, grid: &Grid, from: &[u32])
    requires { IsPlacement grid.now from.now }
{
    assert!(rt; is_answered(alloc, grid, from, from, Ok(())));
    let south = cells_between(rt, alloc, 32, 544);
    assert!(rt; is_answered(alloc, grid, from, &south, Ok(())));
    let mut last = cells_between(rt, alloc, 0, 512);
    change_cells(rt, alloc, grid, from, &mut last);
}

/// Robots 0 to 511 on the first 512 cells, in rows of 32.
#[test]
fn whole_fleet(rt: HostRuntime) {
    let grid = hall(&rt, rt.alloc());
    let from = cells_between(&rt, rt.alloc(), 0, 512);
    assert!(rt; is_placement(&grid, &from));
    move_fleet(&rt, rt.alloc(), &grid, &from);
}

/// A step without a conflict, and an exchange, while one allocation is refused. The first allocation is for a table
/// that only saves time; after it, memory is taken for the search for a conflict.
fn refuse_one(rt: &impl Abort, alloc: Global, grid: &Grid, from: &[u32], before: u64)
    requires { IsPlacement grid.now from.now }
{
    let heap = Refusing::after(alloc, before);
    assert!(rt; is_answered(&heap, grid, from, &[1, 3, 0], Ok(())));
    let heap = Refusing::after(alloc, before);
    let swap = Err(StepFault::Swap(0, 1));
    let answer = if before == 1 {
        Err(StepFault::NoMemory)
    } else {
        swap
    };
    assert!(rt; is_answered(&heap, grid, from, &[1, 0, 2], answer));
    if before < 2 {
        // After the refusal the same check succeeds.
        assert!(rt; is_answered(&heap, grid, from, &[1, 0, 2], swap));
    }
}

/// Faults that come before conflicts are named though memory is refused.
fn name_without_memory(rt: &impl Abort, heap: impl Allocator + Copy, grid: &Grid, from: &[u32])
    requires { IsPlacement grid.now from.now }
{
    assert!(rt; is_answered(heap, grid, from, &[1, 3, 1, 0], Err(StepFault::Length)));
    assert!(rt; is_answered(heap, grid, from, &[3, 3, 3], Err(StepFault::NotAdjacent(0))));
}

#[test]
fn refused_growths(rt: HostRuntime) {
    let grid = square(&rt, rt.alloc());
    let from = [0, 1, 2];
    assert!(rt; is_placement(&grid, &from));
    for before in 0..8 {
        refuse_one(&rt, rt.alloc(), &grid, &from, before);
    }
    name_without_memory(&rt, &Refusing::after(rt.alloc(), 0), &grid, &from);
}

/// How many allocations are refused in turn before a check names the conflict.
fn count_refused(rt: &impl Abort, alloc: Global, grid: &Grid, from: &[u32], to: &[u32]) -> u64
    requires { IsPlacement grid.now from.now }
{
    let named = Err(StepFault::Vertex(22, 23));
    assert!(rt; is_answered(&Refusing::after(alloc, 16), grid, from, to, named));
    let mut refused = 0;
    for before in 1..16 {
        let heap = Refusing::after(alloc, before);
        if is_answered(&heap, grid, from, to, Err(StepFault::NoMemory)) {
            refused = before;
        }
    }
    refused
}

/// How many allocations are refused in turn while the first 22 of 24 robots move a row to the south, and the last comes
/// to the cell of the one before it, which stays.
fn count_refused_south(rt: &impl Abort, alloc: Global, grid: &Grid) -> u64 {
    let from = cells_between(rt, alloc, 0, 24);
    let mut south = cells_between(rt, alloc, 32, 54);
    south.push(22).expect(rt, "memory for a cell");
    south.push(22).expect(rt, "memory for a cell");
    assert!(rt; is_placement(grid, &from));
    count_refused(rt, alloc, grid, &from, &south)
}

/// A step of 24 robots: the tree grows more than once, and each of its allocations is refused in turn.
#[test]
fn refused_growths_of_a_fleet(rt: HostRuntime) {
    let grid = hall(&rt, rt.alloc());
    let refused = count_refused_south(&rt, rt.alloc(), &grid);
    assert!(rt; refused >= 2 && refused < 16);
}

/// One table serves for steps of as many robots, and of fewer and more.
#[test]
fn one_checker_for_many_steps(rt: HostRuntime) {
    let grid = square(&rt, rt.alloc());
    let mut checker = StepChecker::new(rt.alloc(), 2);
    let (pair, three) = ([0, 1], [0, 1, 2]);
    assert!(rt; is_placement(&grid, &pair));
    assert!(rt; is_placement(&grid, &three));
    for (to, outcome) in STEPS {
        assert!(rt; checker.check(&grid, &pair, to) == outcome);
    }
    assert!(rt; checker.check(&grid, &three, &[1, 3, 0]) == Ok(()));
    assert!(rt; checker.check(&grid, &three, &[2, 1, 0]) == Err(StepFault::Swap(0, 2)));
    assert!(rt; checker.check(&grid, &[], &[]) == Ok(()));
}
