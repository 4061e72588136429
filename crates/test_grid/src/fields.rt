//! The worked map, shared fields, many goals, a large map, and each allocation refused in turn.

mod growing;
mod kept;
mod large;
mod refused;

ghost use Rattle.std.specs.Prelude.{◌≡◌, [], IfOk, IsSome};
ghost use Rattle.fleet_grid.specs.Floor.{IsFloor};
ghost use Rattle.fleet_field.specs.Store.{Serves, shown};

use crate::floor::{are_floor, grid_of};
use fleet_field::{Compass, Field, FieldStore, fields};
use fleet_grid::Grid;
use std::alloc::{AllocError, Allocator, Global};
use std::process::Abort;
use std::thread::Threads;

/// The map `.../.@./...`. Its corners 0, 2 and 8 are goals.
fn ring(rt: &impl Abort, alloc: Global) -> Grid
    ensures { IsFloor result 0 × IsFloor result 2 × IsFloor result 8 }
{
    let grid = grid_of(rt, alloc, 3, 3, b"....@....");
    assert!(rt; grid.is_floor(0) && grid.is_floor(2) && grid.is_floor(8));
    grid
}

/// Holds the field of a goal once more. Its key is held already.
fn hold<A: Allocator + Copy>(
    store: &mut FieldStore<A>,
    grid: &Grid,
    goal: u32,
) -> Result<usize, AllocError>
    requires floor { IsFloor grid.now goal }
    requires serves { Serves grid.now store.old }
    ensures held { IfOk result (λ key. IsSome (shown store.new key)) }
    ensures serves { Serves grid.now store.new }
{
    if !store.can_hold(goal) {
        return Err(AllocError);
    }
    let key = store.hold(grid, goal)?;
    if !store.is_held(key) {
        return Err(AllocError);
    }
    Ok(key)
}

/// The ring's cells and their distances to cell 0. There is no cell 9.
const AROUND: [(u32, Option<u32>); 10] = [
    (0, Some(0)),
    (1, Some(1)),
    (2, Some(2)),
    (3, Some(1)),
    (4, None),
    (5, Some(3)),
    (6, Some(2)),
    (7, Some(3)),
    (8, Some(4)),
    (9, None),
];

/// Whether the field has these distances.
fn is_around(field: &Field) -> bool {
    for (cell, away) in AROUND {
        if field.at(cell) != away {
            return false;
        }
    }
    true
}

/// Whether a field that is searched alone has these distances.
fn is_around_alone(rt: &impl Abort, alloc: Global, grid: &Grid) -> bool
    requires { IsFloor grid.now 0 }
{
    let field = Field::from(alloc, grid, 0).expect(rt, "memory for a field");
    is_around(&field)
}

/// Whether a field that is searched as one of several has these distances.
fn is_around_together(rt: &(impl Abort + Threads + Sync), alloc: Global, grid: &Grid) -> bool {
    assert!(rt; are_floor(grid, &[0]));
    let several = fields(rt, alloc, grid, &[0]).expect(rt, "memory for fields");
    assert!(rt; several.len() == 1);
    is_around(&several[0])
}

/// Whether a store gives these distances for a goal that is held twice.
fn is_around_shared(rt: &impl Abort, store: &mut FieldStore, grid: &Grid) -> bool
    requires floor { IsFloor grid.now 0 }
    requires serves { Serves grid.now store.old }
{
    let first = hold(store, grid, 0).expect(rt, "memory for a field");
    let second = hold(store, grid, 0).expect(rt, "memory for a field");
    assert!(rt; second == first);
    assert!(rt; store.is_held(first));
    for (cell, away) in AROUND {
        if store.at(first, cell) != away {
            return false;
        }
    }
    true
}

#[test]
fn ring_distances(rt: HostRuntime) {
    let grid = ring(&rt, rt.alloc());
    assert!(rt; is_around_alone(&rt, rt.alloc(), &grid));
    assert!(rt; is_around_together(&rt, rt.alloc(), &grid));
    let mut store = FieldStore::new(rt.alloc()).expect(&rt, "memory for a store");
    assert!(rt; is_around_shared(&rt, &mut store, &grid));
}

/// The ways of the ring's cells that lead nearer to cell 0: 1 leads north, 8 west.
const WAYS: [(u32, u8); 8] = [
    (0, 0),
    (1, 8),
    (2, 8),
    (3, 1),
    (5, 1),
    (6, 1),
    (7, 8),
    (8, 9),
];

/// Whether a field and a compass have these ways nearer, and the same distance.
fn have_ways(grid: &Grid, field: &Field, compass: &Compass, cell: u32, ways: u8) -> bool {
    field.ways(grid, cell).byte == ways
        && compass.ways(grid, cell).byte == ways
        && compass.at(cell) == field.at(cell)
}

fn check_ways(rt: &impl Abort, grid: &Grid, field: &Field, compass: &Compass) {
    assert!(rt; compass.goal() == 0);
    for (cell, ways) in WAYS {
        assert!(rt; have_ways(grid, field, compass, cell, ways));
    }
}

/// The ways from the ring's cells to their floor neighbours: 1 leads north, 2 east, 4 south and 8 west.
const EXITS: [(u32, u8); 8] = [
    (0, 6),
    (1, 10),
    (2, 12),
    (3, 5),
    (5, 5),
    (6, 3),
    (7, 10),
    (8, 9),
];

fn ways_by_store(rt: &impl Abort, grid: &Grid, store: &mut FieldStore)
    requires floor { IsFloor grid.now 0 }
    requires serves { Serves grid.now store.old }
{
    let key = hold(store, grid, 0).expect(rt, "memory for a field");
    for (cell, ways) in WAYS {
        assert!(rt; store.ways(grid, key, cell).byte == ways);
        assert!(rt; grid.is_floor(cell));
        assert!(rt; store.outlook(grid, key, cell).nearer.byte == ways);
    }
    for (cell, exits) in EXITS {
        assert!(rt; grid.is_floor(cell) && grid.exits(cell).byte == exits);
        assert!(rt; store.outlook(grid, key, cell).exits.byte == exits);
    }
}

#[test]
fn ring_ways(rt: HostRuntime) {
    let grid = ring(&rt, rt.alloc());
    let field = Field::from(rt.alloc(), &grid, 0).expect(&rt, "memory for a field");
    let compass = Compass::from(rt.alloc(), &grid, 0).expect(&rt, "memory for a compass");
    check_ways(&rt, &grid, &field, &compass);
    let mut store = FieldStore::new(rt.alloc()).expect(&rt, "memory for a store");
    ways_by_store(&rt, &grid, &mut store);
}

/// Gives back one of two holds of a key, and the other.
fn release_both(rt: &impl Abort, store: &mut FieldStore, grid: &Grid, key: usize)
    requires held { IsSome (shown store.old key) }
    requires serves { Serves grid.now store.old }
    ensures { Serves grid.now store.new }
{
    store.release(key);
    assert!(rt; store.is_held(key));
    assert!(rt; store.at(key, 8) == Some(4));
    store.release(key);
    assert!(rt; !store.is_held(key));
}

fn hold_again_and_anew(rt: &impl Abort, store: &mut FieldStore, grid: &Grid)
    requires floor { IsFloor grid.now 0 × IsFloor grid.now 8 }
    requires serves { Serves grid.now store.old }
{
    let first = hold(store, grid, 0).expect(rt, "memory for a field");
    let key = hold(store, grid, 0).expect(rt, "memory for a field");
    assert!(rt; key == first);
    release_both(rt, store, grid, key);
    let key = hold(store, grid, 8).expect(rt, "memory for a field");
    assert!(rt; (store.goal(key), store.at(key, 0)) == (8, Some(4)));
}

#[test]
fn held_and_released(rt: HostRuntime) {
    let grid = ring(&rt, rt.alloc());
    let mut store = FieldStore::new(rt.alloc()).expect(&rt, "memory for a store");
    hold_again_and_anew(&rt, &mut store, &grid);
}

const SHARED: [u32; 3] = [0, 8, 0];

/// Whether the key is one of that goal.
fn is_key_of(store: &FieldStore, key: usize, goal: u32) -> bool {
    store.is_held(key) && store.goal(key) == goal
}

fn check_goals(rt: &impl Abort, store: &FieldStore, keys: &[usize]) {
    assert!(rt; keys.len() == 3);
    assert!(rt; keys[0] == keys[2] && keys[0] != keys[1]);
    for at in 0..3 {
        assert!(rt; is_key_of(store, keys[at], SHARED[at]));
    }
}

#[tactic(auto, using(fleet_field::proofs::Uses::few_new))]
fn hold_shared(rt: &(impl Abort + Threads + Sync), store: &mut FieldStore, grid: &Grid)
    requires { store.old ≡ [] }
{
    assert!(rt; are_floor(grid, &SHARED));
    let keys = store
        .hold_all(rt, grid, &SHARED)
        .expect(rt, "memory for fields");
    check_goals(rt, store, &keys);
}

#[test]
fn held_together(rt: HostRuntime) {
    let grid = ring(&rt, rt.alloc());
    let mut store = FieldStore::new(rt.alloc()).expect(&rt, "memory for a store");
    hold_shared(&rt, &mut store, &grid);
}

/// Goals on the ring's floor: the numbers to 3,000 modulo nine, with 0 in place of the wall.
fn goals_around(rt: &impl Abort, alloc: Global) -> Vec<u32> {
    let mut goals = Vec::new(alloc);
    for number in 0..3000u32 {
        let goal = number % 9;
        goals
            .push(if goal == 4 { 0 } else { goal })
            .expect(rt, "memory for goals");
    }
    goals
}

/// Whether the fields have the same distances.
fn are_alike(field: &Field, other: &Field) -> bool {
    for cell in 0..10 {
        if field.at(cell) != other.at(cell) {
            return false;
        }
    }
    true
}

/// Checks that the field is the one that a single call makes.
fn check_single(rt: &impl Abort, alloc: Global, grid: &Grid, goal: u32, field: &Field)
    requires { IsFloor grid.now goal }
{
    let single = Field::from(alloc, grid, goal).expect(rt, "memory for a field");
    assert!(rt; field.goal() == goal && are_alike(field, &single));
}

fn check_singles(rt: &impl Abort, alloc: Global, grid: &Grid, goals: &[u32], several: &[Field]) {
    assert!(rt; several.len() == 3000 && goals.len() == 3000);
    for at in 0..3000 {
        assert!(rt; grid.is_floor(goals[at]));
        check_single(rt, alloc, grid, goals[at], &several[at]);
    }
}

fn search_together(rt: &(impl Abort + Threads + Sync), alloc: Global, grid: &Grid, goals: &[u32]) {
    assert!(rt; are_floor(grid, goals));
    let several = fields(rt, alloc, grid, goals).expect(rt, "memory for fields");
    check_singles(rt, alloc, grid, goals, &several);
}

/// Each field compared with the one that a single call makes.
#[test]
fn many_goals(rt: HostRuntime) {
    let grid = ring(&rt, rt.alloc());
    let goals = goals_around(&rt, rt.alloc());
    search_together(&rt, rt.alloc(), &grid, &goals);
}
