//! Each allocation of a store is refused in turn.

ghost use Rattle.std.specs.Prelude.{◌≡◌, []};
ghost use Rattle.fleet_grid.specs.Floor.{IsFloor};
ghost use Rattle.fleet_field.specs.Store.{Serves};

use super::{SHARED, hold, ring};
use crate::floor::are_floor;
use fleet_field::{FieldStore, fields};
use fleet_grid::Grid;
use std::alloc::Allocator;
use std::process::Abort;
use std::thread::Threads;
use test_kit::Refusing;

/// Holds cell 0 while one allocation is refused, and then once more. Returns whether one was refused.
fn hold_twice<A: Allocator + Copy>(rt: &impl Abort, store: &mut FieldStore<A>, grid: &Grid) -> bool
    requires floor { IsFloor grid.now 0 }
    requires serves { Serves grid.now store.old }
{
    let met = hold(store, grid, 0).is_err();
    let key = hold(store, grid, 0).expect(rt, "memory for a field");
    assert!(rt; store.at(key, 8) == Some(4));
    met
}

fn is_refused(rt: &impl Abort, heap: impl Allocator + Copy, grid: &Grid) -> bool
    requires { IsFloor grid.now 0 }
{
    let mut store = FieldStore::new(heap).expect(rt, "memory for a store");
    hold_twice(rt, &mut store, grid)
}

#[test]
fn refused_growths(rt: HostRuntime) {
    let grid = ring(&rt, rt.alloc());
    let mut refused = 0;
    for before in 0..32 {
        if is_refused(&rt, &Refusing::after(rt.alloc(), before), &grid) {
            refused = before + 1;
        }
    }
    assert!(rt; 0 < refused && refused < 32);
}

fn check_ends<A: Allocator + Copy>(rt: &impl Abort, store: &FieldStore<A>, keys: &[usize]) {
    assert!(rt; keys.len() == 3 && keys[0] == keys[2]);
    assert!(rt; store.is_held(keys[1]) && store.at(keys[1], 0) == Some(4));
}

/// Holds all goals of a list while one allocation is refused; if one was, holds them once more. Returns whether one
/// was.
#[tactic(auto, using(fleet_field::proofs::Uses::few_new))]
fn hold_all_twice<A: Allocator + Copy + Send + Sync>(
    rt: &(impl Abort + Threads + Sync),
    store: &mut FieldStore<A>,
    grid: &Grid,
) -> bool
    requires { store.old ≡ [] }
{
    assert!(rt; are_floor(grid, &SHARED));
    if store.hold_all(rt, grid, &SHARED).is_ok() {
        return false;
    }
    let keys = store
        .hold_all(rt, grid, &SHARED)
        .expect(rt, "memory for fields");
    check_ends(rt, store, &keys);
    true
}

fn are_refused(
    rt: &(impl Abort + Threads + Sync),
    heap: impl Allocator + Copy + Send + Sync,
    grid: &Grid,
) -> bool {
    let mut store = FieldStore::new(heap).expect(rt, "memory for a store");
    hold_all_twice(rt, &mut store, grid)
}

#[test]
fn refused_growths_of_several(rt: HostRuntime) {
    let grid = ring(&rt, rt.alloc());
    let mut refused = 0;
    for before in 0..32 {
        if are_refused(&rt, &Refusing::after(rt.alloc(), before), &grid) {
            refused = before + 1;
        }
    }
    assert!(rt; 0 < refused && refused < 32);
}

/// Searches several fields while one allocation is refused; if one was, searches them once more. Returns whether one
/// was.
fn is_search_refused(
    rt: &(impl Abort + Threads + Sync),
    heap: impl Allocator + Copy + Send + Sync,
    grid: &Grid,
) -> bool {
    assert!(rt; are_floor(grid, &SHARED));
    if fields(rt, heap, grid, &SHARED).is_ok() {
        return false;
    }
    let several = fields(rt, heap, grid, &SHARED).expect(rt, "memory for fields");
    assert!(rt; several.len() == 3 && several[1].at(0) == Some(4));
    true
}

#[test]
fn refused_growths_of_fields(rt: HostRuntime) {
    let grid = ring(&rt, rt.alloc());
    let mut refused = 0;
    for before in 0..32 {
        if is_search_refused(&rt, &Refusing::after(rt.alloc(), before), &grid) {
            refused = before + 1;
        }
    }
    assert!(rt; 0 < refused && refused < 32);
}
