//! Fields that are kept: a goal that comes again takes no memory, the field that was unused longest goes first, and all
//! go if memory runs out; and fields that are searched ahead.

ghost use Rattle.fleet_grid.specs.Floor.{IsFloor};
ghost use Rattle.fleet_field.specs.Store.{Keeps, Serves};

use super::ring;
use crate::floor::are_floor;
use fleet_field::{FieldCache, FieldStore};
use fleet_grid::Grid;
use std::alloc::{AllocError, Allocator, Global};
use std::process::Abort;
use std::thread::Threads;
use test_kit::Refusing;

/// Holds the goal, asks how far the cell is, and releases the goal.
fn visit<A: Allocator + Copy>(
    store: &mut FieldStore<A>,
    cache: &mut FieldCache<A>,
    grid: &Grid,
    goal: u32,
    cell: u32,
) -> Result<Option<u32>, AllocError>
    requires floor { IsFloor grid.now goal }
    requires serves { Serves grid.now store.old }
    requires keeps { Keeps grid.now cache.old }
    ensures serves { Serves grid.now store.new }
    ensures keeps { Keeps grid.now cache.new }
{
    if !store.can_hold(goal) {
        return Err(AllocError);
    }
    let key = store.hold_from(cache, grid, goal)?;
    if !store.is_held(key) {
        return Err(AllocError);
    }
    let away = store.at(key, cell);
    store.release_to(cache, key);
    Ok(away)
}

/// Whether the goal's field is kept. It is taken out.
fn is_kept<A: Allocator + Copy>(cache: &mut FieldCache<A>, goal: u32) -> bool {
    cache.take(goal).is_some()
}

/// Visits cell 0 and then another cell. Returns how far that cell is from cell 8, and whether the field of cell 0 is
/// then kept; `None` if the first visit is refused.
fn visit_both<A: Allocator + Copy>(
    rt: &impl Abort,
    store: &mut FieldStore<A>,
    cache: &mut FieldCache<A>,
    grid: &Grid,
    other: u32,
) -> Option<(Option<u32>, bool)>
    requires zero { IsFloor grid.now 0 }
    requires other { IsFloor grid.now other }
    requires serves { Serves grid.now store.old }
    requires keeps { Keeps grid.now cache.old }
{
    if visit(store, cache, grid, 0, 8).is_err() {
        return None;
    }
    let away = visit(store, cache, grid, other, 8).expect(rt, "memory for a field");
    Some((away, is_kept(cache, 0)))
}

/// Two visits with a heap.
fn visit_both_over<A: Allocator + Copy>(
    rt: &impl Abort,
    heap: A,
    grid: &Grid,
    other: u32,
) -> Option<(Option<u32>, bool)>
    requires zero { IsFloor grid.now 0 }
    requires other { IsFloor grid.now other }
{
    let mut store = FieldStore::new(heap).expect(rt, "memory for a store");
    let mut cache = FieldCache::new(heap, 4096);
    visit_both(rt, &mut store, &mut cache, grid, other)
}

/// If the heap had no memory left after the first visit, any allocation in a second visit of the same cell would be
/// refused.
#[test]
fn held_again_without_memory(rt: HostRuntime) {
    let grid = ring(&rt, rt.alloc());
    let mut held = 0;
    for before in 0..32 {
        let heap = Refusing::after(rt.alloc(), before);
        if let Some((away, is_kept)) = visit_both_over(&rt, &heap, &grid, 0) {
            assert!(rt; away == Some(4) && is_kept);
            held = before;
        }
    }
    // Of the last one no allocation of the first visit was refused.
    assert!(rt; held == 31);
}

/// Whichever allocation of a search is refused, the search succeeds if a field was kept, which is then dropped.
#[test]
fn kept_goes_before_want_of_memory(rt: HostRuntime) {
    let grid = ring(&rt, rt.alloc());
    let mut gone = 0;
    for before in 0..32 {
        let heap = Refusing::after(rt.alloc(), before);
        if let Some((away, is_kept)) = visit_both_over(&rt, &heap, &grid, 2) {
            assert!(rt; away == Some(2));
            if !is_kept {
                gone = before;
            }
        }
    }
    assert!(rt; gone > 0);
}

/// Whether the fields of cells 2, 0 and 8 are kept.
fn take_corners(cache: &mut FieldCache) -> [bool; 3] {
    [is_kept(cache, 2), is_kept(cache, 0), is_kept(cache, 8)]
}

/// Visits cells 0 and 2, then cell 0 again, and then cell 8.
fn visit_corners(
    rt: &impl Abort,
    store: &mut FieldStore,
    cache: &mut FieldCache,
    grid: &Grid,
) -> [bool; 3]
    requires zero { IsFloor grid.now 0 }
    requires two { IsFloor grid.now 2 }
    requires eight { IsFloor grid.now 8 }
    requires serves { Serves grid.now store.old }
    requires keeps { Keeps grid.now cache.old }
{
    let _first = visit(store, cache, grid, 0, 8).expect(rt, "memory for a field");
    let _second = visit(store, cache, grid, 2, 8).expect(rt, "memory for a field");
    let _again = visit(store, cache, grid, 0, 8).expect(rt, "memory for a field");
    let _third = visit(store, cache, grid, 8, 8).expect(rt, "memory for a field");
    take_corners(cache)
}

/// Two fields of nine cells fit.
#[test]
fn longest_unused_goes_first(rt: HostRuntime) {
    let grid = ring(&rt, rt.alloc());
    let mut store = FieldStore::new(rt.alloc()).expect(&rt, "memory for a store");
    let mut cache = FieldCache::new(rt.alloc(), 26);
    assert!(rt; visit_corners(&rt, &mut store, &mut cache, &grid) == [false, true, true]);
}

/// Whether all these goals have a kept field, if two fields fit.
fn is_searched(
    rt: &(impl Abort + Threads + Sync),
    cache: &mut FieldCache,
    grid: &Grid,
    goals: &[u32],
) -> bool
    requires { Keeps grid.now cache.old }
    ensures { Keeps grid.now cache.new }
{
    assert!(rt; are_floor(grid, goals));
    cache
        .search_ahead(rt, grid, goals)
        .expect(rt, "memory for fields")
}

fn visit_searched(
    rt: &impl Abort,
    alloc: Global,
    cache: &mut FieldCache,
    grid: &Grid,
) -> Option<u32>
    requires floor { IsFloor grid.now 8 }
    requires keeps { Keeps grid.now cache.old }
{
    let mut store = FieldStore::new(alloc).expect(rt, "memory for a store");
    visit(&mut store, cache, grid, 8, 0).expect(rt, "memory for a field")
}

fn search_and_visit(
    rt: &(impl Abort + Threads + Sync),
    alloc: Global,
    cache: &mut FieldCache,
    grid: &Grid,
)
    requires floor { IsFloor grid.now 8 }
    requires keeps { Keeps grid.now cache.old }
{
    assert!(rt; is_searched(rt, cache, grid, &[0, 2]));
    assert!(rt; !is_searched(rt, cache, grid, &[0, 8, 2]));
    assert!(rt; visit_searched(rt, alloc, cache, grid) == Some(4));
    assert!(rt; take_corners(cache) == [false, true, true]);
}

/// Two fields fit. The fields searched ahead are found; they replaced the fields of other goals that were unused
/// longest.
#[test]
fn searched_ahead(rt: HostRuntime) {
    let grid = ring(&rt, rt.alloc());
    let mut cache = FieldCache::new(rt.alloc(), 26);
    search_and_visit(&rt, rt.alloc(), &mut cache, &grid);
}

/// Whether a field is kept until the number of bytes is made smaller.
fn keep_less(rt: &impl Abort, alloc: Global, store: &mut FieldStore, grid: &Grid) -> bool
    requires floor { IsFloor grid.now 0 }
    requires serves { Serves grid.now store.old }
    ensures serves { Serves grid.now store.new }
{
    let mut cache = FieldCache::new(alloc, 4096);
    let _kept = visit(store, &mut cache, grid, 0, 8).expect(rt, "memory for a field");
    cache.keep(8);
    is_kept(&mut cache, 0)
}

/// Whether a field is kept if the bytes are too few for one.
fn keep_none(rt: &impl Abort, alloc: Global, store: &mut FieldStore, grid: &Grid) -> bool
    requires floor { IsFloor grid.now 2 }
    requires serves { Serves grid.now store.old }
{
    let mut small = FieldCache::new(alloc, 8);
    let _gone = visit(store, &mut small, grid, 2, 8).expect(rt, "memory for a field");
    is_kept(&mut small, 2)
}

#[test]
fn nothing_is_kept(rt: HostRuntime) {
    let grid = ring(&rt, rt.alloc());
    let mut store = FieldStore::new(rt.alloc()).expect(&rt, "memory for a store");
    assert!(rt; !keep_less(&rt, rt.alloc(), &mut store, &grid));
    assert!(rt; !keep_none(&rt, rt.alloc(), &mut store, &grid));
}
