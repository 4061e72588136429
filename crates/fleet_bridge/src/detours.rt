//! Short walks around an edge, found by following its walls.

ghost use Rattle.std.specs.Prelude.{◌≡◌, ℕ, ◌<◌, ◌≤◌, IfSome, OnSome, MatchOption};
ghost use Rattle.fleet_grid.specs.Floor.{IsNeighbour, IsNeighbourIn};
ghost use Rattle.fleet_grid.specs.Walk.{AreJoined, IsBridgeless};
ghost use Rattle.fleet_bridge.specs.inside.First.{HasNone, HasNoneBeside, HasNoneBelow};
ghost use Rattle.fleet_bridge.specs.inside.Search.{NearWithout};
ghost use Rattle.fleet_bridge.specs.inside.Places.{IsLaidOut, IsSpot, IsStep, IsOnWay, IsInside, HasNoneAt};

use crate::places::{Places, Spot, has_bare, have_bare, places_of, spot_at, spot_beside};
use crate::search::is_across;
use fleet_grid::{Dir, Grid};
use std::alloc::Allocator;

/// How many steps a walk around an edge has at most.
const LONGEST: u32 = 64;

/// How many steps are tried in all, for each cell of the map.
const STEPS_BY_CELL: u32 = 8;

/// How many places are looked at together.
const TOGETHER: usize = 1024;

/// The hand that stays at the wall.
#[derive(Clone, Copy)]
enum Hand {
    Left,
    Right,
}

/// A follower of a wall: where it is, and in which direction its last step led.
#[derive(Clone, Copy)]
struct Walker {
    spot: Spot,
    dir: Dir,
}

/// The direction at that hand.
#[inline(always)]
fn turned(dir: Dir, hand: Hand) -> Dir {
    match (dir, hand) {
        (Dir::North, Hand::Left) | (Dir::South, Hand::Right) => Dir::West,
        (Dir::East, Hand::Left) | (Dir::West, Hand::Right) => Dir::North,
        (Dir::South, Hand::Left) | (Dir::North, Hand::Right) => Dir::East,
        (Dir::West, Hand::Left) | (Dir::East, Hand::Right) => Dir::South,
    }
}

/// A step in a direction, if there is floor.
#[inline(always)]
fn stepped<B: Allocator + Copy>(places: &Places<'_, B>, walker: Walker, dir: Dir) -> Option<Walker>
    requires laid_out { IsLaidOut places.now.grid.now places.now.width places.now.stride places.now.list.now }
    requires spot { IsSpot places.now.grid.now places.now.stride walker.spot }
    ensures { IfSome result (λ next. IsStep places.now.grid.now places.now.stride next.dir walker.spot.cell next.spot) }
{
    let spot = spot_beside(places, walker.spot, dir)?;
    Some(Walker { spot, dir })
}

/// The next step with that hand at the wall.
#[inline(always)]
fn next_step<B: Allocator + Copy>(
    places: &Places<'_, B>,
    walker: Walker,
    hand: Hand,
) -> Option<Walker>
    requires laid_out { IsLaidOut places.now.grid.now places.now.width places.now.stride places.now.list.now }
    requires spot { IsSpot places.now.grid.now places.now.stride walker.spot }
    ensures { IfSome result (λ next. IsStep places.now.grid.now places.now.stride next.dir walker.spot.cell next.spot) }
{
    let inward = turned(walker.dir, hand);
    if let Some(next) = stepped(places, walker, inward) {
        return Some(next);
    }
    if let Some(next) = stepped(places, walker, walker.dir) {
        return Some(next);
    }
    let back = turned(inward, hand);
    if let Some(next) = stepped(places, walker, turned(back, hand)) {
        return Some(next);
    }
    stepped(places, walker, back)
}

/// The next step, unless it crosses the edge.
#[inline(always)]
fn next_around<B: Allocator + Copy>(
    places: &Places<'_, B>,
    from: u32,
    to: u32,
    walker: Walker,
    hand: Hand,
) -> Option<Walker>
    requires laid_out { IsLaidOut places.now.grid.now places.now.width places.now.stride places.now.list.now }
    requires way { IsOnWay places.now.grid.now places.now.stride from to walker.spot }
    ensures { IfSome result (λ next. IsOnWay places.now.grid.now places.now.stride from to next.spot) }
{
    let next = next_step(places, walker, hand)?;
    if is_across(from, to, walker.spot.cell, next.spot.cell) {
        return None;
    }
    Some(next)
}

/// How many steps lead around the edge, from a cell to the next cell in a direction, with that hand at the wall.
fn steps_at_hand<B: Allocator + Copy>(
    places: &Places<'_, B>,
    from: u32,
    to: Spot,
    dir: Dir,
    hand: Hand,
) -> Option<u32>
    requires laid_out { IsLaidOut places.now.grid.now places.now.width places.now.stride places.now.list.now }
    requires to { IsSpot places.now.grid.now places.now.stride to }
    ensures { OnSome result (AreJoined (NearWithout places.now.grid.now from to.cell) from to.cell) }
{
    let mut walker = Walker { spot: to, dir };
    for steps in 0..LONGEST {
        walker = next_around(places, from, to.cell, walker, hand)?;
        if walker.spot.cell == from {
            return Some(steps);
        }
    }
    None
}

/// How many steps were tried to show that the edge in a direction is no bridge, or that there is no edge.
fn steps_beside<B: Allocator + Copy>(places: &Places<'_, B>, spot: Spot, dir: Dir) -> Option<u32>
    requires laid_out { IsLaidOut places.now.grid.now places.now.width places.now.stride places.now.list.now }
    requires spot { IsSpot places.now.grid.now places.now.stride spot }
    ensures { OnSome result (HasNoneBeside places.now.grid.now spot.cell dir) }
{
    let Some(next) = spot_beside(places, spot, dir) else {
        return Some(0);
    };
    if let Some(steps) = steps_at_hand(places, spot.cell, next, dir, Hand::Right) {
        return Some(steps);
    }
    let steps = steps_at_hand(places, spot.cell, next, dir, Hand::Left)?;
    Some(steps.saturating_add(LONGEST))
}

/// How many steps were looked at to show that no bridge has the cell as its lower end.
#[tactic(auto, using(crate::proofs::Rounds::from_none))]
fn steps_around<B: Allocator + Copy>(places: &Places<'_, B>, spot: Spot) -> Option<u32>
    requires laid_out { IsLaidOut places.now.grid.now places.now.width places.now.stride places.now.list.now }
    requires spot { IsSpot places.now.grid.now places.now.stride spot }
    ensures { OnSome result (HasNone places.now.grid.now spot.cell) }
{
    let east = steps_beside(places, spot, Dir::East)?;
    let south = steps_beside(places, spot, Dir::South)?;
    Some(east.saturating_add(south))
}

/// The first of the places from which an edge leads that may be a bridge, or a place before it. `looked` counts the
/// steps that were tried, which are at most `most`.
fn doubt_among<B: Allocator + Copy>(
    places: &Places<'_, B>,
    from: usize,
    to: usize,
    looked: &mut u32,
    most: u32,
) -> Option<u32>
    requires laid_out { IsLaidOut places.now.grid.now places.now.width places.now.stride places.now.list.now }
    requires inside { (v : ℕ) → from ≤ v → v < to → IsInside places.now.list.now places.now.stride v }
    requires before { (v : ℕ) → v < from → HasNoneAt places.now.grid.now places.now.stride v }
    requires order { from ≤ to }
    ensures { MatchOption result ((v : ℕ) → v < to → HasNoneAt places.now.grid.now places.now.stride v) (HasNoneBelow places.now.grid.now) }
{
    for at in from..to {
        if !has_bare(places, at) {
            continue;
        }
        let spot = spot_at(places, at);
        let Some(steps) = steps_around(places, spot) else {
            return Some(spot.cell);
        };
        *looked = looked.saturating_add(steps);
        if *looked > most {
            return Some(spot.cell);
        }
    }
    None
}

/// The same, where at first all places are looked at together.
fn doubt_within<B: Allocator + Copy>(
    places: &Places<'_, B>,
    from: usize,
    to: usize,
    looked: &mut u32,
    most: u32,
) -> Option<u32>
    requires laid_out { IsLaidOut places.now.grid.now places.now.width places.now.stride places.now.list.now }
    requires inside { (v : ℕ) → from ≤ v → v < to → IsInside places.now.list.now places.now.stride v }
    requires before { (v : ℕ) → v < from → HasNoneAt places.now.grid.now places.now.stride v }
    requires order { from ≤ to }
    ensures { MatchOption result ((v : ℕ) → v < to → HasNoneAt places.now.grid.now places.now.stride v) (HasNoneBelow places.now.grid.now) }
{
    if have_bare(places, from, to) {
        return doubt_among(places, from, to, looked, most);
    }
    None
}

/// The first place from which an edge leads that is in doubt.
fn doubt_in<B: Allocator + Copy>(places: &Places<'_, B>, most: u32) -> Option<u32>
    requires laid_out { IsLaidOut places.now.grid.now places.now.width places.now.stride places.now.list.now }
    ensures { MatchOption result (IsBridgeless (IsNeighbour places.now.grid.now)) (HasNoneBelow places.now.grid.now) }
{
    let end = places.list.len().saturating_sub(places.stride + 1);
    let mut looked = 0u32;
    let mut from = places.stride;
    while from < end {
        let to = (from + TOGETHER).min(end);
        if let Some(cell) = doubt_within(places, from, to, &mut looked, most) {
            return Some(cell);
        }
        from = to;
    }
    None
}

/// The first cell from which an edge leads that neither a square of floor nor a short walk shows to be no bridge. The
/// number of steps tried in all is bounded, so that this takes time in proportion to the map; it allocates nothing.
pub(crate) fn first_doubt<B: Allocator + Copy>(grid: &Grid<B>) -> Option<u32>
    ensures { MatchOption result (IsBridgeless (IsNeighbour grid.now)) (HasNoneBelow grid.now) }
{
    let most = grid.cell_count().saturating_mul(STEPS_BY_CELL);
    doubt_in(&places_of(grid), most)
}
