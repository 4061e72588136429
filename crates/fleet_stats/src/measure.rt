//! The distances of errands. They are looked for goal by goal. A search toward one cell comes to few others, so the first
//! errands to a goal have one each; those after them share one, which goes over the whole map at most.

ghost use Rattle.std.specs.Prelude.{◌≡◌, ◌++◌, map, length, slice_index_or, None, IfOk, OnOk, All};
ghost use Rattle.std.specs.List.{range_with_len};
ghost use Rattle.fleet_stats.specs.Figures.{IsOrdered};
ghost use Rattle.fleet_stats.specs.Rows.{away, goal_key, measured};
ghost use Rattle.fleet_grid.specs.Floor.{IsFloor};
ghost use Rattle.fleet_field.specs.Growing.{Serves};
ghost use Rattle.fleet_stats.specs.inside.Found.{IsWay};

use crate::away::{away, away_by};
use crate::rows::{ErrandRow, Served};
use crate::spread::ordered;
use crate::tick::cell_at;
use fleet_field::GrowingField;
use fleet_grid::Grid;
use std::alloc::{AllocError, Global};

/// How many errands to a goal have a search of their own.
const OWN: u64 = 8;

/// A distance that was looked for.
#[derive(Clone, Copy)]
pub(crate) struct Way {
    pub(crate) from: u32,
    pub(crate) to: u32,
    pub(crate) distance: Option<u32>,
}

/// The goals of errands.
fn goals_of(alloc: Global, served: &[Served]) -> Result<Vec<u32>, AllocError>
    ensures { IfOk result (λ goals. goals.items ≡ map (λ x. x.done.cell) served.now) }
{
    served.iter().map(|one| one.done.cell).collect(alloc)
}

/// The goal at a place and the place, in one number.
fn goal_key(goals: &[u32], place: usize) -> u64
    ensures { result ≡ goal_key goals.now place }
{
    (u64::from(cell_at(goals, place)) * 4_294_967_296).saturating_add(place as u64)
}

/// The places of the goals, with the goals.
fn goal_keys(alloc: Global, goals: &[u32]) -> Result<Vec<u64>, AllocError>
    ensures { IfOk result (λ keys. keys.items ≡ map (goal_key goals.now) (range_with_len 0 (length goals.now))) }
{
    (0..goals.len())
        .map(|place| goal_key(goals, place))
        .collect(alloc)
}

/// The same, ordered by goal.
fn by_goal(alloc: Global, goals: &[u32]) -> Result<Vec<u64>, AllocError>
    ensures { IfOk result (λ keys. IsOrdered (map (goal_key goals.now) (range_with_len 0 (length goals.now))) keys.items) }
{
    let keys = goal_keys(alloc, goals)?;
    Ok(ordered(keys))
}

/// Looks for the distance of the errand at this place, by a search of its own if it is to be anew. After an error the
/// field is of no use.
fn find_one(
    grid: &Grid,
    field: &mut GrowingField,
    served: &[Served],
    place: usize,
    anew: bool,
    ways: &mut [Option<Way>],
) -> Result<(), AllocError>
    requires serves { Serves grid.now field.old }
    requires ways { All (IsWay grid.now) ways.old }
    ensures serves { OnOk result (Serves grid.now field.new) }
    ensures ways { All (IsWay grid.now) ways.new }
{
    if place < served.len() && place < ways.len() {
        let (from, to) = (served[place].done.leg.from, served[place].done.cell);
        if grid.is_floor(from) && grid.is_floor(to) {
            let distance = away_by(grid, field, from, to, anew)?;
            ways[place] = Some(Way { from, to, distance });
        }
    }
    Ok(())
}

/// Looks for the distances of errands in the order of these keys.
fn find_all(
    grid: &Grid,
    field: &mut GrowingField,
    served: &[Served],
    keys: &[u64],
    ways: &mut [Option<Way>],
) -> Result<(), AllocError>
    requires serves { Serves grid.now field.old }
    requires ways { All (IsWay grid.now) ways.old }
    ensures ways { All (IsWay grid.now) ways.new }
{
    let (mut last, mut asked) = (u64::MAX, 0u64);
    for key in keys {
        let (goal, place) = (*key / 4_294_967_296, *key % 4_294_967_296);
        asked = if goal == last {
            asked.saturating_add(1)
        } else {
            0
        };
        last = goal;
        find_one(grid, field, served, place as usize, asked < OWN, ways)?;
    }
    Ok(())
}

/// The distance from a cell to another, where it may have been looked for.
fn distance_by(
    alloc: Global,
    grid: &Grid,
    found: Option<Way>,
    from: u32,
    to: u32,
) -> Result<Option<u32>, AllocError>
    requires { IsWay grid.now found }
    ensures { IfOk result (λ distance. distance ≡ away grid.now from to) }
{
    if let Some(way) = found {
        if way.from == from && way.to == to {
            return Ok(way.distance);
        }
    }
    away(alloc, grid, from, to)
}

/// What was found at a place.
fn way_at(ways: &[Option<Way>], place: usize) -> Option<Way>
    ensures { result ≡ slice_index_or ways.now place None }
{
    if place < ways.len() {
        ways[place]
    } else {
        None
    }
}

/// The rows of errands, given what was found for them by place.
fn push_measured(
    alloc: Global,
    grid: &Grid,
    served: &[Served],
    ways: &[Option<Way>],
    rows: &mut Vec<ErrandRow>,
) -> Result<(), AllocError>
    requires { All (IsWay grid.now) ways.now }
    ensures { OnOk result (rows.new.items ≡ rows.old.items ++ map (measured grid.now) served.now) }
{
    for place in 0..served.len() {
        let Served { accepted, done } = served[place];
        let found = way_at(ways, place);
        let distance = distance_by(alloc, grid, found, done.leg.from, done.cell)?;
        rows.push(ErrandRow {
            accepted,
            done,
            distance,
        })?;
    }
    Ok(())
}

/// Nothing found yet, for each errand.
fn no_ways(alloc: Global, served: &[Served]) -> Result<Vec<Option<Way>>, AllocError>
    ensures { IfOk result (λ ways. ways.items ≡ map (λ _. None) served.now) }
{
    served.iter().map(|_one| None).collect(alloc)
}

/// Looks for the distances of errands, goal by goal. The field begins at a goal, a floor cell.
fn find_from(
    alloc: Global,
    grid: &Grid,
    goal: u32,
    served: &[Served],
    ways: &mut [Option<Way>],
) -> Result<(), AllocError>
    requires floor { IsFloor grid.now goal }
    requires ways { All (IsWay grid.now) ways.old }
    ensures { All (IsWay grid.now) ways.new }
{
    let keys = by_goal(alloc, &goals_of(alloc, served)?)?;
    let mut field = GrowingField::new(alloc, grid, goal, goal)?;
    find_all(grid, &mut field, served, &keys, ways)
}

/// Looks for the distances of errands, unless the first one's goal is not floor.
fn find_some(
    alloc: Global,
    grid: &Grid,
    served: &[Served],
    ways: &mut [Option<Way>],
) -> Result<(), AllocError>
    requires { All (IsWay grid.now) ways.old }
    ensures { All (IsWay grid.now) ways.new }
{
    let Some(first) = served.first() else {
        return Ok(());
    };
    let goal = first.done.cell;
    if !grid.is_floor(goal) {
        return Ok(());
    }
    find_from(alloc, grid, goal, served, ways)
}

/// What was found of the distances of errands.
fn ways_of(alloc: Global, grid: &Grid, served: &[Served]) -> Result<Vec<Option<Way>>, AllocError>
    ensures { IfOk result (λ ways. All (IsWay grid.now) ways.items) }
{
    let mut ways = no_ways(alloc, served)?;
    find_some(alloc, grid, served, &mut ways)?;
    Ok(ways)
}

/// The rows of errands, with their distances.
pub(crate) fn errand_rows(
    alloc: Global,
    grid: &Grid,
    served: &[Served],
) -> Result<Vec<ErrandRow>, AllocError>
    ensures { IfOk result (λ rows. rows.items ≡ map (measured grid.now) served.now) }
{
    let ways = ways_of(alloc, grid, served)?;
    let mut rows = Vec::new(alloc);
    push_measured(alloc, grid, served, &ways, &mut rows)?;
    Ok(rows)
}
