//! The starts and goals of robots in a scenario of the MAPF benchmarks.

ghost use Rattle.std.specs.Prelude.{◌≡◌, ◌≤◌, ◌+◌, ◌<◌, ◌^◌, [], length, slice_index_or};
ghost use Rattle.fleet_map.specs.Text.{lines_of, words_of};
ghost use Rattle.fleet_plans.specs.Scenario.{word_at, cell_of, is_of_map, start_in, goal_in, trip_in, Trips, trips_of, is_version, scenario_of};
ghost use Rattle.fleet_plans.specs.Shown.{Gives, trips};

use crate::cells::coordinate_of;
use crate::fault::PlanTextFault;
use crate::limit::MOST_PLAN_BYTES;
use crate::misspelt::word_of;
use crate::movers::sides_of;
use crate::places::is_number;
use crate::sides::Sides;
use fleet_grid::Grid;
use fleet_history::Row;
use fleet_map::text::{first_line, first_word};
use std::alloc::Global;

/// Where a robot starts, and where it is to end.
#[derive(Clone, Copy, Debug, PartialEq, Eq)]
pub(crate) struct Trip {
    start: u32,
    goal: u32,
}

/// The robots' starts and goals, by number. A cell outside of the map is `u32::MAX`.
#[derive(Drop)]
pub struct Scenario {
    pub starts: Row<u32>,
    pub goals: Row<u32>,
}

/// The word at this place of a line, counted from 0; empty if there is none.
pub(crate) fn word_at(line: &[u8], place: usize) -> &[u8]
    ensures { result.now ≡ word_at line.now place }
{
    let mut rest = line;
    let mut left = place;
    while left > 0 {
        let Some((_, after)) = first_word(rest) else {
            return &[];
        };
        rest = after;
        left -= 1;
    }
    word_of(rest)
}

/// The cell in the column and the row that two words say.
pub(crate) fn cell_of(sides: Sides, x: &[u8], y: &[u8]) -> Option<u32>
    ensures { result ≡ cell_of sides.width sides.height x.now y.now }
{
    let column = coordinate_of(x)?;
    let row = coordinate_of(y)?;
    Some(sides.cell_at(column, row))
}

/// Whether a line is one of this map.
fn is_of_map(sides: Sides, line: &[u8]) -> bool
    ensures { result ≡ is_of_map sides.width sides.height line.now }
{
    is_number(sides.width as usize, word_at(line, 2))
        && is_number(sides.height as usize, word_at(line, 3))
}

/// The start in a line.
fn start_in(sides: Sides, line: &[u8]) -> Option<u32>
    ensures { result ≡ start_in sides.width sides.height line.now }
{
    cell_of(sides, word_at(line, 4), word_at(line, 5))
}

/// The goal in a line.
fn goal_in(sides: Sides, line: &[u8]) -> Option<u32>
    ensures { result ≡ goal_in sides.width sides.height line.now }
{
    cell_of(sides, word_at(line, 6), word_at(line, 7))
}

/// The start and the goal in a line.
fn trip_in(sides: Sides, line: &[u8]) -> Option<Trip>
    ensures { result ≡ trip_in sides.width sides.height line.now }
{
    if !is_of_map(sides, line) {
        return None;
    }
    let start = start_in(sides, line)?;
    let goal = goal_in(sides, line)?;
    Some(Trip { start, goal })
}

/// Whether a scenario begins with this line.
fn is_version(line: &[u8]) -> bool
    ensures { result ≡ is_version line.now }
{
    word_at(line, 0) == b"version".as_slice()
}

/// The starts and goals of the lines after the first.
#[tactic(auto, unfolding(crate::specs::Scenario::trips_of))]
fn read_trips(alloc: Global, sides: Sides, text: &[u8]) -> Result<Scenario, PlanTextFault>
    requires { length text.now ≤ MOST_PLAN_BYTES }
    ensures { Gives trips result (trips_of sides.width sides.height (record { starts = []; goals = [] }) 2 (lines_of text.now)) }
{
    let mut starts = Vec::new(alloc);
    let mut goals = Vec::new(alloc);
    let mut number = 2;
    let mut rest = text;
    while let Some((line, after)) = first_line(rest) {
        let Some(trip) = trip_in(sides, line) else {
            return Err(PlanTextFault::Line(number));
        };
        starts.push(trip.start)?;
        goals.push(trip.goal)?;
        number += 1;
        rest = after;
    }
    Ok(Scenario {
        starts: Row::from_vec(starts),
        goals: Row::from_vec(goals),
    })
}

/// The robots' starts and goals in a scenario on a map with these sides. The fault is the first line that is not
/// allowed where it is, or `NoMemory`.
pub(crate) fn read_scenario(
    alloc: Global,
    sides: Sides,
    text: &[u8],
) -> Result<Scenario, PlanTextFault>
    requires { length text.now ≤ MOST_PLAN_BYTES }
    ensures { Gives trips result (scenario_of sides.width sides.height (lines_of text.now)) }
{
    match first_line(text) {
        Some((line, after)) if is_version(line) => read_trips(alloc, sides, after),
        _ => Err(PlanTextFault::Line(1)),
    }
}

/// The robots' starts and goals in a scenario on a map. The fault is the first line that is not allowed where it is, or
/// `NoMemory`.
pub fn scenario_on(alloc: Global, grid: &Grid, text: &[u8]) -> Result<Scenario, PlanTextFault>
    requires { length text.now ≤ MOST_PLAN_BYTES }
    ensures { Gives trips result (scenario_of grid.now.width grid.now.height (lines_of text.now)) }
{
    read_scenario(alloc, sides_of(grid), text)
}
