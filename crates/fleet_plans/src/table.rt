//! Plans as a table with a line for each cell of each robot's path.

ghost use Rattle.std.specs.Prelude.{◌≡◌, ◌≤◌, ℕ, [], length, nat_lt, slice_index_or, IfOk, IfErr};
ghost use Rattle.std.specs.Option.{option_map};
ghost use Rattle.fleet_map.specs.Text.{lines_of, number_of};
ghost use Rattle.fleet_plans.specs.Table.{fields, fields_of, trails, no_trails, AreShort, with_cell, with_robot, with_numbers, with_fields, with_row, trails_of, table_of, paths_of, IsTablePlan};
ghost use Rattle.fleet_plans.specs.Judge.{HasJudged};
ghost use Rattle.fleet_plans.specs.Shown.{FailsAt, Gives};
ghost use Rattle.fleet_plans.specs.inside.Given.{IsGiven};

use crate::fault::PlanTextFault;
use crate::follow::follow;
use crate::form::is_header;
use crate::head::split_once;
use crate::judge::PlanJudge;
use crate::limit::MOST_PLAN_BYTES;
use crate::places::is_number;
use crate::scenario::cell_of;
use crate::sides::Sides;
use fleet_history::Row;
use fleet_map::text::first_line;
use std::alloc::{AllocError, Allocator, Global};
use std::mem;

/// The words of a line.
#[derive(Clone, Copy)]
struct Fields<'a> {
    agent: &'a [u8],
    time: &'a [u8],
    row: &'a [u8],
    column: &'a [u8],
}

/// The words of a line, between commas.
fn fields_of(line: &[u8]) -> Option<Fields<'_>>
    ensures { option_map fields result ≡ fields_of line.now }
{
    let (agent, rest) = split_once(line, b',')?;
    let (time, rest) = split_once(rest, b',')?;
    let (row, column) = split_once(rest, b',')?;
    Some(Fields {
        agent,
        time,
        row,
        column,
    })
}

/// The paths that were read: those of the robots before the last one, and that of the last one.
#[derive(Drop)]
pub(crate) struct Trails {
    pub(crate) whole: Vec<Row<u32>>,
    pub(crate) path: Vec<u32>,
}

impl Trails {
    /// No path yet.
    pub(crate) fn new(alloc: Global) -> Trails
        ensures { trails result ≡ no_trails }
    {
        Trails {
            whole: Vec::new(alloc),
            path: Vec::new(alloc),
        }
    }

    /// Whether the last robot has a cell.
    fn has_cells(&self) -> bool
        ensures { result ≡ nat_lt 0 (length self.now.path.items) }
    {
        !self.path.is_empty()
    }

    /// Adds the next cell of the last robot; `None` if its path is too long.
    pub(crate) fn add_cell(&mut self, cell: u32) -> Result<Option<()>, AllocError>
        ensures read { IfOk result (λ done. option_map (λ _. trails self.new) done ≡ with_cell (trails self.old) cell) }
        ensures short { AreShort (trails self.old) → IfOk result (λ _. AreShort (trails self.new)) }
    {
        if self.path.len() >= MOST_PLAN_BYTES {
            return Ok(None);
        }
        self.path.push(cell)?;
        Ok(Some(()))
    }

    /// Adds the first cell of the next robot; `None` if the last one has none, or there are too many.
    fn add_robot(&mut self, alloc: Global, cell: u32) -> Result<Option<()>, AllocError>
        ensures read { IfOk result (λ done. option_map (λ _. trails self.new) done ≡ with_robot (trails self.old) cell) }
        ensures short { AreShort (trails self.old) → IfOk result (λ _. AreShort (trails self.new)) }
    {
        if self.path.is_empty() || self.whole.len() >= MOST_PLAN_BYTES - 1 {
            return Ok(None);
        }
        let mut path = Vec::new(alloc);
        path.push(cell)?;
        let before = mem::replace(&mut self.path, path);
        self.whole.push(Row::from_vec(before))?;
        Ok(Some(()))
    }

    /// Adds a cell of the robot and the time that two words name; `None` if it is not the next.
    fn add(
        &mut self,
        alloc: Global,
        agent: &[u8],
        time: &[u8],
        cell: u32,
    ) -> Result<Option<()>, AllocError>
        ensures read { IfOk result (λ done. option_map (λ _. trails self.new) done ≡ with_numbers (trails self.old) (number_of agent.now) (number_of time.now) cell) }
        ensures short { AreShort (trails self.old) → IfOk result (λ _. AreShort (trails self.new)) }
    {
        let (robots, steps) = (self.whole.len(), self.path.len());
        if is_number(robots, agent) && is_number(steps, time) {
            self.add_cell(cell)
        } else if is_number(robots + 1, agent) && is_number(0, time) {
            self.add_robot(alloc, cell)
        } else {
            Ok(None)
        }
    }

    /// Adds the cell that these words name; `None` if it is not the next.
    fn add_fields(
        &mut self,
        alloc: Global,
        sides: Sides,
        found: Fields<'_>,
    ) -> Result<Option<()>, AllocError>
        ensures read { IfOk result (λ done. option_map (λ _. trails self.new) done ≡ with_fields sides.width sides.height (trails self.old) (fields found.entry)) }
        ensures short { AreShort (trails self.old) → IfOk result (λ _. AreShort (trails self.new)) }
    {
        match cell_of(sides, found.column, found.row) {
            Some(cell) => self.add(alloc, found.agent, found.time, cell),
            None => Ok(None),
        }
    }

    /// Adds one more line; `None` if it is none of such a table.
    fn add_line(
        &mut self,
        alloc: Global,
        sides: Sides,
        line: &[u8],
    ) -> Result<Option<()>, AllocError>
        ensures read { IfOk result (λ done. option_map (λ _. trails self.new) done ≡ with_row sides.width sides.height (trails self.old) line.now) }
        ensures short { AreShort (trails self.old) → IfOk result (λ _. AreShort (trails self.new)) }
    {
        match fields_of(line) {
            Some(found) => self.add_fields(alloc, sides, found),
            None => Ok(None),
        }
    }
}

/// The paths in the lines after the first.
#[tactic(auto, unfolding(crate::specs::Table::trails_of))]
fn read_trails(alloc: Global, sides: Sides, text: &[u8]) -> Result<Trails, PlanTextFault>
    requires { length text.now ≤ MOST_PLAN_BYTES }
    ensures read { Gives trails result (trails_of sides.width sides.height no_trails 2 (lines_of text.now)) }
    ensures short { IfOk result (λ t. AreShort (trails t)) }
{
    let mut found = Trails::new(alloc);
    let mut number = 2;
    let mut rest = text;
    while let Some((line, after)) = first_line(rest) {
        let Some(()) = found.add_line(alloc, sides, line)? else {
            return Err(PlanTextFault::Line(number));
        };
        number += 1;
        rest = after;
    }
    if found.has_cells() {
        Ok(found)
    } else {
        Err(PlanTextFault::Line(number))
    }
}

/// The paths of a table.
fn read_rows(alloc: Global, sides: Sides, text: &[u8]) -> Result<Trails, PlanTextFault>
    requires { length text.now ≤ MOST_PLAN_BYTES }
    ensures read { Gives trails result (table_of sides.width sides.height (lines_of text.now)) }
    ensures short { IfOk result (λ t. AreShort (trails t)) }
{
    match first_line(text) {
        Some((line, after)) if is_header(line) => read_trails(alloc, sides, after),
        _ => Err(PlanTextFault::Line(1)),
    }
}

/// All paths.
pub(crate) fn all_paths(all: Trails) -> Result<Vec<Row<u32>>, AllocError>
    requires { AreShort (trails all) }
    ensures paths { IfOk result (λ paths. paths.items ≡ paths_of (trails all)) }
    ensures few { IfOk result (λ paths. length paths.items ≤ MOST_PLAN_BYTES) }
    ensures short { IfOk result (λ paths. (r : ℕ) → length (slice_index_or paths.items r []) ≤ MOST_PLAN_BYTES) }
{
    let Trails { whole, path } = all;
    let mut paths = whole;
    paths.push(Row::from_vec(path))?;
    Ok(paths)
}

/// Gives the judge the placements of a plan as a table: the line `agent,time,row,column`, and then a line of these
/// numbers for each cell of each path, robot by robot and time by time. A robot whose path has ended stays there. Such
/// a plan names no goals.
///
/// The fault is the first line that does not say the next cell, or `NoMemory`.
pub(crate) fn read_table<B: Allocator + Copy>(
    alloc: Global,
    sides: Sides,
    text: &[u8],
    judge: &mut PlanJudge<Global, B>,
) -> Result<(), PlanTextFault>
    requires short { length text.now ≤ MOST_PLAN_BYTES }
    requires fresh { HasJudged judge.old.floor [] judge.old }
    ensures read { IfOk result (λ _. IsGiven judge.old.floor (IsTablePlan sides.width sides.height text.now) judge.new) }
    ensures fault { IfErr result (λ fault. FailsAt fault (table_of sides.width sides.height (lines_of text.now))) }
{
    let found = read_rows(alloc, sides, text)?;
    let paths = all_paths(found)?;
    Ok(follow(alloc, &paths, judge)?)
}
