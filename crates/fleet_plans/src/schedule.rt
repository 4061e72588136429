//! Plans as YAML, as libMultiRobotPlanning writes them.

ghost use Rattle.std.specs.Prelude.{◌≡◌, ◌≤◌, ◌+◌, ℕ, [], length, IfOk, IfErr, IfSome};
ghost use Rattle.std.specs.Option.{option_map};
ghost use Rattle.fleet_map.specs.Text.{lines_of};
ghost use Rattle.fleet_plans.specs.Judge.{HasJudged};
ghost use Rattle.fleet_plans.specs.Schedule.{is_robot, robot_in, names, column_of, row_of, is_at, drafted, with_name, with_time, with_next, with_scheduled, is_whole, robots_of, schedule_of, IsScheduled};
ghost use Rattle.fleet_plans.specs.Shown.{FailsAt, Gives};
ghost use Rattle.fleet_plans.specs.Table.{trails, no_trails, AreShort};
ghost use Rattle.fleet_plans.specs.inside.Given.{IsGiven};

use crate::cells::coordinate_of;
use crate::fault::PlanTextFault;
use crate::follow::follow;
use crate::judge::PlanJudge;
use crate::limit::MOST_PLAN_BYTES;
use crate::places::is_number;
use crate::scenario::word_at;
use crate::sides::Sides;
use crate::table::{Trails, all_paths};
use fleet_history::Row;
use fleet_map::text::first_line;
use std::alloc::{AllocError, Allocator, Global};
use std::mem;

/// What the last line was, with what was read of its cell.
#[derive(Clone, Copy)]
enum Part {
    /// The line `schedule:`.
    Begin,
    /// A robot's name.
    Name,
    /// The column of a cell.
    Column(u32),
    /// The row of a cell, which is this one.
    Row(u32),
    /// The time of a cell, which is its last line.
    Cell,
}

/// Whether a word is `agentK:`.
fn is_robot(word: &[u8]) -> bool
    ensures { result ≡ is_robot word.now }
{
    word.len() >= 6 && &word[..5] == b"agent".as_slice() && word[word.len() - 1] == b':'
}

/// K of a word `agentK:`.
fn robot_in(word: &[u8]) -> &[u8]
    requires { 6 ≤ length word.now }
    ensures { result.now ≡ robot_in word.now }
{
    &word[5..word.len() - 1]
}

/// Whether a line is that of this robot.
fn names(robot: usize, line: &[u8]) -> bool
    ensures { result ≡ names robot line.now }
{
    let word = word_at(line, 0);
    is_robot(word) && is_number(robot, robot_in(word))
}

/// The column of a line `- x: COLUMN`.
fn column_of(line: &[u8]) -> Option<u32>
    ensures { result ≡ column_of line.now }
{
    if word_at(line, 0) == b"-".as_slice() && word_at(line, 1) == b"x:".as_slice() {
        coordinate_of(word_at(line, 2))
    } else {
        None
    }
}

/// The row of a line `y: ROW`.
fn row_of(line: &[u8]) -> Option<u32>
    ensures exact { result ≡ row_of line.now }
    ensures small { IfSome result (λ row. row ≤ 1024) }
{
    if word_at(line, 0) == b"y:".as_slice() {
        coordinate_of(word_at(line, 1))
    } else {
        None
    }
}

/// Whether a line is `t: TIME` with this time.
fn is_at(time: usize, line: &[u8]) -> bool
    ensures { result ≡ is_at time line.now }
{
    word_at(line, 0) == b"t:".as_slice() && is_number(time, word_at(line, 1))
}

/// Begins the path of the next robot; `None` if the line is not that robot's, or there are too many.
fn add_name(alloc: Global, paths: &mut Trails, line: &[u8]) -> Result<Option<Part>, AllocError>
    ensures read { IfOk result (λ more. option_map (λ part. drafted (trails paths.new) part) more ≡ with_name (trails paths.old) line.now) }
    ensures short { AreShort (trails paths.old) → IfOk result (λ _. AreShort (trails paths.new)) }
{
    let robots = paths.whole.len();
    if !names(robots + 1, line) || robots >= MOST_PLAN_BYTES - 1 {
        return Ok(None);
    }
    let before = mem::replace(&mut paths.path, Vec::new(alloc));
    paths.whole.push(Row::from_vec(before))?;
    Ok(Some(Part::Name))
}

/// Adds a cell, if the line has the next time.
fn add_cell_at(paths: &mut Trails, cell: u32, line: &[u8]) -> Result<Option<Part>, AllocError>
    ensures read { IfOk result (λ more. option_map (λ part. drafted (trails paths.new) part) more ≡ with_time (trails paths.old) cell line.now) }
    ensures short { AreShort (trails paths.old) → IfOk result (λ _. AreShort (trails paths.new)) }
{
    if !is_at(paths.path.len(), line) {
        return Ok(None);
    }
    match paths.add_cell(cell)? {
        Some(()) => Ok(Some(Part::Cell)),
        None => Ok(None),
    }
}

/// Begins one more cell, or the path of the next robot.
fn add_next(alloc: Global, paths: &mut Trails, line: &[u8]) -> Result<Option<Part>, AllocError>
    ensures read { IfOk result (λ more. option_map (λ part. drafted (trails paths.new) part) more ≡ with_next (trails paths.old) line.now (column_of line.now)) }
    ensures short { AreShort (trails paths.old) → IfOk result (λ _. AreShort (trails paths.new)) }
{
    match column_of(line) {
        Some(column) => Ok(Some(Part::Column(column))),
        None => add_name(alloc, paths, line),
    }
}

/// What a line is after one that was this; `None` if it may not stand there. A cell that it ends is added.
fn add_scheduled(
    alloc: Global,
    sides: Sides,
    paths: &mut Trails,
    part: Part,
    line: &[u8],
) -> Result<Option<Part>, AllocError>
    ensures read { IfOk result (λ more. option_map (λ next. drafted (trails paths.new) next) more ≡ with_scheduled sides.width sides.height (trails paths.old) part line.now) }
    ensures short { AreShort (trails paths.old) → IfOk result (λ _. AreShort (trails paths.new)) }
{
    match part {
        Part::Begin => Ok(if names(0, line) {
            Some(Part::Name)
        } else {
            None
        }),
        Part::Name => Ok(match column_of(line) {
            Some(column) => Some(Part::Column(column)),
            None => None,
        }),
        Part::Column(column) => Ok(match row_of(line) {
            Some(row) => Some(Part::Row(sides.cell_at(column, row))),
            None => None,
        }),
        Part::Row(cell) => add_cell_at(paths, cell, line),
        Part::Cell => add_next(alloc, paths, line),
    }
}

/// Whether the lines may end after such a line.
fn is_whole(part: Part) -> bool
    ensures { result ≡ is_whole part }
{
    match part {
        Part::Begin | Part::Name | Part::Column(_) | Part::Row(_) => false,
        Part::Cell => true,
    }
}

/// The paths in the lines after `schedule:`; this is the number of the first of them.
#[tactic(auto, unfolding(crate::specs::Schedule::robots_of))]
fn read_robots(
    alloc: Global,
    sides: Sides,
    number: u32,
    text: &[u8],
) -> Result<Trails, PlanTextFault>
    requires { number + length text.now ≤ 2 + MOST_PLAN_BYTES }
    ensures read { Gives trails result (robots_of sides.width sides.height no_trails Part.Begin number (lines_of text.now)) }
    ensures short { IfOk result (λ t. AreShort (trails t)) }
{
    let mut paths = Trails::new(alloc);
    let mut part = Part::Begin;
    let mut number = number;
    let mut rest = text;
    while let Some((line, after)) = first_line(rest) {
        let Some(next) = add_scheduled(alloc, sides, &mut paths, part, line)? else {
            return Err(PlanTextFault::Line(number));
        };
        part = next;
        number += 1;
        rest = after;
    }
    if is_whole(part) {
        Ok(paths)
    } else {
        Err(PlanTextFault::Line(number))
    }
}

/// The paths of a schedule.
#[tactic(auto, unfolding(crate::specs::Schedule::schedule_of))]
fn read_lines(alloc: Global, sides: Sides, text: &[u8]) -> Result<Trails, PlanTextFault>
    requires { length text.now ≤ MOST_PLAN_BYTES }
    ensures read { Gives trails result (schedule_of sides.width sides.height 1 (lines_of text.now)) }
    ensures short { IfOk result (λ t. AreShort (trails t)) }
{
    let mut number = 1;
    let mut rest = text;
    while let Some((line, after)) = first_line(rest) {
        number += 1;
        rest = after;
        if word_at(line, 0) == b"schedule:".as_slice() {
            return read_robots(alloc, sides, number, rest);
        }
    }
    Err(PlanTextFault::Line(number))
}

/// Gives the judge the placements of a plan as YAML: after the line `schedule:` a line `agentK:` for each robot, by
/// number, and then for each cell of its path, by time, the lines `- x: COLUMN`, `y: ROW` and `t: TIME`. A robot whose
/// path has ended stays there. Such a plan names no goals.
///
/// The fault is the first line that is not the next of these, which is the one after the last where the text ends
/// within a cell or before a robot's first one; or `NoMemory`.
pub(crate) fn read_schedule<B: Allocator + Copy>(
    alloc: Global,
    sides: Sides,
    text: &[u8],
    judge: &mut PlanJudge<Global, B>,
) -> Result<(), PlanTextFault>
    requires short { length text.now ≤ MOST_PLAN_BYTES }
    requires fresh { HasJudged judge.old.floor [] judge.old }
    ensures read { IfOk result (λ _. IsGiven judge.old.floor (IsScheduled sides.width sides.height text.now) judge.new) }
    ensures fault { IfErr result (λ fault. FailsAt fault (schedule_of sides.width sides.height 1 (lines_of text.now))) }
{
    let found = read_lines(alloc, sides, text)?;
    let paths = all_paths(found)?;
    Ok(follow(alloc, &paths, judge)?)
}
