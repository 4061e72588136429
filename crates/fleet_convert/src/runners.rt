//! A plan as the JSON of the League of Robot Runners.

ghost use Rattle.std.specs.Prelude.{◌≡◌, ◌++◌, ◌≤◌, OnOk, IfOk, string_bytes, codes, decimal, ◌/◌, ◌%◌};
ghost use Rattle.fleet_plans.specs.Valid.{place_at};
ghost use Rattle.fleet_convert.specs.Moves.{steps_of};
ghost use Rattle.fleet_convert.specs.Runners.{comma_before, path_from, starts_from, paths_from, runners_plan};

use crate::step::step_at;
use fleet_plans::Placements;
use std::alloc::{AllocError, Global};
use std::fmt::Write;

/// The text before the item at this place of a list.
fn comma_before(place: usize) -> &'static str
    ensures { result.now ≡ comma_before place }
{
    if place == 0 { "" } else { "," }
}

/// A robot's path.
fn write_path(
    out: &mut String,
    width: u32,
    places: &Placements,
    robot: usize,
) -> Result<(), AllocError>
    ensures { OnOk result (string_bytes out.new ≡ string_bytes out.old ++ path_from 0 (steps_of width robot places.now)) }
{
    let steps = places.len().saturating_sub(1);
    for time in 0..steps {
        out.push_str(comma_before(time))?;
        out.push_str(step_at(width, places, robot, time).capital())?;
    }
    Ok(())
}

/// A robot's row, column and direction, as the next item of a list. Robots do not turn; viewers still want a direction.
fn write_start(out: &mut String, width: u32, robot: usize, cell: u32) -> Result<(), AllocError>
    requires { 1 ≤ width }
    ensures { OnOk result (string_bytes out.new ≡ string_bytes out.old ++ (comma_before robot ++ codes "[" ++ decimal (cell / width) ++ codes "," ++ decimal (cell % width) ++ codes ",\"E\"]")) }
{
    let (row, column) = (cell / width, cell % width);
    out.push_str(comma_before(robot))?;
    write!(out, "[{row},{column},\"E\"]")
}

/// The robots' start cells.
fn write_starts(out: &mut String, width: u32, cells: &[u32]) -> Result<(), AllocError>
    requires { 1 ≤ width }
    ensures { OnOk result (string_bytes out.new ≡ string_bytes out.old ++ starts_from width 0 cells.now) }
{
    for (robot, cell) in cells.iter().enumerate() {
        write_start(out, width, robot, *cell)?;
    }
    Ok(())
}

/// A robot's path in quotes, as the next item of a list.
fn write_quoted(
    out: &mut String,
    width: u32,
    places: &Placements,
    robot: usize,
) -> Result<(), AllocError>
    ensures { OnOk result (string_bytes out.new ≡ string_bytes out.old ++ (comma_before robot ++ codes "\"" ++ path_from 0 (steps_of width robot places.now) ++ codes "\"")) }
{
    out.push_str(comma_before(robot))?;
    out.push_str("\"")?;
    write_path(out, width, places, robot)?;
    out.push_str("\"")
}

/// The robots' paths.
fn write_paths(out: &mut String, width: u32, places: &Placements) -> Result<(), AllocError>
    ensures { OnOk result (string_bytes out.new ≡ string_bytes out.old ++ paths_from width places.now 0 (place_at places.now 0)) }
{
    for robot in 0..places.at(0).len() {
        write_quoted(out, width, places, robot)?;
    }
    Ok(())
}

/// The text of a plan on a map of this width, as the JSON of the League of Robot Runners, in the action model MAPF:
/// `start` has each robot's row, column and direction E, and `actualPaths` its steps, as letters U, D, L, R, W
/// separated by commas. The only error is out of memory.
pub fn runners_plan(alloc: Global, width: u32, places: &Placements) -> Result<String, AllocError>
    requires { 1 ≤ width }
    ensures { IfOk result (λ text. string_bytes text ≡ runners_plan width places.now) }
{
    let mut out = String::new(alloc);
    let starts = places.at(0);
    let robots = starts.len();
    write!(
        out,
        "{{\"actionModel\":\"MAPF\",\"teamSize\":{robots},\"start\":["
    )?;
    write_starts(&mut out, width, starts)?;
    out.push_str("],\"actualPaths\":[")?;
    write_paths(&mut out, width, places)?;
    out.push_str("]}\n")?;
    Ok(out)
}
