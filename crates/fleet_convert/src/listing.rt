//! A plan as text with the cells of each robot.

ghost use Rattle.std.specs.Prelude.{◌≡◌, ◌++◌, ◌≤◌, ◌/◌, ◌%◌, OnOk, IfOk, string_bytes};
ghost use Rattle.fleet_plans.specs.Valid.{place_at};
ghost use Rattle.fleet_convert.specs.Listing.{opening, robot_text, ending, stand_text, stands_from, path_text, paths_text, listed_plan};

use crate::step::cell_of;
use fleet_plans::Placements;
use std::alloc::{AllocError, Global};
use std::fmt::Write;

/// The form of a plan's text that has the cells robot by robot.
#[derive(Clone, Copy, Debug, PartialEq, Eq)]
pub enum Listing {
    /// A line `Agent K:` for each robot, with its cells, as CBS and EECBS write it.
    Agents,
    /// A table with a line for each cell.
    Table,
    /// YAML with a schedule, as libMultiRobotPlanning writes it.
    Schedule,
}

/// What stands before all robots.
fn opening(listing: Listing) -> &'static str
    ensures { result.now ≡ opening listing }
{
    match listing {
        Listing::Agents => "",
        Listing::Table => "agent,time,row,column\n",
        Listing::Schedule => "schedule:\n",
    }
}

/// What stands after the cells of a robot.
fn ending(listing: Listing) -> &'static str
    ensures { result.now ≡ ending listing }
{
    match listing {
        Listing::Agents => "\n",
        Listing::Table => "",
        Listing::Schedule => "",
    }
}

/// What stands before the cells of a robot.
fn write_robot(out: &mut String, listing: Listing, robot: usize) -> Result<(), AllocError>
    ensures { OnOk result (string_bytes out.new ≡ string_bytes out.old ++ robot_text listing robot) }
{
    match listing {
        Listing::Agents => write!(out, "Agent {robot}: "),
        Listing::Table => Ok(()),
        Listing::Schedule => write!(out, "  agent{robot}:\n"),
    }
}

/// The cell of a robot at a time.
fn write_stand(
    out: &mut String,
    listing: Listing,
    robot: usize,
    time: usize,
    row: u32,
    column: u32,
) -> Result<(), AllocError>
    ensures { OnOk result (string_bytes out.new ≡ string_bytes out.old ++ stand_text listing robot time row column) }
{
    match listing {
        Listing::Agents => write!(out, "({row},{column})->"),
        Listing::Table => write!(out, "{robot},{time},{row},{column}\n"),
        Listing::Schedule => write!(out, "    - x: {column}\n      y: {row}\n      t: {time}\n"),
    }
}

/// The cells of a robot.
fn write_stands(
    out: &mut String,
    listing: Listing,
    width: u32,
    places: &Placements,
    robot: usize,
) -> Result<(), AllocError>
    requires { 1 ≤ width }
    ensures { OnOk result (string_bytes out.new ≡ string_bytes out.old ++ stands_from listing width robot 0 places.now) }
{
    for time in 0..places.len() {
        let cell = cell_of(places.at(time), robot);
        write_stand(out, listing, robot, time, cell / width, cell % width)?;
    }
    Ok(())
}

/// The path of a robot.
fn write_path(
    out: &mut String,
    listing: Listing,
    width: u32,
    places: &Placements,
    robot: usize,
) -> Result<(), AllocError>
    requires { 1 ≤ width }
    ensures { OnOk result (string_bytes out.new ≡ string_bytes out.old ++ path_text listing width robot places.now) }
{
    write_robot(out, listing, robot)?;
    write_stands(out, listing, width, places, robot)?;
    out.push_str(ending(listing))
}

/// The robots' paths.
fn write_paths(
    out: &mut String,
    listing: Listing,
    width: u32,
    places: &Placements,
) -> Result<(), AllocError>
    requires { 1 ≤ width }
    ensures { OnOk result (string_bytes out.new ≡ string_bytes out.old ++ paths_text listing width places.now 0 (place_at places.now 0)) }
{
    for robot in 0..places.at(0).len() {
        write_path(out, listing, width, places, robot)?;
    }
    Ok(())
}

/// The text of a plan on a map of this width, robot by robot: as paths of agents, as a table, or as YAML. Each path has
/// a cell for each time of the plan. The only error is out of memory.
pub fn listed_plan(
    alloc: Global,
    listing: Listing,
    width: u32,
    places: &Placements,
) -> Result<String, AllocError>
    requires { 1 ≤ width }
    ensures { IfOk result (λ text. string_bytes text ≡ listed_plan listing width places.now) }
{
    let mut out = String::from_str(alloc, opening(listing))?;
    write_paths(&mut out, listing, width, places)?;
    Ok(out)
}
