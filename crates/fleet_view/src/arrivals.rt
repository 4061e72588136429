//! Where and when robots arrive, in a picture.

ghost use Rattle.std.specs.Prelude.{◌≡◌, ◌++◌, ◌≤◌, map, OnOk, string_bytes};
ghost use Rattle.fleet_trace.specs.Trace.{trace_of};
ghost use Rattle.fleet_view.specs.Picture.{arrives, flag_text, flags_over, flags_in, goal_text, goals_over, goals_in, robot_goals_text, goals_below, ring_text};

use crate::picture::{cell_of, hue_of, write_point};
use crate::shapes::{GOAL, GOALS, GOALS_END, GOALS_PATH, RING, RING_END, TRACK_TIME};
use fleet_history::{Arrival, Chapter, Entry};
use std::alloc::AllocError;
use std::fmt::Write;

/// Whether the robot is one of those that arrived.
fn arrives(arrived: &[Arrival], robot: usize) -> bool
    ensures { result ≡ arrives robot arrived.now }
{
    arrived
        .iter()
        .any(|arrival| arrival.robot as usize == robot)
}

/// A sign for each tick of the entries: whether the robot arrived in it.
fn write_flags(out: &mut String, robot: usize, entries: &[Entry]) -> Result<(), AllocError>
    ensures { OnOk result (string_bytes out.new ≡ string_bytes out.old ++ flags_over robot entries.now) }
{
    for entry in entries {
        if let Entry::Tick { arrived, .. } = entry {
            if arrives(arrived.as_slice(), robot) {
                out.push_str(";1")?;
            } else {
                out.push_str(";0")?;
            }
        }
    }
    Ok(())
}

/// The signs of all chapters.
fn write_all_flags(out: &mut String, robot: usize, chapters: &[Chapter]) -> Result<(), AllocError>
    ensures { OnOk result (string_bytes out.new ≡ string_bytes out.old ++ flags_in robot (map trace_of chapters.now)) }
{
    for chapter in chapters {
        write_flags(out, robot, &chapter.entries)?;
    }
    Ok(())
}

/// A ring that shows at each arrival of the robot, in a picture that moves for this time in tenths of a second.
pub(crate) fn write_ring(
    out: &mut String,
    robot: usize,
    chapters: &[Chapter],
    time: usize,
) -> Result<(), AllocError>
    ensures { OnOk result (string_bytes out.new ≡ string_bytes out.old ++ ring_text (flags_in robot (map trace_of chapters.now)) time) }
{
    out.push_str(RING)?;
    write_all_flags(out, robot, chapters)?;
    write!(out, "{TRACK_TIME}{time}{RING_END}")
}

/// A square on the cell, if the robot arrived there.
fn write_goal(out: &mut String, width: u32, cell: u32, arrived: bool) -> Result<(), AllocError>
    requires { 1 ≤ width }
    ensures { OnOk result (string_bytes out.new ≡ string_bytes out.old ++ goal_text width cell arrived) }
{
    if !arrived {
        return Ok(());
    }
    out.push_str(GOAL)?;
    write_point(out, width, cell)?;
    out.push_str("h12v12h-12z")
}

/// A square for each arrival of the robot in the entries.
fn write_goals(
    out: &mut String,
    width: u32,
    robot: usize,
    entries: &[Entry],
) -> Result<(), AllocError>
    requires { 1 ≤ width }
    ensures { OnOk result (string_bytes out.new ≡ string_bytes out.old ++ goals_over width robot entries.now) }
{
    for entry in entries {
        if let Entry::Tick { to, arrived, .. } = entry {
            let arrived = arrives(arrived.as_slice(), robot);
            write_goal(out, width, cell_of(to.as_slice(), robot), arrived)?;
        }
    }
    Ok(())
}

/// A square for each arrival of the robot in the chapters.
fn write_all_goals(
    out: &mut String,
    width: u32,
    robot: usize,
    chapters: &[Chapter],
) -> Result<(), AllocError>
    requires { 1 ≤ width }
    ensures { OnOk result (string_bytes out.new ≡ string_bytes out.old ++ goals_in width robot (map trace_of chapters.now)) }
{
    for chapter in chapters {
        write_goals(out, width, robot, &chapter.entries)?;
    }
    Ok(())
}

/// The robot's goals, in its colour.
fn write_robot_goals(
    out: &mut String,
    width: u32,
    robot: usize,
    chapters: &[Chapter],
) -> Result<(), AllocError>
    requires { 1 ≤ width }
    ensures { OnOk result (string_bytes out.new ≡ string_bytes out.old ++ robot_goals_text width (map trace_of chapters.now) robot) }
{
    let hue = hue_of(robot);
    write!(out, "{GOALS}{hue}{GOALS_PATH}")?;
    write_all_goals(out, width, robot, chapters)?;
    out.push_str(GOALS_END)
}

/// The goals of n robots.
pub(crate) fn write_goals_of(
    out: &mut String,
    width: u32,
    chapters: &[Chapter],
    robots: usize,
) -> Result<(), AllocError>
    requires { 1 ≤ width }
    ensures { OnOk result (string_bytes out.new ≡ string_bytes out.old ++ goals_below width (map trace_of chapters.now) robots) }
{
    for robot in 0..robots {
        write_robot_goals(out, width, robot, chapters)?;
    }
    Ok(())
}
