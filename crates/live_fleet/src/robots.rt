//! How robots stand, line by line.

ghost use Rattle.std.specs.Prelude.{◌≡◌, ◌++◌, IfOk, OnOk, string_bytes};
ghost use Rattle.live_fleet.specs.RobotLines.{duty_word, robot_line, robot_listed, robots_end, way_text, work_text};

use std::alloc::{AllocError, Global};
use std::fmt::Write;

/// Whether a robot has errands, and takes more.
#[derive(Clone, Copy, Debug, PartialEq, Eq)]
pub enum Duty {
    Free,
    Busy,
    Shut,
}

/// How a robot stands.
#[derive(Clone, Copy, Debug, PartialEq, Eq)]
pub struct RobotRow {
    pub robot: u32,
    pub cell: u32,
    /// The cell of its first errand; its own where it has none.
    pub goal: u32,
    /// How many errands it has.
    pub errands: usize,
    /// How many ticks it has waited; 0 where it has no errand.
    pub wait: u64,
    pub duty: Duty,
}

/// The word for it.
fn duty_word(duty: Duty) -> &'static str
    ensures { result.now ≡ duty_word duty }
{
    match duty {
        Duty::Free => "free",
        Duty::Busy => "busy",
        Duty::Shut => "shut",
    }
}

/// Where a robot is, and where it goes.
fn write_way(text: &mut String, row: RobotRow) -> Result<(), AllocError>
    ensures { OnOk result (string_bytes text.new ≡ string_bytes text.old ++ way_text row) }
{
    let (robot, cell, goal) = (row.robot, row.cell, row.goal);
    write!(text, "robot {robot} cell {cell} goal {goal}")
}

/// What a robot has to do, and the end of the line.
fn write_work(text: &mut String, row: RobotRow) -> Result<(), AllocError>
    ensures { OnOk result (string_bytes text.new ≡ string_bytes text.old ++ work_text row) }
{
    let (errands, wait) = (row.errands, row.wait);
    let duty = duty_word(row.duty);
    write!(text, " errands {errands} wait {wait} {duty}\n")
}

/// The line of a robot.
fn robot_line(alloc: Global, row: RobotRow) -> Result<String, AllocError>
    ensures { IfOk result (λ text. string_bytes text ≡ robot_line row) }
{
    let mut text = String::new(alloc);
    write_way(&mut text, row)?;
    write_work(&mut text, row)?;
    Ok(text)
}

/// The last line of the list.
fn last_line(alloc: Global, count: usize) -> Result<String, AllocError>
    ensures { IfOk result (λ text. string_bytes text ≡ robots_end count) }
{
    format!(in alloc; "robots end {count}\n")
}

/// The next line of a list of robots, of which this number of lines was said: a robot's, or how many they are.
pub(crate) fn next_robot(
    alloc: Global,
    rows: &[RobotRow],
    listed: usize,
) -> Result<String, AllocError>
    ensures { IfOk result (λ text. string_bytes text ≡ robot_listed rows.now listed) }
{
    match rows.get(listed) {
        Some(row) => robot_line(alloc, *row),
        None => last_line(alloc, rows.len()),
    }
}
