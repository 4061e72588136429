//! The line of a look.

ghost use Rattle.std.specs.Prelude.{◌≡◌, ◌++◌, IfOk, OnOk, string_bytes};
ghost use Rattle.fleet_text.specs.Answers.{blocked_text, eldest_text, look_line, standing_text, within_text};

use crate::ticks::write_place;
use std::alloc::{AllocError, Global};
use std::fmt::Write;

/// What a look shows, besides the robots' cells.
#[derive(Clone, Copy)]
pub struct Standing {
    /// The ticks made.
    pub tick: u64,
    /// The chapter's number.
    pub chapter: u32,
    /// How many entries the chapter has.
    pub entries: usize,
    /// The robot that has waited longest, where one has an errand.
    pub eldest: Option<u32>,
    /// After how many ticks the fleet is idle if nothing is ordered, where that is known.
    pub within: Option<u64>,
    /// Where the eldest robot stands before a dead end that is full of robots, the cell next to it there.
    pub blocked: Option<u32>,
}

/// The ticks made, the chapter's number and how many entries it has.
fn write_standing(text: &mut String, standing: Standing) -> Result<(), AllocError>
    ensures { OnOk result (string_bytes text.new ≡ string_bytes text.old ++ standing_text standing) }
{
    let (tick, chapter, entries) = (standing.tick, standing.chapter, standing.entries);
    write!(text, "look tick {tick} chapter {chapter} entries {entries}")
}

/// The eldest robot, or `idle`.
fn write_eldest(text: &mut String, eldest: Option<u32>) -> Result<(), AllocError>
    ensures { OnOk result (string_bytes text.new ≡ string_bytes text.old ++ eldest_text eldest) }
{
    match eldest {
        Some(robot) => write!(text, " busy eldest {robot}"),
        None => text.push_str(" idle"),
    }
}

/// Within how many ticks the fleet is idle, where that is known.
fn write_within(text: &mut String, within: Option<u64>) -> Result<(), AllocError>
    ensures { OnOk result (string_bytes text.new ≡ string_bytes text.old ++ within_text within) }
{
    match within {
        Some(ticks) => write!(text, " within {ticks}"),
        None => Ok(()),
    }
}

/// The cell next to the eldest robot in a dead end that is full, if it goes there.
fn write_blocked(text: &mut String, blocked: Option<u32>) -> Result<(), AllocError>
    ensures { OnOk result (string_bytes text.new ≡ string_bytes text.old ++ blocked_text blocked) }
{
    match blocked {
        Some(cell) => write!(text, " blocked {cell}"),
        None => Ok(()),
    }
}

/// The line of a look: the ticks made; the chapter's number and how many entries it has; `idle` or the robot that has
/// waited longest; after how many ticks the fleet is idle, where that is known; where the eldest robot stands before a dead
/// end that is full, the cell next to it there; and the robots' cells.
pub fn look_line(alloc: Global, standing: Standing, cells: &[u32]) -> Result<String, AllocError>
    ensures { IfOk result (λ line. string_bytes line ≡ look_line standing cells.now) }
{
    let mut line = String::new(alloc);
    write_standing(&mut line, standing)?;
    write_eldest(&mut line, standing.eldest)?;
    write_within(&mut line, standing.within)?;
    write_blocked(&mut line, standing.blocked)?;
    line.push_str(" at")?;
    write_place(&mut line, cells)?;
    line.push_str("\n")?;
    Ok(line)
}
