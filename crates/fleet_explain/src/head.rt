//! What is wrong with the header lines that begin a conversation.

ghost use Rattle.std.specs.Prelude.{◌≡◌, ◌≤◌, length, IfOk};
ghost use Rattle.fleet_map.specs.Form.{HasSides};
ghost use Rattle.fleet_map.specs.Grammar.{view};
ghost use Rattle.fleet_map.specs.Text.{lines_of};
ghost use Rattle.fleet_talk.specs.Heading.{drafted};
ghost use Rattle.fleet_explain.specs.Heads.{IsHeadExplained, IsHeadOn, head_fault, head_fault_at};
ghost use Rattle.fleet_explain.specs.Lines.{texts};

use crate::explanation::{Explanation, map_explanation};
use crate::line::{LineFault, fault_among, line_at, lines_of};
use crate::opening::{StartFault, start_fault};
use fleet_grid::Grid;
use fleet_map::{MapText, read_map};
use fleet_script::{Head, ScriptFault};
use fleet_talk::{MOST_LINE, TALK_LIMITS, read_head};
use std::alloc::{AllocError, Global};

/// What is wrong with the first line of a head that is not allowed where it is.
#[derive(Clone, Copy, Debug, PartialEq, Eq)]
pub enum HeadLineFault {
    /// It is longer than 8,192 bytes.
    Long,
    /// It is an event line.
    Event,
    /// It is wrong in a script, too.
    Line(LineFault),
}

/// What is wrong with a map, or with the header lines of a conversation on it.
#[derive(Clone, Copy, Debug, PartialEq, Eq)]
pub enum HeadExplanation {
    /// Nothing.
    Fine,
    /// Nothing, but no line says where the robots start.
    Unplaced,
    /// The bytes are not a map.
    Map(Explanation),
    /// The line, from 1, is not allowed where it is.
    Line { line: u32, fault: HeadLineFault },
    /// The fleet cannot begin on the map, which has this width.
    Start { fault: StartFault, width: u32 },
}

/// What is wrong with a line of a head, of which this is wrong in a script.
fn head_fault(is_long: bool, fault: LineFault) -> HeadLineFault
    ensures { result ≡ head_fault is_long fault }
{
    if is_long {
        return HeadLineFault::Long;
    }
    match fault {
        LineFault::Form(keyword) => {
            if keyword.is_event() {
                HeadLineFault::Event
            } else {
                HeadLineFault::Line(LineFault::Form(keyword))
            }
        }
        LineFault::NoRobots => HeadLineFault::Line(LineFault::NoRobots),
        LineFault::Unknown => HeadLineFault::Line(LineFault::Unknown),
        LineFault::Late => HeadLineFault::Line(LineFault::Late),
        LineFault::Twice => HeadLineFault::Line(LineFault::Twice),
    }
}

/// What is wrong with the line of this number, from 1, in a head that `read_head` refuses at it. The only error is out
/// of memory.
fn head_fault_at(alloc: Global, head: &[u8], number: u32) -> Result<HeadLineFault, AllocError>
    ensures { IfOk result (λ fault. fault ≡ head_fault_at (lines_of head.now) number) }
{
    let lines = lines_of(alloc, head)?;
    let line = line_at(&lines, (number as usize).saturating_sub(1));
    Ok(head_fault(line.len() > MOST_LINE, fault_among(&lines, number)))
}

/// Whether the fleet of a head can begin on a map, with the limits of a conversation.
fn placed_explanation(
    alloc: Global,
    map: MapText,
    head: &Head,
) -> Result<HeadExplanation, AllocError>
    requires { HasSides (view map) }
    ensures { IfOk result (λ e. IsHeadOn (view map) (drafted head.now) e) }
{
    let width = map.width;
    let grid = Grid::new(map)?;
    let Some(starts) = &head.starts else {
        return Ok(HeadExplanation::Unplaced);
    };
    let clients = head.clients.unwrap_or(1);
    let limits = head.limits.limits_over(TALK_LIMITS);
    match start_fault(&grid, starts, clients, limits) {
        Some(fault) => Ok(HeadExplanation::Start { fault, width }),
        None => Ok(HeadExplanation::Fine),
    }
}

/// What is wrong with a map or with the header lines that begin a conversation on it: first whether the map can be
/// read, then the lines, then whether their fleet can be opened on the map. The only error is out of memory.
pub fn explain_head(alloc: Global, map: &[u8], head: &[u8]) -> Result<HeadExplanation, AllocError>
    requires { length head.now ≤ 16777216 }
    ensures { IfOk result (λ e. IsHeadExplained map.now head.now e) }
{
    let floor = match read_map(alloc, map) {
        Ok(floor) => floor,
        Err(fault) => {
            let explanation = map_explanation(alloc, map, fault)?;
            return Ok(HeadExplanation::Map(explanation));
        }
    };
    match read_head(alloc, head) {
        Ok(said) => placed_explanation(alloc, floor, &said),
        Err(ScriptFault::NoMemory) => Err(AllocError),
        Err(ScriptFault::Line(line)) => {
            let fault = head_fault_at(alloc, head, line)?;
            Ok(HeadExplanation::Line { line, fault })
        }
    }
}
