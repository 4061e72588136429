//! The word `judge`.

ghost use Rattle.std.specs.Prelude.{◌≡◌, ◌≢◌, [], IfOk, string_bytes};
ghost use Rattle.fleet_grid.specs.Floor.{floor_of_map};
ghost use Rattle.fleet_history.specs.History.{history_of};
ghost use Rattle.fleet_map.specs.Form.{HasSides};
ghost use Rattle.fleet_map.specs.Grammar.{view};
ghost use Rattle.fleet_lib.specs.Judge.{IsJudgedOn, IsJudgement, IsJudgeOutcome, judgement_said};
ghost use Rattle.fleet_lib.specs.Said.{said_of};

use crate::said::Said;
use fleet_grid::Grid;
use fleet_history::Chapter;
use fleet_map::{MapFault, MapText, read_map};
use fleet_text::Complaint;
use fleet_trace::{JudgeFault, TraceFault, judge, read_trace};
use std::alloc::{AllocError, Global};

/// What the judge says of a trace.
#[derive(Clone, Copy, Debug, PartialEq, Eq)]
pub enum Judgement {
    /// The map cannot be read.
    Map(MapFault),
    /// The text tells no trace.
    Trace(TraceFault),
    Legal,
    /// This entry, counted from 1 (0 is the opening), is the first that breaks a rule, and this is the rule.
    Illegal { at: u64, rule: u8 },
}

/// The fault of a map; an error for out of memory.
fn map_fault(fault: MapFault) -> Result<MapFault, AllocError>
    ensures same { IfOk result (λ named. named ≡ fault) }
    ensures named { IfOk result (λ named. named ≢ MapFault.NoMemory) }
{
    match fault {
        MapFault::NoMemory => Err(AllocError),
        named => Ok(named),
    }
}

/// The fault of a trace; an error for out of memory.
fn trace_fault(fault: TraceFault) -> Result<TraceFault, AllocError>
    ensures same { IfOk result (λ named. named ≡ fault) }
    ensures named { IfOk result (λ named. named ≢ TraceFault.NoMemory) }
{
    match fault {
        TraceFault::NoMemory => Err(AllocError),
        named => Ok(named),
    }
}

/// What the judge says of a chapter on a map that was read.
fn judged_on(alloc: Global, map: MapText, chapter: &Chapter) -> Result<Judgement, AllocError>
    requires { HasSides (view map) }
    ensures { IfOk result (IsJudgedOn (floor_of_map (view map)) (history_of chapter.now)) }
{
    let grid = Grid::new(map)?;
    match judge(alloc, &grid, chapter) {
        Ok(()) => Ok(Judgement::Legal),
        Err(JudgeFault::Illegal { at, rule }) => Ok(Judgement::Illegal { at, rule }),
        Err(JudgeFault::NoMemory) => Err(AllocError),
    }
}

/// What the judge says of a trace on a map.
fn judged(alloc: Global, map: &[u8], trace: &[u8]) -> Result<Judgement, AllocError>
    ensures { IfOk result (IsJudgement map.now trace.now) }
{
    let map = match read_map(alloc, map) {
        Ok(map) => map,
        Err(fault) => {
            let named = map_fault(fault)?;
            return Ok(Judgement::Map(named));
        }
    };
    match read_trace(alloc, trace) {
        Ok(chapter) => judged_on(alloc, map, &chapter),
        Err(fault) => Ok(Judgement::Trace(trace_fault(fault)?)),
    }
}

/// An answer that has only a complaint.
fn complained(alloc: Global, status: u8, complaint: String) -> Said
    ensures { said_of result ≡ record { output = []; status = status; complaint = string_bytes complaint } }
{
    Said {
        output: Vec::new(alloc),
        status,
        complaint,
    }
}

/// An answer that is printed.
fn printed(alloc: Global, status: u8, text: &str) -> Result<Said, AllocError>
    ensures { IfOk result (λ s. said_of s ≡ record { output = text.now; status = status; complaint = [] }) }
{
    Ok(Said {
        output: Vec::from_slice(alloc, text.as_bytes())?,
        status,
        complaint: String::new(alloc),
    })
}

/// How a judgement is said, after a title.
fn said(alloc: Global, title: &str, judgement: Judgement) -> Result<Said, AllocError>
    ensures { IfOk result (λ s. said_of s ≡ judgement_said title.now judgement) }
{
    match judgement {
        Judgement::Map(fault) => {
            let complaint = Complaint::Map(fault);
            let line = format!(in alloc; "fleet: {complaint}\n")?;
            Ok(complained(alloc, 4, line))
        }
        Judgement::Trace(fault) => {
            let complaint = Complaint::Trace(fault);
            let line = format!(in alloc; "fleet: {title}{complaint}\n")?;
            Ok(complained(alloc, 6, line))
        }
        Judgement::Legal => {
            let line = format!(in alloc; "{title}legal\n")?;
            printed(alloc, 0, line.as_str())
        }
        Judgement::Illegal { at, rule } => {
            let line = format!(in alloc; "{title}illegal {at} {rule}\n")?;
            printed(alloc, 6, line.as_str())
        }
    }
}

/// The answer to a map and a trace on it, as `errands judge` says it. The title comes before what is said of the trace.
pub fn answer_judge(
    alloc: Global,
    title: &str,
    map: &[u8],
    trace: &[u8],
) -> Result<Said, AllocError>
    ensures { IfOk result (λ s. IsJudgeOutcome title.now map.now trace.now (said_of s)) }
{
    let judgement = judged(alloc, map, trace)?;
    said(alloc, title, judgement)
}
