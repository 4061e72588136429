//! What is wrong with a map, a script or a trace.

ghost use Rattle.std.specs.Prelude.{◌≤◌, IfOk, length};
ghost use Rattle.fleet_map.specs.Form.{HasSides};
ghost use Rattle.fleet_map.specs.Grammar.{view, map_of, Fails};
ghost use Rattle.fleet_history.specs.History.{history_of};
ghost use Rattle.fleet_script.specs.Runs.{runs_plan};
ghost use Rattle.fleet_trace.specs.Reads.{IsTraceFault};
ghost use Rattle.fleet_explain.specs.Explained.{IsNoMap, IsNoTrace, IsMapExplained, IsScriptExplained, IsScriptOn, IsServedAs, IsTraceExplained, IsJudgedAs};

use crate::detail::{Detail, detail_of};
use crate::entry::{EntryKind, kind_at};
use crate::line::{LineFault, fault_at, letter_at};
use crate::opening::{StartFault, start_fault};
use crate::position::{Position, stop_of};
use crate::served::first_unserved;
use fleet_grid::Grid;
use fleet_history::Chapter;
use fleet_map::{MapFault, MapText, read_map};
use fleet_script::{ScriptFault, ScriptRuns, read_runs};
use fleet_trace::{FormPart, JudgeFault, TraceFault, form_fault, judge, read_trace};
use std::alloc::{AllocError, Global};

/// What is wrong with a map, and with a script or a trace on it.
#[derive(Clone, Copy, Debug, PartialEq, Eq)]
pub enum Explanation {
    /// Nothing.
    Fine,
    /// The bytes are not a map, and the reason is not a wrong letter.
    Map(MapFault),
    /// The byte in this row and column of the map is not a letter of a map. Both count from 0.
    Letter {
        row: u32,
        column: u32,
        letter: u8,
    },
    /// The line of the script, from 1, is not allowed where it is.
    Script {
        line: u32,
        fault: LineFault,
    },
    /// Nothing is wrong for a run, but a serve does not take this line of the script, from 1: it is no post or collect
    /// of one of this many clients.
    Unserved {
        line: u32,
        clients: u32,
    },
    /// The script's fleet cannot begin on the map, which has this width.
    Start {
        fault: StartFault,
        width: u32,
    },
    /// The bytes of the trace are not UTF-8, or not JSON, or nested deeper than 127. Their reader stopped here.
    NotJson(Position),
    /// The number under `version` is not that of a known version.
    Version,
    /// The bytes are JSON, and this part is not in the form of a trace.
    Form(FormPart),
    /// The entry `at`, from 1, is the first that breaks a rule, and `rule` the first that it breaks; at 0 the opening.
    Illegal {
        at: u64,
        rule: u8,
        kind: EntryKind,
        detail: Detail,
    },
}

/// What is wrong with a map that has this fault. The only error is out of memory.
pub(crate) fn map_explanation(
    alloc: Global,
    map: &[u8],
    fault: MapFault,
) -> Result<Explanation, AllocError>
    requires { Fails fault (map_of map.now) }
    ensures { IfOk result (λ e. IsNoMap map.now e) }
{
    match fault {
        MapFault::NoMemory => Err(AllocError),
        MapFault::Cell(row, column) => {
            let letter = letter_at(alloc, map, row, column)?;
            Ok(Explanation::Letter {
                row,
                column,
                letter,
            })
        }
        MapFault::Header(line) => Ok(Explanation::Map(MapFault::Header(line))),
        MapFault::Size => Ok(Explanation::Map(MapFault::Size)),
        MapFault::Row(row) => Ok(Explanation::Map(MapFault::Row(row))),
        MapFault::Trailing(line) => Ok(Explanation::Map(MapFault::Trailing(line))),
    }
}

/// What is wrong with a map. The only error is out of memory.
pub fn explain_map(alloc: Global, map: &[u8]) -> Result<Explanation, AllocError>
    ensures { IfOk result (λ e. IsMapExplained map.now e) }
{
    let _floor = match read_map(alloc, map) {
        Ok(floor) => floor,
        Err(fault) => return map_explanation(alloc, map, fault),
    };
    Ok(Explanation::Fine)
}

/// What a script whose fleet can begin has to say: whether a serve takes its lines.
fn served_explanation(script: &ScriptRuns) -> Explanation
    ensures { IsServedAs (runs_plan script.now) result }
{
    let clients = script.clients;
    match first_unserved(clients, &script.runs) {
        Some(line) => Explanation::Unserved { line, clients },
        None => Explanation::Fine,
    }
}

/// Whether a script's fleet can begin on a map.
fn start_explanation(
    alloc: Global,
    map: MapText,
    script: &ScriptRuns,
) -> Result<Explanation, AllocError>
    requires { HasSides (view map) }
    ensures { IfOk result (λ e. IsScriptOn (view map) (runs_plan script.now) e) }
{
    let width = map.width;
    let grid = Grid::new(map)?;
    match start_fault(&grid, &script.starts, script.clients, script.limits) {
        Some(fault) => Ok(Explanation::Start { fault, width }),
        None => Ok(served_explanation(script)),
    }
}

/// What is wrong with a map or with a script on it: first whether the map can be read, then the script, then whether
/// its fleet can be opened on the map, then whether a serve takes its lines. The events are not run, and no list of them
/// is made. The only error is out of memory.
pub fn explain_script(alloc: Global, map: &[u8], script: &[u8]) -> Result<Explanation, AllocError>
    requires { length script.now ≤ 16777216 }
    ensures { IfOk result (λ e. IsScriptExplained map.now script.now e) }
{
    let floor = match read_map(alloc, map) {
        Ok(floor) => floor,
        Err(fault) => return map_explanation(alloc, map, fault),
    };
    match read_runs(alloc, script) {
        Ok(script) => start_explanation(alloc, floor, &script),
        Err(ScriptFault::NoMemory) => Err(AllocError),
        Err(ScriptFault::Line(line)) => {
            let fault = fault_at(alloc, script, line)?;
            Ok(Explanation::Script { line, fault })
        }
    }
}

/// What is wrong with a chapter on a map that was read.
fn chapter_explanation(
    alloc: Global,
    map: MapText,
    chapter: &Chapter,
) -> Result<Explanation, AllocError>
    requires { HasSides (view map) }
    ensures { IfOk result (λ e. IsJudgedAs (view map) (history_of chapter.now) e) }
{
    let grid = Grid::new(map)?;
    match judge(alloc, &grid, chapter) {
        Ok(()) => Ok(Explanation::Fine),
        Err(JudgeFault::Illegal { at, rule }) => {
            let kind = kind_at(&chapter.entries, at);
            let detail = detail_of(alloc, &grid, chapter, at, rule)?;
            Ok(Explanation::Illegal {
                at,
                rule,
                kind,
                detail,
            })
        }
        Err(JudgeFault::NoMemory) => Err(AllocError),
    }
}

/// What is wrong with bytes that tell no trace, for this reason.
fn text_explanation(
    alloc: Global,
    trace: &[u8],
    fault: TraceFault,
) -> Result<Explanation, AllocError>
    requires { IsTraceFault trace.now fault }
    ensures { IfOk result (IsNoTrace trace.now) }
{
    match fault {
        TraceFault::NotJson => {
            let position = stop_of(alloc, trace)?;
            Ok(Explanation::NotJson(position))
        }
        TraceFault::Version => Ok(Explanation::Version),
        TraceFault::Shape => match form_fault(alloc, trace)? {
            Some(part) => Ok(Explanation::Form(part)),
            // (never: it is JSON of a known version that tells no trace)
            None => Ok(Explanation::Version),
        },
        TraceFault::NoMemory => Err(AllocError),
    }
}

/// What is wrong with a map or with a trace on it: first whether the map can be read, then the trace, then whether it
/// is legal on the map. The only error is out of memory.
pub fn explain_trace(alloc: Global, map: &[u8], trace: &[u8]) -> Result<Explanation, AllocError>
    ensures { IfOk result (λ e. IsTraceExplained map.now trace.now e) }
{
    let floor = match read_map(alloc, map) {
        Ok(floor) => floor,
        Err(fault) => return map_explanation(alloc, map, fault),
    };
    match read_trace(alloc, trace) {
        Ok(chapter) => chapter_explanation(alloc, floor, &chapter),
        Err(fault) => text_explanation(alloc, trace, fault),
    }
}
