//! The answer to a map and a trace.

ghost use Rattle.std.specs.Prelude.{◌≡◌, IfOk, codes};
ghost use Rattle.fleet_grid.specs.Floor.{floor_of_map};
ghost use Rattle.fleet_map.specs.Form.{HasSides};
ghost use Rattle.fleet_map.specs.Grammar.{view};
ghost use Rattle.fleet_history.specs.History.{history_of};
ghost use Rattle.fleet_text.specs.Outcome.{good};
ghost use Rattle.errands_lib.specs.Answer.{IsJudged, IsJudgeOutcome, IsTraceNamed, illegal_at};
ghost use Rattle.fleet_text.specs.Said.{said};
ghost use Rattle.fleet_text.specs.declared.said.Complaint.{Complaint};

use fleet_grid::Grid;
use fleet_history::Chapter;
use fleet_map::{MapText, read_map};
use fleet_text::{Complaint, Said, faulty, map_complaint, whole};
use fleet_trace::{JudgeFault, TraceFault, judge, read_trace};
use std::alloc::{AllocError, Global};

/// The complaint about a file that has no trace for this reason; an error for out of memory.
fn trace_complaint(fault: TraceFault) -> Result<Complaint, AllocError>
    ensures named { IfOk result (λ c. IsTraceNamed fault) }
    ensures value { IfOk result (λ c. c ≡ Complaint.Trace fault) }
{
    if fault == TraceFault::NoMemory {
        return Err(AllocError);
    }
    Ok(Complaint::Trace(fault))
}

/// The answer for a trace whose entry `at` is the first that breaks a rule.
fn illegal(alloc: Global, at: u64, rule: u8) -> Result<Said, AllocError>
    ensures { IfOk result (λ s. said s ≡ illegal_at at rule) }
{
    Ok(Said {
        output: whole(alloc, format!(in alloc; "illegal {at} {rule}\n")?)?,
        status: 6,
        complaint: String::new(alloc),
    })
}

/// The answer for a legal trace.
fn legal(alloc: Global) -> Result<Said, AllocError>
    ensures { IfOk result (λ s. said s ≡ good (codes "legal\n")) }
{
    Ok(Said {
        output: whole(alloc, String::from_str(alloc, "legal\n")?)?,
        status: 0,
        complaint: String::new(alloc),
    })
}

fn judge_chapter(alloc: Global, map: MapText, chapter: &Chapter) -> Result<Said, AllocError>
    requires { HasSides (view map) }
    ensures { IfOk result (λ s. IsJudged (floor_of_map (view map)) (history_of chapter.now) (said s)) }
{
    let grid = Grid::new(map)?;
    match judge(alloc, &grid, chapter) {
        Ok(()) => legal(alloc),
        Err(JudgeFault::Illegal { at, rule }) => illegal(alloc, at, rule),
        Err(JudgeFault::NoMemory) => Err(AllocError),
    }
}

/// The answer to a map and a trace.
pub(crate) fn answer_trace(alloc: Global, map: &[u8], trace: &[u8]) -> Result<Said, AllocError>
    ensures { IfOk result (λ s. IsJudgeOutcome map.now trace.now (said s)) }
{
    let map = match read_map(alloc, map) {
        Ok(map) => map,
        Err(fault) => return faulty(alloc, map_complaint(fault)?),
    };
    match read_trace(alloc, trace) {
        Ok(chapter) => judge_chapter(alloc, map, &chapter),
        Err(fault) => faulty(alloc, trace_complaint(fault)?),
    }
}
