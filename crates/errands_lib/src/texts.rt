//! The answers to a map, to a script on a map, and to a bundle.

ghost use Rattle.std.specs.Prelude.{◌≡◌, ◌≤◌, ℕ, List, Ok, length, IfOk, string_bytes};
ghost use Rattle.std.specs.List.{list_any};
ghost use Rattle.fleet_grid.specs.Floor.{floor_of_map};
ghost use Rattle.fleet_map.specs.Form.{HasSides};
ghost use Rattle.fleet_map.specs.Grammar.{map_of, view};
ghost use Rattle.fleet_core.specs.OpeningFaults.{IsNamed};
ghost use Rattle.fleet_text.specs.Output.{is_limit_met};
ghost use Rattle.errands_lib.specs.Answer.{IsBundleOutcome, IsMapOutcome, IsDescribed, IsPartsOutcome, IsScriptOutcome, IsUnplayed, limited, run_output, run_outcome};
ghost use Rattle.fleet_text.specs.Kit.{kit_laws};
ghost use Rattle.fleet_text.specs.Said.{said};
ghost use Rattle.fleet_script.specs.Runs.{runs_plan};
ghost use Rattle.fleet_text.specs.Pieces.{pieces_text};
ghost use Rattle.fleet_world.specs.Answers.{events_in, replies_in};
ghost use Rattle.fleet_text.specs.declared.said.Complaint.{Complaint};

use fleet_grid::Grid;
use fleet_map::{MapText, read_map};
use fleet_script::{ScriptFault, ScriptRuns, read_runs, split_bundle};
use fleet_text::{
    Complaint, HookKit, Piece, Said, faulty, is_limit_met, line_of, map_complaint, map_report,
    report, trace_line, whole,
};
use fleet_world::{Answered, OpenFault, PlayedLines, RunFault, run_lines};
use std::alloc::{Alloc, AllocError, Global};

/// Whether a limit was met at any event.
fn meets_limit(answers: &[Answered]) -> bool
    ensures { result ≡ list_any is_limit_met (replies_in answers.now) }
{
    for at in 0..answers.len() {
        if is_limit_met(answers[at].reply) {
            return true;
        }
    }
    false
}

/// The complaint about a world that was not opened for this reason; an error for out of memory.
fn opening_complaint(fault: OpenFault) -> Result<Complaint, AllocError>
    ensures named { IfOk result (λ c. IsNamed fault) }
    ensures value { IfOk result (λ c. c ≡ Complaint.Opening fault) }
{
    if fault == OpenFault::NoMemory {
        return Err(AllocError);
    }
    Ok(Complaint::Opening(fault))
}

/// The output of a run: its trace, or its lines.
fn output_of(alloc: Global, trace: bool, played: &PlayedLines) -> Result<Vec<Piece>, AllocError>
    ensures { IfOk result (λ pieces. pieces_text pieces.items ≡ run_output trace (events_in played.now.answers.items) (replies_in played.now.answers.items) played.now.world.core) }
{
    let chapter = played.world.chapter();
    if trace {
        return whole(alloc, trace_line(alloc, chapter)?);
    }
    report(alloc, played.answers.as_slice(), chapter.entries.as_slice())
}

/// The answer for a run or a serve with this output, with the status for whether a limit was met.
pub(crate) fn ended(alloc: Global, met: bool, output: Vec<Piece>) -> Result<Said, AllocError>
    ensures { IfOk result (λ s. said s ≡ limited met (pieces_text output.items)) }
{
    if met {
        return Ok(Said {
            output,
            status: Complaint::Limit.status(),
            complaint: line_of(alloc, Complaint::Limit)?,
        });
    }
    Ok(Said {
        output,
        status: 0,
        complaint: String::new(alloc),
    })
}

/// The answer for a run that was made.
fn played_text(alloc: Global, trace: bool, played: &PlayedLines) -> Result<Said, AllocError>
    ensures { IfOk result (λ s. said s ≡ run_outcome (replies_in played.now.answers.items) (run_output trace (events_in played.now.answers.items) (replies_in played.now.answers.items) played.now.world.core)) }
{
    let output = output_of(alloc, trace, played)?;
    ended(alloc, meets_limit(played.answers.as_slice()), output)
}

/// The answer for a run that was made; drops its world.
fn ended_text(alloc: Global, trace: bool, played: PlayedLines) -> Result<Said, AllocError>
    ensures { IfOk result (λ s. said s ≡ run_outcome (replies_in played.answers.items) (run_output trace (events_in played.answers.items) (replies_in played.answers.items) played.world.core)) }
{
    let told = played_text(alloc, trace, &played);
    let _ended = played.world.finish();
    told
}

/// The answer if no run was made.
fn unplayed(alloc: Global, fault: RunFault) -> Result<Said, AllocError>
    ensures { IfOk result (λ s. IsUnplayed fault (said s)) }
{
    match fault {
        RunFault::NoMemory(_) => Err(AllocError),
        RunFault::Opening(fault) => faulty(alloc, opening_complaint(fault)?),
    }
}

/// Runs a script on a map.
fn run_script<R: Alloc<A = Global>>(
    rt: &R,
    map: MapText,
    script: ScriptRuns,
    kit: HookKit,
    trace: bool,
) -> Result<Said, AllocError>
    requires { HasSides (view map) }
    ensures { IfOk result (λ s. IsScriptOutcome (kit_laws kit) trace (floor_of_map (view map)) (runs_plan script) (said s)) }
{
    let grid = Grid::new(map)?;
    let ScriptRuns {
        starts,
        clients,
        limits,
        south,
        runs,
        turns: _,
    } = script;
    let hooks = kit.choose(south).cut(starts.len());
    match run_lines(rt, grid, starts, clients, limits, hooks, &runs) {
        Ok(played) => ended_text(rt.alloc(), trace, played),
        Err(fault) => unplayed(rt.alloc(), fault),
    }
}

/// The answer to a script on a map that was read.
fn answer_script<R: Alloc<A = Global>>(
    rt: &R,
    map: MapText,
    script: &[u8],
    kit: HookKit,
    trace: bool,
) -> Result<Said, AllocError>
    requires sides { HasSides (view map) }
    requires short { length script.now ≤ 16777216 }
    ensures { (text : List ℕ) → map_of text ≡ Ok (view map) → IfOk result (λ s. IsPartsOutcome (kit_laws kit) trace text script.now (said s)) }
{
    match read_runs(rt.alloc(), script) {
        Ok(script) => run_script(rt, map, script, kit, trace),
        Err(ScriptFault::NoMemory) => Err(AllocError),
        Err(ScriptFault::Line(line)) => faulty(rt.alloc(), Complaint::Script(line)),
    }
}

/// The answer to a map and a script.
pub(crate) fn answer_parts<R: Alloc<A = Global>>(
    rt: &R,
    map: &[u8],
    script: &[u8],
    kit: HookKit,
    trace: bool,
) -> Result<Said, AllocError>
    requires { length script.now ≤ 16777216 }
    ensures { IfOk result (λ s. IsPartsOutcome (kit_laws kit) trace map.now script.now (said s)) }
{
    match read_map(rt.alloc(), map) {
        Ok(map) => answer_script(rt, map, script, kit, trace),
        Err(fault) => {
            drop(kit);
            faulty(rt.alloc(), map_complaint(fault)?)
        }
    }
}

/// The answer to a bundle.
pub(crate) fn answer_bundle<R: Alloc<A = Global>>(
    rt: &R,
    bytes: &[u8],
    kit: HookKit,
) -> Result<Said, AllocError>
    requires { length bytes.now ≤ 16777216 }
    ensures { IfOk result (λ s. IsBundleOutcome (kit_laws kit) bytes.now (said s)) }
{
    match split_bundle(bytes) {
        Ok((map, script)) => answer_parts(rt, map, script, kit, false),
        Err(line) => faulty(rt.alloc(), Complaint::Script(line)),
    }
}

/// The answer to a map that was read.
fn describe_map(alloc: Global, map: MapText) -> Result<Said, AllocError>
    requires { HasSides (view map) }
    ensures { IfOk result (λ s. IsDescribed (floor_of_map (view map)) (said s)) }
{
    let grid = Grid::new(map)?;
    Ok(Said {
        output: whole(alloc, map_report(alloc, &grid)?)?,
        status: 0,
        complaint: String::new(alloc),
    })
}

/// The answer to a map alone.
pub(crate) fn answer_map(alloc: Global, bytes: &[u8]) -> Result<Said, AllocError>
    ensures { IfOk result (λ s. IsMapOutcome bytes.now (said s)) }
{
    match read_map(alloc, bytes) {
        Ok(map) => describe_map(alloc, map),
        Err(fault) => faulty(alloc, map_complaint(fault)?),
    }
}
