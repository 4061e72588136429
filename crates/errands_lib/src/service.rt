//! The answer to a map and a script that is to be served.

ghost use Rattle.std.specs.Prelude.{◌≡◌, ◌≤◌, ◌<◌, ◌^◌, ◌++◌, true, length, List, ℕ, Ok, nat_lt, IfOk, OnOk, codes};
ghost use Rattle.std.specs.List.{All};
ghost use Rattle.fleet_grid.specs.Floor.{floor_of_map};
ghost use Rattle.fleet_map.specs.Form.{HasSides};
ghost use Rattle.fleet_map.specs.Grammar.{map_of, view};
ghost use Rattle.fleet_history.specs.History.{history_of};
ghost use Rattle.fleet_history.specs.Legal.{IsLegal};
ghost use Rattle.fleet_trace.specs.Trace.{trace_of};
ghost use Rattle.fleet_trace.specs.Text.{trace_text};
ghost use Rattle.fleet_serve.specs.Posted.{IsLine};
ghost use Rattle.fleet_script.specs.Runs.{runs_plan};
ghost use Rattle.fleet_script.specs.Shown.{plan};
ghost use Rattle.fleet_text.specs.Kit.{kit_laws};
ghost use Rattle.errands_lib.specs.Answer.{limited};
ghost use Rattle.errands_lib.specs.Outcome.{IsServed, IsServedScript, IsServeOutcome, IsJobOutcome, IsUnserved};
ghost use Rattle.fleet_text.specs.Said.{said};
ghost use Rattle.errands_lib.specs.Asked.{is_serve};

use crate::job::Job;
use crate::texts::ended;
use fleet_grid::Grid;
use fleet_history::Chapter;
use fleet_map::{MapText, read_map};
use fleet_script::{Script, ScriptFault, ScriptRuns, read_runs};
use fleet_serve::{Gate, ServeFault, Served, first_other_line, serve};
use fleet_text::{Complaint, HookKit, Said, faulty, map_complaint, trace_line, whole};
use fleet_trace::{JudgeFault, judge};
use std::alloc::{Alloc, AllocError, Global};
use std::sync::Wait;
use std::thread::Threads;

/// A gate that delays no line.
#[derive(Clone, Copy)]
struct OpenGate;

impl Gate for OpenGate {
    fn before(&self, _client: u32, _line: u32) {}
}

/// The same map.
fn copy_of(alloc: Global, map: &MapText) -> Result<MapText, AllocError>
    ensures { IfOk result (λ copy. view copy ≡ view map.now) }
{
    Ok(MapText {
        height: map.height,
        width: map.width,
        cells: Vec::from_slice(alloc, &map.cells)?,
    })
}

/// Judges the chapter of a serve on the map.
fn judge_served(alloc: Global, grid: &Grid, chapter: &Chapter) -> Result<(), AllocError>
    ensures { OnOk result (IsLegal grid.now (history_of chapter.now)) }
{
    match judge(alloc, grid, chapter) {
        Ok(()) => Ok(()),
        Err(JudgeFault::NoMemory) => Err(AllocError),
        // The chapter is legal on the office's own map, which is this one, so no call ends here.
        Err(JudgeFault::Illegal { .. }) => Err(AllocError),
    }
}

/// The answer to a serve that ended: its trace, once it is judged on the map.
fn served_text(alloc: Global, grid: &Grid, served: &Served) -> Result<Said, AllocError>
    ensures legal { IfOk result (λ s. IsLegal grid.now (history_of served.now.last.chapter)) }
    ensures said { IfOk result (λ s. said s ≡ limited (nat_lt 0 served.now.lane_full) (trace_text (trace_of served.now.last.chapter) ++ codes "\n")) }
{
    let chapter = &served.last.chapter;
    judge_served(alloc, grid, chapter)?;
    let output = whole(alloc, trace_line(alloc, chapter)?)?;
    ended(alloc, served.lane_full > 0, output)
}

/// The answer for a serve that failed for this reason.
fn unserved_text(alloc: Global, fault: ServeFault) -> Result<Said, AllocError>
    ensures { IfOk result (λ s. IsUnserved fault (said s)) }
{
    match fault {
        ServeFault::Opening(fault) => faulty(alloc, Complaint::Opening(fault)),
        ServeFault::ClockSpent => faulty(alloc, Complaint::Limit),
        ServeFault::ChapterFull => faulty(alloc, Complaint::Limit),
        ServeFault::Drain => faulty(alloc, Complaint::Limit),
        ServeFault::NoMemory | ServeFault::NoThread => Err(AllocError),
    }
}

/// The grid of a map twice: one to serve on, and one to judge on.
fn two_grids(alloc: Global, map: MapText) -> Result<(Grid, Grid), AllocError>
    requires { HasSides (view map) }
    ensures served { IfOk result (λ grids. grids.0 ≡ floor_of_map (view map)) }
    ensures judged { IfOk result (λ grids. grids.1 ≡ floor_of_map (view map)) }
{
    let judged = Grid::new(copy_of(alloc, &map)?)?;
    Ok((Grid::new(map)?, judged))
}

/// Serves a script of this many lines on a grid, and judges the trace on another of the same map.
fn serve_on<R: Alloc<A = Global> + Threads + Sync + Wait>(
    rt: &R,
    grid: Grid,
    judged: &Grid,
    script: &Script,
    kit: HookKit,
) -> Result<Said, AllocError>
    requires same { judged.now ≡ grid }
    requires few { length script.now.events.items < 2 ^ 32 }
    requires lines { All (IsLine script.now.clients) script.now.events.items }
    ensures { IfOk result (λ s. IsServed (kit_laws kit) grid (plan script.now) (said s)) }
{
    let hooks = kit.choose(script.south).cut(script.starts.len());
    match serve(rt, grid, script, hooks, &OpenGate) {
        Ok(served) => served_text(rt.alloc(), judged, &served),
        Err(fault) => unserved_text(rt.alloc(), fault),
    }
}

/// Serves a script whose events are all posts and collects of its clients.
fn serve_lines<R: Alloc<A = Global> + Threads + Sync + Wait>(
    rt: &R,
    map: MapText,
    script: &Script,
    kit: HookKit,
) -> Result<Said, AllocError>
    requires sides { HasSides (view map) }
    requires lines { All (IsLine script.now.clients) script.now.events.items }
    ensures { IfOk result (λ s. IsServed (kit_laws kit) (floor_of_map (view map)) (plan script.now) (said s)) }
{
    // Each event stands on a line of its own, so no file has that many.
    if script.events.len() >= 1 << 32 {
        drop(kit);
        return Err(AllocError);
    }
    let Ok((grid, judged)) = two_grids(rt.alloc(), map) else {
        drop(kit);
        return Err(AllocError);
    };
    serve_on(rt, grid, &judged, script, kit)
}

/// Serves a script on a map.
fn serve_script<R: Alloc<A = Global> + Threads + Sync + Wait>(
    rt: &R,
    map: MapText,
    script: ScriptRuns,
    kit: HookKit,
) -> Result<Said, AllocError>
    requires { HasSides (view map) }
    ensures { IfOk result (λ s. IsServedScript (kit_laws kit) (floor_of_map (view map)) (runs_plan script) (said s)) }
{
    if let Some(line) = first_other_line(&script) {
        drop(kit);
        return faulty(rt.alloc(), Complaint::Script(line));
    }
    // Each event stands on a line of its own, so this list is no longer than the script.
    match script.unrolled(rt.alloc()) {
        Ok(script) => serve_lines(rt, map, &script, kit),
        Err(AllocError) => {
            drop(kit);
            Err(AllocError)
        }
    }
}

/// The answer to a script that is to be served on a map that was read.
fn answer_script<R: Alloc<A = Global> + Threads + Sync + Wait>(
    rt: &R,
    map: MapText,
    script: &[u8],
    kit: HookKit,
) -> Result<Said, AllocError>
    requires sides { HasSides (view map) }
    requires short { length script.now ≤ 16777216 }
    ensures { (text : List ℕ) → map_of text ≡ Ok (view map) → IfOk result (λ s. IsServeOutcome (kit_laws kit) text script.now (said s)) }
{
    match read_runs(rt.alloc(), script) {
        Ok(script) => serve_script(rt, map, script, kit),
        Err(fault) => {
            drop(kit);
            match fault {
                ScriptFault::NoMemory => Err(AllocError),
                ScriptFault::Line(line) => faulty(rt.alloc(), Complaint::Script(line)),
            }
        }
    }
}

/// The answer to a map and a script that is to be served.
fn answer_serve<R: Alloc<A = Global> + Threads + Sync + Wait>(
    rt: &R,
    map: &[u8],
    script: &[u8],
    kit: HookKit,
) -> Result<Said, AllocError>
    requires { length script.now ≤ 16777216 }
    ensures { IfOk result (λ s. IsServeOutcome (kit_laws kit) map.now script.now (said s)) }
{
    match read_map(rt.alloc(), map) {
        Ok(map) => answer_script(rt, map, script, kit),
        Err(fault) => {
            drop(kit);
            faulty(rt.alloc(), map_complaint(fault)?)
        }
    }
}

/// The answer to the texts of a job that is to serve.
pub(crate) fn answer_job<R: Alloc<A = Global> + Threads + Sync + Wait>(
    rt: &R,
    job: &Job,
    first: &[u8],
    second: &[u8],
    kit: HookKit,
) -> Result<Said, AllocError>
    requires second { length second.now ≤ 16777216 }
    requires serve { is_serve job.now ≡ true }
    ensures { IfOk result (λ s. IsJobOutcome (kit_laws kit) job.now first.now second.now (said s)) }
{
    let _job = job;
    answer_serve(rt, first, second, kit)
}
