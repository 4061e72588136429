//! The page of two runs.

ghost use Rattle.std.specs.Prelude.{◌≡◌, ◌≤◌, ◌++◌, Ok, true, ℕ, List, length, codes, map, IfOk, IfErr, string_bytes};
ghost use Rattle.fleet_map.specs.Form.{HasSides};
ghost use Rattle.fleet_map.specs.Grammar.{view, map_of};
ghost use Rattle.fleet_grid.specs.Floor.{floor_of_map};
ghost use Rattle.fleet_trace.specs.Trace.{trace_of};
ghost use Rattle.fleet_trace.specs.Text.{trace_text};
ghost use Rattle.fleet_view.specs.Pair.{IsShownPlan, IsNoPlan, trace_run, IsJudgedRun, IsNoTraceOn, IsShownTrace, IsNoTrace, IsOtherIf, IsNoOtherIf, IsRun, IsNoRun, IsSecondOn, IsSecondWrong, IsPairOn, IsUnpairedOn, IsPairPage, IsUnpaired};
ghost use Rattle.fleet_plans.specs.Form.{is_plan};
ghost use Rattle.fleet_view.specs.Runs.{runs_page};
ghost use Rattle.fleet_view.specs.Verdicts.{verdict_text};

use crate::cells::is_chapter_on;
use crate::logs::{is_log, log_run};
use crate::page::verdict_text;
use crate::runs::{is_judged, runs_page, studied_run};
use crate::verdict::{ChapterVerdict, grid_of, judge_chapter};
use fleet_grid::Grid;
use fleet_history::Chapter;
use fleet_map::{MapFault, MapText, read_map};
use fleet_plans::{MOST_PLAN_BYTES, PlanAnswer, is_plan, study_texts};
use fleet_trace::{TraceFault, read_trace, write_trace};
use std::alloc::{AllocError, Global};

/// Why two runs cannot be shown.
#[derive(Clone, Copy, Debug, PartialEq, Eq)]
pub enum RunFault {
    /// The bytes are not a map.
    Map(MapFault),
    /// A plan cannot be read, or is not as its head says. This is what `check_texts` answers.
    Plan(PlanAnswer),
    /// The bytes of a trace are not a trace.
    Trace(TraceFault),
    /// The run with this number, 1 or 2, is a trace that has a cell which the map does not have.
    OffMap(u64),
    NoMemory,
}

impl From<AllocError> for RunFault {
    ghost use Rattle.std.specs.Prelude.{◌≡◌};
    ghost use Rattle.fleet_view.specs.declared.pair.RunFault.TheVariants.{NoMemory};

    ghost from_gives = { λ _ e. e ≡ NoMemory };

    fn from(_error: AllocError) -> RunFault {
        RunFault::NoMemory
    }
}

/// The text of a plan.
fn plan_on(alloc: Global, floor: &MapText, bytes: &[u8], text: &[u8]) -> Result<Vec<u8>, RunFault>
    requires read { map_of bytes.now ≡ Ok (view floor.now) }
    requires short { length text.now ≤ MOST_PLAN_BYTES }
    ensures run { IfOk result (λ run. IsShownPlan bytes.now (view floor.now) text.now run.items) }
    ensures fault { IfErr result (λ fault. IsNoPlan (view floor.now) text.now fault) }
{
    let study = study_texts(alloc, bytes, text)?;
    if !is_judged(study.answer) {
        return Err(RunFault::Plan(study.answer));
    }
    match studied_run(alloc, floor.width, bytes, text, &study) {
        Ok(made) => Ok(made),
        Err(AllocError) => Err(RunFault::NoMemory),
    }
}

/// The text of a chapter, with this verdict.
fn trace_run(
    alloc: Global,
    verdict: ChapterVerdict,
    chapter: &Chapter,
) -> Result<Vec<u8>, AllocError>
    ensures { IfOk result (λ run. run.items ≡ trace_run verdict (trace_of chapter.now)) }
{
    let named = verdict_text(alloc, verdict)?;
    let text = write_trace(alloc, chapter)?;
    let mut out = Vec::from_slice(alloc, b"trace ")?;
    out.extend_from_slice(named.as_bytes())?;
    out.extend_from_slice(text.as_bytes())?;
    out.push(b'\n')?;
    Ok(out)
}

/// How many cells the map has.
fn cell_count(floor: &MapText) -> usize
    ensures { result ≡ length (view floor.now).cells }
{
    floor.cells.len()
}

/// The text of a chapter that has this number.
fn chapter_on(
    alloc: Global,
    floor: &MapText,
    grid: &Grid,
    chapter: &Chapter,
    number: u64,
) -> Result<Vec<u8>, RunFault>
    requires { grid.now ≡ floor_of_map (view floor.now) }
    ensures run { IfOk result (λ run. IsJudgedRun (view floor.now) (trace_of chapter.now) run.items) }
    ensures fault { IfErr result (λ fault. IsNoTraceOn (view floor.now) number (trace_of chapter.now) fault) }
{
    let count = cell_count(floor);
    if !is_chapter_on(count, chapter) {
        return Err(RunFault::OffMap(number));
    }
    let verdict = judge_chapter(alloc, grid, chapter)?;
    match trace_run(alloc, verdict, chapter) {
        Ok(made) => Ok(made),
        Err(AllocError) => Err(RunFault::NoMemory),
    }
}

/// The text of a trace that has this number.
fn trace_on(
    alloc: Global,
    floor: &MapText,
    grid: &Grid,
    text: &[u8],
    number: u64,
) -> Result<Vec<u8>, RunFault>
    requires { grid.now ≡ floor_of_map (view floor.now) }
    ensures run { IfOk result (λ run. IsShownTrace (view floor.now) text.now run.items) }
    ensures fault { IfErr result (λ fault. IsNoTrace (view floor.now) number text.now fault) }
{
    match read_trace(alloc, text) {
        Ok(chapter) => chapter_on(alloc, floor, grid, &chapter, number),
        Err(TraceFault::NoMemory) => Err(RunFault::NoMemory),
        Err(fault) => Err(RunFault::Trace(fault)),
    }
}

/// The text of a plan, or of a trace that has this number.
fn other_on(
    alloc: Global,
    floor: &MapText,
    grid: &Grid,
    bytes: &[u8],
    text: &[u8],
    number: u64,
) -> Result<Vec<u8>, RunFault>
    requires grid { grid.now ≡ floor_of_map (view floor.now) }
    requires read { map_of bytes.now ≡ Ok (view floor.now) }
    requires short { length text.now ≤ MOST_PLAN_BYTES }
    ensures run { IfOk result (λ run. IsOtherIf (is_plan text.now) bytes.now (view floor.now) text.now run.items) }
    ensures fault { IfErr result (λ fault. IsNoOtherIf (is_plan text.now) (view floor.now) number text.now fault) }
{
    if is_plan(text) {
        plan_on(alloc, floor, bytes, text)
    } else {
        trace_on(alloc, floor, grid, text, number)
    }
}

/// The text of a run that has this number.
fn run_on(
    alloc: Global,
    floor: &MapText,
    grid: &Grid,
    bytes: &[u8],
    text: &[u8],
    number: u64,
) -> Result<Vec<u8>, RunFault>
    requires grid { grid.now ≡ floor_of_map (view floor.now) }
    requires read { map_of bytes.now ≡ Ok (view floor.now) }
    requires short { length text.now ≤ MOST_PLAN_BYTES }
    ensures run { IfOk result (λ run. IsRun bytes.now (view floor.now) text.now run.items) }
    ensures fault { IfErr result (λ fault. IsNoRun (view floor.now) number text.now fault) }
{
    if is_log(text) {
        match log_run(alloc, text) {
            Ok(made) => Ok(made),
            Err(AllocError) => Err(RunFault::NoMemory),
        }
    } else {
        other_on(alloc, floor, grid, bytes, text, number)
    }
}

/// The page of two runs whose texts are these.
fn joined_page(
    alloc: Global,
    floor: &MapText,
    first: Vec<u8>,
    second: &[u8],
) -> Result<Vec<u8>, RunFault>
    requires { HasSides (view floor.now) }
    ensures page { IfOk result (λ page. page.items ≡ runs_page (view floor.now) (first.items ++ second.now)) }
    ensures fault { IfErr result (λ fault. fault ≡ RunFault.NoMemory) }
{
    let mut runs = first;
    runs.extend_from_slice(second)?;
    match runs_page(alloc, floor, &runs) {
        Ok(page) => Ok(page),
        Err(AllocError) => Err(RunFault::NoMemory),
    }
}

/// The page of a run whose text is this, and of a second one.
fn second_on(
    alloc: Global,
    floor: &MapText,
    grid: &Grid,
    bytes: &[u8],
    first: Vec<u8>,
    other: &[u8],
) -> Result<Vec<u8>, RunFault>
    requires sides { HasSides (view floor.now) }
    requires grid { grid.now ≡ floor_of_map (view floor.now) }
    requires read { map_of bytes.now ≡ Ok (view floor.now) }
    requires short { length other.now ≤ MOST_PLAN_BYTES }
    ensures page { IfOk result (λ page. IsSecondOn bytes.now (view floor.now) first.items other.now page.items) }
    ensures fault { IfErr result (λ fault. IsSecondWrong (view floor.now) other.now fault) }
{
    match run_on(alloc, floor, grid, bytes, other, 2) {
        Ok(second) => joined_page(alloc, floor, first, &second),
        Err(fault) => Err(fault),
    }
}

/// The page of two runs on a map that was read, and its grid.
fn both_on(
    alloc: Global,
    floor: &MapText,
    grid: &Grid,
    bytes: &[u8],
    one: &[u8],
    other: &[u8],
) -> Result<Vec<u8>, RunFault>
    requires sides { HasSides (view floor.now) }
    requires grid { grid.now ≡ floor_of_map (view floor.now) }
    requires read { map_of bytes.now ≡ Ok (view floor.now) }
    requires short_one { length one.now ≤ MOST_PLAN_BYTES }
    requires short_other { length other.now ≤ MOST_PLAN_BYTES }
    ensures page { IfOk result (λ page. IsPairOn bytes.now (view floor.now) one.now other.now page.items) }
    ensures fault { IfErr result (λ fault. IsUnpairedOn bytes.now (view floor.now) one.now other.now fault) }
{
    match run_on(alloc, floor, grid, bytes, one, 1) {
        Ok(first) => second_on(alloc, floor, grid, bytes, first, other),
        Err(fault) => Err(fault),
    }
}

/// The page of two runs on a map that was read.
fn pair_on(
    alloc: Global,
    floor: &MapText,
    bytes: &[u8],
    one: &[u8],
    other: &[u8],
) -> Result<Vec<u8>, RunFault>
    requires sides { HasSides (view floor.now) }
    requires read { map_of bytes.now ≡ Ok (view floor.now) }
    requires short_one { length one.now ≤ MOST_PLAN_BYTES }
    requires short_other { length other.now ≤ MOST_PLAN_BYTES }
    ensures page { IfOk result (λ page. IsPairOn bytes.now (view floor.now) one.now other.now page.items) }
    ensures fault { IfErr result (λ fault. IsUnpairedOn bytes.now (view floor.now) one.now other.now fault) }
{
    match grid_of(alloc, floor) {
        Ok(grid) => both_on(alloc, floor, &grid, bytes, one, other),
        Err(AllocError) => Err(RunFault::NoMemory),
    }
}

/// The page of two runs, each of which is a plan, a log of an execution or a trace, next to each other. A plan may have
/// conflicts, of which the page lists the first 20,000; a trace has the judge's verdict. The map is read first, then one run, then the other.
pub fn pair_page(alloc: Global, bytes: &[u8], one: &[u8], other: &[u8]) -> Result<Vec<u8>, RunFault>
    requires one { length one.now ≤ MOST_PLAN_BYTES }
    requires other { length other.now ≤ MOST_PLAN_BYTES }
    ensures page { IfOk result (λ page. IsPairPage bytes.now one.now other.now page.items) }
    ensures fault { IfErr result (λ fault. IsUnpaired bytes.now one.now other.now fault) }
{
    match read_map(alloc, bytes) {
        Ok(floor) => pair_on(alloc, &floor, bytes, one, other),
        Err(MapFault::NoMemory) => Err(RunFault::NoMemory),
        Err(fault) => Err(RunFault::Map(fault)),
    }
}
