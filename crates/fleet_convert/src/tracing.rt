//! Turns the text of a map and of a plan on it into a trace.

ghost use Rattle.std.specs.Prelude.{◌≡◌, ◌≢◌, ◌≤◌, ◌∷◌, [], Ok, map, drop, length, IfOk, IfErr, string_bytes};
ghost use Rattle.fleet_map.specs.Form.{HasSides};
ghost use Rattle.fleet_map.specs.Grammar.{view, map_of};
ghost use Rattle.fleet_trace.specs.Trace.{trace_of};
ghost use Rattle.fleet_convert.specs.PlanTrace.{is_valid, standing, silent, stood, tick_to, plan_trace, IsTraceText, IsNoTraceOn, IsTraced, IsUntraced};

use fleet_grid::Grid;
use fleet_history::{Chapter, ClientState, Entry, Opening, RobotState, Row};
use fleet_hooks::StampLaw;
use fleet_map::{MapFault, MapText, read_map};
use fleet_plans::{MOST_PLAN_BYTES, Placements, PlanAnswer, check_texts, study_texts};
use fleet_trace::{JudgeFault, judge, write_trace};
use std::alloc::{AllocError, Global};

/// Why a map and a plan give no trace.
#[derive(Clone, Copy, Debug, PartialEq, Eq)]
pub enum TracingFault {
    /// There is no valid plan. This is what `check_texts` answers.
    NoPlan(PlanAnswer),
    /// The plan is valid, and has more than 512 robots.
    TooManyRobots,
    /// The plan is valid, and its trace is not legal, since it has no robot. Entry `at`, counted from 1, is the first
    /// that breaks a rule, and `rule` is the first rule that it breaks; at 0 it is the opening.
    Illegal { at: u64, rule: u8 },
    /// Memory ran out.
    NoMemory,
}

impl From<AllocError> for TracingFault {
    ghost use Rattle.std.specs.Prelude.{◌≡◌};
    ghost use Rattle.fleet_convert.specs.declared.tracing.TracingFault.TheVariants.{NoMemory};

    ghost from_gives = { λ _ e. e ≡ NoMemory };

    fn from(_error: AllocError) -> TracingFault {
        TracingFault::NoMemory
    }
}

/// The greatest number of robots in a trace.
pub(crate) const MOST_ROBOTS: u32 = 512;

/// The only stamp of robots that never arrive.
const NO_STAMP: StampLaw = StampLaw { low: 0, high: 0 };

/// A robot that stands on a cell and has no errand.
fn standing(alloc: Global, cell: u32) -> RobotState
    ensures { result ≡ standing cell }
{
    RobotState {
        cell,
        shut: false,
        wait: None,
        errands: Row::new(alloc),
        arrival_law: NO_STAMP,
        farewell_law: NO_STAMP,
    }
}

/// Robots that stand on these cells.
fn standing_on(alloc: Global, cells: &[u32]) -> Result<Row<RobotState>, AllocError>
    ensures { IfOk result (λ robots. robots ≡ map standing cells.now) }
{
    let mut robots = Vec::new(alloc);
    for cell in cells {
        robots.push(standing(alloc, *cell))?;
    }
    Ok(Row::from_vec(robots))
}

/// A client that has sent nothing.
fn silent_client(alloc: Global) -> Result<Row<ClientState>, AllocError>
    ensures { IfOk result (λ clients. clients ≡ silent ∷ []) }
{
    let mut clients = Vec::new(alloc);
    clients.push(ClientState {
        taken: 0,
        accepted: 0,
        noticed: 0,
        closed: false,
    })?;
    Ok(Row::from_vec(clients))
}

/// Robots that stand on these cells, and a client.
fn stood(alloc: Global, cells: &[u32]) -> Result<Opening, AllocError>
    ensures { IfOk result (λ opening. opening ≡ stood cells.now) }
{
    let clients = silent_client(alloc)?;
    let robots = standing_on(alloc, cells)?;
    Ok(Opening {
        tick: 0,
        queue: 16,
        life: 1_000_000,
        clients,
        robots,
    })
}

/// A tick to these cells.
fn tick_to(alloc: Global, cells: &[u32]) -> Result<Entry, AllocError>
    ensures { IfOk result (λ entry. entry ≡ tick_to cells.now) }
{
    let to = Vec::from_slice(alloc, cells)?;
    Ok(Entry::Tick {
        to: Row::from_vec(to),
        arrived: Row::new(alloc),
        farewells: Row::new(alloc),
    })
}

/// A tick for each placement after the first.
fn ticks_of(alloc: Global, places: &Placements) -> Result<Vec<Entry>, AllocError>
    ensures { IfOk result (λ entries. entries.items ≡ map tick_to (drop 1 places.now)) }
{
    let mut entries = Vec::new(alloc);
    for time in 1..places.len() {
        entries.push(tick_to(alloc, places.at(time))?)?;
    }
    Ok(entries)
}

/// The chapter of a plan with these placements.
pub(crate) fn chapter_of(alloc: Global, places: &Placements) -> Result<Chapter, AllocError>
    ensures { IfOk result (λ chapter. trace_of chapter ≡ plan_trace places.now) }
{
    let opening = stood(alloc, places.at(0))?;
    let entries = ticks_of(alloc, places)?;
    Ok(Chapter {
        number: 0,
        opening,
        entries,
    })
}

/// The text of the trace of these placements on a map.
fn trace_on(alloc: Global, floor: MapText, places: &Placements) -> Result<String, TracingFault>
    requires { HasSides (view floor) }
    ensures trace { IfOk result (λ text. IsTraceText (view floor) places.now (string_bytes text)) }
    ensures fault { IfErr result (λ fault. IsNoTraceOn (view floor) places.now fault) }
{
    let grid = Grid::new(floor)?;
    let chapter = chapter_of(alloc, places)?;
    match judge(alloc, &grid, &chapter) {
        Ok(()) => Ok(write_trace(alloc, &chapter)?),
        Err(JudgeFault::Illegal { at, rule }) => Err(TracingFault::Illegal { at, rule }),
        Err(JudgeFault::NoMemory) => Err(TracingFault::NoMemory),
    }
}

/// Whether a plan is valid.
fn is_valid(answer: PlanAnswer) -> bool
    ensures { result ≡ is_valid answer }
{
    matches!(answer, PlanAnswer::Valid(_))
}

/// The text of the trace of a plan on a map that was read.
fn trace_from(
    alloc: Global,
    floor: MapText,
    bytes: &[u8],
    plan: &[u8],
) -> Result<String, TracingFault>
    requires sides { HasSides (view floor) }
    requires read { map_of bytes.now ≡ Ok (view floor) }
    requires short { length plan.now ≤ MOST_PLAN_BYTES }
    ensures trace { IfOk result (λ text. IsTraced bytes.now plan.now (string_bytes text)) }
    ensures fault { IfErr result (λ fault. IsUntraced bytes.now plan.now fault) }
{
    let study = study_texts(alloc, bytes, plan)?;
    if !is_valid(study.answer) {
        return Err(TracingFault::NoPlan(study.answer));
    }
    trace_on(alloc, floor, &study.places)
}

/// The fault of a map; an error for out of memory.
pub(crate) fn map_fault(fault: MapFault) -> Result<MapFault, AllocError>
    ensures same { IfOk result (λ named. named ≡ fault) }
    ensures named { IfOk result (λ named. named ≢ MapFault.NoMemory) }
{
    match fault {
        MapFault::NoMemory => Err(AllocError),
        named => Ok(named),
    }
}

/// The text of a valid plan of 512 robots at most, as a trace. All of its placements are kept.
fn trace_of_valid(alloc: Global, bytes: &[u8], plan: &[u8]) -> Result<String, TracingFault>
    requires { length plan.now ≤ MOST_PLAN_BYTES }
    ensures trace { IfOk result (λ text. IsTraced bytes.now plan.now (string_bytes text)) }
    ensures fault { IfErr result (λ fault. IsUntraced bytes.now plan.now fault) }
{
    match read_map(alloc, bytes) {
        Ok(floor) => trace_from(alloc, floor, bytes, plan),
        Err(fault) => {
            let fault = map_fault(fault)?;
            Err(TracingFault::NoPlan(PlanAnswer::Map(fault)))
        }
    }
}

/// The text of a plan on a map, as a trace: the robots stand on their first cells, and make a tick for each step of the
/// plan. There is one client, which sends nothing, and no robot has an errand. A fault is that there is no valid plan,
/// that it has more than 512 robots, or that the trace would not be legal. Placements are kept only of a plan that is
/// valid and has no more robots.
pub fn trace_of_plan(alloc: Global, bytes: &[u8], plan: &[u8]) -> Result<String, TracingFault>
    requires { length plan.now ≤ MOST_PLAN_BYTES }
    ensures trace { IfOk result (λ text. IsTraced bytes.now plan.now (string_bytes text)) }
    ensures fault { IfErr result (λ fault. IsUntraced bytes.now plan.now fault) }
{
    match check_texts(alloc, bytes, plan)? {
        PlanAnswer::Valid(report) => {
            if report.robots > MOST_ROBOTS {
                return Err(TracingFault::TooManyRobots);
            }
            trace_of_valid(alloc, bytes, plan)
        }
        answer => Err(TracingFault::NoPlan(answer)),
    }
}
