//! What is wrong with a plan.

ghost use Rattle.std.specs.Prelude.{◌≡◌, ◌≤◌, length, IfOk};
ghost use Rattle.fleet_plans.specs.Form.{form_of};
ghost use Rattle.fleet_explain.specs.Plans.{misplaced, IsJsonSaid, IsSaid, IsPlanExplained};

use crate::explanation::{Explanation, map_explanation};
use crate::position::{Position, stop_of};
use fleet_check::StepFault;
use fleet_map::read_map;
use fleet_plans::{
    GoalFault, HeadFault, MOST_PLAN_BYTES, PlanAnswer, PlanFault, RunnersFault, TextForm,
    check_texts, form_of,
};
use std::alloc::{AllocError, Global};

/// The first placement of a plan that is at fault, and the cells of the first robot that is at fault there.
#[derive(Clone, Copy, Debug, PartialEq, Eq)]
pub struct Misplaced {
    /// Its time.
    pub time: u32,
    /// What is wrong with it.
    pub fault: StepFault,
    /// The width of the map.
    pub width: u32,
    /// The robot's cell at the time before; at time 0 the same as `to`.
    pub from: u32,
    /// The robot's cell at this time; `u32::MAX` outside of the map.
    pub to: u32,
}

/// What is wrong with a map, or with a plan on it.
#[derive(Clone, Copy, Debug, PartialEq, Eq)]
pub enum PlanExplanation {
    /// Nothing.
    Fine,
    /// The bytes are not a map.
    Map(Explanation),
    /// The line of the plan, from 1, is not allowed where it is, in a text of this form.
    Line(u32, TextForm),
    /// The text ends too early. This is the number of the line after the last.
    Cut(u32),
    /// The line of the scenario, from 1, is not allowed where it is.
    Scenario(u32),
    /// The text begins as JSON and is not UTF-8, or not JSON, or nested deeper than 127. Its reader stopped here.
    NotJson(Position),
    /// The text is JSON and not a plan.
    Json(RunnersFault),
    /// The plan is not the one that the head of its text says.
    Head(HeadFault),
    /// A placement is at fault.
    Placed(Misplaced),
    /// The plan does not lead the robots to their goals.
    Goals(GoalFault),
}

/// The fault, on a map of this width.
fn fault_on(width: u32, fault: PlanFault) -> Misplaced
    ensures { result ≡ misplaced width fault }
{
    Misplaced {
        time: fault.time,
        fault: fault.fault,
        width,
        from: fault.from,
        to: fault.to,
    }
}

/// What is wrong with a text that begins as JSON and is not a plan.
fn json_explained(
    alloc: Global,
    text: &[u8],
    fault: RunnersFault,
) -> Result<PlanExplanation, AllocError>
    ensures { IfOk result (IsJsonSaid fault) }
{
    match fault {
        RunnersFault::NotJson => {
            let position = stop_of(alloc, text)?;
            Ok(PlanExplanation::NotJson(position))
        }
        RunnersFault::Key(key) => Ok(PlanExplanation::Json(RunnersFault::Key(key))),
        RunnersFault::Item(key, robot) => {
            Ok(PlanExplanation::Json(RunnersFault::Item(key, robot)))
        }
        RunnersFault::NoMemory => Ok(PlanExplanation::Json(RunnersFault::NoMemory)),
    }
}

/// What is wrong with a text, of which this is said on a map of this width.
fn explained(
    alloc: Global,
    text: &[u8],
    width: u32,
    answer: PlanAnswer,
) -> Result<PlanExplanation, AllocError>
    ensures { IfOk result (IsSaid (form_of text.now) width answer) }
{
    let explanation = match answer {
        PlanAnswer::Map(fault) => PlanExplanation::Map(Explanation::Map(fault)),
        PlanAnswer::Text(line) => PlanExplanation::Line(line, form_of(text)),
        PlanAnswer::Cut(line) => PlanExplanation::Cut(line),
        PlanAnswer::Scenario(line) => PlanExplanation::Scenario(line),
        PlanAnswer::Json(fault) => return json_explained(alloc, text, fault),
        PlanAnswer::Head(fault) => PlanExplanation::Head(fault),
        PlanAnswer::Valid(_report) => PlanExplanation::Fine,
        PlanAnswer::Invalid(fault) => PlanExplanation::Placed(fault_on(width, fault)),
        PlanAnswer::Goals { time: _, fault } => PlanExplanation::Goals(fault),
    };
    Ok(explanation)
}

/// What is wrong with a map or with a plan on it: first whether the map can be read, then the plan's text, then the
/// first placement at fault, then what the head says. No placement is kept. The only error is out of memory.
pub fn explain_plan(alloc: Global, map: &[u8], text: &[u8]) -> Result<PlanExplanation, AllocError>
    requires { length text.now ≤ MOST_PLAN_BYTES }
    ensures { IfOk result (λ e. IsPlanExplained map.now text.now e) }
{
    let width = match read_map(alloc, map) {
        Ok(floor) => floor.width,
        Err(fault) => {
            let explanation = map_explanation(alloc, map, fault)?;
            return Ok(PlanExplanation::Map(explanation));
        }
    };
    let answer = check_texts(alloc, map, text)?;
    explained(alloc, text, width, answer)
}
