//! The answer to the text of a map and of a plan.

ghost use Rattle.std.specs.Prelude.{◌≡◌, ◌≢◌, ◌≤◌, ◌<◌, ◌^◌, ℕ, List, [], Some, length, false, true, IfOk};
ghost use Rattle.fleet_grid.specs.Floor.{Floor};
ghost use Rattle.fleet_map.specs.Form.{HasSides};
ghost use Rattle.fleet_map.specs.Grammar.{Map, view};
ghost use Rattle.fleet_map.specs.Text.{lines_of};
ghost use Rattle.fleet_plans.specs.Goals.{asked_by};
ghost use Rattle.fleet_plans.specs.Judge.{HasJudged};
ghost use Rattle.fleet_plans.specs.Shown.{goals_in};
ghost use Rattle.fleet_plans.specs.inside.Answered.{IsOf};
ghost use Rattle.fleet_plans.specs.Study.{IsFormStudy};
ghost use Rattle.fleet_plans.specs.Answer.{at_line, valid_answer, IsNamed, IsJudged, IsTextAnswer, IsAnswerTo, IsPlanAnswer, IsSolutionAnswer, goals_text, report_text};

use crate::claims::{HeadFault, line_count, unmet};
use crate::fault::PlanTextFault;
use crate::form::{TextForm, form_of};
use crate::goals::{Demand, GoalFault, undone};
use crate::judge::PlanJudge;
use crate::judging::PlanFault;
use crate::limit::MOST_PLAN_BYTES;
use crate::report::PlanReport;
use crate::runners::RunnersFault;
use crate::sides::Sides;
use crate::text::{TextFault, headed, read_text};
use fleet_grid::Grid;
use fleet_history::Row;
use fleet_map::{MapFault, MapText, read_map};
use std::alloc::{AllocError, Allocator, Global};
use std::fmt;

/// The answer to the text of a map and of a plan.
#[derive(Clone, Copy, Debug, PartialEq, Eq)]
pub enum PlanAnswer {
    /// The map cannot be read.
    Map(MapFault),
    /// The text is no plan. This is the number, from 1, of the first line that is not allowed where it is.
    Text(u32),
    /// The text ends before the plan does. This is the number of the line after the last.
    Cut(u32),
    /// The scenario is none of the map. This is the number of its first line that is not allowed where it is.
    Scenario(u32),
    /// The text begins as JSON and is not a plan.
    Json(RunnersFault),
    /// The plan is valid, and not the one that the head of its text says.
    Head(HeadFault),
    /// The plan is valid.
    Valid(PlanReport),
    /// The plan is not valid.
    Invalid(PlanFault),
    /// The plan is free of conflicts, and does not lead the robots to their goals.
    Goals {
        /// The last time.
        time: u32,
        /// What is wrong there.
        fault: GoalFault,
    },
}

/// The sides of a map.
pub(crate) fn sides_of<A: Allocator + Copy>(map: &MapText<A>) -> Sides
    requires { HasSides (view map.now) }
    ensures width { result.width ≡ map.now.width }
    ensures height { result.height ≡ map.now.height }
{
    Sides {
        width: map.width,
        height: map.height,
    }
}

/// The goals, lent.
fn lent<A: Allocator + Copy>(goals: &Option<Row<u32, A>>) -> Option<&[u32]>
    ensures { goals_in result ≡ goals.now }
{
    match goals {
        Some(goals) => Some(goals.as_slice()),
        None => None,
    }
}

/// The answer to a plan that is free of conflicts, after the head of this text, from this first placement to this last
/// one.
fn valid_answer(
    demand: Demand<'_>,
    head: &[u8],
    goals: Option<&[u32]>,
    first: &[u32],
    last: &[u32],
    report: PlanReport,
) -> PlanAnswer
    requires short { length head.now ≤ MOST_PLAN_BYTES }
    requires begins { length first.now < 2 ^ 32 }
    requires ends { length last.now < 2 ^ 32 }
    ensures { result ≡ valid_answer (asked_by demand.entry) (lines_of head.now) (goals_in goals.entry) first.now last.now report }
{
    if let Some(fault) = unmet(head, report) {
        return PlanAnswer::Head(fault);
    }
    match undone(demand, goals, first, last) {
        Some(fault) => PlanAnswer::Goals {
            time: report.steps,
            fault,
        },
        None => PlanAnswer::Valid(report),
    }
}

/// The verdict on the plan that a judge was given, after the head of this text.
fn answer_of<A: Allocator + Copy, B: Allocator + Copy>(
    demand: Demand<'_>,
    head: &[u8],
    goals: Option<&[u32]>,
    judge: &PlanJudge<A, B>,
) -> PlanAnswer
    requires short { length head.now ≤ MOST_PLAN_BYTES }
    requires some { 1 ≤ judge.now.count }
    ensures { (m : Floor) (places : List (List ℕ)) → HasJudged m places judge.now → IsJudged m (asked_by demand.entry) (lines_of head.now) (goals_in goals.entry) places result }
{
    match judge.verdict(goals) {
        Ok(report) => valid_answer(demand, head, goals, judge.first(), judge.last(), report),
        Err(fault) => PlanAnswer::Invalid(fault),
    }
}

/// The answer where this line is at fault: the text is cut if it has no such line.
fn at_line(text: &[u8], line: u32) -> PlanAnswer
    requires { length text.now ≤ MOST_PLAN_BYTES }
    ensures { result ≡ at_line (lines_of text.now) line }
{
    if line > line_count(text) {
        PlanAnswer::Cut(line)
    } else {
        PlanAnswer::Text(line)
    }
}

/// The line of a fault; an error for out of memory.
pub(crate) fn line_of(fault: PlanTextFault) -> Result<u32, AllocError>
    ensures { IfOk result (λ line. fault ≡ PlanTextFault.Line line) }
{
    match fault {
        PlanTextFault::Line(line) => Ok(line),
        PlanTextFault::NoMemory => Err(AllocError),
    }
}

/// The fault of a text in JSON; an error for out of memory.
fn json_fault(fault: RunnersFault) -> Result<RunnersFault, AllocError>
    ensures same { IfOk result (λ named. named ≡ fault) }
    ensures named { IfOk result (λ named. named ≢ RunnersFault.NoMemory) }
{
    match fault {
        RunnersFault::NoMemory => Err(AllocError),
        named => Ok(named),
    }
}

/// The answer to a text that is no plan; an error for out of memory.
fn named(text: &[u8], fault: TextFault) -> Result<PlanAnswer, AllocError>
    requires { length text.now ≤ MOST_PLAN_BYTES }
    ensures { IfOk result (λ answer. IsNamed (lines_of text.now) fault answer) }
{
    match fault {
        TextFault::Lines(fault) => Ok(at_line(text, line_of(fault)?)),
        TextFault::Json(fault) => Ok(PlanAnswer::Json(json_fault(fault)?)),
    }
}

/// The answer to a plan's text in this form, on the map of a new judge.
pub(crate) fn answer_text(
    alloc: Global,
    demand: Demand<'_>,
    form: TextForm,
    sides: Sides,
    text: &[u8],
    judge: &mut PlanJudge,
) -> Result<PlanAnswer, AllocError>
    requires short { length text.now ≤ MOST_PLAN_BYTES }
    requires fresh { HasJudged judge.old.floor [] judge.old }
    ensures answer { (m : Map) → IsOf m sides.width sides.height judge.old.floor → IfOk result (λ answer. IsTextAnswer (asked_by demand.entry) m form text.now answer) }
    // If the judge keeps placements, they are those of the plan.
    ensures kept { (m : Map) (places : List (List ℕ)) → IsOf m sides.width sides.height judge.old.floor → judge.new.kept ≡ Some places → IfOk result (λ answer. IsFormStudy (asked_by demand.entry) m form text.now answer places) }
{
    match read_text(alloc, form, sides, text, judge) {
        Ok(goals) => Ok(answer_of(demand, headed(form, text), lent(&goals), judge)),
        Err(fault) => named(text, fault),
    }
}

/// The answer to a plan's text in this form, on a map.
pub(crate) fn answer_on(
    alloc: Global,
    demand: Demand<'_>,
    map: MapText,
    form: TextForm,
    text: &[u8],
) -> Result<PlanAnswer, AllocError>
    requires sides { HasSides (view map) }
    requires short { length text.now ≤ MOST_PLAN_BYTES }
    ensures { IfOk result (λ answer. IsTextAnswer (asked_by demand.entry) (view map) form text.now answer) }
{
    let sides = sides_of(&map);
    let grid = Grid::new(map)?;
    answer_text(
        alloc,
        demand,
        form,
        sides,
        text,
        &mut PlanJudge::new(alloc, &grid),
    )
}

/// The fault of a map; an error for out of memory.
pub(crate) fn map_fault(fault: MapFault) -> Result<MapFault, AllocError>
    ensures same { IfOk result (λ named. named ≡ fault) }
    ensures named { IfOk result (λ named. named ≢ MapFault.NoMemory) }
{
    match fault {
        MapFault::NoMemory => Err(AllocError),
        named => Ok(named),
    }
}

/// The answer to the text of a map and of a plan in this form, of which it may be asked that it leads the robots to
/// their goals.
pub(crate) fn answer_to(
    alloc: Global,
    demand: Demand<'_>,
    map: &[u8],
    form: TextForm,
    text: &[u8],
) -> Result<PlanAnswer, AllocError>
    requires { length text.now ≤ MOST_PLAN_BYTES }
    ensures { IfOk result (λ answer. IsAnswerTo (asked_by demand.entry) map.now form text.now answer) }
{
    match read_map(alloc, map) {
        Ok(map) => answer_on(alloc, demand, map, form, text),
        Err(fault) => Ok(PlanAnswer::Map(map_fault(fault)?)),
    }
}

/// The answer to the text of a map and of a plan: a fault of the map; if there is none, a fault of the plan's text; if
/// there is none, the verdict on the plan. A plan is cut, or not the one of its head, only if it is free of conflicts.
pub fn check_texts(alloc: Global, map: &[u8], text: &[u8]) -> Result<PlanAnswer, AllocError>
    requires { length text.now ≤ MOST_PLAN_BYTES }
    ensures { IfOk result (λ answer. IsPlanAnswer map.now text.now answer) }
{
    answer_to(alloc, Demand::Nothing, map, form_of(text), text)
}

/// The answer of `check_texts`, where a plan is valid only if each robot ends on its goal.
pub fn check_solution(alloc: Global, map: &[u8], text: &[u8]) -> Result<PlanAnswer, AllocError>
    requires { length text.now ≤ MOST_PLAN_BYTES }
    ensures { IfOk result (λ answer. IsSolutionAnswer map.now text.now answer) }
{
    answer_to(alloc, Demand::OwnGoals, map, form_of(text), text)
}

/// How many robots end on their goals, as it is printed.
#[derive(Clone, Copy)]
struct GoalsText(Option<u32>);

impl fmt::Display for GoalsText {
    ghost output = { λ t. Some (goals_text t.0) };

    fn fmt<W: fmt::Write>(&self, f: &mut fmt::Formatter<W>) -> fmt::Result {
        match self.0 {
            Some(reached) => writeln!(f, "on-goals {reached}"),
            None => Ok(()),
        }
    }
}

impl fmt::Display for PlanReport {
    ghost output = { λ r. Some (report_text r) };

    fn fmt<W: fmt::Write>(&self, f: &mut fmt::Formatter<W>) -> fmt::Result {
        let (steps, robots, goals) = (self.steps, self.robots, GoalsText(self.on_goals));
        let (cost, most) = (self.sum_of_costs, self.makespan);
        write!(
            f,
            "valid {steps} {robots}\nsum-of-costs {cost}\nmakespan {most}\n{goals}"
        )
    }
}
