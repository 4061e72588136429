//! What is wrong with a plan, as a sentence.

ghost use Rattle.std.specs.Prelude.{◌≡◌, Some};
ghost use Rattle.fleet_explain.specs.PlanSentences.{place_text, placed_text, misplaced_text, wanted_text, runners_text, head_text, goal_text, plan_sentence};

use crate::plan::{Misplaced, PlanExplanation};
use crate::script_text::CellText;
use fleet_check::StepFault;
use fleet_plans::{GoalFault, HeadFault, RunnersFault, TextForm};
use std::fmt::{self, Display};

/// A cell of a plan on a map of this width.
#[derive(Clone, Copy)]
struct PlaceText(u32, u32);

impl fmt::Display for PlaceText {
    ghost output = { λ t. Some (place_text t.0 t.1) };

    fn fmt<W: fmt::Write>(&self, f: &mut fmt::Formatter<W>) -> fmt::Result {
        if self.1 == u32::MAX {
            f.write_str("a cell outside of the map")
        } else {
            CellText(self.0, self.1).fmt(f)
        }
    }
}

/// What is wrong with a placement, or with the step to it.
#[derive(Clone, Copy)]
struct PlacedText(Misplaced);

impl fmt::Display for PlacedText {
    ghost output = { λ t. Some (placed_text t.0.fault t.0.width t.0.from t.0.to) };

    fn fmt<W: fmt::Write>(&self, f: &mut fmt::Formatter<W>) -> fmt::Result {
        let from = PlaceText(self.0.width, self.0.from);
        let to = PlaceText(self.0.width, self.0.to);
        match self.0.fault {
            StepFault::Length => f.write_str("it has not a cell for each robot"),
            StepFault::OffFloor(robot) => write!(f, "robot {robot} is on {to}, which is no floor"),
            StepFault::NotAdjacent(robot) => {
                write!(
                    f,
                    "robot {robot} comes from {from} to {to}, which is not next to it"
                )
            }
            StepFault::NoMemory => f.write_str("out of memory"),
            StepFault::Vertex(first, second) => {
                write!(f, "robots {first} and {second} are both on {to}")
            }
            StepFault::Swap(first, second) => {
                write!(f, "robots {first} and {second} exchange {from} and {to}")
            }
        }
    }
}

impl fmt::Display for Misplaced {
    ghost output = { λ m. Some (misplaced_text m) };

    fn fmt<W: fmt::Write>(&self, f: &mut fmt::Formatter<W>) -> fmt::Result {
        let (time, placed) = (self.time, PlacedText(*self));
        write!(f, "time {time}: {placed}")
    }
}

/// Which line a text in this form has there.
fn wanted(form: TextForm) -> &'static str
    ensures { result.now ≡ wanted_text form }
{
    match form {
        TextForm::Headed => {
            "is neither `KEY=VALUE` before `solution=`, nor the next line of cells, `TIME:(X,Y),..`, or of moves, `udlrw`, after it"
        }
        TextForm::Bare => "is not that of the next time, `TIME:(X,Y),..`",
        TextForm::Agents => "is not that of the next robot, `Agent K: (ROW,COLUMN)->..`",
        TextForm::Json | TextForm::PlannerJson => "is not allowed where it is",
        TextForm::Schedule =>
            "is none of `agentK:`, `- x: COLUMN`, `y: ROW` and `t: TIME`, or not that of the next cell",
        TextForm::Table =>
            "is not that of the next cell, `AGENT,TIME,ROW,COLUMN`, after `agent,time,row,column`",
    }
}

/// Why a text in JSON is no plan.
#[derive(Clone, Copy)]
struct RunnersText(RunnersFault);

impl fmt::Display for RunnersText {
    ghost output = { λ t. Some (runners_text t.0) };

    fn fmt<W: fmt::Write>(&self, f: &mut fmt::Formatter<W>) -> fmt::Result {
        match self.0 {
            RunnersFault::NotJson => { f.write_str("it is not JSON") }
            RunnersFault::Key(key) => {
                let word = key.word();
                write!(f, "`{word}` is missing, or what it has is not in its form")
            }
            RunnersFault::Item(key, robot) => {
                let word = key.word();
                write!(
                    f,
                    "under `{word}`, the item of robot {robot} is not in its form"
                )
            }
            RunnersFault::NoMemory => f.write_str("out of memory"),
        }
    }
}

/// What a head says and is not so.
#[derive(Clone, Copy)]
struct HeadText(HeadFault);

impl fmt::Display for HeadText {
    ghost output = { λ t. Some (head_text t.0) };

    fn fmt<W: fmt::Write>(&self, f: &mut fmt::Formatter<W>) -> fmt::Result {
        match self.0 {
            HeadFault::Unlike(key) => {
                let word = key.word();
                write!(
                    f,
                    "the number that its head says under `{word}` is not that of the plan"
                )
            }
            HeadFault::Cut(line) => write!(
                f,
                "it ends before the makespan that its head says: line {line} is missing"
            ),
        }
    }
}

/// Why a plan does not lead the robots to their goals.
#[derive(Clone, Copy)]
struct GoalText(GoalFault);

impl fmt::Display for GoalText {
    ghost output = { λ t. Some (goal_text t.0) };

    fn fmt<W: fmt::Write>(&self, f: &mut fmt::Formatter<W>) -> fmt::Result {
        match self.0 {
            GoalFault::NoGoals => f.write_str("it names no goals"),
            GoalFault::OffStart(robot) => { write!(f, "robot {robot} does not begin on its start") }
            GoalFault::OffGoal(robot) => write!(f, "robot {robot} does not end on its goal"),
        }
    }
}

impl fmt::Display for PlanExplanation {
    ghost output = { λ e. Some (plan_sentence e) };

    fn fmt<W: fmt::Write>(&self, f: &mut fmt::Formatter<W>) -> fmt::Result {
        match *self {
            PlanExplanation::Fine => f.write_str("all in order"),
            PlanExplanation::Map(explanation) => explanation.fmt(f),
            PlanExplanation::Line(line, form) => {
                let wanted = wanted(form);
                write!(f, "the plan: line {line} {wanted}")
            }
            PlanExplanation::Cut(line) => write!(
                f,
                "the plan: the text ends too early, line {line} is missing"
            ),
            PlanExplanation::Scenario(line) => {
                write!(f, "the scenario: line {line} is not allowed where it is")
            }
            PlanExplanation::NotJson(stop) => {
                let (line, column) = (stop.line, stop.column);
                write!(
                    f,
                    "the plan: it is not UTF-8, or not JSON, or nested deeper than 127: its reader stopped at line {line}, column {column}"
                )
            }
            PlanExplanation::Json(fault) => {
                let text = RunnersText(fault);
                write!(f, "the plan: {text}")
            }
            PlanExplanation::Head(fault) => {
                let text = HeadText(fault);
                write!(f, "the plan: {text}")
            }
            PlanExplanation::Placed(misplaced) => write!(f, "the plan: {misplaced}"),
            PlanExplanation::Goals(fault) => {
                let text = GoalText(fault);
                write!(f, "the plan: {text}")
            }
        }
    }
}
