//! The word `check`.

ghost use Rattle.std.specs.Prelude.{◌≡◌, ◌≤◌, ◌++◌, Some, length, string_bytes, IfOk, IfSome, OnOk};
ghost use Rattle.std.specs.Option.{option_copied};
ghost use Rattle.fleet_lib.specs.Said.{said_of};
ghost use Rattle.fleet_lib.specs.Check.{form_by, counted, sized, IsCheckOutcome, AreSaid, IsSaidOf, conflict_text, conflicts_text, good, refused, outcome_of, goals_outcome, noted, invalid_text};

use crate::said::Said;
use fleet_conflicts::{Conflict, conflicts_of};
use fleet_plans::{
    FaultText, GoalFault, HeadFault, HeadKey, MOST_PLAN_BYTES, Misspelt, PlanAnswer, PlanFault,
    TextForm, check_form, first_misspelt, form_of,
};
use fleet_text::Complaint;
use std::alloc::{AllocError, Global};
use std::fmt::{self, Write};

/// The line of a plan that is not valid.
#[derive(Clone, Copy)]
pub(crate) struct InvalidText(pub(crate) PlanFault);

impl fmt::Display for InvalidText {
    ghost output = { λ t. Some (invalid_text t.0) };

    fn fmt<W: fmt::Write>(&self, f: &mut fmt::Formatter<W>) -> fmt::Result {
        let (time, fault) = (self.0.time, FaultText(self.0.fault));
        writeln!(f, "invalid {time} {fault}")
    }
}

/// An answer with this output and this status.
pub(crate) fn printed(alloc: Global, text: &str, status: u8) -> Result<Said, AllocError>
    ensures { IfOk result (λ s. said_of s ≡ good text.now status) }
{
    Ok(Said {
        output: Vec::from_slice(alloc, text.as_bytes())?,
        status,
        complaint: String::new(alloc),
    })
}

/// The answer to a plan that is not valid, with this line.
fn invalid(alloc: Global, line: &str) -> Result<Said, AllocError>
    ensures { IfOk result (λ s. said_of s ≡ good line.now 6) }
{
    printed(alloc, line, 6)
}

/// An answer with this text for the error writer and this status.
pub(crate) fn refused(alloc: Global, complaint: String, status: u8) -> Said
    ensures { said_of result ≡ refused (string_bytes complaint) status }
{
    Said {
        output: Vec::new(alloc),
        status,
        complaint,
    }
}

/// The answer where a plan does not lead the robots to their goals.
fn said_of_goals(alloc: Global, time: u32, fault: GoalFault) -> Result<Said, AllocError>
    ensures { IfOk result (λ s. said_of s ≡ goals_outcome time fault) }
{
    match fault {
        GoalFault::NoGoals => {
            let text = String::from_str(alloc, "fleet: plan goals\n")?;
            Ok(refused(alloc, text, 6))
        }
        GoalFault::OffStart(robot) => {
            let text = format!(in alloc; "invalid 0 off-start {robot}\n")?;
            invalid(alloc, &text)
        }
        GoalFault::OffGoal(robot) => {
            let text = format!(in alloc; "invalid {time} off-goal {robot}\n")?;
            invalid(alloc, &text)
        }
    }
}

/// The answer to a plan that is not valid.
fn said_of_fault(alloc: Global, fault: PlanFault) -> Result<Said, AllocError>
    ensures { IfOk result (λ s. said_of s ≡ good (invalid_text fault) 6) }
{
    let line = InvalidText(fault);
    let text = format!(in alloc; "{line}")?;
    invalid(alloc, &text)
}

/// The program's answer, made from the result for a map and a plan.
pub(crate) fn said_of_answer(alloc: Global, answer: PlanAnswer) -> Result<Said, AllocError>
    ensures { IfOk result (λ s. said_of s ≡ outcome_of answer) }
{
    match answer {
        PlanAnswer::Map(fault) => {
            let complaint = Complaint::Map(fault);
            let text = format!(in alloc; "fleet: {complaint}\n")?;
            Ok(refused(alloc, text, 4))
        }
        PlanAnswer::Text(line) => {
            let text = format!(in alloc; "fleet: plan {line}\n")?;
            Ok(refused(alloc, text, 6))
        }
        PlanAnswer::Cut(line) => {
            let text = format!(in alloc; "fleet: plan {line} cut\n")?;
            Ok(refused(alloc, text, 6))
        }
        PlanAnswer::Scenario(line) => {
            let text = format!(in alloc; "fleet: scenario {line}\n")?;
            Ok(refused(alloc, text, 5))
        }
        PlanAnswer::Json(fault) => {
            let text = format!(in alloc; "fleet: plan {fault}\n")?;
            Ok(refused(alloc, text, 6))
        }
        PlanAnswer::Head(fault) => {
            let text = format!(in alloc; "fleet: plan {fault}\n")?;
            Ok(refused(alloc, text, 6))
        }
        PlanAnswer::Valid(report) => {
            let text = format!(in alloc; "{report}")?;
            printed(alloc, &text, 0)
        }
        PlanAnswer::Invalid(fault) => said_of_fault(alloc, fault),
        PlanAnswer::Goals { time, fault } => said_of_goals(alloc, time, fault),
    }
}

/// The answer, after a line about a key that is like one that counts, if there is such a key.
fn noted(alloc: Global, found: Option<Misspelt>, said: Said) -> Result<Said, AllocError>
    ensures { IfOk result (λ s. said_of s ≡ noted found (said_of said)) }
{
    let Some(line) = found else {
        return Ok(said);
    };
    let Said {
        output,
        status,
        complaint,
    } = said;
    let text = format!(in alloc; "fleet: {line}\n{complaint}")?;
    Ok(Said {
        output,
        status,
        complaint: text,
    })
}

/// The form in which a plan is read: the one that is named, or else that of the text.
pub(crate) fn form_by(form: Option<TextForm>, plan: &[u8]) -> TextForm
    ensures { result ≡ form_by form plan.now }
{
    match form {
        Some(named) => named,
        None => form_of(plan),
    }
}

/// How a plan is read, and what is asked of it.
#[derive(Clone, Copy, Debug)]
pub struct PlanRules {
    /// The form in which it is read; if none is named, that of its text.
    pub form: Option<TextForm>,
    /// Whether each robot has to end on its goal.
    pub strict: bool,
    /// Whether each conflict is said, not the first alone.
    pub all: bool,
    /// How many robots it has to have, if a number is asked for.
    pub agents: Option<u32>,
}

/// The answer to a plan that is to have this many robots: a valid one of another number is not called valid.
fn counted(count: u32, answer: PlanAnswer) -> PlanAnswer
    ensures { result ≡ counted count answer }
{
    match answer {
        PlanAnswer::Valid(report) => {
            if report.robots == count {
                PlanAnswer::Valid(report)
            } else {
                PlanAnswer::Head(HeadFault::Unlike(HeadKey::Agents))
            }
        }
        other => other,
    }
}

/// The answer to a plan, of which a number of robots may be asked for.
fn sized(agents: Option<u32>, answer: PlanAnswer) -> PlanAnswer
    ensures { result ≡ sized agents answer }
{
    match agents {
        Some(count) => counted(count, answer),
        None => answer,
    }
}

/// Writes the line of a conflict.
fn write_conflict(text: &mut String, conflict: Conflict) -> Result<(), AllocError>
    ensures { OnOk result (string_bytes text.new ≡ string_bytes text.old ++ conflict_text conflict) }
{
    let (time, fault) = (conflict.time, FaultText(conflict.fault));
    writeln!(text, "invalid {time} {fault}")
}

/// Writes a line for each conflict.
fn write_conflicts(text: &mut String, conflicts: &[Conflict]) -> Result<(), AllocError>
    ensures { OnOk result (string_bytes text.new ≡ string_bytes text.old ++ conflicts_text conflicts.now) }
{
    for conflict in conflicts {
        write_conflict(text, *conflict)?;
    }
    Ok(())
}

/// The answer to a plan that is not valid, with a line for each conflict.
fn said_of_conflicts(
    alloc: Global,
    form: TextForm,
    map: &[u8],
    plan: &[u8],
) -> Result<Said, AllocError>
    requires { length plan.now ≤ MOST_PLAN_BYTES }
    ensures { IfOk result (λ s. AreSaid form map.now plan.now (said_of s)) }
{
    let conflicts = conflicts_of(alloc, form, map, plan)?;
    let mut text = String::new(alloc);
    write_conflicts(&mut text, &conflicts)?;
    invalid(alloc, &text)
}

/// The program's answer, or each conflict, if all are asked for.
fn said_in_all(
    alloc: Global,
    all: bool,
    form: TextForm,
    map: &[u8],
    plan: &[u8],
    answer: PlanAnswer,
) -> Result<Said, AllocError>
    requires { length plan.now ≤ MOST_PLAN_BYTES }
    ensures { IfOk result (λ s. IsSaidOf all form map.now plan.now answer (said_of s)) }
{
    if all && answer.is_invalid() {
        return said_of_conflicts(alloc, form, map, plan);
    }
    said_of_answer(alloc, answer)
}

/// The answer to a map and a plan: what `check_form` answers, and whether there are as many robots as asked for, as
/// text.
pub fn answer_check(
    alloc: Global,
    rules: PlanRules,
    scenario: Option<&[u8]>,
    map: &[u8],
    plan: &[u8],
) -> Result<Said, AllocError>
    requires scenario { IfSome scenario (λ text. length text.now ≤ MOST_PLAN_BYTES) }
    requires plan { length plan.now ≤ MOST_PLAN_BYTES }
    ensures { IfOk result (λ s. IsCheckOutcome rules (option_copied scenario.entry) map.now plan.now (said_of s)) }
{
    let form = form_by(rules.form, plan);
    let answer = check_form(alloc, form, rules.strict, scenario, map, plan)?;
    let said = said_in_all(
        alloc,
        rules.all,
        form,
        map,
        plan,
        sized(rules.agents, answer),
    )?;
    noted(alloc, first_misspelt(form, plan), said)
}
