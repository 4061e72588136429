//! The word `explain`.

ghost use Rattle.std.specs.Prelude.{◌≡◌, ◌≤◌, length, IfOk};
ghost use Rattle.fleet_lib.specs.Said.{said_of};
ghost use Rattle.fleet_lib.specs.Explain.{status_of, outcome_of, plan_status, plan_outcome, head_status, head_outcome, IsMapSaid, IsScriptSaid, IsTraceSaid, IsPlanSaid, IsHeadSaid};

use crate::check::printed;
use crate::said::Said;
use fleet_explain::{
    Explanation, HeadExplanation, PlanExplanation, explain_head, explain_map, explain_plan,
    explain_script, explain_trace,
};
use fleet_plans::MOST_PLAN_BYTES;
use std::alloc::{AllocError, Global};

/// The greatest length of a script, in bytes.
pub const MOST_SCRIPT_BYTES: usize = 16_777_216;

/// The status of an explanation: that of `errands`.
fn status_of(explanation: Explanation) -> u8
    ensures { result ≡ status_of explanation }
{
    match explanation {
        Explanation::Fine | Explanation::Unserved { .. } => 0,
        Explanation::Map(_) | Explanation::Letter { .. } => 4,
        Explanation::Script { .. } | Explanation::Start { .. } => 5,
        Explanation::NotJson(_)
        | Explanation::Version
        | Explanation::Form(_)
        | Explanation::Illegal { .. } => 6,
    }
}

/// The answer for an explanation: its sentence.
fn said_of_explanation(alloc: Global, explanation: Explanation) -> Result<Said, AllocError>
    ensures { IfOk result (λ s. said_of s ≡ outcome_of explanation) }
{
    let text = format!(in alloc; "{explanation}\n")?;
    printed(alloc, &text, status_of(explanation))
}

/// The answer to a map: the sentence of `explain_map`.
pub fn answer_explain_map(alloc: Global, map: &[u8]) -> Result<Said, AllocError>
    ensures { IfOk result (λ s. IsMapSaid map.now (said_of s)) }
{
    let explanation = explain_map(alloc, map)?;
    said_of_explanation(alloc, explanation)
}

/// The answer to a map and a script: the sentence of `explain_script`.
pub fn answer_explain_script(alloc: Global, map: &[u8], script: &[u8]) -> Result<Said, AllocError>
    requires { length script.now ≤ 16777216 }
    ensures { IfOk result (λ s. IsScriptSaid map.now script.now (said_of s)) }
{
    let explanation = explain_script(alloc, map, script)?;
    said_of_explanation(alloc, explanation)
}

/// The answer to a map and a trace: the sentence of `explain_trace`.
pub fn answer_explain_trace(alloc: Global, map: &[u8], trace: &[u8]) -> Result<Said, AllocError>
    ensures { IfOk result (λ s. IsTraceSaid map.now trace.now (said_of s)) }
{
    let explanation = explain_trace(alloc, map, trace)?;
    said_of_explanation(alloc, explanation)
}

/// The status of an explanation of a plan: that of `fleet check`.
fn plan_status(explanation: PlanExplanation) -> u8
    ensures { result ≡ plan_status explanation }
{
    match explanation {
        PlanExplanation::Fine => 0,
        PlanExplanation::Map(_) => 4,
        PlanExplanation::Scenario(_) => 5,
        PlanExplanation::Line(..)
        | PlanExplanation::Cut(_)
        | PlanExplanation::NotJson(_)
        | PlanExplanation::Json(_)
        | PlanExplanation::Head(_)
        | PlanExplanation::Placed(_)
        | PlanExplanation::Goals(_) => 6,
    }
}

/// The answer for an explanation of a plan: its sentence.
fn said_of_plan(alloc: Global, explanation: PlanExplanation) -> Result<Said, AllocError>
    ensures { IfOk result (λ s. said_of s ≡ plan_outcome explanation) }
{
    let text = format!(in alloc; "{explanation}\n")?;
    printed(alloc, &text, plan_status(explanation))
}

/// The answer to a map and a plan: the sentence of `explain_plan`.
pub fn answer_explain_plan(alloc: Global, map: &[u8], plan: &[u8]) -> Result<Said, AllocError>
    requires { length plan.now ≤ MOST_PLAN_BYTES }
    ensures { IfOk result (λ s. IsPlanSaid map.now plan.now (said_of s)) }
{
    let explanation = explain_plan(alloc, map, plan)?;
    said_of_plan(alloc, explanation)
}

/// The status of an explanation of header lines: that of `fleet talk`.
fn head_status(explanation: HeadExplanation) -> u8
    ensures { result ≡ head_status explanation }
{
    match explanation {
        HeadExplanation::Fine | HeadExplanation::Unplaced => 0,
        HeadExplanation::Map(_) => 4,
        HeadExplanation::Line { .. } | HeadExplanation::Start { .. } => 5,
    }
}

/// The answer for an explanation of header lines: its sentence.
fn said_of_head(alloc: Global, explanation: HeadExplanation) -> Result<Said, AllocError>
    ensures { IfOk result (λ s. said_of s ≡ head_outcome explanation) }
{
    let text = format!(in alloc; "{explanation}\n")?;
    printed(alloc, &text, head_status(explanation))
}

/// The answer to a map and the header lines of a conversation: the sentence of `explain_head`.
pub fn answer_explain_head(alloc: Global, map: &[u8], head: &[u8]) -> Result<Said, AllocError>
    requires { length head.now ≤ 16777216 }
    ensures { IfOk result (λ s. IsHeadSaid map.now head.now (said_of s)) }
{
    let explanation = explain_head(alloc, map, head)?;
    said_of_head(alloc, explanation)
}
