//! Plans as traces.

ghost use Rattle.std.specs.Prelude.{◌≡◌, ◌≤◌, None, true, length, vec_len, IfOk};
ghost use Rattle.fleet_lib.specs.Said.{said_of};
ghost use Rattle.fleet_lib.specs.PlanTrace.{plan_refused, untraced, is_conflict, IsTraceOutcome, IsTracedBy, IsTracedAs, IsShownBy, IsShownAs};
ghost use Rattle.fleet_convert.specs.PlanTrace.{IsUntraced};
ghost use Rattle.fleet_convert.specs.Shown.{IsInvalidShown};

use crate::check::{InvalidText, refused, said_of_answer};
use crate::said::Said;
use fleet_convert::{TracingFault, trace_of_invalid, trace_of_plan};
use fleet_plans::{MOST_PLAN_BYTES, PlanAnswer, is_plan};
use std::alloc::{AllocError, Global};

/// A trace, or what there is to say where a plan gives none.
#[derive(Debug, Drop)]
pub enum Traced {
    Trace(Vec<u8>),
    Refused(Said),
}

/// The answer to a plan that gives no trace.
pub(crate) fn plan_refused(alloc: Global, answer: PlanAnswer) -> Result<Said, AllocError>
    ensures { IfOk result (λ s. said_of s ≡ plan_refused answer) }
{
    match answer {
        PlanAnswer::Invalid(fault) => {
            let line = InvalidText(fault);
            let text = format!(in alloc; "fleet: {line}")?;
            Ok(refused(alloc, text, 6))
        }
        other => said_of_answer(alloc, other),
    }
}

/// The answer where there is no trace.
fn untraced(alloc: Global, fault: TracingFault) -> Result<Said, AllocError>
    ensures { IfOk result (λ s. said_of s ≡ untraced fault) }
{
    match fault {
        TracingFault::NoPlan(answer) => plan_refused(alloc, answer),
        TracingFault::TooManyRobots => {
            let text = String::from_str(alloc, "fleet: 512 robots at most\n")?;
            Ok(refused(alloc, text, 6))
        }
        TracingFault::Illegal { at, rule } => {
            let text = format!(in alloc; "fleet: illegal {at} {rule}\n")?;
            Ok(refused(alloc, text, 6))
        }
        TracingFault::NoMemory => {
            let text = String::from_str(alloc, "fleet: memory\n")?;
            Ok(refused(alloc, text, 7))
        }
    }
}

/// The answer to a map and a plan that is to be a trace: what `trace_of_plan` makes of them.
pub fn answer_trace(alloc: Global, map: &[u8], plan: &[u8]) -> Result<Said, AllocError>
    requires { length plan.now ≤ MOST_PLAN_BYTES }
    ensures { IfOk result (λ s. IsTraceOutcome map.now plan.now (said_of s)) }
{
    match trace_of_plan(alloc, map, plan) {
        Ok(text) => Ok(Said {
            output: Vec::from_slice(alloc, text.as_bytes())?,
            status: 0,
            complaint: String::new(alloc),
        }),
        Err(fault) => untraced(alloc, fault),
    }
}

/// The trace of a plan.
fn trace_made(alloc: Global, map: &[u8], plan: &[u8]) -> Result<Traced, AllocError>
    requires { length plan.now ≤ MOST_PLAN_BYTES }
    ensures { IfOk result (λ t. IsTracedBy map.now plan.now t) }
{
    match trace_of_plan(alloc, map, plan) {
        Ok(text) => Ok(Traced::Trace(Vec::from_slice(alloc, text.as_bytes())?)),
        Err(fault) => Ok(Traced::Refused(untraced(alloc, fault)?)),
    }
}

/// A text that is a plan, as a trace; any other text as it is.
pub fn as_trace(alloc: Global, map: &[u8], input: Vec<u8>) -> Result<Traced, AllocError>
    requires { vec_len input ≤ MOST_PLAN_BYTES }
    ensures { IfOk result (λ t. IsTracedAs map.now input.items t) }
{
    if is_plan(&input) {
        trace_made(alloc, map, &input)
    } else {
        Ok(Traced::Trace(input))
    }
}

/// Whether a plan was read and breaks a rule.
fn is_conflict(fault: TracingFault) -> bool
    ensures { result ≡ is_conflict fault }
{
    matches!(fault, TracingFault::NoPlan(PlanAnswer::Invalid(_)))
}

/// Nothing is shown of a plan, for this reason.
fn unshown(
    alloc: Global,
    map: &[u8],
    plan: &[u8],
    fault: TracingFault,
) -> Result<Traced, AllocError>
    requires told { IsUntraced map.now plan.now fault }
    requires unfit { is_conflict fault ≡ true → IsInvalidShown map.now plan.now None }
    ensures { IfOk result (λ t. IsShownBy map.now plan.now t) }
{
    Ok(Traced::Refused(untraced(alloc, fault)?))
}

/// What is shown of a plan that breaks a rule.
fn shown_conflict(
    alloc: Global,
    map: &[u8],
    plan: &[u8],
    fault: TracingFault,
) -> Result<Traced, AllocError>
    requires short { length plan.now ≤ MOST_PLAN_BYTES }
    requires told { IsUntraced map.now plan.now fault }
    ensures { IfOk result (λ t. IsShownBy map.now plan.now t) }
{
    match trace_of_invalid(alloc, map, plan)? {
        Some(text) => Ok(Traced::Trace(Vec::from_slice(alloc, text.as_bytes())?)),
        None => unshown(alloc, map, plan, fault),
    }
}

/// What is shown of a plan that has no legal trace, for this reason.
fn shown_of(
    alloc: Global,
    map: &[u8],
    plan: &[u8],
    fault: TracingFault,
) -> Result<Traced, AllocError>
    requires short { length plan.now ≤ MOST_PLAN_BYTES }
    requires told { IsUntraced map.now plan.now fault }
    ensures { IfOk result (λ t. IsShownBy map.now plan.now t) }
{
    if is_conflict(fault) {
        return shown_conflict(alloc, map, plan, fault);
    }
    unshown(alloc, map, plan, fault)
}

/// What is shown of a plan.
fn shown_made(alloc: Global, map: &[u8], plan: &[u8]) -> Result<Traced, AllocError>
    requires { length plan.now ≤ MOST_PLAN_BYTES }
    ensures { IfOk result (λ t. IsShownBy map.now plan.now t) }
{
    match trace_of_plan(alloc, map, plan) {
        Ok(text) => Ok(Traced::Trace(Vec::from_slice(alloc, text.as_bytes())?)),
        Err(fault) => shown_of(alloc, map, plan, fault),
    }
}

/// A text that is a plan, as a trace to be looked at: also one that breaks a rule, if it has 512 robots at most and its
/// cells are on the map. Any other text as it is.
pub fn as_shown(alloc: Global, map: &[u8], input: Vec<u8>) -> Result<Traced, AllocError>
    requires { vec_len input ≤ MOST_PLAN_BYTES }
    ensures { IfOk result (λ t. IsShownAs map.now input.items t) }
{
    if is_plan(&input) {
        shown_made(alloc, map, &input)
    } else {
        Ok(Traced::Trace(input))
    }
}
