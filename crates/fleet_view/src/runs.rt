//! The page of runs, and the text of a plan on it.

ghost use Rattle.std.specs.Prelude.{◌≡◌, ◌≤◌, ◌++◌, [], List, ℕ, IfOk, OnOk, length, take, string_bytes};
ghost use Rattle.fleet_map.specs.Form.{HasSides};
ghost use Rattle.fleet_map.specs.Grammar.{view};
ghost use Rattle.fleet_view.specs.Runs.{conflict_text, conflicts_text, plan_head, plan_run, runs_page, is_judged, AreConflictsBy, IsPlanRun};

use crate::ending::END;
use crate::frame::{HEAD, TRACES, VERDICTS};
use crate::page::write_rows;
use crate::placed::write_places;
use crate::script::TAIL;
use fleet_conflicts::{Conflict, conflicts_of};
use fleet_map::MapText;
use fleet_plans::{FaultText, MOST_PLAN_BYTES, Placements, PlanAnswer, Study, form_of};
use std::alloc::{AllocError, Global};

/// The greatest number of conflicts that a page lists.
const MOST_LISTED: usize = 20_000;

/// The line of a conflict.
fn conflict_text(alloc: Global, conflict: Conflict) -> Result<String, AllocError>
    ensures { IfOk result (λ text. string_bytes text ≡ conflict_text conflict) }
{
    let (time, fault) = (conflict.time, FaultText(conflict.fault));
    let text = format!(in alloc; "invalid {time} {fault}\n")?;
    Ok(text)
}

/// Writes a line for each conflict.
fn write_conflicts(
    alloc: Global,
    out: &mut Vec<u8>,
    conflicts: &[Conflict],
) -> Result<(), AllocError>
    ensures { OnOk result (out.new.items ≡ out.old.items ++ conflicts_text conflicts.now) }
{
    for conflict in conflicts {
        let text = conflict_text(alloc, *conflict)?;
        out.extend_from_slice(text.as_bytes())?;
    }
    Ok(())
}

/// The first of these conflicts, as many as this at most.
fn first_of(conflicts: &[Conflict], most: usize) -> &[Conflict]
    ensures { result.now ≡ take most conflicts.now }
{
    if conflicts.len() > most {
        conflicts.split_at(most).0
    } else {
        conflicts
    }
}

/// The line before a plan's placements.
fn plan_head(alloc: Global, steps: usize, conflicts: usize) -> Result<String, AllocError>
    ensures { IfOk result (λ text. string_bytes text ≡ plan_head steps conflicts) }
{
    let text = format!(in alloc; "plan {steps} {conflicts}\n")?;
    Ok(text)
}

/// The text of a plan with these placements and conflicts, on a map of this width.
fn plan_run(
    alloc: Global,
    width: u32,
    places: &Placements,
    conflicts: &[Conflict],
) -> Result<Vec<u8>, AllocError>
    ensures { IfOk result (λ run. run.items ≡ plan_run width places.now conflicts.now) }
{
    let head = plan_head(alloc, places.len(), conflicts.len())?;
    let mut out = Vec::from_slice(alloc, head.as_bytes())?;
    write_places(&mut out, width, places)?;
    write_conflicts(alloc, &mut out, first_of(conflicts, MOST_LISTED))?;
    Ok(out)
}

/// The page of a map and of the text of runs on it.
pub(crate) fn runs_page(alloc: Global, floor: &MapText, runs: &[u8]) -> Result<Vec<u8>, AllocError>
    requires { HasSides (view floor.now) }
    ensures { IfOk result (λ page. page.items ≡ runs_page (view floor.now) runs.now) }
{
    let mut out = Vec::from_slice(alloc, HEAD.as_bytes())?;
    write_rows(&mut out, floor.height, floor.width, &floor.cells)?;
    out.extend_from_slice(VERDICTS.as_bytes())?;
    out.extend_from_slice(TRACES.as_bytes())?;
    out.extend_from_slice(runs)?;
    out.extend_from_slice(TAIL.as_bytes())?;
    out.extend_from_slice(END.as_bytes())?;
    Ok(out)
}

/// Whether a plan was read, valid or not.
pub(crate) fn is_judged(answer: PlanAnswer) -> bool
    ensures { result ≡ is_judged answer }
{
    matches!(answer, PlanAnswer::Valid(_) | PlanAnswer::Invalid(_))
}

/// The conflicts of a plan of which this is said.
fn conflicts_by(
    alloc: Global,
    said: PlanAnswer,
    bytes: &[u8],
    plan: &[u8],
) -> Result<Vec<Conflict>, AllocError>
    requires { length plan.now ≤ MOST_PLAN_BYTES }
    ensures { IfOk result (λ conflicts. AreConflictsBy said bytes.now plan.now conflicts.items) }
{
    match said {
        PlanAnswer::Invalid(_) => conflicts_of(alloc, form_of(plan), bytes, plan),
        _ => Ok(Vec::new(alloc)),
    }
}

/// The text of a plan that was studied, on a map of this width.
pub(crate) fn studied_run(
    alloc: Global,
    width: u32,
    bytes: &[u8],
    plan: &[u8],
    study: &Study,
) -> Result<Vec<u8>, AllocError>
    requires { length plan.now ≤ MOST_PLAN_BYTES }
    ensures { IfOk result (λ run. IsPlanRun bytes.now plan.now width study.now.answer study.now.places run.items) }
{
    let conflicts = conflicts_by(alloc, study.answer, bytes, plan)?;
    plan_run(alloc, width, &study.places, &conflicts)
}
