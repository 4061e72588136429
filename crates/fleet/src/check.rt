//! The word `check`.

use crate::ends::{FileFault, MOST_MAP_BYTES, complain, file_bytes};
use fleet_lib::{
    Check, FormAsked, MOST_PLAN_BYTES, PlanRules, Said, TextForm, answer_check, tell, write_whole,
};
use std::alloc::{Alloc, Global};
use std::fs::Files;
use std::io::Write;

/// The answer to the files, which are opened and read in their order.
fn answer_files<'a, R: Files + Alloc<A = Global>>(
    rt: &R,
    form: Option<TextForm>,
    check: &'a Check,
) -> Result<Said, FileFault<'a>> {
    let map = file_bytes(rt, check.map.as_str(), MOST_MAP_BYTES)?;
    let plan = file_bytes(rt, check.plan.as_str(), MOST_PLAN_BYTES)?;
    let rules = PlanRules {
        form,
        strict: check.strict,
        all: check.all,
        agents: check.agents,
    };
    let Some(name) = &check.goals else {
        return Ok(answer_check(rt.alloc(), rules, None, &map, &plan)?);
    };
    let goals = file_bytes(rt, name.as_str(), MOST_PLAN_BYTES)?;
    let scenario = Some(goals.as_slice());
    Ok(answer_check(rt.alloc(), rules, scenario, &map, &plan)?)
}

/// Prints which forms there are. Returns the status.
pub(crate) fn no_such_form<E: Write>(error: &mut E) -> u8 {
    write_whole(
        error,
        b"error: invalid value for '--form <FORM>'\n  [possible values: lines, bare, agents, table, yaml, lorr, lorr-planner]\n",
    );
    2
}

/// Judges the plan. Returns the status: 0 the plan is valid, 2 no such form, 3 a file failed, 4 the map or 5 the
/// scenario is refused, 6 the plan cannot be read or is not valid, 7 memory ran out.
pub(crate) fn run_check<R: Files + Alloc<A = Global>, W: Write, E: Write>(
    rt: &R,
    check: &Check,
    output: &mut W,
    error: &mut E,
) -> u8 {
    let form = match check.form {
        FormAsked::Found => None,
        FormAsked::Named(form) => Some(form),
        FormAsked::Unknown => return no_such_form(error),
    };
    match answer_files(rt, form, check) {
        Ok(said) => tell(&said, output, error),
        Err(fault) => complain(rt, fault, error),
    }
}
