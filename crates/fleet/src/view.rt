//! The word `view`.

ghost use Rattle.std.specs.Prelude.{◌≤◌, vec_len, IfOk};

use crate::ends::{FileFault, MOST_MAP_BYTES, complain, file_bytes};
use crate::inputs::{Inputs, PlanUse, only_trace, traces_in};
use crate::placed::is_too_long;
use fleet_lib::{
    MOST_TRACE_BYTES, Said, Shown, View, answer_log, answer_many, answer_two, answer_view, is_log,
    is_plan, tell,
};
use std::alloc::{Alloc, Global};
use std::fs::Files;
use std::io::Write;

/// The answer to traces.
fn answer_inputs<'a, R: Alloc<A = Global>>(
    rt: &R,
    shown: Shown,
    map: &[u8],
    inputs: Inputs,
) -> Result<Said, FileFault<'a>> {
    match inputs {
        Inputs::Traces(traces) => Ok(answer_view(rt.alloc(), shown, map, &traces)?),
        Inputs::Refused(said) => Ok(said),
    }
}

/// The answer to one file whose page is asked for: that of a plan with many robots, of a log, else of a
/// trace.
fn answer_one<'a, R: Files + Alloc<A = Global>>(
    rt: &R,
    map: &[u8],
    name: &'a str,
) -> Result<Said, FileFault<'a>> {
    let input = file_bytes(rt, name, MOST_TRACE_BYTES)?;
    if is_log(&input) {
        return Ok(answer_log(rt.alloc(), map, &input)?);
    }
    if is_plan(&input) && !is_too_long(rt.alloc(), map, &input)? {
        if let Some(said) = answer_many(rt.alloc(), map, &input)? {
            return Ok(said);
        }
    }
    let inputs = only_trace(rt.alloc(), map, input, PlanUse::Shown)?;
    answer_inputs(rt, Shown::Page, map, inputs)
}

/// A plan, a log or a trace that is one of two runs.
fn run_in<'a, R: Files + Alloc<A = Global>>(
    rt: &R,
    map: &[u8],
    name: &'a str,
) -> Result<Vec<u8>, FileFault<'a>>
    ensures { IfOk result (λ input. vec_len input ≤ 1073741824) }
{
    let input = file_bytes(rt, name, MOST_TRACE_BYTES)?;
    if is_plan(&input) && is_too_long(rt.alloc(), map, &input)? {
        return Err(FileFault::Dense(name));
    }
    Ok(input)
}

/// The answer to two files whose page is asked for.
fn answer_both<'a, R: Files + Alloc<A = Global>>(
    rt: &R,
    map: &[u8],
    first: &'a str,
    second: &'a str,
) -> Result<Said, FileFault<'a>> {
    let one = run_in(rt, map, first)?;
    let other = run_in(rt, map, second)?;
    Ok(answer_two(rt.alloc(), map, one, other)?)
}

/// The answer to the files, which are opened and read in their order.
fn answer_files<'a, R: Files + Alloc<A = Global>>(
    rt: &R,
    view: &'a View,
) -> Result<Said, FileFault<'a>> {
    let map = file_bytes(rt, view.map.as_str(), MOST_MAP_BYTES)?;
    let names = view.traces.as_slice();
    if view.shown == Shown::Page && names.len() == 1 {
        return answer_one(rt, &map, names[0].as_str());
    }
    if view.shown == Shown::Page && names.len() == 2 {
        return answer_both(rt, &map, names[0].as_str(), names[1].as_str());
    }
    let inputs = traces_in(rt, &map, names, PlanUse::Shown)?;
    answer_inputs(rt, view.shown, &map, inputs)
}

/// Shows the traces. Returns the status: 0 good, 3 a file failed, 4 the map or 6 a trace or a plan is refused, 7 memory
/// ran out.
pub(crate) fn run_view<R: Files + Alloc<A = Global>, W: Write, E: Write>(
    rt: &R,
    view: &View,
    output: &mut W,
    error: &mut E,
) -> u8 {
    match answer_files(rt, view) {
        Ok(said) => tell(&said, output, error),
        Err(fault) => complain(rt, fault, error),
    }
}
