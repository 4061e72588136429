//! The traces that a job names; a plan is taken as a trace.

ghost use Rattle.std.specs.Prelude.{◌≤◌, vec_len};

use crate::ends::{FileFault, file_bytes};
use fleet_lib::{MOST_TRACE_BYTES, Said, Traced, as_shown, as_trace};
use std::alloc::{Alloc, AllocError, Global};
use std::fs::Files;

/// The traces, or what there is to say where a plan gives none.
#[derive(Drop)]
pub(crate) enum Inputs {
    Traces(Vec<Vec<u8>>),
    Refused(Said),
}

/// What a plan is taken as a trace for.
#[derive(Clone, Copy)]
pub(crate) enum PlanUse {
    /// It is counted, so it has to be valid.
    Counted,
    /// It is shown, valid or not.
    Shown,
}

/// A text that is a plan, as a trace; any other text as it is.
fn taken(alloc: Global, map: &[u8], input: Vec<u8>, plan_use: PlanUse) -> Result<Traced, AllocError>
    requires { vec_len input ≤ 1073741824 }
{
    match plan_use {
        PlanUse::Counted => as_trace(alloc, map, input),
        PlanUse::Shown => as_shown(alloc, map, input),
    }
}

/// A text as the only trace, or what there is to say where a plan gives none.
pub(crate) fn only_trace<'a>(
    alloc: Global,
    map: &[u8],
    input: Vec<u8>,
    plan_use: PlanUse,
) -> Result<Inputs, FileFault<'a>>
    requires { vec_len input ≤ 1073741824 }
{
    let mut traces = Vec::new(alloc);
    match taken(alloc, map, input, plan_use)? {
        Traced::Trace(trace) => {
            if traces.push(trace).is_err() {
                return Err(FileFault::NoMemory);
            }
            Ok(Inputs::Traces(traces))
        }
        Traced::Refused(said) => Ok(Inputs::Refused(said)),
    }
}

/// The traces in the files with these names, which are opened and read in their order.
pub(crate) fn traces_in<'a, R: Files + Alloc<A = Global>>(
    rt: &R,
    map: &[u8],
    names: &'a [String],
    plan_use: PlanUse,
) -> Result<Inputs, FileFault<'a>> {
    let mut traces = Vec::new(rt.alloc());
    for name in names {
        let input = file_bytes(rt, name.as_str(), MOST_TRACE_BYTES)?;
        match taken(rt.alloc(), map, input, plan_use)? {
            Traced::Trace(trace) => {
                if traces.push(trace).is_err() {
                    return Err(FileFault::NoMemory);
                }
            }
            Traced::Refused(said) => return Ok(Inputs::Refused(said)),
        }
    }
    Ok(Inputs::Traces(traces))
}
