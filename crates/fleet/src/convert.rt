//! The word `convert`.

use crate::ends::{FileFault, MOST_MAP_BYTES, complain, file_bytes};
use fleet_lib::{
    Convert, MOST_PLAN_BYTES, MOST_TRACE_BYTES, Said, Target, answer_convert, answer_trace, tell,
    write_whole,
};
use std::alloc::{Alloc, Global};
use std::fs::Files;
use std::io::Write;

/// The answer to the files, which are opened and read in their order.
fn answer_files<'a, R: Files + Alloc<A = Global>>(
    rt: &R,
    target: Target,
    convert: &'a Convert,
) -> Result<Said, FileFault<'a>> {
    let map = file_bytes(rt, convert.map.as_str(), MOST_MAP_BYTES)?;
    let name = convert.input.as_str();
    match target {
        Target::Plan(form) => {
            let trace = file_bytes(rt, name, MOST_TRACE_BYTES)?;
            Ok(answer_convert(rt.alloc(), form, &map, &trace)?)
        }
        Target::Trace => {
            let plan = file_bytes(rt, name, MOST_PLAN_BYTES)?;
            Ok(answer_trace(rt.alloc(), &map, &plan)?)
        }
    }
}

/// Writes the trace as a plan, or the plan as a trace. Returns the status: 0 good, 2 no such form, 3 a file failed, 4
/// the map is refused, 6 the trace cannot be read or is not legal, or the plan is not valid, 7 memory ran out.
pub(crate) fn run_convert<R: Files + Alloc<A = Global>, W: Write, E: Write>(
    rt: &R,
    convert: &Convert,
    output: &mut W,
    error: &mut E,
) -> u8 {
    let Some(target) = convert.target else {
        write_whole(
            error,
            b"error: invalid value for '--to <FORM>'\n  [possible values: pibt2, moves, lorr, agents, table, yaml, trace]\n",
        );
        return 2;
    };
    match answer_files(rt, target, convert) {
        Ok(said) => tell(&said, output, error),
        Err(fault) => complain(rt, fault, error),
    }
}
