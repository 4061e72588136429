//! The word `explain`.

use crate::chain::{Chain, broken_said};
use crate::ends::{FileFault, MOST_MAP_BYTES, complain, file_bytes};
use fleet_lib::{
    Explain, MOST_SCRIPT_BYTES, MOST_TRACE_BYTES, Said, answer_explain_head, answer_explain_map,
    answer_explain_plan, answer_explain_script, answer_explain_trace, is_plan, tell,
};
use std::alloc::{Alloc, Global};
use std::fs::Files;
use std::io::Write;

/// Whether the text is taken for a trace: its first byte after white space is `{`.
fn is_trace(text: &[u8]) -> bool {
    for byte in text {
        if !matches!(*byte, b' ' | b'\t' | b'\n' | b'\r') {
            return *byte == b'{';
        }
    }
    false
}

/// The answer to the files, which are opened and read in their order. A chapter has to be of the map of the last changes
/// before it.
fn answer_files<'a, R: Files + Alloc<A = Global> + Clone + Drop>(
    rt: &R,
    explain: &'a Explain,
) -> Result<Said, FileFault<'a>> {
    let map = file_bytes(rt, explain.map.as_str(), MOST_MAP_BYTES)?;
    let Some(name) = &explain.other else {
        return Ok(answer_explain_map(rt.alloc(), &map)?);
    };
    if explain.head {
        let head = file_bytes(rt, name.as_str(), MOST_SCRIPT_BYTES)?;
        return Ok(answer_explain_head(rt.alloc(), &map, &head)?);
    }
    let other = file_bytes(rt, name.as_str(), MOST_TRACE_BYTES)?;
    if is_plan(&other) {
        return Ok(answer_explain_plan(rt.alloc(), &map, &other)?);
    }
    if is_trace(&other) {
        let mut chain = Chain::new(map);
        return match chain.come_to(rt, name.as_str(), &other) {
            Ok(()) => Ok(answer_explain_trace(rt.alloc(), &chain.map, &other)?),
            Err(broken) => Ok(broken_said(rt.alloc(), broken)?),
        };
    }
    if other.len() > MOST_SCRIPT_BYTES {
        return Err(FileFault::TooLarge(name.as_str()));
    }
    Ok(answer_explain_script(rt.alloc(), &map, &other)?)
}

/// Says what is wrong with the files. Returns the status: 0 nothing, 3 a file failed, 4 the map, 5 the script or 6 the
/// trace or the plan is refused, 7 memory ran out.
pub(crate) fn run_explain<R: Files + Alloc<A = Global> + Clone + Drop, W: Write, E: Write>(
    rt: &R,
    explain: &Explain,
    output: &mut W,
    error: &mut E,
) -> u8 {
    match answer_files(rt, explain) {
        Ok(said) => tell(&said, output, error),
        Err(fault) => complain(rt, fault, error),
    }
}
