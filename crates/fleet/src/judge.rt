//! The word `judge`.

use crate::chain::{Chain, complain_of_broken};
use crate::ends::{MOST_MAP_BYTES, complain, file_bytes};
use fleet_lib::{InputFault, Judge, MOST_TRACE_BYTES, answer_judge, fail, tell};
use std::alloc::{Alloc, AllocError, Global};
use std::fs::Files;
use std::io::Write;

/// What comes before what is said of a file's trace: its name if there are several.
fn title_of(alloc: Global, is_one: bool, name: &str) -> Result<String, AllocError> {
    if is_one {
        return Ok(String::new(alloc));
    }
    format!(in alloc; "{name}: ")
}

/// Judges a trace, and prints what is said of it under a title. Returns the status.
fn judge_trace<W: Write, E: Write>(
    alloc: Global,
    (is_one, name): (bool, &str),
    (map, trace): (&[u8], &[u8]),
    output: &mut W,
    error: &mut E,
) -> u8 {
    let said = match title_of(alloc, is_one, name) {
        Ok(title) => answer_judge(alloc, title.as_str(), map, trace),
        Err(AllocError) => Err(AllocError),
    };
    match said {
        Ok(said) => tell(&said, output, error),
        Err(AllocError) => fail(InputFault::NoMemory, error),
    }
}

/// Judges the trace in the file with this name on the map on which it was played. The error is the status where no trace
/// after it is judged.
fn judge_file<R: Files + Alloc<A = Global> + Clone + Drop, W: Write, E: Write>(
    rt: &R,
    chain: &mut Chain,
    (is_one, name): (bool, &str),
    output: &mut W,
    error: &mut E,
) -> Result<u8, u8> {
    let trace = match file_bytes(rt, name, MOST_TRACE_BYTES) {
        Ok(trace) => trace,
        Err(fault) => return Err(complain(rt, fault, error)),
    };
    if let Err(broken) = chain.come_to(rt, name, &trace) {
        return Err(complain_of_broken(rt.alloc(), broken, error));
    }
    let texts = (chain.map.as_slice(), trace.as_slice());
    let status = judge_trace(rt.alloc(), (is_one, name), texts, output, error);
    if chain.leave(rt.alloc(), name, trace).is_err() {
        return Err(fail(InputFault::NoMemory, error));
    }
    match status {
        0 | 6 => Ok(status),
        status => Err(status),
    }
}

/// Judges the traces, one after the other. A chapter with a record of changes next to it has to begin with what they
/// make of the chapter before it, and is judged on their map. Returns the status: 0 all are legal, 3 a file failed, 4
/// the map is refused, 6 a trace or a record is refused, or a trace illegal, 7 memory ran out. Only after a trace that
/// is refused or illegal it goes on with the traces that are left.
pub(crate) fn run_judge<R: Files + Alloc<A = Global> + Clone + Drop, W: Write, E: Write>(
    rt: &R,
    judge: &Judge,
    output: &mut W,
    error: &mut E,
) -> u8 {
    let map = match file_bytes(rt, judge.map.as_str(), MOST_MAP_BYTES) {
        Ok(map) => map,
        Err(fault) => return complain(rt, fault, error),
    };
    let mut chain = Chain::new(map);
    let is_one = judge.traces.len() == 1;
    let mut worst = 0;
    for name in &judge.traces {
        match judge_file(rt, &mut chain, (is_one, name.as_str()), output, error) {
            Ok(0) => {}
            Ok(status) => worst = status,
            Err(status) => return status,
        }
    }
    worst
}
