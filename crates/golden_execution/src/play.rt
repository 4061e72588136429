//! Calls, and what they answer.

use crate::opening::{empty, opened};
use crate::print::{tell_move, tell_moves, tell_standings};
use crate::words::numbers_in;
use fleet_execution::{Clearance, Execution, Move};
use std::alloc::{AllocError, Global};
use std::fmt::Write;

/// The number of robots that an execution is asked for.
const MOST_ROBOTS: u32 = 64;

/// Plans a step, if there is room for one and these cells are one.
fn plan(told: &mut String, run: &mut Execution, to: &[u32]) -> Result<(), AllocError> {
    if !run.has_room() {
        return told.push_str("full\n");
    }
    if !run.is_step(to) {
        return told.push_str("conflict\n");
    }
    run.plan(to);
    told.push_str("planned\n")
}

/// All moves that may begin, in the order in which they do.
fn begun_by(alloc: Global, run: &mut Execution) -> Result<Vec<Move>, AllocError> {
    let mut begun = Vec::new(alloc);
    while let Some(one) = run.begin() {
        begun.push(one)?;
    }
    Ok(begun)
}

/// Begins the next move that may begin.
fn begin_one(told: &mut String, run: &mut Execution) -> Result<(), AllocError> {
    told.push_str("begins")?;
    if let Some(one) = run.begin() {
        tell_move(told, one)?;
    }
    told.push_str("\n")
}

/// Takes the report of a robot.
fn report(told: &mut String, run: &mut Execution, numbers: &[u32]) -> Result<(), AllocError> {
    let [robot, ..] = numbers else {
        return told.push_str("no robot\n");
    };
    match run.reached(*robot) {
        Ok(done) => {
            told.push_str("reached")?;
            tell_move(told, done)?;
            told.push_str("\n")
        }
        Err(_) => write!(told, "not-under-way {robot}\n"),
    }
}

/// Makes the call of a line.
fn call(
    alloc: Global,
    told: &mut String,
    run: &mut Execution,
    line: &str,
) -> Result<(), AllocError> {
    let numbers = numbers_in(alloc, line)?;
    if line.starts_with("plan") {
        plan(told, run, &numbers)
    } else if line.starts_with("begin") {
        let begun = begun_by(alloc, run)?;
        tell_moves(told, MOST_ROBOTS, &begun)
    } else if line.starts_with("one") {
        begin_one(told, run)
    } else if line.starts_with("reached") {
        report(told, run, &numbers)
    } else if line.starts_with("stand") {
        tell_standings(told, MOST_ROBOTS, run)
    } else {
        let behind = run.behind();
        write!(told, "behind {behind}\n")
    }
}

/// What the calls of all lines answer. A line `start` begins another execution.
pub(crate) fn play_all(alloc: Global, text: &str) -> Result<String, AllocError> {
    let mut told = String::new(alloc);
    let mut run = empty(alloc)?;
    for line in text.lines() {
        if line.starts_with("start arrived") {
            run = opened(alloc, Clearance::Arrived, &numbers_in(alloc, line)?)?;
        } else if line.starts_with("start") {
            run = opened(alloc, Clearance::Started, &numbers_in(alloc, line)?)?;
        } else {
            call(alloc, &mut told, &mut run, line)?;
        }
    }
    Ok(told)
}
