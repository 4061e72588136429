//! Readers and writers that fail, each read and each write in turn.
//!
//! A row is a bundle of a map and a script. Of it are tried: its run by lines and by its trace, the bundle itself, its
//! map alone, and the judge of the trace. The program is to end with status 3, the complaint, and a prefix of what it
//! writes otherwise.

mod job;
mod trial;

use crate::run::trace_of;
use job::{Streams, Task, outcome_of};
use std::alloc::{Alloc, AllocError, Global};
use std::sync::Wait;
use std::thread::Threads;
use test_kit::{Block, Bundle, blocks_of};
use trial::{Good, Trial, is_good};

/// The line of a trial.
fn line_of(
    alloc: Global,
    name: &str,
    task: Task,
    trial: Trial,
    is_good: bool,
) -> Result<String, AllocError> {
    let answer = if is_good { "as it should" } else { "WRONG" };
    format!(in alloc; "{name}, {}: {}: {answer}\n", task.name(), trial.name())
}

/// Prints each trial of a job by these streams.
fn tell_task<R: Alloc<A = Global> + Threads + Sync + Wait>(
    rt: &R,
    name: &str,
    task: Task,
    streams: Streams<'_>,
    told: &mut Vec<u8>,
) -> Result<(), AllocError> {
    let wanted = outcome_of(rt, task, streams)?;
    let good = Good {
        task,
        streams,
        wanted: &wanted,
    };
    for trial in Trial::ALL {
        if trial.is_of(task) {
            let is_good = wanted.status == 0 && is_good(rt, good, trial)?;
            let line = line_of(rt.alloc(), name, task, trial, is_good)?;
            told.extend_from_slice(line.as_bytes())?;
        }
    }
    Ok(())
}

/// Prints each job that is tried of a test case.
fn tell_row<R: Alloc<A = Global> + Threads + Sync + Wait>(
    rt: &R,
    block: Block<'_>,
    bundle: Bundle<'_>,
    told: &mut Vec<u8>,
) -> Result<(), AllocError> {
    let trace = trace_of(rt, bundle)?;
    for task in Task::ALL {
        let second = match task {
            Task::Judge => trace.as_slice(),
            _ => bundle.script,
        };
        let streams = Streams::of(bundle.map, second, block.text);
        tell_task(rt, block.name, task, streams, told)?;
    }
    Ok(())
}

/// Prints each test case.
pub(crate) fn tell<R: Alloc<A = Global> + Threads + Sync + Wait>(
    rt: &R,
    text: &[u8],
    told: &mut Vec<u8>,
) -> Result<(), AllocError> {
    for block in &blocks_of(rt.alloc(), text, b"= ")? {
        if let Some(bundle) = Bundle::of(block.text) {
            tell_row(rt, *block, bundle, told)?;
        }
    }
    Ok(())
}
