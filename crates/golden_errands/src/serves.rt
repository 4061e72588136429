//! Scripts that the program serves, and the judge's answer to the traces that it writes of them.
//!
//! A row is a bundle of a map and a script of posts and collects. Its line is the same in every schedule: the status
//! and the complaint of the serve, what `judge` prints of its trace, how many of the posts the trace takes (where a
//! post met a full lane: that it takes fewer), and the arrivals.

use crate::words::words_of;
use errands_lib::{InputFault, Inputs, run_words};
use fleet_history::Entry;
use fleet_trace::read_trace;
use std::alloc::{Alloc, AllocError, Global};
use std::fmt::Write;
use std::sync::Wait;
use std::thread::Threads;
use test_kit::{Bundle, Outcome, blocks_of};

/// The status of a serve in which a post met a full lane.
const LIMIT: u8 = 8;

/// The files of a serve and of its judge.
#[derive(Clone, Copy)]
struct ServeFiles<'a> {
    map: &'a [u8],
    script: &'a [u8],
    trace: &'a [u8],
}

impl<'a> Inputs for ServeFiles<'a> {
    type File = &'a [u8];

    type Input = &'a [u8];

    ghost opens = { λ _ _ _ _. Unit {0} };

    ghost reads = { λ _ _ _. Unit {0} };

    fn open(&mut self, name: &str) -> Result<&'a [u8], InputFault> {
        match name {
            "map" => Ok(self.map),
            "script" => Ok(self.script),
            "trace" => Ok(self.trace),
            _ => Err(InputFault::File),
        }
    }

    fn input(&mut self) -> &'a [u8] {
        b""
    }
}

/// The program's result for these words and files.
fn outcome_of<R: Alloc<A = Global> + Threads + Sync + Wait>(
    rt: &R,
    words: &str,
    files: ServeFiles<'_>,
) -> Result<Outcome, AllocError> {
    let words = words_of(rt.alloc(), words)?;
    let mut inputs = files;
    let mut output = Vec::new(rt.alloc());
    let mut complaint = Vec::new(rt.alloc());
    let status = run_words(rt, &words, &mut inputs, &mut output, &mut complaint);
    Ok(Outcome {
        status,
        output,
        complaint,
    })
}

/// How many orders a trace takes, and how many arrivals it has. Nothing where it is no trace.
#[derive(Clone, Copy)]
struct Counts {
    takes: u64,
    arrivals: u64,
}

fn counts_of(alloc: Global, trace: &[u8]) -> Option<Counts> {
    let chapter = read_trace(alloc, trace).ok()?;
    let mut takes = 0u64;
    let mut arrivals = 0u64;
    for entry in &chapter.entries {
        match entry {
            Entry::Take { .. } => takes = takes.saturating_add(1),
            Entry::Tick { arrived, .. } => {
                arrivals = arrivals.saturating_add(arrived.len() as u64);
            }
            Entry::Shut { .. } => {}
        }
    }
    Some(Counts { takes, arrivals })
}

/// How many orders the script posts.
fn posts_of(script: &[u8]) -> u64 {
    let lines = script.split(|byte| *byte == b'\n');
    lines.filter(|line| line.starts_with(b"post ")).count() as u64
}

/// Writes of the orders and arrivals of a serve that ended with this status.
fn write_counts(
    line: &mut String,
    status: u8,
    posts: u64,
    counts: Option<Counts>,
) -> Result<(), AllocError> {
    let Some(Counts { takes, arrivals }) = counts else {
        return line.push_str("no trace");
    };
    if status == LIMIT && takes < posts {
        return write!(line, "orders {posts}, fewer taken, arrivals {arrivals}");
    }
    write!(line, "orders {posts}, taken {takes}, arrivals {arrivals}")
}

/// The text without its line end.
fn trimmed(text: &[u8]) -> &str {
    str::from_utf8(text.trim_ascii()).unwrap_or("no text")
}

/// Prints a test case.
fn tell_row<R: Alloc<A = Global> + Threads + Sync + Wait>(
    rt: &R,
    name: &str,
    bundle: Bundle<'_>,
    told: &mut Vec<u8>,
) -> Result<(), AllocError> {
    let Bundle { map, script } = bundle;
    let files = ServeFiles {
        map,
        script,
        trace: b"",
    };
    let served = outcome_of(rt, "serve map script", files)?;
    let files = ServeFiles {
        map,
        script,
        trace: &served.output,
    };
    let judged = outcome_of(rt, "judge map trace", files)?;
    let status = served.status;
    let complaint = trimmed(&served.complaint);
    let verdict = trimmed(&judged.output);
    let mut line = format!(in rt.alloc();
        "{name}: status {status}, [{complaint}], judged [{verdict}], "
    )?;
    let counts = counts_of(rt.alloc(), &served.output);
    write_counts(&mut line, status, posts_of(script), counts)?;
    line.push_str("\n")?;
    told.extend_from_slice(line.as_bytes())
}

/// Prints each test case.
pub(crate) fn tell<R: Alloc<A = Global> + Threads + Sync + Wait>(
    rt: &R,
    text: &[u8],
    told: &mut Vec<u8>,
) -> Result<(), AllocError> {
    for block in &blocks_of(rt.alloc(), text, b"= ")? {
        if let Some(bundle) = Bundle::of(block.text) {
            tell_row(rt, block.name, bundle, told)?;
        }
    }
    Ok(())
}
