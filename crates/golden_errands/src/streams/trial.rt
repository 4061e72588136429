//! Trials of a job: its readers and writers fail, each in turn.

use super::job::{Place, Streams, Task, outcome_of};
use std::alloc::{Alloc, AllocError, Global};
use std::sync::Wait;
use std::thread::Threads;
use test_kit::{Full, Outcome, Room, Source};

/// The greatest length of a file.
const MOST: u64 = 16_777_216;

/// A job whose readers and writers are good, and its result.
#[derive(Clone, Copy)]
pub(crate) struct Good<'a> {
    pub(crate) task: Task,
    pub(crate) streams: Streams<'a>,
    pub(crate) wanted: &'a Outcome,
}

/// What is tried.
#[derive(Clone, Copy)]
pub(crate) enum Trial {
    /// Reads of one byte: the same comes out.
    ByteByByte,
    /// Each read of a byte fails in turn, the one that finds the end of the file too: a file failed, and nothing is
    /// written.
    EachRead,
    /// Each write fails in turn: a prefix of the output is written, and a file failed.
    EachWrite,
    /// Each write takes no byte in turn: alike.
    EachEmptyWrite,
    /// Each write of the complaint fails in turn: the status stays, and so does a prefix of the complaint.
    EachComplaint,
    /// A script that goes on with line feeds: to the greatest length of a file the same comes out, with one byte more a
    /// file failed, and so it does where it never ends. For the lines alone, since it takes long.
    LongFiles,
}

impl Trial {
    pub(crate) const ALL: [Trial; 6] = [
        Trial::ByteByByte,
        Trial::EachRead,
        Trial::EachWrite,
        Trial::EachEmptyWrite,
        Trial::EachComplaint,
        Trial::LongFiles,
    ];

    pub(crate) fn name(self) -> &'static str {
        match self {
            Trial::ByteByByte => "read byte by byte",
            Trial::EachRead => "each read fails",
            Trial::EachWrite => "each write fails",
            Trial::EachEmptyWrite => "each write takes no byte",
            Trial::EachComplaint => "each write of the complaint fails",
            Trial::LongFiles => "long files",
        }
    }

    /// Whether this is tried of the task.
    pub(crate) fn is_of(self, task: Task) -> bool {
        !matches!(self, Trial::LongFiles) || matches!(task, Task::Lines)
    }
}

/// Whether the same comes of these streams as of good ones.
fn is_like<R: Alloc<A = Global> + Threads + Sync + Wait>(
    rt: &R,
    good: Good<'_>,
    streams: Streams<'_>,
) -> Result<bool, AllocError> {
    Ok(outcome_of(rt, good.task, streams)?.is_like(good.wanted))
}

/// Whether a file failed in a job by these streams.
fn fails<R: Alloc<A = Global> + Threads + Sync + Wait>(
    rt: &R,
    task: Task,
    streams: Streams<'_>,
) -> Result<bool, AllocError> {
    Ok(outcome_of(rt, task, streams)?.is_file_fault())
}

fn byte_by_byte<R: Alloc<A = Global> + Threads + Sync + Wait>(
    rt: &R,
    good: Good<'_>,
) -> Result<bool, AllocError> {
    let mut streams = good.streams;
    for place in good.task.places() {
        let mut source = streams.source(*place);
        source.step = 1;
        streams = streams.with(*place, source);
    }
    is_like(rt, good, streams)
}

/// Whether a file failed at each read from this place, of a byte each, and at the one that finds the end.
fn each_read_of<R: Alloc<A = Global> + Threads + Sync + Wait>(
    rt: &R,
    good: Good<'_>,
    place: Place,
) -> Result<bool, AllocError> {
    let mut named = true;
    let mut source = good.streams.source(place);
    source.step = 1;
    for good_reads in 0..=source.bytes.len() as u64 {
        source.good_reads = good_reads;
        named &= fails(rt, good.task, good.streams.with(place, source))?;
    }
    Ok(named)
}

fn each_read<R: Alloc<A = Global> + Threads + Sync + Wait>(
    rt: &R,
    good: Good<'_>,
) -> Result<bool, AllocError> {
    let mut named = true;
    for place in good.task.places() {
        named &= each_read_of(rt, good, *place)?;
    }
    Ok(named)
}

/// Whether that is the result of a job of whose output this many bytes were written.
fn is_prefix(met: &Outcome, wanted: &Outcome, writes: u64) -> bool {
    met.status == 3
        && met.complaint.as_slice() == Outcome::FILE_COMPLAINT
        && met.output.len() as u64 == writes
        && wanted.output.starts_with(&met.output)
}

fn each_write<R: Alloc<A = Global> + Threads + Sync + Wait>(
    rt: &R,
    good: Good<'_>,
    full: Full,
) -> Result<bool, AllocError> {
    let mut streams = good.streams;
    let mut named = true;
    for writes in 0..good.wanted.output.len() as u64 {
        streams.output = Room { writes, full };
        let met = outcome_of(rt, good.task, streams)?;
        named &= is_prefix(&met, good.wanted, writes);
    }
    Ok(named)
}

/// Whether that is the result of a job that wrote nothing but this many bytes of the complaint.
fn is_prefix_of_complaint(met: &Outcome, writes: u64) -> bool {
    met.status == 3
        && met.output.is_empty()
        && met.complaint.len() as u64 == writes
        && Outcome::FILE_COMPLAINT.starts_with(&met.complaint)
}

fn each_complaint<R: Alloc<A = Global> + Threads + Sync + Wait>(
    rt: &R,
    good: Good<'_>,
) -> Result<bool, AllocError> {
    let mut streams = good.streams;
    streams.output = Room {
        writes: 0,
        full: Full::Fails,
    };
    let mut named = true;
    for writes in 0..Outcome::FILE_COMPLAINT.len() as u64 {
        streams.error = Room {
            writes,
            full: Full::Fails,
        };
        let met = outcome_of(rt, good.task, streams)?;
        named &= is_prefix_of_complaint(&met, writes);
    }
    Ok(named)
}

/// The streams where line feeds stand after the text of the last place, of which this many bytes are read at once.
fn longer<'a>(good: Good<'a>, place: Place, line_feeds: u64, step: usize) -> Streams<'a> {
    let mut source = good.streams.source(place);
    source.line_feeds = line_feeds;
    source.step = step;
    good.streams.with(place, source)
}

fn long_files<R: Alloc<A = Global> + Threads + Sync + Wait>(
    rt: &R,
    good: Good<'_>,
) -> Result<bool, AllocError> {
    let Some(place) = good.task.places().last() else {
        return Ok(false);
    };
    let Source { bytes, step, .. } = good.streams.source(*place);
    let line_feeds = MOST.saturating_sub(bytes.len() as u64);
    let most = longer(good, *place, line_feeds, step);
    let more = longer(good, *place, line_feeds.saturating_add(1), step);
    let endless = longer(good, *place, u64::MAX, 1);
    Ok(is_like(rt, good, most)? && fails(rt, good.task, more)? && fails(rt, good.task, endless)?)
}

/// Whether the program ends as it should in this trial.
pub(crate) fn is_good<R: Alloc<A = Global> + Threads + Sync + Wait>(
    rt: &R,
    good: Good<'_>,
    trial: Trial,
) -> Result<bool, AllocError> {
    match trial {
        Trial::ByteByByte => byte_by_byte(rt, good),
        Trial::EachRead => each_read(rt, good),
        Trial::EachWrite => each_write(rt, good, Full::Fails),
        Trial::EachEmptyWrite => each_write(rt, good, Full::TakesNone),
        Trial::EachComplaint => each_complaint(rt, good),
        Trial::LongFiles => long_files(rt, good),
    }
}
