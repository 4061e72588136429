//! A job by readers and writers that may fail.

use crate::words::words_of;
use errands_lib::{InputFault, Inputs, run_words};
use std::alloc::{Alloc, AllocError, Global};
use std::sync::Wait;
use std::thread::Threads;
use test_kit::{Outcome, Room, Sink, Source};

/// A job of the program that is tried.
#[derive(Clone, Copy, PartialEq, Eq)]
pub(crate) enum Task {
    Lines,
    Trace,
    Bundle,
    Map,
    Judge,
}

/// Where a job reads.
#[derive(Clone, Copy, PartialEq, Eq)]
pub(crate) enum Place {
    FirstFile,
    SecondFile,
    Input,
}

impl Task {
    pub(crate) const ALL: [Task; 5] = [
        Task::Lines,
        Task::Trace,
        Task::Bundle,
        Task::Map,
        Task::Judge,
    ];

    pub(crate) fn name(self) -> &'static str {
        match self {
            Task::Lines => "lines",
            Task::Trace => "trace",
            Task::Bundle => "bundle",
            Task::Map => "map",
            Task::Judge => "judge",
        }
    }

    /// The program's words after its own name.
    fn words(self) -> &'static str {
        match self {
            Task::Lines => "run first second",
            Task::Trace => "run --trace first second",
            Task::Bundle => "",
            Task::Map => "map first",
            Task::Judge => "judge first second",
        }
    }

    /// Where the job reads, in its order.
    pub(crate) fn places(self) -> &'static [Place] {
        match self {
            Task::Lines | Task::Trace | Task::Judge => &[Place::FirstFile, Place::SecondFile],
            Task::Bundle => &[Place::Input],
            Task::Map => &[Place::FirstFile],
        }
    }
}

/// What a job reads, and how much room there is for what it writes.
#[derive(Clone, Copy)]
pub(crate) struct Streams<'a> {
    first: Source<'a>,
    second: Source<'a>,
    input: Source<'a>,
    pub(crate) output: Room,
    pub(crate) error: Room,
}

impl<'a> Streams<'a> {
    /// Readers of these texts, and writers, none of which fails.
    pub(crate) fn of(first: &'a [u8], second: &'a [u8], input: &'a [u8]) -> Streams<'a> {
        Streams {
            first: Source::of(first),
            second: Source::of(second),
            input: Source::of(input),
            output: Room::ALL,
            error: Room::ALL,
        }
    }

    pub(crate) fn source(&self, place: Place) -> Source<'a> {
        match place {
            Place::FirstFile => self.first,
            Place::SecondFile => self.second,
            Place::Input => self.input,
        }
    }

    /// The same with another reader there.
    pub(crate) fn with(self, place: Place, source: Source<'a>) -> Streams<'a> {
        let mut streams = self;
        match place {
            Place::FirstFile => streams.first = source,
            Place::SecondFile => streams.second = source,
            Place::Input => streams.input = source,
        }
        streams
    }
}

impl<'a> Inputs for Streams<'a> {
    type File = Source<'a>;

    type Input = Source<'a>;

    ghost opens = { λ _ _ _ _. Unit {0} };

    ghost reads = { λ _ _ _. Unit {0} };

    fn open(&mut self, name: &str) -> Result<Source<'a>, InputFault> {
        match name {
            "first" => Ok(self.first),
            "second" => Ok(self.second),
            _ => Err(InputFault::File),
        }
    }

    fn input(&mut self) -> Source<'a> {
        self.input
    }
}

/// The result of a job over these streams.
pub(crate) fn outcome_of<R: Alloc<A = Global> + Threads + Sync + Wait>(
    rt: &R,
    task: Task,
    streams: Streams<'_>,
) -> Result<Outcome, AllocError> {
    let alloc = rt.alloc();
    let words = words_of(alloc, task.words())?;
    let mut inputs = streams;
    let mut output = Sink::new(alloc, streams.output);
    let mut error = Sink::new(alloc, streams.error);
    let status = run_words(rt, &words, &mut inputs, &mut output, &mut error);
    Ok(Outcome {
        status,
        output: output.bytes,
        complaint: error.bytes,
    })
}
