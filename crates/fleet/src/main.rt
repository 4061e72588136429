//! `fleet`: for the people around a fleet of robots. `fleet view MAP TRACE..` prints a page that replays traces on a
//! map, with `--svg` a moving picture, with `--tick N` a picture of what stands after N ticks. `fleet check MAP PLAN`
//! judges a plan of any planner. `fleet stats MAP TRACE..` prints figures of traces. `fleet talk MAP` answers lines as
//! they come. `fleet convert --to FORM MAP INPUT` prints a trace as a plan, or a plan as a trace, and `fleet explain
//! MAP [INPUT]` says what is wrong with files. `fleet live MAP` keeps a fleet in real time. `fleet judge MAP TRACE..`
//! judges traces, and `fleet map --robots N MAP` says what a map offers for a fleet. `fleet execute MAP PLAN`
//! executes a plan, `fleet sim MAP` runs experiments on a map, and `fleet change MAP CHANGE..` changes the site of a
//! fleet between two runs. What each word does is in `fleet_lib`.
#![tactic(auto)]

mod chain;
mod change;
mod chapters;
mod check;
mod convert;
mod density;
mod descriptors;
mod ends;
mod execute;
mod explain;
mod figures;
mod files;
mod folder;
mod folder_line;
mod inputs;
mod journal;
mod journals;
mod judge;
mod kept_file;
mod live;
mod lock;
mod map;
mod piped;
mod placed;
mod recalling;
mod recovering;
mod sim;
mod sim_texts;
mod sites;
mod stats;
mod streams;
mod talk;
mod troubles;
mod vehicles;
mod view;

use change::run_change;
use check::run_check;
use convert::run_convert;
use descriptors::are_open;
use execute::execute_plan;
use explain::run_explain;
use fleet_lib::{InputFault, Job, WordFault, fail, parse_words, write_whole};
use folder::{Start, hold_folder, tell_start};
use folder_line::complain_of_folder;
use judge::run_judge;
use live::{Kit, hold_live, kit_of};
use map::run_map;
use piped::Piped;
use sim::run_sim;
use stats::run_stats;
use std::alloc::{Alloc, Global};
use std::env::{self, Env};
use std::fs::Files;
use std::io::{self, ErrorKind, Write};
use std::process::ExitCode;
use talk::talk_in_folder;
use vehicles::drive_vehicles;
use view::run_view;

/// The words that the program was given.
fn words_given(rt: &(impl Env + Alloc<A = Global>)) -> io::Result<Vec<String>> {
    Ok(env::args(rt)?.collect(rt.alloc())?)
}

/// Says that the words could not be read: memory ran out, or one is no text. Returns the status.
fn fail_words<E: Write>(fault: &io::Error, error: &mut E) -> u8 {
    if fault.kind() == ErrorKind::OutOfMemory {
        return fail(InputFault::NoMemory, error);
    }
    write_whole(
        error,
        b"error: invalid UTF-8 was detected in one or more arguments\n",
    );
    2
}

/// The job that the program's words name, or the status where they name none. Help that they ask for is printed.
fn job_given<W: Write, E: Write>(
    rt: &(impl Env + Alloc<A = Global>),
    output: &mut W,
    error: &mut E,
) -> Result<Job, u8> {
    let words = match words_given(rt) {
        Ok(words) => words,
        Err(fault) => return Err(fail_words(&fault, error)),
    };
    match parse_words(rt.alloc(), &words) {
        Ok(job) => Ok(job),
        Err(WordFault::NoMemory) => Err(fail(InputFault::NoMemory, error)),
        Err(WordFault::Help(text)) => {
            if write_whole(output, text.as_bytes()) {
                Err(0)
            } else {
                Err(fail(InputFault::File, error))
            }
        }
        Err(WordFault::Words(text)) => {
            write_whole(error, text.as_bytes());
            Err(2)
        }
    }
}

/// The job that can be done, or the status where none can: a conversation needs its input and its output.
fn job_open<W: Write, E: Write>(
    rt: &(impl Env + Files + Alloc<A = Global>),
    output: &mut W,
    error: &mut E,
) -> Result<Job, u8> {
    let job = job_given(rt, output, error)?;
    let talks = matches!(
        &job,
        Job::Talk(_) | Job::Live(_) | Job::Execute(_) | Job::Vehicles(_)
    );
    if talks && !are_open(rt, error) {
        return Err(3);
    }
    Ok(job)
}

fn main(rt: HostRuntime) -> ExitCode {
    let mut output = Piped::new(rt.stdout());
    let mut error = rt.stderr();
    let status = match job_open(&rt, &mut output, &mut error) {
        Ok(Job::View(view)) => run_view(&rt, &view, &mut output, &mut error),
        Ok(Job::Check(check)) => run_check(&rt, &check, &mut output, &mut error),
        // Who holds a conversation is told that its answers are not read.
        Ok(Job::Talk(talk)) => talk_in_folder(&rt, &talk, (rt.stdin(), rt.stdout()), &mut error),
        Ok(Job::Convert(convert)) => run_convert(&rt, &convert, &mut output, &mut error),
        Ok(Job::Explain(explain)) => run_explain(&rt, &explain, &mut output, &mut error),
        Ok(Job::Stats(stats)) => run_stats(&rt, &stats, &mut output, &mut error),
        Ok(Job::Judge(judge)) => run_judge(&rt, &judge, &mut output, &mut error),
        Ok(Job::Sim(asked)) => run_sim(&rt, &asked, &mut output, &mut error),
        Ok(Job::Change(change)) => run_change(&rt, &change, &mut output, &mut error),
        Ok(Job::Map(asked)) => run_map(&rt, &asked, &mut output, &mut error),
        // Who executes a plan is told that its moves are not read.
        Ok(Job::Execute(execute)) => {
            let mut moves = rt.stdout();
            execute_plan(&rt, &execute, (rt.stdin(), &mut moves), &mut error)
        }
        // Who drives vehicles is told that nothing is read of what is said.
        Ok(Job::Vehicles(asked)) => {
            let mut said = rt.stdout();
            drive_vehicles(&rt, &asked, (rt.stdin(), &mut said), &mut error)
        }
        Ok(Job::Live(live)) => {
            let name = live.traces.as_deref();
            let start = Start::of(live.resume, live.resume_only);
            match hold_folder(&rt, name, start) {
                Ok((folder, found)) => {
                    tell_start(start, &found, &mut error);
                    let streams = (rt.stdin(), rt.stdout());
                    let status = match kit_of(&rt, &live, streams, &mut error) {
                        Ok(
                            Kit {
                                troubles,
                                talk,
                                told,
                                sink,
                                journal,
                            },
                        ) => {
                            let mut said = Vec::new(rt.alloc());
                            let ends = (error, &mut said);
                            // Called here, where it is known of the runtime that threads may share it.
                            let kept = (sink, journal);
                            let status = hold_live(&rt, (&live, found), talk, told, ends, kept);
                            let folder = name.unwrap_or("");
                            troubles.tell(rt.alloc(), (status, &said), folder, &mut error);
                            status
                        }
                        Err(status) => status,
                    };
                    drop(folder);
                    status
                }
                Err(fault) => complain_of_folder(&rt, fault, name, &mut error),
            }
        }
        Err(status) => status,
    };
    ExitCode::from(status)
}
