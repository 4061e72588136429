//! `golden_errands` prints what the programs `errands` and `fleet` answer to stored rows, which it reads from
//! standard input. A line `== NAME` begins a section there, and what is printed of the section stands after the same
//! line:
//!
//! - `== cases`: what the program answers to words, input and files.
//! - `== steps`: whether `check_step` finds each tick of a row's trace conflict-free.
//! - `== serves`: what comes of scripts that the program serves, and whether it finds their traces legal.
//! - `== streams`: whether the program ends as it should where each read and each write fails in turn.
//! - `== twoways`: whether two ways of judging traces come to one answer, on seeded worlds and damaged traces. It has
//!   no rows.
//! - `== maps`: what `fleet map` says of maps.
//! - `== executions`: what `fleet execute` writes.
//! - `== talk`: what is said in conversations as `fleet talk` holds them, also by readers, writers and sinks that
//!   fail.
//! - `== live`: what is said in the first conversation of fleets on demand, as `fleet live` keeps them, and what was
//!   kept of them.
//!
//! A line `= NAME` begins a row of a section, and `case: NAME` one of the last two. What the rows hold is said where
//! the modules begin.
#![tactic(auto)]

mod cases;
mod executions;
mod live;
mod maps;
mod options;
mod run;
mod serves;
mod steps;
mod streams;
mod talk;
mod twoways;
mod words;

use errands_lib::{InputFault, read_whole, write_whole};
use std::alloc::{Alloc, AllocError, Global};
use std::io::{Stderr, Stdout};
use std::process::ExitCode;
use std::sync::Wait;
use std::thread::Threads;
use std::time::Clock;
use test_kit::{Block, blocks_of};

/// Prints a section other than `live`, by its name.
fn tell<R: Alloc<A = Global> + Threads + Sync + Wait>(
    rt: &R,
    section: Block<'_>,
    told: &mut Vec<u8>,
    notes: &mut String,
) -> Result<(), AllocError> {
    match section.name {
        "cases" => cases::tell(rt, section.text, told),
        "steps" => steps::tell(rt, section.text, told),
        "serves" => serves::tell(rt, section.text, told),
        "streams" => streams::tell(rt, section.text, told),
        "twoways" => twoways::tell(rt, told, notes),
        "maps" => maps::tell(rt.alloc(), section.text, told),
        "executions" => executions::tell(rt, section.text, told),
        "talk" => talk::tell(rt, section.text, told),
        _ => Ok(()),
    }
}

/// Prints a section, after the line that begins it. What `live` prints goes to the output at once, after what was
/// printed before.
fn tell_section<
    R: Alloc<A = Global> + Clock + Threads + Sync + Wait + Copy + Send + Drop + 'static,
>(
    rt: &R,
    section: Block<'_>,
    output: (Stdout, Stderr),
    told: &mut Vec<u8>,
    notes: &mut String,
) -> Result<(), AllocError> {
    told.extend_from_slice(b"== ")?;
    told.extend_from_slice(section.name.as_bytes())?;
    told.push(b'\n')?;
    if section.name != "live" {
        return tell(rt, section, told, notes);
    }
    let (mut writer, _) = output;
    write_whole(&mut writer, told);
    told.clear();
    live::tell(rt, section.text, output)
}

/// Prints each section of the text.
fn tell_all<R: Alloc<A = Global> + Clock + Threads + Sync + Wait + Copy + Send + Drop + 'static>(
    rt: &R,
    text: &[u8],
    output: (Stdout, Stderr),
    told: &mut Vec<u8>,
    notes: &mut String,
) -> Result<(), AllocError> {
    for section in &blocks_of(rt.alloc(), text, b"== ")? {
        tell_section(rt, *section, output, told, notes)?;
    }
    Ok(())
}

fn main(rt: HostRuntime) -> ExitCode {
    let text = match read_whole(rt.alloc(), &mut rt.stdin()) {
        Ok(text) => text,
        Err(InputFault::File) => return ExitCode::from(3),
        Err(InputFault::NoMemory) => return ExitCode::from(7),
    };
    let mut told = Vec::new(rt.alloc());
    let mut notes = String::new(rt.alloc());
    let output = (rt.stdout(), rt.stderr());
    if let Err(AllocError) = tell_all(&rt, &text, output, &mut told, &mut notes) {
        return ExitCode::from(7);
    }
    let is_written = write_whole(&mut rt.stdout(), &told)
        && write_whole(&mut rt.stderr(), notes.as_bytes());
    ExitCode::from(if is_written { 0 } else { 3 })
}
