//! `errands`: moves robots over a map while clients post errands, as a script says. `errands run MAP SCRIPT` runs the
//! script of one file on the map of another; with `--trace` it writes the trace of the run in place of its lines, and
//! `errands judge MAP TRACE` says whether such a trace is legal. `errands serve MAP SCRIPT` runs each client's lines in
//! a thread of its own, next to two tickers, and writes the trace of that run. Without words it reads a bundle from
//! standard input: the map up to the first line that is exactly `script`, and the script after it. `errands map FILE`
//! describes a map alone.
#![tactic(auto)]

use errands_lib::{InputFault, Inputs, WordFault, refuse_words, run_words};
use std::alloc::{Alloc, Global};
use std::env::{self, Env};
use std::fs::{File, Files};
use std::io::{self, ErrorKind};
use std::process::ExitCode;
use std::rt::Stdin;

/// The files and the standard input of the process.
#[derive(Clone, Copy)]
struct ProcessInputs<'a> {
    rt: &'a HostRuntime,
}

impl Inputs for ProcessInputs<'_> {
    type File = File;

    type Input = Stdin;

    // No clause of the standard library says which file is opened.
    ghost opens = { λ _ _ _ _. Unit {0} };

    ghost reads = { λ _ _ _. Unit {0} };

    fn open(&mut self, name: &str) -> Result<File, InputFault> {
        match File::open(self.rt, name) {
            Ok(file) => Ok(file),
            Err(fault) if fault.kind() == ErrorKind::OutOfMemory => Err(InputFault::NoMemory),
            Err(_) => Err(InputFault::File),
        }
    }

    fn input(&mut self) -> Stdin {
        self.rt.stdin()
    }
}

/// The words that the program was given, its own name first.
fn words_given(rt: &(impl Env + Alloc<A = Global>)) -> io::Result<Vec<String>> {
    Ok(env::args(rt)?.collect(rt.alloc())?)
}

/// Why the words could not be read: memory ran out, or one is no text.
fn word_fault(alloc: Global, fault: &io::Error) -> WordFault {
    if fault.kind() == ErrorKind::OutOfMemory {
        return WordFault::NoMemory;
    }
    let text = "error: invalid UTF-8 was detected in one or more arguments\n";
    match String::from_str(alloc, text) {
        Ok(text) => WordFault::Words(text),
        Err(_) => WordFault::NoMemory,
    }
}

fn main(rt: HostRuntime) -> ExitCode {
    let mut output = rt.stdout();
    let mut error = rt.stderr();
    let status = match words_given(&rt) {
        Ok(words) => {
            let mut inputs = ProcessInputs { rt: &rt };
            run_words(&rt, &words, &mut inputs, &mut output, &mut error)
        }
        Err(fault) => refuse_words(&word_fault(rt.alloc(), &fault), &mut error),
    };
    ExitCode::from(status)
}
