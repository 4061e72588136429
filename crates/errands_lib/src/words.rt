//! What the program does with its arguments.

ghost use Rattle.std.specs.Prelude.{◌≡◌, IfSome, is_some, map, string_bytes};
ghost use Rattle.fleet_text.specs.Transfer.{bytes_of};
ghost use Rattle.errands_lib.specs.Inputs.{DoesJob, DoesWords, Refuses};
ghost use Rattle.errands_lib.specs.Laws.{program_laws};
ghost use Rattle.errands_lib.specs.Told.{IsShown, names_two};

use crate::hooks::run_with_kit;
use crate::inputs::{Inputs, open_both};
use crate::job::{Job, JobFiles, parse_words};
use crate::program::fail;
use command_words::WordFault;
use fleet_text::{InputFault, write_whole};
use std::alloc::{Alloc, Global};
use std::io::{Read, Write};
use std::sync::Wait;
use std::thread::Threads;

/// The status of words that name no job.
const BAD_WORDS: u8 = 2;

/// Prints on the error output why words name no job, also the help that they ask for. Returns the status: 2, or 7 if
/// memory ran out.
pub fn refuse_words<E: Write>(fault: &WordFault, error: &mut E) -> u8
    ensures { Refuses fault.now (E.contents error.old) (E.contents error.new) result }
{
    match fault {
        WordFault::Words(text) | WordFault::Help(text) => {
            write_whole(error, text.as_bytes());
            BAD_WORDS
        }
        WordFault::NoMemory => fail(InputFault::NoMemory, error),
    }
}

/// `run_with_kit`, with one lifetime for both files: a missing file gets the lifetime of the other.
fn run_on<'a, R: Alloc<A = Global> + Threads + Sync + Wait, I: Read, W: Write, E: Write>(
    rt: &R,
    job: &Job,
    file: &'a mut I,
    other: Option<&'a mut I>,
    output: &mut W,
    error: &mut E,
) -> u8
    requires { is_some other ≡ names_two job.now }
    ensures { IfSome (I.remaining file.old) (λ first. IfSome (bytes_of I.remaining other.entry) (λ second.
        IsShown program_laws job.now first second (W.contents output.old) (W.contents output.new) (E.contents error.old) (E.contents error.new) result)) }
{
    run_with_kit(rt, job, file, other, output, error)
}

/// Opens what a job names and does the job. Returns the status.
fn run_job<R: Alloc<A = Global> + Threads + Sync + Wait, I: Inputs, W: Write, E: Write>(
    rt: &R,
    job: &Job,
    inputs: &mut I,
    output: &mut W,
    error: &mut E,
) -> u8
    ensures { DoesJob I.opens I.reads I.File.remaining I.Input.remaining job.now inputs.old inputs.new
        (W.contents output.old) (W.contents output.new) (E.contents error.old) (E.contents error.new) result }
{
    match job.files() {
        JobFiles::None => run_on(rt, job, &mut inputs.input(), None, output, error),
        JobFiles::One(name) => match inputs.open(name) {
            Ok(mut file) => run_on(rt, job, &mut file, None, output, error),
            Err(fault) => fail(fault, error),
        },
        JobFiles::Two(first, second) => match open_both(inputs, first, second) {
            Ok((mut first, mut second)) => {
                run_on(rt, job, &mut first, Some(&mut second), output, error)
            }
            Err(fault) => fail(fault, error),
        },
    }
}

/// Does what the words say, of which the first is the program's name, and writes what there is to say. Returns the
/// status.
///
/// Arguments that name no job, such as a request for help, end with status 2 and `clap`'s text on the error writer; no
/// file is opened. Files are opened in their order, the second only if the first could be opened, and both before
/// either is read. If a file cannot be opened, the status is 3. Everything after that is as in `run_program`.
pub fn run_words<R: Alloc<A = Global> + Threads + Sync + Wait, I: Inputs, W: Write, E: Write>(
    rt: &R,
    words: &[String],
    inputs: &mut I,
    output: &mut W,
    error: &mut E,
) -> u8
    ensures { DoesWords I.opens I.reads I.File.remaining I.Input.remaining (map (λ w. string_bytes w) words.now) inputs.old inputs.new
        (W.contents output.old) (W.contents output.new) (E.contents error.old) (E.contents error.new) result }
{
    match parse_words(rt.alloc(), words) {
        Ok(job) => run_job(rt, &job, inputs, output, error),
        Err(fault) => refuse_words(&fault, error),
    }
}
