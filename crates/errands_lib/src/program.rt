//! The program, with any readers and writers.

ghost use Rattle.std.specs.Prelude.{◌≡◌, ◌≤◌, false, true, IfOk, IfSome, is_some, vec_len};
ghost use Rattle.errands_lib.specs.Asked.{is_serve};
ghost use Rattle.fleet_text.specs.Transfer.{bytes_of};
ghost use Rattle.errands_lib.specs.Told.{Failed, IsAnswer, IsTold, IsShown, names_two};
ghost use Rattle.fleet_text.specs.Kit.{kit_laws};
ghost use Rattle.fleet_text.specs.Said.{said as said_of};

use crate::answer::answer;
use crate::job::Job;
use crate::service::answer_job;
use fleet_text::{
    Complaint, HookKit, InputFault, Said, failure_line, read_other, read_whole, write_pieces,
    write_whole,
};
use std::alloc::{Alloc, Global};
use std::io::{Read, Write};
use std::sync::Wait;
use std::thread::Threads;

/// Prints on the error output that a file failed or memory ran out. Returns the status.
pub fn fail<E: Write>(fault: InputFault, error: &mut E) -> u8
    ensures { Failed fault (E.contents error.old) (E.contents error.new) result }
{
    write_whole(error, failure_line(fault).as_bytes());
    Complaint::from(fault).status()
}

/// Writes what there is to say. Returns the status.
fn tell<W: Write, E: Write>(said: &Said, output: &mut W, error: &mut E) -> u8
    ensures { IsTold (said_of said.now) (W.contents output.old) (W.contents output.new) (E.contents error.old) (E.contents error.new) result }
{
    if !write_pieces(output, said.output.as_slice()) {
        return fail(InputFault::File, error);
    }
    write_whole(error, said.complaint.as_bytes());
    said.status
}

/// The contents of a job's files, which are read in their order.
fn read_files<I: Read>(
    alloc: Global,
    map: &mut I,
    other: Option<&mut I>,
) -> Result<(Vec<u8>, Vec<u8>), InputFault>
    ensures first { IfOk result (λ texts. IfSome (I.remaining map.old) (λ all. texts.0.items ≡ all)) }
    ensures second { IfOk result (λ texts. IfSome (bytes_of I.remaining other.entry) (λ all. texts.1.items ≡ all)) }
    ensures short { IfOk result (λ texts. vec_len texts.0 ≤ 16777216) }
    ensures other_short { IfOk result (λ texts. vec_len texts.1 ≤ 16777216) }
{
    let first = read_whole(alloc, map)?;
    let second = read_other(alloc, other)?;
    Ok((first, second))
}

/// The answer to the files of a job that is not to serve, which are read in their order.
fn answer_files<R: Alloc<A = Global>, I: Read>(
    rt: &R,
    job: &Job,
    map: &mut I,
    other: Option<&mut I>,
    kit: HookKit,
) -> Result<Said, InputFault>
    requires { is_serve job.now ≡ false }
    ensures { IfOk result (λ s. IfSome (I.remaining map.old) (λ first. IfSome (bytes_of I.remaining other.entry) (λ second.
        IsAnswer (kit_laws kit) job.now first second (said_of s)))) }
{
    match read_files(rt.alloc(), map, other) {
        Ok((first, second)) => Ok(answer(rt, job, &first, &second, kit)?),
        Err(fault) => {
            drop(kit);
            Err(fault)
        }
    }
}

/// The answer to the map and the script that are to be served, which are read in this order.
fn answer_served<R: Alloc<A = Global> + Threads + Sync + Wait, I: Read>(
    rt: &R,
    job: &Job,
    map: &mut I,
    other: Option<&mut I>,
    kit: HookKit,
) -> Result<Said, InputFault>
    requires { is_serve job.now ≡ true }
    ensures { IfOk result (λ s. IfSome (I.remaining map.old) (λ first. IfSome (bytes_of I.remaining other.entry) (λ second.
        IsAnswer (kit_laws kit) job.now first second (said_of s)))) }
{
    match read_files(rt.alloc(), map, other) {
        Ok((first, second)) => Ok(answer_job(rt, job, &first, &second, kit)?),
        Err(fault) => {
            drop(kit);
            Err(fault)
        }
    }
}

/// Does a job that is not a serve, and waits for no thread. Returns the status, as `run_program` does.
pub fn run_plain<R: Alloc<A = Global>, I: Read, W: Write, E: Write>(
    rt: &R,
    job: &Job,
    map: &mut I,
    other: Option<&mut I>,
    output: &mut W,
    error: &mut E,
    kit: HookKit,
) -> u8
    requires files { is_some other ≡ names_two job.now }
    requires plain { is_serve job.now ≡ false }
    ensures { IfSome (I.remaining map.old) (λ first. IfSome (bytes_of I.remaining other.entry) (λ second.
        IsShown (kit_laws kit) job.now first second (W.contents output.old) (W.contents output.new) (E.contents error.old) (E.contents error.new) result)) }
{
    match answer_files(rt, job, map, other, kit) {
        Ok(said) => tell(&said, output, error),
        Err(fault) => fail(fault, error),
    }
}

/// Does the job and writes the answer. Returns the status: 0 all went well; 3 a file failed; 4 the map, 5 the script or
/// the opening, or 6 the trace is refused; 6 also if the trace is illegal; 7 memory ran out, or a thread could not be
/// started; 8 a limit was met. A serve waits for the threads that it starts.
pub fn run_program<R: Alloc<A = Global> + Threads + Sync + Wait, I: Read, W: Write, E: Write>(
    rt: &R,
    job: &Job,
    map: &mut I,
    other: Option<&mut I>,
    output: &mut W,
    error: &mut E,
    kit: HookKit,
) -> u8
    requires { is_some other ≡ names_two job.now }
    ensures { IfSome (I.remaining map.old) (λ first. IfSome (bytes_of I.remaining other.entry) (λ second.
        IsShown (kit_laws kit) job.now first second (W.contents output.old) (W.contents output.new) (E.contents error.old) (E.contents error.new) result)) }
{
    if !job.is_serve() {
        return run_plain(rt, job, map, other, output, error, kit);
    }
    match answer_served(rt, job, map, other, kit) {
        Ok(said) => tell(&said, output, error),
        Err(fault) => fail(fault, error),
    }
}
