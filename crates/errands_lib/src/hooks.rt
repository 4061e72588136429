//! The program's own hooks.

ghost use Rattle.std.specs.Prelude.{◌≡◌, is_some, IfOk, IfSome, OnErr};
ghost use Rattle.fleet_text.specs.Transfer.{bytes_of};
ghost use Rattle.errands_lib.specs.Laws.{program_laws};
ghost use Rattle.errands_lib.specs.Told.{IsShown, names_two};

use crate::job::Job;
use crate::program::{fail, run_program};
use fleet_hooks::{ArrivalHook, Farewell, Hooks, TieHook};
use fleet_text::{HookKit, InputFault};
use std::alloc::{Alloc, AllocError, Global};
use std::io::{Read, Write};
use std::sync::Wait;
use std::thread::Threads;

/// The number of robots for which there are hooks.
const ROBOTS: usize = 16;

/// Makes the program's hooks and does the job with them.
fn run_with_hooks<R: Alloc<A = Global> + Threads + Sync + Wait, I: Read, W: Write, E: Write>(
    rt: &R,
    job: &Job,
    map: &mut I,
    other: Option<&mut I>,
    output: &mut W,
    error: &mut E,
) -> Result<u8, AllocError>
    requires { is_some other ≡ names_two job.now }
    ensures done { IfOk result (λ status. IfSome (I.remaining map.old) (λ first. IfSome (bytes_of I.remaining other.entry) (λ second.
        IsShown program_laws job.now first second (W.contents output.old) (W.contents output.new) (E.contents error.old) (E.contents error.new) status))) }
    ensures output { OnErr result (output.new ≡ output.old) }
    ensures error { OnErr result (error.new ≡ error.old) }
{
    let alloc = rt.alloc();
    let plain = Hooks::alike(
        alloc,
        ROBOTS,
        TieHook::fixed([0; 4]),
        ArrivalHook::fixed(0),
        Farewell::fixed(0),
    )?;
    let south = Hooks::alike(
        alloc,
        ROBOTS,
        TieHook::south_first(),
        ArrivalHook::by_tick(),
        Farewell::by_cell(),
    )?;
    let kit = HookKit { plain, south };
    Ok(run_program(rt, job, map, other, output, error, kit))
}

/// Does the job with the program's hooks. Returns the status, 7 where there was no memory for them.
pub fn run_with_kit<R: Alloc<A = Global> + Threads + Sync + Wait, I: Read, W: Write, E: Write>(
    rt: &R,
    job: &Job,
    map: &mut I,
    other: Option<&mut I>,
    output: &mut W,
    error: &mut E,
) -> u8
    requires { is_some other ≡ names_two job.now }
    ensures { IfSome (I.remaining map.old) (λ first. IfSome (bytes_of I.remaining other.entry) (λ second.
        IsShown program_laws job.now first second (W.contents output.old) (W.contents output.new) (E.contents error.old) (E.contents error.new) result)) }
{
    match run_with_hooks(rt, job, map, other, output, error) {
        Ok(status) => status,
        Err(AllocError) => fail(InputFault::NoMemory, error),
    }
}
