//! Clients that work without the office's lock: while a turn stands in a robot's closure, clients post and collect, and
//! another ticker's turn waits. The closure goes on when they are done. It prints a line for each case.

mod opening;
mod play;
mod shared;
mod staff;

use crate::numbers::tell_numbers;
use opening::{Case, played};
use std::alloc::{Alloc, AllocError, Global};
use std::fmt::Write;
use std::sync::Wait;
use std::thread::Threads;

/// One client posts once.
const POSTS: Case = Case {
    name: "posts_while_a_hook_waits",
    clients: 1,
    posts: 1,
    turns: 0,
};

/// Two clients post until their lanes are full, and the other ticker makes a turn.
const BLOCKED: Case = Case {
    name: "blocked_hook",
    clients: 2,
    posts: 1_000,
    turns: 1,
};

/// The line of a case.
fn tell_case<R: Alloc<A = Global> + Threads + Sync + Wait>(
    rt: &R,
    case: &Case,
    told: &mut String,
) -> Result<(), AllocError> {
    let name = case.name;
    match played(rt, case) {
        Ok(outcome) => {
            let flag = if outcome.seen { "seen" } else { "missed" };
            write!(told, "{name}: flag {flag}")?;
            let numbers = [
                ("posted", outcome.posted),
                ("collected", outcome.collected),
                ("tick", outcome.tick),
            ];
            tell_numbers(told, &numbers)
        }
        Err(fault) => writeln!(told, "{name}: {fault:?}"),
    }
}

/// Prints both cases.
pub(crate) fn tell<R: Alloc<A = Global> + Threads + Sync + Wait>(
    rt: &R,
    told: &mut String,
) -> Result<(), AllocError> {
    tell_case(rt, &POSTS, told)?;
    tell_case(rt, &BLOCKED, told)
}
