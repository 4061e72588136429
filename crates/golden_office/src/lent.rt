//! A client that is lent to a thread which nobody joins, under a lock that the thread shares. It posts from there and
//! is returned at the end. The part prints one line.

mod opening;
mod play;
mod shared;

use crate::numbers::tell_numbers;
use opening::played;
use std::alloc::{Alloc, AllocError, Global};
use std::fmt::Write;
use std::sync::Wait;
use std::thread::Threads;

/// What is printed of the case.
pub(crate) fn tell<R: Alloc<A = Global> + Threads + Sync + Wait + Copy + Send + Drop + 'static>(
    rt: &R,
    told: &mut String,
) -> Result<(), AllocError> {
    match played(rt) {
        Ok(outcome) => {
            told.push_str("lent_to_a_thread:")?;
            let numbers = [
                ("posted", outcome.posted),
                ("taken", outcome.taken),
                ("arrived", outcome.arrived),
                ("collected", outcome.collected),
                ("rest", outcome.rest),
            ];
            tell_numbers(told, &numbers)
        }
        Err(fault) => writeln!(told, "lent_to_a_thread: {fault:?}"),
    }
}
