//! Scripts that are served, and their results: cases whose gate holds clients' threads where it matters, cases of
//! bounded waits, and a thousand scripts from seeds. A line for each case and one for the thousand, the same ones in
//! each run.

mod came;
mod gate;
mod lines;
mod play;
mod row;
mod seeds;
mod yard;

use lines::{tell_row, tell_thousand};
use row::ROWS;
use std::alloc::{Alloc, AllocError, Global};
use std::sync::Wait;
use std::thread::Threads;

/// What is printed of the serves.
pub(crate) fn tell<R: Alloc<A = Global> + Threads + Sync + Wait>(
    rt: &R,
    told: &mut String,
) -> Result<(), AllocError> {
    for row in &ROWS {
        tell_row(rt, row, told)?;
    }
    tell_thousand(rt, told)
}
