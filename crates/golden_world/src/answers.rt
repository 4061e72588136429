//! Worked rows through the calls of `World`, one by one: what each call answers, and what the world shows after it.

mod busy;
mod play;
mod row;
mod show;

use play::play;
use row::rows;
use std::alloc::{Alloc, AllocError, Global};

/// A line for each call of each row.
pub(crate) fn tell<R: Alloc<A = Global>>(rt: &R, told: &mut String) -> Result<(), AllocError> {
    for row in rows() {
        play(rt.alloc(), rt, row, told)?;
    }
    Ok(())
}
