//! What the program answers to many cases.
//!
//! After a case's name `$ WORD ..` has the program's words and `< NAME` begins a file that they name. The other lines
//! are the file's, or standard input's where no file has begun: `|TEXT` is a line, `:TEXT` one without its line end.
//! Memory runs out where the file `no-memory` is opened. What came out is written alike, with `!` before a line for the
//! error writer, and last `? STATUS`.

mod case;
mod outcome;

use case::Case;
use outcome::tell_outcome;
use std::alloc::{Alloc, AllocError, Global};
use std::sync::Wait;
use std::thread::Threads;
use test_kit::{Block, blocks_of};

/// Prints what came out of the case that a block tells.
fn tell_case<R: Alloc<A = Global> + Threads + Sync + Wait>(
    rt: &R,
    block: Block<'_>,
    told: &mut Vec<u8>,
) -> Result<(), AllocError> {
    let case = Case::of(rt.alloc(), block)?;
    tell_outcome(rt, &case, told)
}

/// Prints what came out of each case.
pub(crate) fn tell<R: Alloc<A = Global> + Threads + Sync + Wait>(
    rt: &R,
    text: &[u8],
    told: &mut Vec<u8>,
) -> Result<(), AllocError> {
    for block in &blocks_of(rt.alloc(), text, b"= ")? {
        tell_case(rt, *block, told)?;
    }
    Ok(())
}
