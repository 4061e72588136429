//! The word `vehicles`.

use crate::said::fail;
use fleet_text::InputFault;
use fleet_vehicles::{DriveFault, DriveRules, drive};
use std::alloc::{Alloc, Global};
use std::io::{BufRead, Write};

/// Answers the lines of a fleet and of its vehicles until the input ends. Returns the status: 0 good, 3 a line could not be
/// read or written, 7 out of memory.
pub fn run_vehicles<R: Alloc<A = Global>, I: BufRead, W: Write, E: Write>(
    rt: &R,
    rules: DriveRules,
    input: &mut I,
    output: &mut W,
    error: &mut E,
) -> u8 {
    match drive(rt.alloc(), rules, input, output) {
        Ok(()) => 0,
        Err(DriveFault::Input | DriveFault::Output) => fail(InputFault::File, error),
        Err(DriveFault::NoMemory) => fail(InputFault::NoMemory, error),
    }
}
