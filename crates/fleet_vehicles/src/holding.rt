//! Lines are read, and each is answered before the next one is read.

use crate::driver::{DriveRules, Driver};
use fleet_talk::{LineFault, MOST_LINE, read_line};
use fleet_text::write_whole;
use std::alloc::{AllocError, Global};
use std::io::{BufRead, Write};

/// Why it breaks off.
#[derive(Clone, Copy, Debug, PartialEq, Eq)]
pub enum DriveFault {
    /// A line could not be read.
    Input,
    /// Not all could be written.
    Output,
    NoMemory,
}

impl From<AllocError> for DriveFault {
    fn from(_error: AllocError) -> DriveFault {
        DriveFault::NoMemory
    }
}

/// Answers lines until the input ends.
pub fn drive<I: BufRead, W: Write>(
    alloc: Global,
    rules: DriveRules,
    input: &mut I,
    output: &mut W,
) -> Result<(), DriveFault> {
    let mut driver = Driver::new(alloc, rules);
    let mut line = Vec::new(alloc);
    let mut said = String::new(alloc);
    for number in 1..u64::MAX {
        match read_line(input, MOST_LINE + 1, &mut line) {
            Ok(true) => {}
            Ok(false) => return Ok(()),
            Err(LineFault::Read) => return Err(DriveFault::Input),
            Err(LineFault::NoMemory) => return Err(DriveFault::NoMemory),
        }
        said.clear();
        driver.hear(number, &line, &mut said)?;
        if !write_whole(output, said.as_str().as_bytes()) {
            return Err(DriveFault::Output);
        }
    }
    Err(DriveFault::Input)
}
