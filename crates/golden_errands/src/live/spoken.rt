//! A writer whose lines are counted.

use crate::live::clock::Hands;
use std::io::{self, Stderr, Stdout, Write};

/// Where lines go.
#[derive(Clone, Copy)]
pub(crate) enum Ear {
    Output(Stdout),
    Errors(Stderr),
}

/// Prints lines, and counts them.
#[derive(Drop)]
pub(crate) struct Spoken {
    pub(crate) ear: Ear,
    pub(crate) hands: &'static Hands,
}

impl Write for Spoken {
    fn write(&mut self, buf: &[u8]) -> io::Result<usize> {
        let taken = match &mut self.ear {
            Ear::Output(output) => output.write(buf)?,
            Ear::Errors(errors) => errors.write(buf)?,
        };
        let mut lines = 0u64;
        for byte in buf.iter().take(taken) {
            if *byte == b'\n' {
                lines = lines.saturating_add(1);
            }
        }
        self.hands.count_lines(lines);
        Ok(taken)
    }

    fn flush(&mut self) -> io::Result<()> {
        Ok(())
    }
}
