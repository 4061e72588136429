//! The standard output, whose reader may leave.

use std::io::{self, ErrorKind, Write};

/// A writer that goes on when its reader has left, as `head` does after its lines: then nothing is written, and that is
/// no error.
#[derive(Drop)]
pub(crate) struct Piped<W> {
    writer: W,
    has_left: bool,
}

impl<W> Piped<W> {
    pub(crate) fn new(writer: W) -> Piped<W> {
        Piped {
            writer,
            has_left: false,
        }
    }
}

impl<W: Write> Write for Piped<W> {
    fn write(&mut self, buf: &[u8]) -> io::Result<usize> {
        if self.has_left {
            return Ok(buf.len());
        }
        match self.writer.write(buf) {
            Ok(count) => Ok(count),
            Err(fault) => {
                if fault.kind() == ErrorKind::BrokenPipe {
                    self.has_left = true;
                    return Ok(buf.len());
                }
                Err(fault)
            }
        }
    }

    fn flush(&mut self) -> io::Result<()> {
        if self.has_left {
            return Ok(());
        }
        self.writer.flush()
    }
}
