//! A reader that fails.

use std::io::{self, ErrorKind, Read};

/// Reads a text and then a number of line feeds, with a number of bytes at each read. Fails after a given number of
/// reads.
#[derive(Clone, Copy, Debug, Drop)]
pub struct Source<'a> {
    /// The text that is left.
    pub bytes: &'a [u8],
    /// How many line feeds follow it.
    pub line_feeds: u64,
    /// The most bytes of a read.
    pub step: usize,
    /// How many reads there are before those that fail.
    pub good_reads: u64,
}

impl<'a> Source<'a> {
    /// A reader of the text that does not fail.
    pub fn of(bytes: &'a [u8]) -> Source<'a> {
        Source {
            bytes,
            line_feeds: 0,
            step: 4_096,
            good_reads: u64::MAX,
        }
    }

    fn next_byte(&mut self) -> Option<u8> {
        if let Some((byte, rest)) = self.bytes.split_first() {
            self.bytes = rest;
            return Some(*byte);
        }
        if self.line_feeds == 0 {
            return None;
        }
        self.line_feeds -= 1;
        Some(b'\n')
    }
}

impl Read for Source<'_> {
    fn read(&mut self, buf: &mut [u8]) -> io::Result<usize> {
        if self.good_reads == 0 {
            return Err(io::Error::from(ErrorKind::Other));
        }
        self.good_reads -= 1;
        let most = self.step.min(buf.len());
        for at in 0..most {
            match self.next_byte() {
                Some(byte) => buf[at] = byte,
                None => return Ok(at),
            }
        }
        Ok(most)
    }
}
