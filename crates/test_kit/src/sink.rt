//! A writer that fails.

use std::alloc::Global;
use std::io::{self, ErrorKind, Write};

/// The result of a write for which there is no room.
#[derive(Clone, Copy, Debug, PartialEq, Eq)]
pub enum Full {
    /// It fails, and so does each that follows.
    Fails,
    /// It fails, and those that follow are good again.
    FailsOnce,
    /// It takes no byte.
    TakesNone,
}

/// How many writes a writer has room for, and the result of one more.
#[derive(Clone, Copy, Debug)]
pub struct Room {
    /// How many writes there is room for.
    pub writes: u64,
    /// The result of one more.
    pub full: Full,
}

impl Room {
    /// More room than anything takes.
    pub const ALL: Room = Room {
        writes: 1 << 40,
        full: Full::Fails,
    };
}

/// Takes one byte at each write, as long as there is room.
#[derive(Drop)]
pub struct Sink {
    /// What was written.
    pub bytes: Vec<u8>,
    room: Room,
}

impl Sink {
    /// A writer without bytes.
    pub fn new(alloc: Global, room: Room) -> Sink {
        Sink {
            bytes: Vec::new(alloc),
            room,
        }
    }
}

impl Write for Sink {
    fn write(&mut self, buf: &[u8]) -> io::Result<usize> {
        if self.room.writes == 0 {
            if self.room.full == Full::TakesNone {
                return Ok(0);
            }
            if self.room.full == Full::FailsOnce {
                self.room = Room::ALL;
            }
            return Err(io::Error::from(ErrorKind::Other));
        }
        self.room.writes -= 1;
        if buf.is_empty() {
            return Ok(0);
        }
        self.bytes.push(buf[0])?;
        Ok(1)
    }

    fn flush(&mut self) -> io::Result<()> {
        Ok(())
    }
}
