//! Streams that tell why they failed, and that wait where they cannot go on yet.

use fleet_lib::write_whole;
use std::alloc::{Alloc, AllocError, Global};
use std::fs::File;
use std::io::{self, ErrorKind, Read, Write};
use std::sync::atomic::{AtomicU64, Ordering};
use std::sync::{Arc, Wait};
use std::thread;
use std::time::{Clock, Duration};

/// The milliseconds that a stream waits which cannot be read or written yet.
const PAUSE: u64 = 5;

/// Why a stream failed: the system's number of the error, and 0 if it did not.
#[derive(Drop)]
pub(crate) struct Trouble {
    code: AtomicU64,
}

impl Trouble {
    /// None yet, shared.
    pub(crate) fn none(alloc: Global) -> Result<Arc<Trouble>, AllocError> {
        let trouble = Trouble {
            code: AtomicU64::new(0),
        };
        match Arc::new(alloc, trouble) {
            Ok(trouble) => Ok(trouble),
            Err(_) => Err(AllocError),
        }
    }

    /// Notes that there is none any more.
    pub(crate) fn clear(&self) {
        self.code.store(0, Ordering::SeqCst);
    }

    /// Notes that something failed, and that it was said why.
    pub(crate) fn note_said(&self) {
        self.code.store(u64::MAX, Ordering::SeqCst);
    }

    /// Whether something failed, and it was said why.
    pub(crate) fn was_said(&self) -> bool {
        self.code.load(Ordering::SeqCst) == u64::MAX
    }

    /// Notes an error.
    pub(crate) fn note(&self, fault: &io::Error) {
        if let Some(code) = fault.raw_os_error() {
            self.code
                .store(u64::from(code.unsigned_abs()), Ordering::SeqCst);
        }
    }

    /// What the system says of the error, if there was one.
    pub(crate) fn why(&self) -> Option<io::Error> {
        match i32::try_from(self.code.load(Ordering::SeqCst)) {
            Ok(code) if code != 0 => Some(io::Error::from_raw_os_error(code)),
            _ => None,
        }
    }
}

/// Whether a stream is to be tried again at once.
fn is_interrupted(fault: &io::Error) -> bool {
    fault.kind() == ErrorKind::Interrupted
}

/// Standard input or standard output.
#[derive(Drop)]
pub(crate) struct Stream<T, R> {
    inner: T,
    rt: R,
    trouble: Arc<Trouble>,
}

impl<T, R> Stream<T, R> {
    pub(crate) fn new(rt: R, inner: T, trouble: Arc<Trouble>) -> Stream<T, R> {
        Stream { inner, rt, trouble }
    }
}

impl<T: Read, R: Clock + Wait> Read for Stream<T, R> {
    fn read(&mut self, buf: &mut [u8]) -> io::Result<usize> {
        for _ in self.rt.forever() {
            match self.inner.read(buf) {
                Ok(len) => return Ok(len),
                Err(fault) if fault.kind() == ErrorKind::WouldBlock => {
                    thread::sleep(&self.rt, Duration::from_millis(PAUSE))
                }
                Err(fault) => {
                    if !is_interrupted(&fault) {
                        self.trouble.note(&fault);
                    }
                    return Err(fault);
                }
            }
        }
        unreachable!()
    }
}

impl<T: Write, R: Clock + Wait> Write for Stream<T, R> {
    fn write(&mut self, buf: &[u8]) -> io::Result<usize> {
        for _ in self.rt.forever() {
            match self.inner.write(buf) {
                Ok(len) => return Ok(len),
                Err(fault) if fault.kind() == ErrorKind::WouldBlock => {
                    thread::sleep(&self.rt, Duration::from_millis(PAUSE))
                }
                Err(fault) => {
                    if !is_interrupted(&fault) {
                        self.trouble.note(&fault);
                    }
                    return Err(fault);
                }
            }
        }
        unreachable!()
    }

    fn flush(&mut self) -> io::Result<()> {
        self.inner.flush()
    }
}

/// The pipe of a client, which says on the error output why it failed, once.
#[derive(Drop)]
pub(crate) struct Pipe<R, E> {
    rt: R,
    file: File,
    name: String,
    error: E,
    failed: bool,
}

impl<R: Alloc<A = Global>, E: Write> Pipe<R, E> {
    pub(crate) fn new(rt: R, file: File, name: String, error: E) -> Pipe<R, E> {
        Pipe {
            rt,
            file,
            name,
            error,
            failed: false,
        }
    }

    /// Says why it cannot be read or written.
    fn say(&mut self, done: &str, fault: &io::Error) {
        if self.failed || is_interrupted(fault) {
            return;
        }
        self.failed = true;
        let name = self.name.as_str();
        let line = format!(in self.rt.alloc(); "fleet: file {name} cannot be {done}: {fault}\n");
        if let Ok(line) = line {
            write_whole(&mut self.error, line.as_bytes());
        }
    }
}

impl<R: Alloc<A = Global>, E: Write> Read for Pipe<R, E> {
    fn read(&mut self, buf: &mut [u8]) -> io::Result<usize> {
        let read = self.file.read(buf);
        if let Err(fault) = &read {
            self.say("read", fault);
        }
        read
    }
}

impl<R: Alloc<A = Global>, E: Write> Write for Pipe<R, E> {
    fn write(&mut self, buf: &[u8]) -> io::Result<usize> {
        let written = self.file.write(buf);
        if let Err(fault) = &written {
            self.say("written", fault);
        }
        written
    }

    fn flush(&mut self) -> io::Result<()> {
        self.file.flush()
    }
}
