//! A clock that a case moves.

use std::alloc::{Alloc, AllocError, Global};
use std::boxed::Box;
use std::io;
use std::sync::Wait;
use std::sync::atomic::{AtomicU64, Ordering};
use std::thread::Threads;
use std::time::{Clock, Duration};

/// What the threads of a case share: the time, and how far they are.
#[derive(Drop)]
pub(crate) struct Hands {
    /// The microseconds that the clock shows.
    micros: AtomicU64,
    /// How often it was read.
    reads: AtomicU64,
    /// How many lines were printed.
    lines: AtomicU64,
}

impl Hands {
    /// A clock that shows 0, for the rest of the program: the threads of a fleet may outlive its case.
    pub(crate) fn new(alloc: Global) -> Result<&'static Hands, AllocError> {
        let hands = Hands {
            micros: AtomicU64::new(0),
            reads: AtomicU64::new(0),
            lines: AtomicU64::new(0),
        };
        match Box::new(alloc, hands) {
            Ok(hands) => Ok(Box::leak(hands)),
            Err(_) => Err(AllocError),
        }
    }

    /// Moves the clock on.
    pub(crate) fn pass(&self, micros: u64) {
        self.micros.fetch_add(micros, Ordering::SeqCst);
    }

    /// How often the clock was read.
    pub(crate) fn reads(&self) -> u64 {
        self.reads.load(Ordering::SeqCst)
    }

    /// How many lines were printed.
    pub(crate) fn lines(&self) -> u64 {
        self.lines.load(Ordering::SeqCst)
    }

    /// Counts lines that were printed.
    pub(crate) fn count_lines(&self, lines: u64) {
        self.lines.fetch_add(lines, Ordering::SeqCst);
    }
}

/// A runtime whose clock a case moves.
#[derive(Clone, Copy, Drop)]
pub(crate) struct Paced<R> {
    pub(crate) rt: R,
    pub(crate) hands: &'static Hands,
}

impl<R: Alloc> Alloc for Paced<R> {
    type A = R::A;

    fn alloc(&self) -> R::A {
        self.rt.alloc()
    }
}

impl<R: Clock> Clock for Paced<R> {
    fn monotonic(&self) -> io::Result<Duration> {
        let now = self.hands.micros.load(Ordering::SeqCst);
        self.hands.reads.fetch_add(1, Ordering::SeqCst);
        Ok(Duration::from_micros(now))
    }

    fn since_1970(&self) -> io::Result<Duration> {
        Ok(Duration::from_micros(self.hands.micros.load(Ordering::SeqCst)))
    }

    fn sleep(&self, duration: Duration) {
        self.rt.sleep(duration)
    }
}

impl<R: Wait> Wait for Paced<R> {}

impl<R: Threads> Threads for Paced<R> {}
