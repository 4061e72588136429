//! What holds the clients' threads of a case, and the closure that holds a tick.

ghost use Rattle.std.specs.Prelude.{◌<◌};

use crate::waiting::wait_for;
use fleet_serve::Gate;
use std::sync::atomic::{AtomicU64, Ordering};

/// Who is held.
#[derive(Clone, Copy, PartialEq, Eq)]
pub(crate) enum Hold {
    Nobody,
    /// Each of two clients at its first line, until the other's is reached.
    FirstLines,
    /// The client at its first line until the first tick has called a tie closure, and that closure until the third
    /// line.
    LineAndTick,
}

/// The flags of those who are held.
#[derive(Drop)]
pub(crate) struct Flags {
    hold: Hold,
    /// Whether each of two clients reached its first line.
    first: [AtomicU64; 2],
    /// The third lines that were reached.
    third: AtomicU64,
    /// Whether a tie closure was called.
    called: AtomicU64,
    /// The number of threads that went on because no flag came.
    missed: AtomicU64,
}

impl Flags {
    pub(crate) fn new(hold: Hold) -> Flags {
        Flags {
            hold,
            first: [AtomicU64::new(0), AtomicU64::new(0)],
            third: AtomicU64::new(0),
            called: AtomicU64::new(0),
            missed: AtomicU64::new(0),
        }
    }

    /// Waits until the flag is at least that much.
    fn wait_for(&self, flag: &AtomicU64, least: u64) {
        if !wait_for(flag, least) {
            self.missed.fetch_add(1, Ordering::SeqCst);
        }
    }

    /// The first line of one of two clients, which waits until the other's is reached.
    fn meet(&self, own: usize, other: usize)
        requires { (own < 2) × (other < 2) }
    {
        self.first[own].store(1, Ordering::SeqCst);
        self.wait_for(&self.first[other], 1);
    }

    /// What a tie closure does: where a tick is held, its first call waits.
    pub(crate) fn stand(&self) {
        if self.hold != Hold::LineAndTick || self.called.swap(1, Ordering::SeqCst) == 1 {
            return;
        }
        self.wait_for(&self.third, 1);
    }

    /// Whether all that were held were let go by a flag.
    pub(crate) fn is_met(&self) -> bool {
        self.missed.load(Ordering::SeqCst) == 0
    }
}

impl Gate for Flags {
    fn before(&self, client: u32, line: u32) {
        match (self.hold, client, line) {
            (Hold::FirstLines, 0, 1) => self.meet(0, 1),
            (Hold::FirstLines, 1, 1) => self.meet(1, 0),
            (Hold::LineAndTick, 0, 1) => self.wait_for(&self.called, 1),
            (Hold::LineAndTick, 0, 3) => self.third.store(1, Ordering::SeqCst),
            _ => {}
        }
    }
}
