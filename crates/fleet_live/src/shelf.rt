//! What the loop shares with the thread that keeps chapters.

use crate::wake::Wake;
use fleet_history::Chapter;
use live_parts::Stop;
use rtrb::Protocol;
use std::alloc::{AllocError, Global};
use std::mem;
use std::sync::atomic::{AtomicBool, AtomicU64, Ordering};
use std::sync::{Mutex, Wait};

/// What the ring of chapters promises to the thread that keeps them: each may be kept.
#[derive(Clone, Copy)]
pub(crate) struct SoundChapters;

impl Protocol<Chapter> for SoundChapters {
    ghost use Rattle.fleet_talk.specs.Chapters.{chapter_shown};
    ghost use Rattle.live_parts.specs.Kept.{IsKeepable};

    ghost allows = { λ _ chapter. IsKeepable (chapter_shown chapter) };
}

/// What became of the chapters that were handed out.
#[derive(Clone, Copy)]
pub(crate) struct Standing {
    /// The number of the last chapter of which the keeper knows: it was kept, or waits to be.
    pub(crate) last: Option<u32>,
    /// How many could not be kept and wait.
    pub(crate) waiting: u64,
    /// How many were kept.
    pub(crate) kept: u64,
    /// When the last one was kept: the microseconds since 1970; 0 if none was.
    pub(crate) kept_at: u64,
    /// Why the fleet is to stop, if it is.
    pub(crate) stop: Option<Stop>,
}

/// What the loop shares with the thread that keeps chapters, besides their ring.
#[derive(Drop)]
pub(crate) struct Shelf {
    /// Wakes the keeper.
    wake: Wake,
    /// Whether chapters that wait are to be tried again.
    retries: AtomicBool,
    /// Whether the keeper is to end.
    closes: AtomicBool,
    /// How often the keeper was asked, and how often it has answered.
    asked: AtomicU64,
    answered: AtomicU64,
    standing: Mutex<Standing>,
    /// What the error output is to say of chapters.
    said: Mutex<Vec<u8>>,
}

impl Shelf {
    pub(crate) fn new(alloc: Global) -> Shelf {
        Shelf {
            wake: Wake::new(),
            retries: AtomicBool::new(false),
            closes: AtomicBool::new(false),
            asked: AtomicU64::new(0),
            answered: AtomicU64::new(0),
            standing: Mutex::new(Standing {
                last: None,
                waiting: 0,
                kept: 0,
                kept_at: 0,
                stop: None,
            }),
            said: Mutex::new(Vec::new(alloc)),
        }
    }

    /// Asks the keeper to take what is in the ring.
    pub(crate) fn ask<R: Wait>(&self, rt: &R) {
        self.asked.fetch_add(1, Ordering::SeqCst);
        self.wake.ring(rt);
    }

    /// Whether the keeper has answered all that it was asked.
    pub(crate) fn is_answered(&self) -> bool {
        self.answered.load(Ordering::SeqCst) == self.asked.load(Ordering::SeqCst)
    }

    /// Lets chapters that wait be tried again, when the keeper is asked next.
    pub(crate) fn retry(&self) {
        self.retries.store(true, Ordering::SeqCst);
    }

    pub(crate) fn retries(&self) -> bool {
        self.retries.load(Ordering::SeqCst)
    }

    /// Lets the keeper end.
    pub(crate) fn close<R: Wait>(&self, rt: &R) {
        self.closes.store(true, Ordering::SeqCst);
        self.wake.ring(rt);
    }

    pub(crate) fn closes(&self) -> bool {
        self.closes.load(Ordering::SeqCst)
    }

    /// Waits until the keeper is asked for something. Returns how often it was asked.
    pub(crate) fn wait<R: Wait>(&self, rt: &R) -> u64 {
        self.wake.sleep(rt);
        self.asked.load(Ordering::SeqCst)
    }

    /// Whether chapters that wait are to be tried again. From now on they are not.
    pub(crate) fn takes_retry(&self) -> bool {
        self.retries.swap(false, Ordering::SeqCst)
    }

    /// Notes how often the keeper has answered.
    pub(crate) fn answer(&self, asked: u64) {
        self.answered.store(asked, Ordering::SeqCst);
    }

    pub(crate) fn standing<R: Wait>(&self, rt: &R) -> Standing {
        let held = self.standing.lock(rt);
        *held
    }

    pub(crate) fn note<R: Wait>(&self, rt: &R, standing: Standing) {
        let mut held = self.standing.lock(rt);
        *held = standing;
        mem::drop(held);
    }

    /// Adds a line for the error output.
    pub(crate) fn say<R: Wait>(&self, rt: &R, line: &str) -> Result<(), AllocError> {
        let mut held = self.said.lock(rt);
        let said = &mut *held;
        let done = said.extend_from_slice(line.as_bytes());
        mem::drop(held);
        done
    }

    /// Takes the lines for the error output.
    pub(crate) fn take_said<R: Wait>(&self, rt: &R, text: &mut Vec<u8>) {
        let mut held = self.said.lock(rt);
        let said = &mut *held;
        mem::swap(text, said);
        mem::drop(held);
    }
}
