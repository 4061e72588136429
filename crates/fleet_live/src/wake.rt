//! What wakes a thread that has nothing to do.

use std::mem;
use std::sync::atomic::{AtomicBool, Ordering};
use std::sync::{Condvar, CondvarTimeouts, Mutex, Wait};
use std::time::{Clock, Duration};

/// Wakes one thread. It says nothing of what there is to do: that thread looks for itself once it is awake.
#[derive(Drop)]
pub(crate) struct Wake {
    /// Whether it was rung since the thread last slept.
    rung: AtomicBool,
    lock: Mutex<()>,
    bell: Condvar,
}

impl Wake {
    pub(crate) fn new() -> Wake {
        Wake {
            rung: AtomicBool::new(false),
            lock: Mutex::new(()),
            bell: Condvar::new(),
        }
    }

    /// Wakes the thread, now or when it would sleep next.
    pub(crate) fn ring<R: Wait>(&self, rt: &R) {
        if self.rung.swap(true, Ordering::SeqCst) {
            return;
        }
        // The thread holds the lock from its last look at `rung` until it sleeps.
        mem::drop(self.lock.lock(rt));
        self.bell.notify_all();
    }

    /// Sleeps until it is rung.
    pub(crate) fn sleep<R: Wait>(&self, rt: &R) {
        let held = self.bell.wait_while(rt, self.lock.lock(rt), |_| {
            !self.rung.load(Ordering::SeqCst)
        });
        mem::drop(held);
        self.rung.store(false, Ordering::SeqCst);
    }

    /// Sleeps until it is rung, but no longer than this.
    pub(crate) fn sleep_for<R: Clock + Wait>(&self, rt: &R, time: Duration) {
        let (held, _result) = self
            .bell
            .wait_timeout_while(rt, self.lock.lock(rt), time, |_| {
                !self.rung.load(Ordering::SeqCst)
            });
        mem::drop(held);
        self.rung.store(false, Ordering::SeqCst);
    }
}
