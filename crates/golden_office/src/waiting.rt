//! How a thread waits for another's flag.

use std::sync::atomic::{AtomicU64, Ordering};
use std::thread;

/// How often a thread looks for a flag at most.
const MOST_TRIES: u64 = 200_000_000;

/// Waits until the flag is at least that much. Says whether it is.
pub(crate) fn wait_for(flag: &AtomicU64, least: u64) -> bool {
    for _ in 0..MOST_TRIES {
        if flag.load(Ordering::SeqCst) >= least {
            return true;
        }
        thread::yield_now();
    }
    false
}
