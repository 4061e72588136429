//! What the closure, the clients and the tickers share.

use crate::waiting::wait_for;
use std::sync::atomic::{AtomicU64, Ordering};

/// The closure has begun.
const BEGUN: u64 = 1;

/// The closure has seen the clients' flag.
const SEEN: u64 = 2;

/// The closure has looked for the clients' flag the greatest number of times, and has given up.
const MISSED: u64 = 3;

/// What the closure, the clients and the tickers share.
#[derive(Drop)]
pub(crate) struct Shared {
    /// The number of clients, how often each posts at most, and how many turns the other ticker makes.
    pub(crate) clients: u64,
    pub(crate) posts: u64,
    pub(crate) turns: u64,
    /// How far the closure is.
    pub(crate) hook: AtomicU64,
    /// Clients that are done.
    pub(crate) done: AtomicU64,
    /// Orders that the lanes took.
    pub(crate) posted: AtomicU64,
    /// Notices that were collected while the closure waited.
    pub(crate) collected: AtomicU64,
    /// Turns that were refused.
    pub(crate) refused: AtomicU64,
}

impl Shared {
    /// The closure has not begun, and no client is done.
    pub(crate) fn new(clients: u32, posts: u64, turns: u64) -> Shared {
        Shared {
            clients: u64::from(clients),
            posts,
            turns,
            hook: AtomicU64::new(0),
            done: AtomicU64::new(0),
            posted: AtomicU64::new(0),
            collected: AtomicU64::new(0),
            refused: AtomicU64::new(0),
        }
    }

    /// What the closure does: at its first call it says that it has begun, and waits until all clients are done.
    pub(crate) fn stand(&self) {
        if self.hook.load(Ordering::SeqCst) >= BEGUN {
            return;
        }
        self.hook.store(BEGUN, Ordering::SeqCst);
        let end = if wait_for(&self.done, self.clients) {
            SEEN
        } else {
            MISSED
        };
        self.hook.store(end, Ordering::SeqCst);
    }

    /// Waits until the closure has begun.
    pub(crate) fn wait_for_hook(&self) -> bool {
        wait_for(&self.hook, BEGUN)
    }

    /// Whether the closure has seen the clients' flag.
    pub(crate) fn is_seen(&self) -> bool {
        self.hook.load(Ordering::SeqCst) == SEEN
    }
}
