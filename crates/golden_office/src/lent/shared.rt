//! Clients under a lock of their own, which threads share.

use fleet_book::Order;
use fleet_office::{Guest, OfficeName};
use std::alloc::{AllocError, Global};
use std::mem;
use std::sync::atomic::{AtomicU64, Ordering};
use std::sync::{Arc, Mutex, Wait};
use std::thread::{self, Threads};

/// The greatest number of notices in the test case.
const MOST_NOTICES: u32 = 10;

/// The guests of an office under a lock, and how many of their orders the lanes took.
#[derive(Drop)]
pub(crate) struct Lent<N: OfficeName<Global>> {
    guests: Mutex<Vec<Guest<N>>>,
    pub(crate) posted: AtomicU64,
}

impl<N: OfficeName<Global>> Lent<N> {
    /// At the start: no order was posted.
    pub(crate) fn new(guests: Vec<Guest<N>>) -> Lent<N> {
        Lent {
            guests: Mutex::new(guests),
            posted: AtomicU64::new(0),
        }
    }

    /// The first guest sends the robot to the second cell.
    fn post<R: Wait>(&self, rt: &R) {
        let mut held = self.guests.lock(rt);
        let guests = &mut *held;
        if let Some(guest) = guests.first_mut() {
            if let Ok(_number) = guest.post(Order::Go { robot: 0, cell: 1 }) {
                self.posted.fetch_add(1, Ordering::SeqCst);
            }
        }
    }

    /// How many notices the first guest finds.
    pub(crate) fn collect<R: Wait>(&self, rt: &R) -> u64 {
        let mut held = self.guests.lock(rt);
        let guests = &mut *held;
        let mut collected = 0u64;
        if let Some(guest) = guests.first_mut() {
            for _ in 0..MOST_NOTICES {
                let Some(_notice) = guest.collect() else {
                    break;
                };
                collected = collected.saturating_add(1);
            }
        }
        collected
    }

    /// The guests, who leave nobody here.
    pub(crate) fn take_home<R: Wait>(&self, rt: &R, alloc: Global) -> Vec<Guest<N>> {
        let mut held = self.guests.lock(rt);
        let guests = &mut *held;
        mem::replace(guests, Vec::new(alloc))
    }
}

/// Starts a thread in which the first guest posts. Says whether it began.
pub(crate) fn post_in_thread<
    N: OfficeName<Global> + Send + Sync + 'static,
    R: Threads + Wait + Copy + Send + Drop + 'static,
>(rt: &R, lent: &Arc<Lent<N>>) -> Result<bool, AllocError> {
    let (theirs, own) = (Arc::try_clone(lent)?, *rt);
    Ok(thread::spawn(rt, move || theirs.post(&own)).is_ok())
}
