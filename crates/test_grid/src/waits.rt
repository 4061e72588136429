//! Plain calls that succeed.

use fleet_bound::{idle_ticks, idle_within, longest_queue};
use fleet_queue::{Errand, ErrandQueue};
use std::alloc::Global;
use std::process::Abort;

/// A queue of this many errands.
fn queue_of(rt: &impl Abort, alloc: Global, count: u64) -> ErrandQueue {
    let mut queue = ErrandQueue::new(alloc, 4).expect(rt, "memory for a queue");
    for number in 0..count {
        let _ = queue.try_push(Errand {
            client: 0,
            number,
            cell: 0,
        });
    }
    queue
}

#[test]
fn longest_of_three_queues(rt: HostRuntime) {
    let mut queues = Vec::new(rt.alloc());
    for count in [1, 3, 0] {
        queues
            .push(queue_of(&rt, rt.alloc(), count))
            .expect(&rt, "memory for queues");
    }
    assert!(rt; longest_queue(&queues) == 3);
    assert!(rt; longest_queue::<Global>(&[]) == 0);
}

#[test]
fn ring_of_eight(rt: HostRuntime) {
    assert!(rt; idle_within(2, 2, 8, true) == Some(28));
    assert!(rt; idle_within(0, 2, 8, true) == Some(0));
    assert!(rt; idle_ticks(2, 2, 8) == 28);
}

#[test]
fn one_cell(rt: HostRuntime) {
    assert!(rt; idle_within(1, 1, 1, true) == Some(1));
}

#[test]
fn corridor_standoff(rt: HostRuntime) {
    assert!(rt; idle_within(1, 2, 3, false) == None);
}
