//! Refused memory. On a heap that is too small each call says so and gives everything back, whichever block did not
//! fit. On a heap that is just large enough it succeeds.

use fleet_book::{Account, Book, Limits, Order};
use fleet_lanes::lane_pair;
use fleet_queue::{Errand, ErrandQueue};
use linked_list_allocator::LocalHeap;
use std::alloc::Allocator;

const LONE: Errand = Errand {
    client: 0,
    number: 1,
    cell: 7,
};

const GO: Order = Order::Go { robot: 0, cell: 1 };

const SMALL: Limits = Limits {
    lane: 2,
    outlet: 2,
    ..Limits::DEFAULT
};

fn makes_queue<A: Allocator + Copy>(heap: A) -> bool {
    let Ok(mut queue) = ErrandQueue::new(heap, 4) else {
        return false;
    };
    queue.try_push(LONE) == Ok(()) && queue.pop() == Some(LONE)
}

fn makes_book<A: Allocator + Copy>(heap: A) -> bool {
    match Book::new(heap, 2, 3, Limits::DEFAULT) {
        Ok(book) => book.account(1) == Account::BLANK,
        Err(_) => false,
    }
}

fn makes_lanes<A: Allocator + Copy>(heap: A) -> bool {
    let Ok((mut client, mut hall)) = lane_pair(heap, 0, SMALL) else {
        return false;
    };
    client.post(GO) == Ok(1) && hall.take() == Some(GO)
}

/// Four errands of 24 bytes take six units of 16 bytes. Two accounts of 24 bytes take three units, and three flags take
/// one. Two rings of two slots take 896 bytes.
#[test]
fn refused_growths(rt: HostRuntime) {
    for units in 0..64 {
        let heap = LocalHeap::new(rt.alloc(), 16 * units).expect(&rt, "memory for a heap");
        let made = [makes_queue(&heap), makes_book(&heap), makes_lanes(&heap)];
        assert!(rt; made == [units >= 6, units >= 4, units >= 56]);
        assert!(rt; heap.used() == 0);
    }
}
