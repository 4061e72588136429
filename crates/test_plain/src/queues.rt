//! The queue in ordinary use, and when it is full.

use fleet_queue::{Errand, ErrandQueue};
use std::process::Abort;

// Errands of clients 0 and 1, A and B, by their numbers.

const A1: Errand = Errand {
    client: 0,
    number: 1,
    cell: 7,
};

const A2: Errand = Errand {
    client: 0,
    number: 2,
    cell: 7,
};

const A3: Errand = Errand {
    client: 0,
    number: 3,
    cell: 7,
};

const A9: Errand = Errand {
    client: 0,
    number: 9,
    cell: 7,
};

const B1: Errand = Errand {
    client: 1,
    number: 1,
    cell: 7,
};

const B2: Errand = Errand {
    client: 1,
    number: 2,
    cell: 7,
};

/// A call on a queue, with its result.
enum Call {
    Push(Errand, Result<(), Errand>),
    Pop(Option<Errand>),
    Withdraw(u32, u64, bool),
    Holds(u32, u64, bool),
    Front(Option<Errand>),
    Get(usize, Option<Errand>),
    Len(usize),
    IsEmpty(bool),
    IsFull(bool),
}

/// Whether the call returns this.
fn is_answered(queue: &mut ErrandQueue, call: &Call) -> bool {
    match call {
        Call::Push(errand, answer) => queue.try_push(*errand) == *answer,
        Call::Pop(errand) => queue.pop() == *errand,
        Call::Withdraw(client, number, gone) => queue.withdraw(*client, *number) == *gone,
        Call::Holds(client, number, held) => queue.holds(*client, *number) == *held,
        Call::Front(errand) => queue.front() == *errand,
        Call::Get(place, errand) => queue.get(*place) == *errand,
        Call::Len(len) => queue.len() == *len,
        Call::IsEmpty(empty) => queue.is_empty() == *empty,
        Call::IsFull(full) => queue.is_full() == *full,
    }
}

fn make_calls(rt: &impl Abort, queue: &mut ErrandQueue, calls: &[Call]) {
    for at in 0..calls.len() {
        assert!(rt; is_answered(queue, &calls[at]));
    }
}

const ROOM_FOR_TWO: [Call; 16] = [
    Call::IsEmpty(true),
    Call::Front(None),
    Call::Push(A1, Ok(())),
    Call::IsFull(false),
    Call::Push(B1, Ok(())),
    Call::IsFull(true),
    Call::Push(A2, Err(A2)),
    Call::Len(2),
    Call::Front(Some(A1)),
    Call::Pop(Some(A1)),
    Call::Push(A2, Ok(())),
    Call::Get(1, Some(A2)),
    Call::Get(2, None),
    Call::Pop(Some(B1)),
    Call::Pop(Some(A2)),
    Call::Pop(None),
];

const ROOM_FOR_FOUR: [Call; 16] = [
    Call::Push(A9, Ok(())),
    Call::Push(A1, Ok(())),
    Call::Push(A2, Ok(())),
    Call::Push(A3, Ok(())),
    // The items wrap round the end of the block.
    Call::Pop(Some(A9)),
    Call::Push(B2, Ok(())),
    Call::Holds(0, 1, true),
    // It is the front, and another client's.
    Call::Withdraw(0, 1, false),
    Call::Withdraw(1, 3, false),
    Call::Withdraw(0, 2, true),
    Call::Holds(0, 2, false),
    // It is gone.
    Call::Withdraw(0, 2, false),
    Call::Pop(Some(A1)),
    Call::Pop(Some(A3)),
    Call::Pop(Some(B2)),
    // The queue is empty.
    Call::Withdraw(1, 2, false),
];

#[test]
fn first_in_first_out(rt: HostRuntime) {
    let mut queue = ErrandQueue::new(rt.alloc(), 2).expect(&rt, "memory for a queue");
    make_calls(&rt, &mut queue, &ROOM_FOR_TWO);
}

#[test]
fn withdraws_behind_the_front(rt: HostRuntime) {
    let mut queue = ErrandQueue::new(rt.alloc(), 4).expect(&rt, "memory for a queue");
    make_calls(&rt, &mut queue, &ROOM_FOR_FOUR);
}
