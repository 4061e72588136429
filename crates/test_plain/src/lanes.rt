//! The rings in one thread and in two, full and empty.

ghost use Rattle.std.specs.Prelude.{◌≤◌};
ghost use Rattle.fleet_book.specs.Limits.{AreValid, IsBetween};

use fleet_book::{Limits, Notice, Order, Verdict};
use fleet_lanes::{Client, HallEnd, PostFault, lane_pair};
use std::alloc::Global;
use std::process::Abort;
use std::thread::{self, Threads};

const GO: Order = Order::Go { robot: 0, cell: 1 };

fn limits(lane: u32, outlet: u32) -> Limits
    requires { IsBetween 1 65536 lane × IsBetween 1 65536 outlet }
    ensures { AreValid result }
{
    Limits {
        lane,
        outlet,
        ..Limits::DEFAULT
    }
}

fn accepted(seq: u64, order_no: u64) -> Notice {
    Notice::Verdict {
        seq,
        order_no,
        verdict: Verdict::Accepted(order_no),
    }
}

fn arrived(seq: u64, number: u64) -> Notice {
    Notice::Arrived {
        seq,
        number,
        robot: 0,
        cell: 0,
        tick: number,
        stamp: 0,
    }
}

/// A call on one of the two ends, with its result.
#[derive(Clone, Copy)]
enum Call {
    Post(Order, Result<u64, PostFault>),
    Close(Result<u64, PostFault>),
    Sent(u64),
    IsClosed(bool),
    Collect(Option<Notice>),
    Take(Option<Order>),
    Peek(Option<Order>),
    Give(Notice, Result<(), Notice>),
}

/// Whether the call returns this.
fn is_answered(client: &mut Client, hall: &mut HallEnd, call: &Call) -> bool {
    match call {
        Call::Post(order, answer) => client.post(*order) == *answer,
        Call::Close(answer) => client.close() == *answer,
        Call::Sent(count) => client.sent() == *count,
        Call::IsClosed(closed) => client.is_closed() == *closed,
        Call::Collect(notice) => client.collect() == *notice,
        Call::Take(order) => hall.take() == *order,
        Call::Peek(order) => hall.peek() == *order,
        Call::Give(notice, answer) => hall.give(*notice) == *answer,
    }
}

fn make_calls(rt: &impl Abort, client: &mut Client, hall: &mut HallEnd, calls: &[Call]) {
    for at in 0..calls.len() {
        assert!(rt; is_answered(client, hall, &calls[at]));
    }
}

/// The calls on the ends of two rings with this many slots.
fn check_lane(rt: &impl Abort, alloc: Global, limits: Limits, calls: &[Call])
    requires { AreValid limits }
{
    let (mut client, mut hall) = lane_pair(alloc, 0, limits).expect(rt, "memory for lanes");
    make_calls(rt, &mut client, &mut hall, calls);
}

/// A full lane has room again once the hall has taken an order: the sending end looks for the other's progress.
const FULL_LANE: [Call; 6] = [
    Call::Post(GO, Ok(1)),
    Call::Post(GO, Ok(2)),
    Call::Post(GO, Err(PostFault::LaneFull(GO))),
    Call::Take(Some(GO)),
    Call::Post(GO, Ok(3)),
    Call::Sent(3),
];

/// A client that may send two orders closes with the second.
const TWO_ORDERS: [Call; 3] = [
    Call::Post(GO, Ok(1)),
    Call::Post(GO, Err(PostFault::NumbersSpent(GO))),
    Call::Close(Ok(2)),
];

/// Nothing can be sent after a close. A full lane leaves the client open.
const CLOSED: [Call; 11] = [
    Call::Post(GO, Ok(1)),
    Call::Close(Err(PostFault::LaneFull(Order::Close))),
    Call::IsClosed(false),
    Call::Take(Some(GO)),
    Call::Post(Order::Close, Ok(2)),
    Call::IsClosed(true),
    Call::Take(Some(Order::Close)),
    Call::Post(GO, Err(PostFault::Closed)),
    Call::Close(Err(PostFault::Closed)),
    Call::Sent(2),
    Call::Take(None),
];

const FIRST: Notice = Notice::Arrived {
    seq: 1,
    number: 1,
    robot: 0,
    cell: 0,
    tick: 1,
    stamp: 0,
};

const SECOND: Notice = Notice::Arrived {
    seq: 2,
    number: 2,
    robot: 0,
    cell: 0,
    tick: 2,
    stamp: 0,
};

const THIRD: Notice = Notice::Arrived {
    seq: 3,
    number: 3,
    robot: 0,
    cell: 0,
    tick: 3,
    stamp: 0,
};

const FULL_OUTLET: [Call; 8] = [
    Call::Give(FIRST, Ok(())),
    Call::Give(SECOND, Ok(())),
    Call::Give(THIRD, Err(THIRD)),
    Call::Collect(Some(FIRST)),
    Call::Give(THIRD, Ok(())),
    Call::Collect(Some(SECOND)),
    Call::Collect(Some(THIRD)),
    Call::Collect(None),
];

/// A peek shows the next order, and leaves it.
const PEEKS: [Call; 7] = [
    Call::Peek(None),
    Call::Post(GO, Ok(1)),
    Call::Close(Ok(2)),
    Call::Peek(Some(GO)),
    Call::Take(Some(GO)),
    Call::Peek(Some(Order::Close)),
    Call::Peek(Some(Order::Close)),
];

#[test]
fn lane_and_numbers(rt: HostRuntime) {
    check_lane(&rt, rt.alloc(), limits(2, 64), &FULL_LANE);
    let two = Limits {
        orders: 2,
        ..Limits::DEFAULT
    };
    check_lane(&rt, rt.alloc(), two, &TWO_ORDERS);
    check_lane(&rt, rt.alloc(), limits(1, 1), &CLOSED);
    check_lane(&rt, rt.alloc(), limits(1, 2), &FULL_OUTLET);
    check_lane(&rt, rt.alloc(), limits(4, 4), &PEEKS);
}

/// An order with this number goes over the lane, and two notices about it over the outlet.
fn play_round(rt: &impl Abort, client: &mut Client, hall: &mut HallEnd, number: u64)
    requires least { 1 ≤ number }
    requires most { number ≤ 1000 }
{
    let (first, second) = (
        accepted(2 * number - 1, number),
        arrived(2 * number, number),
    );
    let calls = [
        Call::Post(GO, Ok(number)),
        Call::Take(Some(GO)),
        Call::Take(None),
        Call::Give(first, Ok(())),
        Call::Give(second, Ok(())),
        Call::Collect(Some(first)),
        Call::Collect(Some(second)),
        Call::Collect(None),
    ];
    make_calls(rt, client, hall, &calls);
}

/// The smallest rings, many times over: each end finds what the other has done.
#[test]
fn a_thousand_rounds(rt: HostRuntime) {
    let (mut client, mut hall) = lane_pair(rt.alloc(), 0, limits(1, 2)).expect(
        &rt,
        "memory for lanes",
    );
    for number in 1..=1_000 {
        play_round(&rt, &mut client, &mut hall, number);
    }
}

/// After both ends were looked at together, what they know of each other is taken and collected.
fn take_what_is_known(rt: &impl Abort, client: &mut Client, hall: &mut HallEnd) {
    assert!(rt; client.number() == 5);
    assert!(rt; hall.known() == 2 && client.known() == 1);
    assert!(rt; hall.peek_known() == GO && hall.take_known() == GO);
    assert!(rt; hall.known() == 1 && client.collect_known() == FIRST);
}

#[test]
fn both_ends_in_one_thread(rt: HostRuntime) {
    let (mut client, mut hall) = lane_pair(rt.alloc(), 5, limits(4, 4)).expect(
        &rt,
        "memory for lanes",
    );
    let posted = [client.post(GO), client.close()];
    let given = hall.give(FIRST);
    hall.beside(&mut client);
    assert!(rt; posted == [Ok(1), Ok(2)] && given == Ok(()));
    take_what_is_known(&rt, &mut client, &mut hall);
}

const ROUNDS: u64 = 2_000;

const TRIES: u32 = 200_000_000;

/// Sends this many orders and collects as many notices. Returns whether the notices came in their order.
fn send_all(client: &mut Client) -> bool {
    let mut seen = 0;
    for _ in 0..TRIES {
        if seen >= ROUNDS {
            break;
        }
        if client.sent() < ROUNDS {
            let _full = client.post(GO);
        }
        match client.collect() {
            Some(notice) if notice == accepted(seen + 1, seen + 1) => seen += 1,
            Some(_) => break,
            None => thread::yield_now(),
        }
    }
    seen >= ROUNDS
}

/// Takes this many orders and gives a notice for each.
fn serve_all(hall: &mut HallEnd) -> bool {
    let (mut given, mut taken) = (0, 0);
    for _ in 0..TRIES {
        if given >= ROUNDS {
            break;
        }
        if given < taken && hall.give(accepted(given + 1, given + 1)).is_ok() {
            given += 1;
        } else if taken < ROUNDS && hall.take().is_some() {
            taken += 1;
        } else {
            thread::yield_now();
        }
    }
    given >= ROUNDS
}

/// Both ends at work in two threads.
fn work_both(rt: &(impl Abort + Threads + Sync), client: &mut Client, hall: &mut HallEnd) {
    let (sent, served) = thread::join(rt, || send_all(client), || serve_all(hall));
    assert!(rt; sent && served);
}

#[test]
fn ends_in_two_threads(rt: HostRuntime) {
    let (mut client, mut hall) = lane_pair(rt.alloc(), 0, limits(3, 2)).expect(
        &rt,
        "memory for lanes",
    );
    work_both(&rt, &mut client, &mut hall);
}
