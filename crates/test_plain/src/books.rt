//! The verdict rule's order of refusals, the counts, and the ranges of the limits.

ghost use Rattle.std.specs.Prelude.{◌≤◌, ◌<◌, length};

use fleet_book::{Account, Book, Facts, Limits, Order, Place, Verdict};
use std::process::Abort;

const GO: Order = Order::Go { robot: 1, cell: 4 };

const GOOD: Facts = Facts {
    robot_known: true,
    in_range: true,
    floor: true,
    same_part: true,
    queue_full: false,
    place: Place::Absent,
};

const WRONG: Facts = Facts {
    robot_known: false,
    in_range: false,
    floor: false,
    same_part: false,
    queue_full: true,
    place: Place::Absent,
};

const KNOWN: Facts = Facts {
    robot_known: true,
    ..WRONG
};

const INSIDE: Facts = Facts {
    in_range: true,
    ..KNOWN
};

const FLOOR: Facts = Facts {
    floor: true,
    ..INSIDE
};

const REACHED: Facts = Facts {
    same_part: true,
    ..FLOOR
};

const OTHER: Order = Order::Go { robot: 0, cell: 4 };

/// The facts that refuse are set right one after the other, and each time the next refusal shows. Robot 1 is shut, and
/// client 0 has had all errands that its life allows.
const REFUSALS: [(u32, Order, Facts, Verdict); 8] = [
    (0, GO, WRONG, Verdict::NoRobot),
    (0, GO, KNOWN, Verdict::RobotShut),
    (0, OTHER, KNOWN, Verdict::NoCell),
    (0, OTHER, INSIDE, Verdict::Blocked),
    (0, OTHER, FLOOR, Verdict::Unreachable),
    (0, OTHER, REACHED, Verdict::QueueFull),
    (0, OTHER, GOOD, Verdict::LifeSpent),
    (1, OTHER, GOOD, Verdict::Accepted(1)),
];

const WITHDRAW: Order = Order::Withdraw { number: 1 };

/// Orders of a client that is open.
const OPEN: [(u32, Order, Facts, Verdict); 4] = [
    (0, WITHDRAW, GOOD, Verdict::NoErrand),
    (
        0,
        WITHDRAW,
        Facts {
            place: Place::Front,
            ..GOOD
        },
        Verdict::TooLate,
    ),
    (
        0,
        WITHDRAW,
        Facts {
            place: Place::Behind,
            ..GOOD
        },
        Verdict::Withdrawn,
    ),
    (0, Order::Close, GOOD, Verdict::Closed),
];

/// Orders of a client that is closed.
const CLOSED: [(u32, Order, Facts, Verdict); 3] = [
    (0, GO, GOOD, Verdict::ClientClosed),
    (0, Order::Close, GOOD, Verdict::ClientClosed),
    (0, WITHDRAW, GOOD, Verdict::ClientClosed),
];

/// The verdicts of orders of two clients.
fn check_verdicts(rt: &impl Abort, book: &Book, rows: &[(u32, Order, Facts, Verdict)])
    requires { 2 ≤ length book.now.accounts }
{
    for at in 0..rows.len() {
        let (client, order, facts, verdict) = &rows[at];
        assert!(rt; *client < 2);
        assert!(rt; book.judge(*client, *order, *facts) == *verdict);
    }
}

#[test]
fn refusals_in_order(rt: HostRuntime) {
    let limits = Limits {
        life: 1,
        ..Limits::DEFAULT
    };
    let mut book = Book::new(rt.alloc(), 2, 2, limits).expect(&rt, "memory for a book");
    book.enter(0, Verdict::Accepted(1));
    book.shut_robot(1);
    check_verdicts(&rt, &book, &REFUSALS);
}

#[test]
fn closed_and_withdrawn(rt: HostRuntime) {
    let mut book = Book::new(rt.alloc(), 2, 2, Limits::DEFAULT).expect(&rt, "memory for a book");
    check_verdicts(&rt, &book, &OPEN);
    book.enter(0, Verdict::Closed);
    check_verdicts(&rt, &book, &CLOSED);
}

/// How many errands of the client were accepted, and how many are unfinished.
fn counts_of(book: &Book, client: u32) -> [u64; 2]
    requires { client < length book.now.accounts }
{
    [book.accepted(client), book.owed(client)]
}

#[test]
fn counts(rt: HostRuntime) {
    let mut book = Book::new(rt.alloc(), 2, 1, Limits::DEFAULT).expect(&rt, "memory for a book");
    let next = book.next_number(1);
    book.enter(1, Verdict::Accepted(1));
    book.enter(1, Verdict::Accepted(2));
    book.enter(1, Verdict::QueueFull);
    let entered = counts_of(&book, 1);
    let later = book.next_number(1);
    book.enter(1, Verdict::Withdrawn);
    let withdrawn = counts_of(&book, 1);
    book.settle(1);
    assert!(rt; [next, later] == [1, 3]);
    assert!(rt; [entered, withdrawn, counts_of(&book, 1)] == [[2, 2], [2, 1], [2, 0]]);
    assert!(rt; !book.is_closed(1) && book.account(0) == Account::BLANK);
}

#[test]
fn closed_and_shut(rt: HostRuntime) {
    let mut book = Book::new(rt.alloc(), 2, 1, Limits::DEFAULT).expect(&rt, "memory for a book");
    let open = [book.is_closed(0), book.is_closed(1), book.is_shut(0)];
    assert!(rt; book.account(1) == Account::BLANK);
    book.close_client(1);
    book.shut_robot(0);
    assert!(rt; open == [false; 3]);
    assert!(rt; [book.is_closed(0), book.is_closed(1), book.is_shut(0)] == [false, true, true]);
    assert!(rt; book.account(0) == Account::BLANK);
}

const LEAST: Limits = Limits {
    lane: 1,
    outlet: 1,
    queue: 1,
    mailbox: 2,
    life: 1,
    orders: 2,
    clock: 1,
    chapter: 1,
    chapters: 1,
};

const MOST: Limits = Limits {
    lane: 65_536,
    outlet: 65_536,
    queue: 65_536,
    mailbox: 65_536,
    life: 1_099_511_627_776,
    orders: 4_611_686_018_427_387_904,
    clock: 281_474_976_710_656,
    chapter: 16_777_216,
    chapters: 4_294_967_295,
};

/// Each limit, one beyond an end of its range.
const OUTSIDE: [Limits; 17] = [
    Limits { lane: 0, ..LEAST },
    Limits { outlet: 0, ..LEAST },
    Limits { queue: 0, ..LEAST },
    Limits {
        mailbox: 1,
        ..LEAST
    },
    Limits { life: 0, ..LEAST },
    Limits { orders: 1, ..LEAST },
    Limits { clock: 0, ..LEAST },
    Limits {
        chapter: 0,
        ..LEAST
    },
    Limits {
        chapters: 0,
        ..LEAST
    },
    Limits {
        lane: 65_537,
        ..MOST
    },
    Limits {
        outlet: 65_537,
        ..MOST
    },
    Limits {
        queue: 65_537,
        ..MOST
    },
    Limits {
        mailbox: 65_537,
        ..MOST
    },
    Limits {
        life: 1_099_511_627_777,
        ..MOST
    },
    Limits {
        orders: 4_611_686_018_427_387_905,
        ..MOST
    },
    Limits {
        clock: 281_474_976_710_657,
        ..MOST
    },
    Limits {
        chapter: 16_777_217,
        ..MOST
    },
];

fn check_invalid(rt: &impl Abort, several: &[Limits]) {
    for at in 0..several.len() {
        assert!(rt; !several[at].is_valid());
    }
}

/// Each limit at both ends of its range, and one beyond them.
#[test]
fn ranges(rt: HostRuntime) {
    assert!(rt; Limits::DEFAULT.is_valid() && LEAST.is_valid() && MOST.is_valid());
    check_invalid(&rt, &OUTSIDE);
}
