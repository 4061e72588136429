//! The worked cases that name an office.

use crate::rows::case::{Case, HallStep, Step};
use crate::rows::faults::{
    CLOCK_FIRST, FULL_CHAPTER, FULL_TURN, IDLE_TICKER, MISSING_CLIENT, NEXT_CHAPTER, SECOND_CLIENT,
    SMALL_MAILBOX, SMALL_OUTLET, SPENT_CLOCK, TWO_TICKERS, WIDER_MAILBOX,
};
use crate::rows::onward::{
    LONGEST_WAIT, LONGEST_WAIT_ON_A_BRIDGE, SEARCHED_AHEAD, SETTLE, SETTLE_FULL_CHAPTER,
    SETTLE_HELD, TURN_INTO,
};
use fleet_book::{Limits, Order};

/// Robot 0 to cell 0.
pub(crate) const TO_0: Order = Order::Go { robot: 0, cell: 0 };

/// Robot 0 to cell 1.
pub(crate) const TO_1: Order = Order::Go { robot: 0, cell: 1 };

/// Robot 0 to cell 2.
pub(crate) const TO_2: Order = Order::Go { robot: 0, cell: 2 };

/// Robot 1 to cell 0.
const OTHER_TO_0: Order = Order::Go { robot: 1, cell: 0 };

/// One client of an office over two cells, with its robot on the first, and no calls.
pub(crate) const TWO_CELLS: Case<'static> = Case {
    name: "",
    sides: (1, 2),
    letters: b"..",
    starts: &[0],
    clients: 1,
    limits: Limits::DEFAULT,
    rounds: 0,
    round: &[],
    steps: &[],
    hall: &[],
};

/// A turn, a look, and a robot that is shut twice.
const BACK_PRESSURE: Case<'static> = Case {
    name: "back_pressure",
    steps: &[
        Step::Post(0, TO_1),
        Step::Turn(0),
        Step::Collect(0),
        Step::Look(0),
        Step::Shut(0),
        Step::Shut(0),
        Step::Conclude(1, 1),
    ],
    ..TWO_CELLS
};

/// A mailbox that has room for one order at a time, and an outlet for one notice, event by event.
const BACK_PRESSURE_IN_HALL: Case<'static> = Case {
    name: "back_pressure_in_hall",
    limits: Limits {
        mailbox: 2,
        outlet: 1,
        ..Limits::DEFAULT
    },
    hall: &[
        HallStep::Post(TO_1),
        HallStep::Post(TO_0),
        HallStep::Take,
        HallStep::Take,
        HallStep::Tick,
        HallStep::Give,
        HallStep::Give,
        HallStep::Take,
        HallStep::Collect,
        HallStep::Give,
        HallStep::Take,
        HallStep::Take,
    ],
    ..TWO_CELLS
};

/// A full lane has room again after a turn.
const LANE_OF_TWO: Case<'static> = Case {
    name: "lane_and_numbers_full_lane",
    limits: Limits {
        lane: 2,
        ..Limits::DEFAULT
    },
    steps: &[
        Step::Post(0, TO_1),
        Step::Post(0, TO_1),
        Step::Post(0, TO_1),
        Step::Turn(0),
        Step::Post(0, TO_1),
    ],
    ..TWO_CELLS
};

/// The last number is kept for Close.
const SPENT_NUMBERS: Case<'static> = Case {
    name: "lane_and_numbers_spent",
    limits: Limits {
        orders: 2,
        ..Limits::DEFAULT
    },
    steps: &[Step::Post(0, TO_1), Step::Post(0, TO_1), Step::Close(0)],
    ..TWO_CELLS
};

/// The smallest rings, over and over.
const THOUSAND_ROUNDS: Case<'static> = Case {
    name: "lane_and_numbers_rounds",
    limits: Limits {
        lane: 1,
        outlet: 2,
        ..Limits::DEFAULT
    },
    rounds: 1_000,
    round: &[
        Step::Post(0, TO_0),
        Step::Turn(0),
        Step::Collect(0),
        Step::Collect(0),
        Step::Collect(0),
    ],
    ..TWO_CELLS
};

/// Nothing is sent after Close.
const CLOSED_CLIENT: Case<'static> = Case {
    name: "close_and_shut_client",
    steps: &[
        Step::Post(0, TO_1),
        Step::Close(0),
        Step::Post(0, TO_0),
        Step::Close(0),
        Step::Turn(0),
        Step::Collect(0),
        Step::Collect(0),
        Step::Collect(0),
        Step::Collect(0),
    ],
    ..TWO_CELLS
};

/// An idle robot's farewell is called at its shut, and it takes no further errands.
const SHUT_ROBOT: Case<'static> = Case {
    name: "close_and_shut_robot",
    steps: &[
        Step::Shut(0),
        Step::Shut(0),
        Step::Shut(1),
        Step::Post(0, TO_1),
        Step::Turn(0),
        Step::Collect(0),
        Step::Conclude(1, 1),
    ],
    ..TWO_CELLS
};

/// Two chapters of one entry each.
const TWO_CHAPTERS: Case<'static> = Case {
    name: "clock_and_chapter",
    limits: Limits {
        chapter: 1,
        chapters: 2,
        ..Limits::DEFAULT
    },
    steps: &[
        Step::Turn(0),
        Step::Turn(0),
        Step::NextChapter,
        Step::Turn(0),
        Step::Shut(0),
        Step::NextChapter,
    ],
    ..TWO_CELLS
};

/// Two robots on a ring of eight cells, until no robot has an errand.
const RING_OF_EIGHT: Case<'static> = Case {
    name: "ring_of_eight",
    sides: (3, 3),
    letters: b"....@....",
    starts: &[0, 8],
    steps: &[
        Step::Post(0, TO_1),
        Step::Post(0, TO_2),
        Step::Post(0, OTHER_TO_0),
        Step::Turn(0),
        Step::Turn(0),
        Step::Turn(0),
        Step::Turn(0),
        Step::Turn(0),
        Step::Turn(0),
        Step::Turn(0),
        Step::Conclude(1, 1),
    ],
    ..TWO_CELLS
};

/// The cases, in their order.
const ROWS: [Case<'static>; 28] = [
    BACK_PRESSURE,
    BACK_PRESSURE_IN_HALL,
    LANE_OF_TWO,
    SPENT_NUMBERS,
    CLOSED_CLIENT,
    SHUT_ROBOT,
    MISSING_CLIENT,
    IDLE_TICKER,
    TWO_TICKERS,
    SPENT_CLOCK,
    SMALL_OUTLET,
    NEXT_CHAPTER,
    SECOND_CLIENT,
    FULL_CHAPTER,
    SMALL_MAILBOX,
    FULL_TURN,
    CLOCK_FIRST,
    WIDER_MAILBOX,
    TWO_CHAPTERS,
    RING_OF_EIGHT,
    SETTLE,
    SETTLE_FULL_CHAPTER,
    SETTLE_HELD,
    TURN_INTO,
    LONGEST_WAIT,
    LONGEST_WAIT_ON_A_BRIDGE,
    SEARCHED_AHEAD,
    THOUSAND_ROUNDS,
];

/// The cases whose allocations are refused.
const REFUSED: [Case<'static>; 8] = [
    BACK_PRESSURE,
    SHUT_ROBOT,
    MISSING_CLIENT,
    TWO_TICKERS,
    NEXT_CHAPTER,
    SETTLE_FULL_CHAPTER,
    TURN_INTO,
    SEARCHED_AHEAD,
];

/// The cases, in their order.
pub(crate) fn rows() -> &'static [Case<'static>] {
    &ROWS
}

/// The cases whose allocations are refused.
pub(crate) fn refused_rows() -> &'static [Case<'static>] {
    &REFUSED
}
