//! The worked cases of an office's end and of its faults.

use crate::rows::case::{Case, Step};
use crate::rows::table::{TO_0, TO_1, TWO_CELLS};
use fleet_book::Limits;

/// A client that is not handed in.
pub(crate) const MISSING_CLIENT: Case<'static> = Case {
    name: "conclude_faults_missing",
    steps: &[
        Step::Post(0, TO_1),
        Step::Conclude(0, 1),
        Step::Conclude(1, 1),
    ],
    ..TWO_CELLS
};

/// A ticker that made no tick may stay away.
pub(crate) const IDLE_TICKER: Case<'static> = Case {
    name: "conclude_faults_idle_ticker",
    steps: &[Step::Post(0, TO_1), Step::Conclude(1, 0)],
    ..TWO_CELLS
};

/// Two tickers make turns, and one of them is not handed in.
pub(crate) const TWO_TICKERS: Case<'static> = Case {
    name: "conclude_faults_tickers",
    steps: &[
        Step::Post(0, TO_1),
        Step::Split(0),
        Step::Split(1),
        Step::Turn(0),
        Step::Turn(1),
        Step::Turn(1),
        Step::Conclude(1, 1),
        Step::Conclude(1, 2),
    ],
    ..TWO_CELLS
};

/// The clock is spent after one tick: later turns take and give.
pub(crate) const SPENT_CLOCK: Case<'static> = Case {
    name: "office_spent_clock",
    limits: Limits {
        clock: 1,
        ..Limits::DEFAULT
    },
    steps: &[
        Step::Turn(0),
        Step::Post(0, TO_1),
        Step::Turn(0),
        Step::Turn(0),
        Step::Collect(0),
        Step::Conclude(1, 1),
    ],
    ..TWO_CELLS
};

/// An outlet of one notice.
pub(crate) const SMALL_OUTLET: Case<'static> = Case {
    name: "office_small_outlet",
    limits: Limits {
        outlet: 1,
        ..Limits::DEFAULT
    },
    steps: &[
        Step::Post(0, TO_1),
        Step::Post(0, TO_0),
        Step::Post(0, TO_1),
        Step::Turn(0),
        Step::Collect(0),
        Step::Collect(0),
        Step::Turn(0),
        Step::Conclude(1, 1),
    ],
    ..TWO_CELLS
};

/// A full chapter at the end, and a next one.
pub(crate) const NEXT_CHAPTER: Case<'static> = Case {
    name: "office_next_chapter",
    limits: Limits {
        chapter: 1,
        chapters: 2,
        ..Limits::DEFAULT
    },
    steps: &[
        Step::Post(0, TO_1),
        Step::Post(0, TO_0),
        Step::Conclude(1, 1),
        Step::NextChapter,
        Step::Conclude(1, 1),
    ],
    ..TWO_CELLS
};

/// One of two clients is handed in, then both.
pub(crate) const SECOND_CLIENT: Case<'static> = Case {
    name: "office_second_client",
    clients: 2,
    steps: &[Step::Conclude(1, 1), Step::Conclude(2, 1)],
    ..TWO_CELLS
};

/// A chapter that is full before the tick.
pub(crate) const FULL_CHAPTER: Case<'static> = Case {
    name: "office_full_chapter",
    limits: Limits {
        chapter: 1,
        chapters: 1,
        ..Limits::DEFAULT
    },
    steps: &[Step::Post(0, TO_1), Step::Turn(0), Step::Conclude(1, 1)],
    ..TWO_CELLS
};

/// A mailbox that has room for one order at a time.
pub(crate) const SMALL_MAILBOX: Case<'static> = Case {
    name: "office_small_mailbox",
    limits: Limits {
        mailbox: 2,
        ..Limits::DEFAULT
    },
    steps: &[
        Step::Post(0, TO_1),
        Step::Post(0, TO_0),
        Step::Turn(0),
        Step::Turn(0),
    ],
    ..TWO_CELLS
};

/// A turn that took `lane` orders holds nobody, though the mailbox has no room for another.
pub(crate) const FULL_TURN: Case<'static> = Case {
    name: "office_full_turn",
    limits: Limits {
        lane: 1,
        mailbox: 2,
        ..Limits::DEFAULT
    },
    steps: &[Step::Post(0, TO_1), Step::Turn(0)],
    ..TWO_CELLS
};

/// The clock is spent and the chapter full: the clock is named.
pub(crate) const CLOCK_FIRST: Case<'static> = Case {
    name: "office_clock_first",
    limits: Limits {
        clock: 1,
        chapter: 1,
        ..Limits::DEFAULT
    },
    steps: &[Step::Turn(0), Step::Turn(0)],
    ..TWO_CELLS
};

/// A refused end widens the mailbox for the orders that were left in the lane, and for no further ones.
pub(crate) const WIDER_MAILBOX: Case<'static> = Case {
    name: "office_wider_mailbox",
    limits: Limits {
        mailbox: 2,
        outlet: 1,
        chapter: 4,
        chapters: 2,
        ..Limits::DEFAULT
    },
    steps: &[
        Step::Post(0, TO_1),
        Step::Post(0, TO_1),
        Step::Post(0, TO_1),
        Step::Post(0, TO_1),
        Step::Post(0, TO_1),
        Step::Conclude(1, 1),
        Step::NextChapter,
        Step::Post(0, TO_1),
        Step::Turn(0),
    ],
    ..TWO_CELLS
};
