//! The cases of an office that lives on: verdicts without a tick, a tick that its turn shows, chapters, and fields
//! searched ahead.

use crate::rows::case::{Case, Step};
use crate::rows::table::{TO_0, TO_1, TO_2, TWO_CELLS};
use fleet_book::{Limits, Order};

/// A verdict comes before the tick, and the arrival with it.
pub(crate) const SETTLE: Case<'static> = Case {
    name: "office_settle",
    steps: &[
        Step::Post(0, TO_1),
        Step::Settle,
        Step::Collect(0),
        Step::Collect(0),
        Step::Settle,
        Step::Turn(0),
        Step::Collect(0),
    ],
    ..TWO_CELLS
};

/// An order without room in its chapter ends the takes. One that asks for a fuller chapter than there is turns no
/// found.
pub(crate) const SETTLE_FULL_CHAPTER: Case<'static> = Case {
    name: "office_settle_full_chapter",
    limits: Limits {
        chapter: 1,
        chapters: 2,
        ..Limits::DEFAULT
    },
    steps: &[
        Step::Post(0, TO_1),
        Step::Post(0, TO_0),
        Step::Settle,
        Step::Collect(0),
        Step::TurnPage(2),
        Step::TurnPage(1),
        Step::TurnPage(1),
        Step::Settle,
        Step::Collect(0),
        Step::Collect(0),
        Step::TurnPage(2),
        Step::TurnPage(1),
    ],
    ..TWO_CELLS
};

/// A client without room in its mailbox is held.
pub(crate) const SETTLE_HELD: Case<'static> = Case {
    name: "office_settle_held",
    limits: Limits {
        mailbox: 2,
        ..Limits::DEFAULT
    },
    steps: &[
        Step::Post(0, TO_1),
        Step::Post(0, TO_0),
        Step::Settle,
        Step::Settle,
    ],
    ..TWO_CELLS
};

/// A turn shows an arrival and a farewell, the next one neither, and one that is refused nothing.
pub(crate) const TURN_INTO: Case<'static> = Case {
    name: "office_turn_into",
    limits: Limits {
        clock: 2,
        ..Limits::DEFAULT
    },
    steps: &[
        Step::Post(0, TO_1),
        Step::Settle,
        Step::Shut(0),
        Step::Split(0),
        Step::TurnInto(0),
        Step::TurnInto(1),
        Step::TurnInto(0),
    ],
    ..TWO_CELLS
};

/// Three cells in a row.
const THREE_CELLS: Case<'static> = Case {
    sides: (1, 3),
    letters: b"...",
    ..TWO_CELLS
};

/// The second turn arrives, and searches the field of the next errand, to a cell to which the robot went before.
pub(crate) const SEARCHED_LATE: Case<'static> = Case {
    name: "office_searched_late",
    steps: &[
        Step::Post(0, TO_1),
        Step::Post(0, TO_2),
        Step::Post(0, TO_1),
        Step::Settle,
        Step::Keep(65_536),
        Step::Turn(0),
        Step::Turn(0),
    ],
    ..THREE_CELLS
};

/// The same with that field searched before.
pub(crate) const SEARCHED_AHEAD: Case<'static> = Case {
    name: "office_searched_ahead",
    steps: &[
        Step::Post(0, TO_1),
        Step::Post(0, TO_2),
        Step::Post(0, TO_1),
        Step::Settle,
        Step::Keep(65_536),
        Step::Turn(0),
        Step::SearchAhead,
        Step::Turn(0),
    ],
    ..THREE_CELLS
};

/// Two robots change sides on a square of four cells, which has no bridge: no wait reaches two robots times three
/// edges.
pub(crate) const LONGEST_WAIT: Case<'static> = Case {
    name: "office_longest_wait",
    sides: (2, 2),
    letters: b"....",
    starts: &[0, 3],
    steps: &[
        Step::Waits,
        Step::Post(0, Order::Go { robot: 0, cell: 3 }),
        Step::Settle,
        Step::Waits,
        Step::Turn(0),
        Step::Post(0, Order::Go { robot: 1, cell: 0 }),
        Step::Settle,
        Step::Waits,
        Step::Turn(0),
        Step::Waits,
    ],
    ..TWO_CELLS
};

/// Two cells are a bridge, so there is no limit.
pub(crate) const LONGEST_WAIT_ON_A_BRIDGE: Case<'static> = Case {
    name: "office_longest_wait_on_a_bridge",
    steps: &[Step::Post(0, TO_1), Step::Settle, Step::Waits],
    ..TWO_CELLS
};
