//! Rows of one client, call by call.

use fleet_world::{Limits, Order};

/// A call of a world.
#[derive(Clone, Copy)]
pub(crate) enum Call {
    /// Takes an order of the only client to send the robot to the cell.
    Go(u32, u32),
    /// This many ticks.
    Tick(u32),
    /// Hands out the client's next notice.
    Give,
    Shut(u32),
    /// Shows where the robots stand, what they wait for, and how soon the fleet is idle.
    Show,
    /// This many ticks of robots that get a further errand whenever they have none, and their greatest wait next to a
    /// bound.
    Busy(u32, u64),
}

/// A map of at most 1,024 a side whose letters fill it, where robots start, how many of them have closures, and calls.
#[derive(Clone, Copy)]
pub(crate) struct Row {
    pub(crate) name: &'static str,
    pub(crate) sides: (u32, u32),
    pub(crate) letters: &'static [u8],
    pub(crate) starts: &'static [u32],
    pub(crate) hooked: u32,
    pub(crate) limits: Limits,
    pub(crate) calls: &'static [Call],
}

/// The order to send a robot to a cell.
pub(crate) fn go(robot: u32, cell: u32) -> Order {
    Order::Go { robot, cell }
}

/// One errand from its order to its arrival, and the robot's end.
const CALLS_IN_TURN: Row = Row {
    name: "calls_in_turn",
    sides: (1, 2),
    letters: b"..",
    starts: &[0],
    hooked: 1,
    limits: Limits::DEFAULT,
    calls: &[
        Call::Show,
        Call::Go(0, 1),
        Call::Show,
        Call::Tick(1),
        Call::Show,
        Call::Give,
        Call::Give,
        Call::Give,
        Call::Shut(0),
        Call::Shut(0),
        Call::Shut(1),
    ],
};

/// Two robots on a ring, of which one has a further goal: a wait counts from the arrival before, and the longer one
/// makes the eldest.
const RING_OF_EIGHT: Row = Row {
    name: "ring_of_eight",
    sides: (3, 3),
    letters: b"....@....",
    starts: &[0, 8],
    hooked: 2,
    limits: Limits::DEFAULT,
    calls: &[
        Call::Go(0, 1),
        Call::Go(0, 2),
        Call::Go(1, 0),
        Call::Show,
        Call::Tick(1),
        Call::Show,
        Call::Tick(5),
        Call::Show,
        Call::Tick(1),
        Call::Show,
    ],
};

/// Two robots that want to pass one another in a corridor: nothing bounds their waits.
const CORRIDOR_STANDOFF: Row = Row {
    name: "corridor_standoff",
    sides: (1, 3),
    letters: b"...",
    starts: &[0, 2],
    hooked: 2,
    limits: Limits::DEFAULT,
    calls: &[Call::Go(0, 2), Call::Go(1, 0), Call::Show],
};

/// Nine robots fill an open map of nine cells, where no two cells are more than four apart: the bound is nine times
/// four.
const FULL_MAP: Row = Row {
    name: "full_map_stays_below_the_bound",
    sides: (3, 3),
    letters: b".........",
    starts: &[0, 1, 2, 3, 4, 5, 6, 7, 8],
    hooked: 9,
    limits: Limits {
        chapter: 1_000_000,
        ..Limits::DEFAULT
    },
    calls: &[Call::Busy(10_000, 36)],
};

/// An opening on the map `.@`.
macro_rules! opening {
    ($starts:expr, $hooked:literal, $limits:expr) => {
        Row {
            name: "opening_faults",
            sides: (1, 2),
            letters: b".@",
            starts: $starts,
            hooked: $hooked,
            limits: $limits,
            calls: &[Call::Show],
        }
    };
}

/// Limits of which one is below its range.
const NARROW: Limits = Limits {
    mailbox: 1,
    ..Limits::DEFAULT
};

/// The rows.
const ROWS: [Row; 10] = [
    CALLS_IN_TURN,
    RING_OF_EIGHT,
    CORRIDOR_STANDOFF,
    FULL_MAP,
    opening!(&[0], 1, NARROW),
    opening!(&[], 0, Limits::DEFAULT),
    opening!(&[1], 1, Limits::DEFAULT),
    opening!(&[0, 0], 2, Limits::DEFAULT),
    opening!(&[0], 0, Limits::DEFAULT),
    opening!(&[0], 1, Limits::DEFAULT),
];

/// The rows, in their order.
pub(crate) fn rows() -> &'static [Row] {
    &ROWS
}
