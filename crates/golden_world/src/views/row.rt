//! Rows of robots under one law, whose closures tell them apart.

use crate::views::note::Shown;
use fleet_grid::Dir;
use fleet_hooks::{ArrivalView, FarewellView, TieView};
use fleet_world::{Event, Limits, Order};

/// A row of two clients: a map of at most 1,024 a side whose letters fill it, where robots start, the events of a run,
/// and what the robots' closures are to be shown, in order.
#[derive(Clone, Copy)]
pub(crate) struct Row {
    pub(crate) name: &'static str,
    pub(crate) sides: (u32, u32),
    pub(crate) letters: &'static [u8],
    pub(crate) starts: &'static [u32],
    pub(crate) limits: Limits,
    pub(crate) events: &'static [Event],
    pub(crate) shown: &'static [Shown],
    /// The robots' cells at the end.
    pub(crate) end: &'static [u32],
}

/// A tie closure of robot `$robot` on `$cell` is asked for `$neighbour`.
macro_rules! tie {
    ($robot:literal on $cell:literal: $dir:ident $neighbour:literal in $tick:literal) => {
        Shown::Tie(
            $robot,
            TieView {
                robot: $robot,
                cell: $cell,
                neighbour: $neighbour,
                dir: Dir::$dir,
                tick: $tick,
            },
        )
    };
}

macro_rules! arrival {
    ($client:literal, $number:literal: $robot:literal on $cell:literal in $tick:literal) => {
        Shown::Arrival(
            $robot,
            ArrivalView {
                client: $client,
                number: $number,
                robot: $robot,
                cell: $cell,
                tick: $tick,
            },
        )
    };
}

macro_rules! farewell {
    ($robot:literal on $cell:literal in $tick:literal) => {
        Shown::Farewell(
            $robot,
            FarewellView {
                robot: $robot,
                cell: $cell,
                tick: $tick,
            },
        )
    };
}

macro_rules! post {
    ($client:literal: $robot:literal to $cell:literal) => {
        Event::Post(
            $client,
            Order::Go {
                robot: $robot,
                cell: $cell,
            },
        )
    };
}

/// Robot 1 pushes robot 2, which has nowhere to go; robot 0 arrives.
const FAILED_PUSH: Row = Row {
    name: "failed_push",
    sides: (2, 3),
    letters: b"..@...",
    starts: &[5, 0, 1],
    limits: Limits::DEFAULT,
    events: &[
        post!(0: 0 to 4),
        post!(0: 1 to 4),
        Event::Take(0),
        Event::Take(0),
        Event::Tick,
    ],
    shown: &[
        tie!(0 on 5: West 4 in 1),
        tie!(1 on 0: East 1 in 1),
        tie!(1 on 0: South 3 in 1),
        tie!(2 on 1: South 4 in 1),
        tie!(2 on 1: West 0 in 1),
        arrival!(0, 1: 0 on 4 in 1),
    ],
    end: &[4, 3, 1],
};

/// Two robots in corners: robot 0 goes south first, robot 1 west first, by their own ranks.
const TWO_CORNERS: Row = Row {
    name: "two_corners",
    sides: (3, 3),
    letters: b".........",
    starts: &[0, 2],
    limits: Limits::DEFAULT,
    events: &[
        post!(0: 0 to 8),
        post!(1: 1 to 6),
        Event::Take(0),
        Event::Take(1),
        Event::Tick,
        Event::Tick,
    ],
    shown: &[
        tie!(0 on 0: East 1 in 1),
        tie!(0 on 0: South 3 in 1),
        tie!(1 on 2: South 5 in 1),
        tie!(1 on 2: West 1 in 1),
        tie!(0 on 3: North 0 in 2),
        tie!(0 on 3: East 4 in 2),
        tie!(0 on 3: South 6 in 2),
        tie!(1 on 1: East 2 in 2),
        tie!(1 on 1: South 4 in 2),
        tie!(1 on 1: West 0 in 2),
    ],
    end: &[6, 0],
};

/// Robot 1 of client 1 arrives and is shut, then robot 0 says farewell at a shut.
const TWO_FAREWELLS: Row = Row {
    name: "two_farewells",
    sides: (1, 4),
    letters: b"....",
    starts: &[0, 2],
    limits: Limits::DEFAULT,
    events: &[
        post!(1: 1 to 3),
        Event::Take(1),
        Event::Shut(1),
        Event::Tick,
        Event::Shut(0),
    ],
    shown: &[
        tie!(1 on 2: East 3 in 1),
        tie!(1 on 2: West 1 in 1),
        tie!(0 on 0: East 1 in 1),
        arrival!(1, 1: 1 on 3 in 1),
        farewell!(1 on 3 in 1),
        farewell!(0 on 0 in 1),
    ],
    end: &[0, 3],
};

/// Both robots arrive in one tick and say farewell in it. Robot 1 has the lesser client, was sent first and shut first.
const TWO_IN_ONE_TICK: Row = Row {
    name: "two_in_one_tick",
    sides: (1, 4),
    letters: b"....",
    starts: &[0, 3],
    limits: Limits::DEFAULT,
    events: &[
        post!(0: 1 to 3),
        post!(1: 0 to 0),
        Event::Take(0),
        Event::Take(1),
        Event::Shut(1),
        Event::Shut(0),
        Event::Tick,
    ],
    shown: &[
        tie!(0 on 0: East 1 in 1),
        tie!(1 on 3: West 2 in 1),
        arrival!(1, 1: 0 on 0 in 1),
        arrival!(0, 1: 1 on 3 in 1),
        farewell!(0 on 0 in 1),
        farewell!(1 on 3 in 1),
    ],
    end: &[0, 3],
};

/// A robot with an errand left is shut, and says farewell where it arrives.
const SHUT_ROBOT: Row = Row {
    name: "shut_robot",
    sides: (1, 2),
    letters: b"..",
    starts: &[0],
    limits: Limits::DEFAULT,
    events: &[
        post!(0: 0 to 1),
        Event::Take(0),
        post!(0: 0 to 0),
        Event::Shut(0),
        Event::Take(0),
        Event::Tick,
        Event::Shut(0),
        Event::Shut(1),
        Event::Tick,
    ],
    shown: &[
        tie!(0 on 0: East 1 in 1),
        arrival!(0, 1: 0 on 1 in 1),
        farewell!(0 on 1 in 1),
        tie!(0 on 1: West 0 in 2),
    ],
    end: &[1],
};

/// An idle robot says farewell where it is shut.
const IDLE_ROBOT_SHUT: Row = Row {
    name: "idle_robot_shut",
    sides: (1, 2),
    letters: b"..",
    starts: &[0],
    limits: Limits::DEFAULT,
    events: &[Event::Shut(0), Event::Tick, Event::Shut(0)],
    shown: &[farewell!(0 on 0 in 0), tie!(0 on 0: East 1 in 1)],
    end: &[0],
};

/// A tick that the clock refuses asks nobody.
const CLOCK_SPENT: Row = Row {
    name: "clock_spent",
    sides: (1, 1),
    letters: b".",
    starts: &[0],
    limits: Limits {
        clock: 1,
        ..Limits::DEFAULT
    },
    events: &[post!(0: 0 to 0), Event::Tick, Event::Take(0), Event::Tick],
    shown: &[],
    end: &[0],
};

/// Calls that a full chapter refuses ask nobody.
const CHAPTER_FULL: Row = Row {
    name: "chapter_full",
    sides: (1, 1),
    letters: b".",
    starts: &[0],
    limits: Limits {
        chapter: 1,
        ..Limits::DEFAULT
    },
    events: &[
        post!(0: 0 to 0),
        Event::Tick,
        Event::Tick,
        Event::Take(0),
        Event::Shut(0),
    ],
    shown: &[],
    end: &[0],
};

/// All rows.
const ROWS: [Row; 8] = [
    FAILED_PUSH,
    TWO_CORNERS,
    TWO_FAREWELLS,
    TWO_IN_ONE_TICK,
    SHUT_ROBOT,
    IDLE_ROBOT_SHUT,
    CLOCK_SPENT,
    CHAPTER_FULL,
];

/// All rows, in their order.
pub(crate) fn rows() -> &'static [Row] {
    &ROWS
}
