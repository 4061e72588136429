//! The cases: a script on a yard, who is held, and what is told of it.

use crate::serves::gate::Hold;
use crate::serves::yard::{CORRIDOR, RING, TWO_CELLS, Yard};

/// A fact that a case prints.
#[derive(Clone, Copy)]
pub(crate) enum Fact {
    /// Whether those who were held were let go by a flag, none by the number of tries.
    Held,
    LaneFull,
    Takes,
    Arrivals,
    Unfinished,
    Ticks,
    SameMap,
    Legal,
    Told,
}

/// A script on a yard.
#[derive(Clone, Copy)]
pub(crate) struct Row {
    pub(crate) name: &'static str,
    pub(crate) yard: Yard,
    pub(crate) script: &'static [u8],
    pub(crate) hold: Hold,
    pub(crate) facts: &'static [Fact],
}

/// Two clients, whose threads have to run at the same time.
const SIDE_BY_SIDE: Row = Row {
    name: "clients_side_by_side",
    yard: TWO_CELLS,
    script: b"robots 0\nclients 2\npost 0 go 0 1\npost 1 go 0 0\n",
    hold: Hold::FirstLines,
    facts: &[
        Fact::Held,
        Fact::LaneFull,
        Fact::Takes,
        Fact::SameMap,
        Fact::Legal,
        Fact::Told,
    ],
};

/// A tick stands in a closure while the client posts twice into a lane of one.
const LANE_OF_ONE: Row = Row {
    name: "lane_of_one",
    yard: TWO_CELLS,
    script: b"robots 0\nlane 1\nturns 1\npost 0 go 0 1\npost 0 go 0 1\ncollect 0\n",
    hold: Hold::LineAndTick,
    facts: &[
        Fact::Held,
        Fact::LaneFull,
        Fact::Takes,
        Fact::Legal,
        Fact::Told,
    ],
};

/// Where no map has a bridge, all errands are done at the end.
const IDLE_AT_THE_END: Row = Row {
    name: "idle_at_the_end",
    yard: RING,
    script: b"robots 0 8\nclients 2\nturns 1\npost 0 go 0 1\npost 0 go 0 2\npost 1 go 1 0\n",
    hold: Hold::Nobody,
    facts: &[Fact::Arrivals, Fact::Unfinished, Fact::Legal, Fact::Told],
};

/// Two robots stand in each other's way for ever.
const STANDOFF: Row = Row {
    name: "standoff",
    yard: CORRIDOR,
    script: b"robots 0 2\nturns 1\npost 0 go 0 2\npost 0 go 1 0\n",
    hold: Hold::Nobody,
    facts: &[Fact::Takes, Fact::Arrivals, Fact::Legal, Fact::Told],
};

/// The second order waits for an arrival that never comes.
const NEVER_DRAINED: Row = Row {
    name: "never_drained",
    script: b"robots 0 2\nturns 1\nmailbox 2\nclock 2000000\nchapter 2000000\npost 0 go 0 2\npost 0 go 1 0\n",
    ..STANDOFF
};

/// The same under a clock that ends before.
const CLOCK_SPENT: Row = Row {
    name: "clock_spent",
    script: b"robots 0 2\nturns 1\nmailbox 2\nclock 100\npost 0 go 0 2\npost 0 go 1 0\n",
    ..STANDOFF
};

/// A post after the client's Close sends nothing, and meets no full lane.
const AFTER_CLOSE: Row = Row {
    name: "post_after_close",
    yard: TWO_CELLS,
    script: b"robots 0\nturns 1\npost 0 close\npost 0 go 0 1\n",
    hold: Hold::Nobody,
    facts: &[Fact::LaneFull, Fact::Takes, Fact::Legal, Fact::Told],
};

/// Nor does a post of a client that has no number left for it.
const NUMBERS_SPENT: Row = Row {
    name: "numbers_spent",
    script: b"robots 0\nturns 1\norders 2\npost 0 go 0 1\npost 0 go 0 1\n",
    ..AFTER_CLOSE
};

/// An outlet of one notice: the lane is emptied as the client collects.
const SMALL_OUTLET: Row = Row {
    name: "small_outlet",
    yard: RING,
    script: b"robots 0\nturns 1\noutlet 1\nmailbox 2\npost 0 go 0 0\npost 0 go 0 0\npost 0 go 0 0\npost 0 go 0 0\n",
    hold: Hold::Nobody,
    facts: &[Fact::Takes, Fact::Arrivals, Fact::Legal, Fact::Told],
};

/// Two tickers with three turns each, and one further turn that takes nothing.
const THREE_TURNS: Row = Row {
    name: "three_turns",
    yard: TWO_CELLS,
    script: b"robots 0\nturns 3\n",
    hold: Hold::Nobody,
    facts: &[Fact::Takes, Fact::Ticks, Fact::Legal],
};

/// The further turns end as soon as no robot has an errand: a walk of four steps is done within six ticks.
const IDLE_IN_TIME: Row = Row {
    name: "idle_in_time",
    yard: RING,
    script: b"robots 0\nturns 1\nclock 6\npost 0 go 0 8\n",
    hold: Hold::Nobody,
    facts: &[Fact::Arrivals, Fact::Unfinished, Fact::Legal, Fact::Told],
};

/// Both tickers' ticks fill the chapter, and the next one is refused.
const CHAPTER_FULL: Row = Row {
    name: "chapter_full",
    yard: TWO_CELLS,
    script: b"robots 0\nturns 1\nchapter 2\n",
    hold: Hold::Nobody,
    facts: &[Fact::Takes],
};

/// A clock that ends after 100,000 ticks: the further turns are not given up before.
const CLOCK_SPENT_LATE: Row = Row {
    name: "clock_spent_late",
    script: b"robots 0 2\nturns 1\nmailbox 2\nclock 100000\nchapter 2000000\npost 0 go 0 2\npost 0 go 1 0\n",
    ..STANDOFF
};

/// The two tickers make two ticks, and 1,000,000 further turns one each: the last of them is a tick too many.
const CLOCK_SPENT_LAST: Row = Row {
    name: "clock_spent_at_the_last_turn",
    script: b"robots 0 2\nturns 1\nmailbox 2\nclock 1000001\nchapter 2000000\npost 0 go 0 2\npost 0 go 1 0\n",
    ..STANDOFF
};

/// With a tick more for the clock, the further turns are given up.
const GIVEN_UP: Row = Row {
    name: "never_drained_by_the_last_turn",
    script: b"robots 0 2\nturns 1\nmailbox 2\nclock 1000002\nchapter 2000000\npost 0 go 0 2\npost 0 go 1 0\n",
    ..STANDOFF
};

/// All cases.
pub(crate) const ROWS: [Row; 15] = [
    SIDE_BY_SIDE,
    LANE_OF_ONE,
    IDLE_AT_THE_END,
    STANDOFF,
    NEVER_DRAINED,
    CLOCK_SPENT,
    AFTER_CLOSE,
    NUMBERS_SPENT,
    SMALL_OUTLET,
    THREE_TURNS,
    IDLE_IN_TIME,
    CHAPTER_FULL,
    CLOCK_SPENT_LATE,
    CLOCK_SPENT_LAST,
    GIVEN_UP,
];
