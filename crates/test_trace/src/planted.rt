//! What the second judge says of a legal chapter, and of the same with one fault planted for each rule.

use fleet_book::{Order, Verdict};
use fleet_history::{Arrival, Bye, Chapter, ClientState, Entry, Opening, RobotState, Row};
use fleet_hooks::StampLaw;
use fleet_map::MapText;
use golden_judge::{Site, first_fault};
use std::alloc::Global;
use std::process::Abort;

/// What may differ in a chapter of two robots on a row of three floor cells: the start of the second, and what is told
/// of a take, of a tick and of a shut.
#[derive(Clone, Copy)]
struct Told {
    start: u32,
    client: u32,
    verdict: Verdict,
    to: [u32; 2],
    arrival: Option<Arrival>,
    farewell: Option<Bye>,
    robot: u32,
}

/// The first robot goes to the cell next to it, and the second, which stays, is shut.
const LEGAL: Told = Told {
    start: 2,
    client: 0,
    verdict: Verdict::Accepted(1),
    to: [1, 2],
    arrival: Some(Arrival {
        robot: 0,
        client: 0,
        number: 1,
        stamp: 0,
    }),
    farewell: None,
    robot: 1,
};

/// The same arrival, outside of its robot's law.
const LATE: Arrival = Arrival {
    robot: 0,
    client: 0,
    number: 1,
    stamp: 1,
};

/// Chapters, and the entry and the rule that each breaks first.
const PLANTED: [(Told, Option<(u64, u8)>); 12] = [
    (LEGAL, None),
    (Told { start: 0, ..LEGAL }, Some((0, 1))),
    (Told { client: 1, ..LEGAL }, Some((1, 2))),
    (
        Told {
            verdict: Verdict::QueueFull,
            ..LEGAL
        },
        Some((1, 3)),
    ),
    // Both robots come to one cell.
    (
        Told {
            to: [1, 1],
            ..LEGAL
        },
        Some((2, 4)),
    ),
    // The robots exchange their cells.
    (
        Told {
            start: 1,
            to: [1, 0],
            ..LEGAL
        },
        Some((2, 4)),
    ),
    // The first robot leaps.
    (
        Told {
            to: [2, 1],
            ..LEGAL
        },
        Some((2, 4)),
    ),
    // Nobody comes to a goal, and an arrival is told.
    (
        Told {
            to: [0, 2],
            ..LEGAL
        },
        Some((2, 5)),
    ),
    (
        Told {
            arrival: None,
            ..LEGAL
        },
        Some((2, 5)),
    ),
    (
        Told {
            farewell: Some(Bye { robot: 1, stamp: 0 }),
            ..LEGAL
        },
        Some((2, 6)),
    ),
    (
        Told {
            arrival: Some(LATE),
            ..LEGAL
        },
        Some((2, 7)),
    ),
    (Told { robot: 2, ..LEGAL }, Some((3, 8))),
];

fn row_of<T: Drop>(rt: &impl Abort, alloc: Global, item: Option<T>) -> Row<T> {
    let mut items = Vec::new(alloc);
    if let Some(item) = item {
        items.push(item).expect(rt, "memory for a row");
    }
    Row::from_vec(items)
}

fn robot_at(alloc: Global, cell: u32) -> RobotState {
    RobotState {
        cell,
        shut: false,
        wait: None,
        errands: Row::new(alloc),
        arrival_law: StampLaw { low: 0, high: 0 },
        farewell_law: StampLaw { low: 0, high: 0 },
    }
}

fn robots_of(rt: &impl Abort, alloc: Global, start: u32) -> Row<RobotState> {
    let mut robots = Vec::with_capacity(alloc, 2).expect(rt, "memory for robots");
    robots.push_reserved(robot_at(alloc, 0));
    robots.push_reserved(robot_at(alloc, start));
    Row::from_vec(robots)
}

const CLIENT: ClientState = ClientState {
    taken: 0,
    accepted: 0,
    noticed: 0,
    closed: false,
};

fn tick_of(rt: &impl Abort, alloc: Global, told: Told) -> Entry {
    Entry::Tick {
        to: Row::from_vec(Vec::from_slice(alloc, &told.to).expect(rt, "memory for cells")),
        arrived: row_of(rt, alloc, told.arrival),
        farewells: row_of(rt, alloc, told.farewell),
    }
}

fn entries_of(rt: &impl Abort, alloc: Global, told: Told) -> Vec<Entry> {
    let mut entries = Vec::with_capacity(alloc, 3).expect(rt, "memory for entries");
    entries.push_reserved(Entry::Take {
        client: told.client,
        order: Order::Go { robot: 0, cell: 1 },
        verdict: told.verdict,
    });
    entries.push_reserved(tick_of(rt, alloc, told));
    entries.push_reserved(Entry::Shut {
        robot: told.robot,
        farewell: Some(0),
    });
    entries
}

fn chapter_of(rt: &impl Abort, alloc: Global, told: Told) -> Chapter {
    Chapter {
        number: 0,
        opening: Opening {
            tick: 0,
            queue: 16,
            life: 1_000_000,
            clients: row_of(rt, alloc, Some(CLIENT)),
            robots: robots_of(rt, alloc, told.start),
        },
        entries: entries_of(rt, alloc, told),
    }
}

/// A row of three floor cells.
fn row_of_cells(rt: &impl Abort, alloc: Global) -> Site {
    let map = MapText {
        height: 1,
        width: 3,
        cells: Vec::from_slice(alloc, b"...").expect(rt, "memory for a map"),
    };
    Site::new(alloc, &map).expect(rt, "memory for a site")
}

/// What breaks first on the row.
fn fault_in(rt: &impl Abort, alloc: Global, site: &Site, told: Told) -> Option<(u64, u8)> {
    let chapter = chapter_of(rt, alloc, told);
    first_fault(alloc, site, &chapter).expect(rt, "memory for a fleet")
}

#[test]
fn planted_faults_are_found(rt: HostRuntime) {
    let site = row_of_cells(&rt, rt.alloc());
    for at in 0..PLANTED.len() {
        let (told, fault) = PLANTED[at];
        assert!(rt; fault_in(&rt, rt.alloc(), &site, told) == fault, "at {at}");
    }
}
