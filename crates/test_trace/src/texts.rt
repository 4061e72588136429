//! Chapters written and read, and hostile traces.

use fleet_book::{Order, Verdict};
use fleet_history::{Arrival, Chapter, ClientState, Entry, Opening, RobotState, Row};
use fleet_hooks::StampLaw;
use fleet_trace::{TraceFault, read_trace, write_and_read, write_trace};
use std::alloc::Global;
use std::process::Abort;

const ONE_CELL: &str =
    "{\"chapter\":0,\"entries\":[[\"take\",0,[\"go\",0,0],[\"accepted\",1]],[\"tick\",[0],[[0,0,1,0]],[]]],\"opening\":{\"clients\":[[0,0,0,false]],\"life\":1000000,\"queue\":16,\"robots\":[[0,false,null,[],[0,0],[0,0]]],\"tick\":0},\"version\":2}";

const ONE_CELL_FIRST: &str =
    "{\"chapter\":0,\"entries\":[[\"take\",0,[\"go\",0,0],[\"accepted\",1]],[\"tick\",[0],[[0,0,1,0]],[]]],\"opening\":{\"clients\":[[0,0,0,false]],\"life\":1000000,\"queue\":16,\"robots\":[[0,false,null,[],[0,0],[0,0]]],\"tick\":0},\"version\":1}";

/// The second chapter of a robot that is on its way.
const SECOND_CHAPTER: &str =
    "{\"chapter\":1,\"entries\":[[\"tick\",[2],[[0,0,1,0]],[]]],\"opening\":{\"clients\":[[1,1,1,false]],\"life\":1000000,\"queue\":16,\"robots\":[[1,false,1,[[0,1,2]],[0,0],[0,0]]],\"tick\":1},\"version\":2}";

const WITHDRAWALS: &str =
    "{\"chapter\":0,\"entries\":[[\"take\",0,[\"go\",0,1],[\"accepted\",1]],[\"take\",0,[\"go\",0,2],[\"accepted\",2]],[\"take\",0,[\"withdraw\",2],[\"withdrawn\"]],[\"take\",0,[\"withdraw\",1],[\"refused\",10]],[\"take\",0,[\"withdraw\",3],[\"refused\",9]]],\"opening\":{\"clients\":[[0,0,0,false]],\"life\":1000000,\"queue\":16,\"robots\":[[0,false,null,[],[0,0],[0,0]]],\"tick\":0},\"version\":2}";

const SHUTS: &str =
    "{\"chapter\":0,\"entries\":[[\"take\",0,[\"close\"],[\"closed\"]],[\"take\",0,[\"go\",1,0],[\"refused\",1]],[\"shut\",0,7],[\"tick\",[0],[],[]]],\"opening\":{\"clients\":[[0,0,0,false]],\"life\":1000000,\"queue\":16,\"robots\":[[0,false,null,[],[0,0],[0,4294967295]]],\"tick\":0},\"version\":2}";

const LOOSE: &str =
    " { \"version\" : 2 , \"opening\":{\"clients\":[[0,0,0,false]],\"life\":1000000,\"queue\":16,\"robots\":[[0,false,null,[],[0,0],[0,0]]],\"tick\":0},\n\"entries\":[[\"take\",0,[\"go\",0,0],[\"accepted\",1]], [\"tick\",[0],[[0,0,1,0]],[]]],\"chapter\":0 } ";

/// Version 1 has no withdrawal, and no code for a refused one.
const FIRST_WITHDRAWS: &str =
    "{\"chapter\":0,\"entries\":[[\"take\",0,[\"withdraw\",2],[\"closed\"]]],\"opening\":{\"clients\":[[0,0,0,false]],\"life\":1000000,\"queue\":16,\"robots\":[[0,false,null,[],[0,0],[0,0]]],\"tick\":0},\"version\":1}";

const FIRST_TOO_LATE: &str =
    "{\"chapter\":0,\"entries\":[[\"take\",0,[\"go\",0,0],[\"refused\",10]]],\"opening\":{\"clients\":[[0,0,0,false]],\"life\":1000000,\"queue\":16,\"robots\":[[0,false,null,[],[0,0],[0,0]]],\"tick\":0},\"version\":1}";

const FURTHER_KEY: &str =
    "{\"chapter\":0,\"entries\":[],\"note\":1,\"opening\":{\"clients\":[[0,0,0,false]],\"life\":1000000,\"queue\":16,\"robots\":[[0,false,null,[],[0,0],[0,0]]],\"tick\":0},\"version\":2}";

const LAW: StampLaw = StampLaw { low: 0, high: 0 };

const CLIENT: ClientState = ClientState {
    taken: 0,
    accepted: 0,
    noticed: 0,
    closed: false,
};

const ARRIVAL: Arrival = Arrival {
    robot: 0,
    client: 0,
    number: 1,
    stamp: 0,
};

/// One robot, on cell 0.
fn lone_robot(rt: &impl Abort, alloc: Global) -> Row<RobotState> {
    let mut robots = Vec::with_capacity(alloc, 1).expect(rt, "memory for a robot");
    robots.push_reserved(RobotState {
        cell: 0,
        shut: false,
        wait: None,
        errands: Row::new(alloc),
        arrival_law: LAW,
        farewell_law: LAW,
    });
    Row::from_vec(robots)
}

/// The tick of an arrival.
fn arrival_tick(rt: &impl Abort, alloc: Global) -> Entry {
    let to = Vec::from_slice(alloc, &[0]).expect(rt, "memory for a cell");
    let arrived = Vec::from_slice(alloc, &[ARRIVAL]).expect(rt, "memory for an arrival");
    Entry::Tick {
        to: Row::from_vec(to),
        arrived: Row::from_vec(arrived),
        farewells: Row::new(alloc),
    }
}

/// An errand is taken, and arrives at the first tick.
fn errand_and_arrival(rt: &impl Abort, alloc: Global) -> Vec<Entry> {
    let mut entries = Vec::with_capacity(alloc, 2).expect(rt, "memory for entries");
    entries.push_reserved(Entry::Take {
        client: 0,
        order: Order::Go { robot: 0, cell: 0 },
        verdict: Verdict::Accepted(1),
    });
    entries.push_reserved(arrival_tick(rt, alloc));
    entries
}

/// The one cell's chapter.
fn one_cell(rt: &impl Abort, alloc: Global) -> Chapter {
    let clients = Vec::from_slice(alloc, &[CLIENT]).expect(rt, "memory for a client");
    Chapter {
        number: 0,
        opening: Opening {
            tick: 0,
            queue: 16,
            life: 1_000_000,
            clients: Row::from_vec(clients),
            robots: lone_robot(rt, alloc),
        },
        entries: errand_and_arrival(rt, alloc),
    }
}

fn fault_of(alloc: Global, bytes: &[u8]) -> Option<TraceFault> {
    read_trace(alloc, bytes).err()
}

/// Whether this is the text of the chapter.
fn is_written_as(rt: &impl Abort, alloc: Global, chapter: &Chapter, text: &str) -> bool {
    let written = write_trace(alloc, chapter).expect(rt, "memory for a trace");
    written.as_str() == text
}

/// Whether this is the text of a chapter that was written and read back.
fn is_written_again_as(rt: &impl Abort, alloc: Global, chapter: &Chapter, text: &str) -> bool {
    let again = write_and_read(alloc, chapter).expect(rt, "memory for a chapter");
    is_written_as(rt, alloc, &again, text)
}

#[test]
fn one_cell_trace(rt: HostRuntime) {
    let chapter = one_cell(&rt, rt.alloc());
    assert!(rt; is_written_as(&rt, rt.alloc(), &chapter, ONE_CELL));
    assert!(rt; is_written_again_as(&rt, rt.alloc(), &chapter, ONE_CELL));
}

/// Texts, each with the text that its chapter is written as: white space and the order of keys are free, and a text of
/// version 1 reads as the same chapter.
const WRITTEN: [(&str, &str); 6] = [
    (ONE_CELL, ONE_CELL),
    (ONE_CELL_FIRST, ONE_CELL),
    (LOOSE, ONE_CELL),
    (SECOND_CHAPTER, SECOND_CHAPTER),
    (WITHDRAWALS, WITHDRAWALS),
    (SHUTS, SHUTS),
];

fn is_rewritten_as(rt: &impl Abort, alloc: Global, text: &str, written: &str) -> bool {
    let chapter = read_trace(alloc, text.as_bytes()).expect(rt, "a trace");
    is_written_as(rt, alloc, &chapter, written)
}

fn check_rewritten(rt: &impl Abort, alloc: Global, texts: &[(&str, &str)]) {
    for at in 0..texts.len() {
        let (text, written) = texts[at];
        assert!(rt; is_rewritten_as(rt, alloc, text, written));
    }
}

#[test]
fn texts_read_back(rt: HostRuntime) {
    check_rewritten(&rt, rt.alloc(), &WRITTEN);
}

#[test]
fn truncated_trace(rt: HostRuntime) {
    let bytes = ONE_CELL.as_bytes();
    for end in 0..bytes.len() {
        assert!(rt; fault_of(rt.alloc(), &bytes[..end]) == Some(TraceFault::NotJson));
    }
}

const HOSTILE: [(&str, TraceFault); 10] = [
    ("[]", TraceFault::Shape),
    ("{\"version\":1}", TraceFault::Shape),
    ("{\"version\":\"1\"}", TraceFault::Shape),
    ("{\"version\":1.0}", TraceFault::Shape),
    ("{\"version\":9}", TraceFault::Version),
    ("{\"version\":-1}", TraceFault::Version),
    ("{\"version\":1,\"version\":9}", TraceFault::Version),
    (FIRST_WITHDRAWS, TraceFault::Shape),
    (FIRST_TOO_LATE, TraceFault::Shape),
    (FURTHER_KEY, TraceFault::Shape),
];

fn check_faults(rt: &impl Abort, alloc: Global, texts: &[(&str, TraceFault)]) {
    for at in 0..texts.len() {
        let (text, fault) = texts[at];
        assert!(rt; fault_of(alloc, text.as_bytes()) == Some(fault));
    }
}

#[test]
fn hostile_traces(rt: HostRuntime) {
    check_faults(&rt, rt.alloc(), &HOSTILE);
    assert!(rt; fault_of(rt.alloc(), b"\xff") == Some(TraceFault::NotJson));
}

#[test]
fn nested_too_deep(rt: HostRuntime) {
    let mut nested = vec![in rt.alloc(); b'['; 128].expect(&rt, "memory for a text");
    for _ in 0..128 {
        nested.push(b']').expect(&rt, "memory for a text");
    }
    assert!(rt; fault_of(rt.alloc(), &nested) == Some(TraceFault::NotJson));
}
