//! Traces judged on small maps.

ghost use Rattle.std.specs.Prelude.{◌≤◌};

use fleet_grid::Grid;
use fleet_map::MapText;
use fleet_trace::{JudgeFault, judge, read_trace};
use std::alloc::{AllocError, Global};
use std::fmt::Write;
use std::process::Abort;

/// An errand to the robot's own cell, and its arrival.
const ONE_CELL: &str =
    "{\"chapter\":0,\"entries\":[[\"take\",0,[\"go\",0,0],[\"accepted\",1]],[\"tick\",[0],[[0,0,1,0]],[]]],\"opening\":{\"clients\":[[0,0,0,false]],\"life\":1000000,\"queue\":16,\"robots\":[[0,false,null,[],[0,0],[0,0]]],\"tick\":0},\"version\":2}";

/// Two robots exchange their cells.
const SWAP: &str =
    "{\"chapter\":0,\"entries\":[[\"tick\",[1,0],[],[]]],\"opening\":{\"clients\":[[0,0,0,false]],\"life\":1000000,\"queue\":16,\"robots\":[[0,false,null,[],[0,0],[0,0]],[1,false,null,[],[0,0],[0,0]]],\"tick\":0},\"version\":2}";

/// The second chapter of a robot that is on its way.
const SECOND_CHAPTER: &str =
    "{\"chapter\":1,\"entries\":[[\"tick\",[2],[[0,0,1,0]],[]]],\"opening\":{\"clients\":[[1,1,1,false]],\"life\":1000000,\"queue\":16,\"robots\":[[1,false,1,[[0,1,2]],[0,0],[0,0]]],\"tick\":1},\"version\":2}";

/// Errands that are withdrawn, or too late to be.
const WITHDRAWALS: &str =
    "{\"chapter\":0,\"entries\":[[\"take\",0,[\"go\",0,1],[\"accepted\",1]],[\"take\",0,[\"go\",0,2],[\"accepted\",2]],[\"take\",0,[\"withdraw\",2],[\"withdrawn\"]],[\"take\",0,[\"withdraw\",1],[\"refused\",10]],[\"take\",0,[\"withdraw\",3],[\"refused\",9]],[\"tick\",[1],[[0,0,1,0]],[]],[\"tick\",[1],[],[]],[\"take\",0,[\"withdraw\",2],[\"refused\",9]],[\"take\",0,[\"close\"],[\"closed\"]],[\"take\",0,[\"withdraw\",1],[\"refused\",1]]],\"opening\":{\"clients\":[[0,0,0,false]],\"life\":1000000,\"queue\":16,\"robots\":[[0,false,null,[],[0,0],[0,0]]],\"tick\":0},\"version\":2}";

/// A shut robot says farewell with its last arrival.
const SHUT: &str =
    "{\"chapter\":0,\"entries\":[[\"take\",0,[\"go\",0,1],[\"accepted\",1]],[\"shut\",0],[\"take\",0,[\"go\",0,0],[\"refused\",3]],[\"tick\",[1],[[0,0,1,7]],[[0,4294967295]]]],\"opening\":{\"clients\":[[0,0,0,false]],\"life\":1000000,\"queue\":16,\"robots\":[[0,false,null,[],[0,999],[0,4294967295]]],\"tick\":0},\"version\":2}";

/// The clock has room for no further tick, and a robot has waited as long as that.
const LATE: &str =
    "{\"chapter\":4294967295,\"entries\":[[\"tick\",[1],[[0,0,1,0]],[]],[\"tick\",[1],[],[]]],\"opening\":{\"clients\":[[1,1,1,false]],\"life\":1,\"queue\":65536,\"robots\":[[0,false,18446744073709551615,[[0,1,1]],[0,0],[0,0]]],\"tick\":18446744073709551615},\"version\":2}";

/// A map whose cells are all floor.
fn open_floor(rt: &impl Abort, alloc: Global, height: u32, width: u32) -> Grid
    requires { height ≤ 1024 × width ≤ 1024 }
{
    let cells = vec![in alloc; b'.'; (height * width) as usize].expect(rt, "memory for a map");
    let map = MapText {
        height,
        width,
        cells,
    };
    Grid::new(map).expect(rt, "memory for a grid")
}

/// The judge's result for the trace on a map.
fn judged(rt: &impl Abort, alloc: Global, grid: &Grid, text: &str) -> Result<(), JudgeFault> {
    let chapter = read_trace(alloc, text.as_bytes()).expect(rt, "a trace");
    judge(alloc, grid, &chapter)
}

/// Legal traces on a row of three cells.
const LEGAL: [&str; 4] = [SECOND_CHAPTER, WITHDRAWALS, SHUT, LATE];

fn check_legal(rt: &impl Abort, alloc: Global, width: u32, texts: &[&str])
    requires { width ≤ 1024 }
{
    let row = open_floor(rt, alloc, 1, width);
    for at in 0..texts.len() {
        assert!(rt; judged(rt, alloc, &row, texts[at]).is_ok());
    }
}

#[test]
fn legal_traces(rt: HostRuntime) {
    check_legal(&rt, rt.alloc(), 1, &[ONE_CELL]);
    check_legal(&rt, rt.alloc(), 3, &LEGAL);
}

/// Whether the trace's first illegal entry is that one, and the first rule that it breaks.
fn is_broken(rt: &impl Abort, alloc: Global, grid: &Grid, trace: (&str, u64, u8)) -> bool {
    let (text, entry, broken) = trace;
    match judged(rt, alloc, grid, text) {
        Err(JudgeFault::Illegal { at, rule }) => at == entry && rule == broken,
        _ => false,
    }
}

#[test]
fn judged_swap(rt: HostRuntime) {
    let square = open_floor(&rt, rt.alloc(), 2, 2);
    assert!(rt; is_broken(&rt, rt.alloc(), &square, (SWAP, 1, 4)));
}

/// Writes the trace of 512 robots next to each other, with the largest limits and these clients.
fn write_crowd(text: &mut String, clients: &str) -> Result<(), AllocError> {
    text.push_str("{\"chapter\":0,\"entries\":[],\"opening\":{\"clients\":")?;
    text.push_str(clients)?;
    text.push_str(
        ",\"life\":1099511627776,\"queue\":65536,\"robots\":[[0,false,null,[],[0,0],[0,0]]",
    )?;
    for robot in 1..512u32 {
        write!(text, ",[{robot},false,null,[],[0,0],[0,0]]")?;
    }
    text.push_str("],\"tick\":0},\"version\":2}")
}

fn judged_crowd(
    rt: &impl Abort,
    alloc: Global,
    grid: &Grid,
    clients: &str,
) -> Result<(), JudgeFault> {
    let mut text = String::new(alloc);
    write_crowd(&mut text, clients).expect(rt, "memory for a trace");
    judged(rt, alloc, grid, &text)
}

/// The clients of a large fleet, and the judge's result.
const CROWDS: [(&str, Result<(), JudgeFault>); 2] = [
    ("[[0,0,0,false]]", Ok(())),
    (
        "[[18446744073709551615,18446744073709551615,18446744073709551615,true]]",
        Err(JudgeFault::Illegal { at: 0, rule: 1 }),
    ),
];

#[test]
fn hostile_openings(rt: HostRuntime) {
    let long = open_floor(&rt, rt.alloc(), 1, 512);
    for (clients, said) in CROWDS {
        assert!(rt; judged_crowd(&rt, rt.alloc(), &long, clients) == said);
    }
}

fn check_broken(rt: &impl Abort, alloc: Global, row: &Grid, traces: &[(&str, u64, u8)]) {
    for number in 0..traces.len() {
        assert!(rt; is_broken(rt, alloc, row, traces[number]));
    }
}

#[test]
fn each_rule(rt: HostRuntime) {
    let row = open_floor(&rt, rt.alloc(), 1, 3);
    check_broken(&rt, rt.alloc(), &row, &BROKEN);
}

/// Traces on a row of three cells, each with its first illegal entry and the first rule that it breaks.
const BROKEN: [(&str, u64, u8); 20] = [
    (
        "{\"chapter\":0,\"entries\":[],\"opening\":{\"clients\":[[0,0,0,false]],\"life\":1000000,\"queue\":16,\"robots\":[],\"tick\":0},\"version\":2}",
        0,
        1,
    ),
    (
        "{\"chapter\":0,\"entries\":[[\"take\",9,[\"close\"],[\"closed\"]]],\"opening\":{\"clients\":[[0,0,0,false]],\"life\":1000000,\"queue\":16,\"robots\":[[0,false,null,[],[0,0],[0,0]],[0,false,null,[],[0,0],[0,0]]],\"tick\":0},\"version\":2}",
        0,
        1,
    ),
    (
        "{\"chapter\":0,\"entries\":[],\"opening\":{\"clients\":[[0,0,0,false]],\"life\":1000000,\"queue\":16,\"robots\":[[3,false,null,[],[0,0],[0,0]]],\"tick\":0},\"version\":2}",
        0,
        1,
    ),
    (
        "{\"chapter\":0,\"entries\":[],\"opening\":{\"clients\":[[18446744073709551615,18446744073709551615,18446744073709551615,false]],\"life\":1000000,\"queue\":16,\"robots\":[[0,false,null,[],[0,0],[0,0]]],\"tick\":0},\"version\":2}",
        0,
        1,
    ),
    (
        "{\"chapter\":0,\"entries\":[],\"opening\":{\"clients\":[[1,1,1,false]],\"life\":1000000,\"queue\":16,\"robots\":[[0,false,1,[[0,1,1]],[0,0],[0,0]]],\"tick\":0},\"version\":2}",
        0,
        1,
    ),
    (
        "{\"chapter\":0,\"entries\":[],\"opening\":{\"clients\":[[2,2,2,false]],\"life\":1000000,\"queue\":16,\"robots\":[[0,false,0,[[0,2,1],[0,1,2]],[0,0],[0,0]]],\"tick\":0},\"version\":2}",
        0,
        1,
    ),
    (
        "{\"chapter\":0,\"entries\":[[\"take\",0,[\"close\"],[\"closed\"]],[\"take\",1,[\"close\"],[\"closed\"]]],\"opening\":{\"clients\":[[0,0,0,false]],\"life\":1000000,\"queue\":16,\"robots\":[[0,false,null,[],[0,0],[0,0]]],\"tick\":0},\"version\":2}",
        2,
        2,
    ),
    (
        "{\"chapter\":0,\"entries\":[[\"take\",0,[\"go\",0,1],[\"accepted\",2]]],\"opening\":{\"clients\":[[0,0,0,false]],\"life\":1000000,\"queue\":16,\"robots\":[[0,false,null,[],[0,0],[0,0]]],\"tick\":0},\"version\":2}",
        1,
        3,
    ),
    (
        "{\"chapter\":0,\"entries\":[[\"take\",0,[\"withdraw\",1],[\"withdrawn\"]]],\"opening\":{\"clients\":[[0,0,0,false]],\"life\":1000000,\"queue\":16,\"robots\":[[0,false,null,[],[0,0],[0,0]]],\"tick\":0},\"version\":2}",
        1,
        3,
    ),
    (
        "{\"chapter\":0,\"entries\":[[\"tick\",[2],[],[]]],\"opening\":{\"clients\":[[0,0,0,false]],\"life\":1000000,\"queue\":16,\"robots\":[[0,false,null,[],[0,0],[0,0]]],\"tick\":0},\"version\":2}",
        1,
        4,
    ),
    (
        "{\"chapter\":0,\"entries\":[[\"tick\",[0,1],[],[]]],\"opening\":{\"clients\":[[0,0,0,false]],\"life\":1000000,\"queue\":16,\"robots\":[[0,false,null,[],[0,0],[0,0]]],\"tick\":0},\"version\":2}",
        1,
        4,
    ),
    (
        "{\"chapter\":0,\"entries\":[[\"take\",0,[\"go\",0,1],[\"accepted\",1]],[\"tick\",[1],[],[]]],\"opening\":{\"clients\":[[0,0,0,false]],\"life\":1000000,\"queue\":16,\"robots\":[[0,false,null,[],[0,0],[0,0]]],\"tick\":0},\"version\":2}",
        2,
        5,
    ),
    (
        "{\"chapter\":0,\"entries\":[[\"tick\",[1],[[0,0,1,0]],[]]],\"opening\":{\"clients\":[[0,0,0,false]],\"life\":1000000,\"queue\":16,\"robots\":[[0,false,null,[],[0,0],[0,0]]],\"tick\":0},\"version\":2}",
        1,
        5,
    ),
    (
        "{\"chapter\":0,\"entries\":[[\"shut\",0]],\"opening\":{\"clients\":[[0,0,0,false]],\"life\":1000000,\"queue\":16,\"robots\":[[0,false,null,[],[0,0],[0,0]]],\"tick\":0},\"version\":2}",
        1,
        6,
    ),
    (
        "{\"chapter\":0,\"entries\":[[\"take\",0,[\"go\",0,1],[\"accepted\",1]],[\"shut\",0,0]],\"opening\":{\"clients\":[[0,0,0,false]],\"life\":1000000,\"queue\":16,\"robots\":[[0,false,null,[],[0,0],[0,0]]],\"tick\":0},\"version\":2}",
        2,
        6,
    ),
    (
        "{\"chapter\":0,\"entries\":[[\"take\",0,[\"go\",0,1],[\"accepted\",1]],[\"shut\",0],[\"tick\",[1],[[0,0,1,0]],[]]],\"opening\":{\"clients\":[[0,0,0,false]],\"life\":1000000,\"queue\":16,\"robots\":[[0,false,null,[],[0,0],[0,0]]],\"tick\":0},\"version\":2}",
        3,
        6,
    ),
    (
        "{\"chapter\":0,\"entries\":[[\"take\",0,[\"go\",0,1],[\"accepted\",1]],[\"tick\",[1],[[0,0,1,1]],[]]],\"opening\":{\"clients\":[[0,0,0,false]],\"life\":1000000,\"queue\":16,\"robots\":[[0,false,null,[],[0,0],[0,0]]],\"tick\":0},\"version\":2}",
        2,
        7,
    ),
    (
        "{\"chapter\":0,\"entries\":[[\"shut\",0,1]],\"opening\":{\"clients\":[[0,0,0,false]],\"life\":1000000,\"queue\":16,\"robots\":[[0,false,null,[],[0,0],[0,0]]],\"tick\":0},\"version\":2}",
        1,
        7,
    ),
    (
        "{\"chapter\":0,\"entries\":[[\"shut\",1]],\"opening\":{\"clients\":[[0,0,0,false]],\"life\":1000000,\"queue\":16,\"robots\":[[0,false,null,[],[0,0],[0,0]]],\"tick\":0},\"version\":2}",
        1,
        8,
    ),
    (
        "{\"chapter\":0,\"entries\":[[\"shut\",0,0],[\"shut\",0]],\"opening\":{\"clients\":[[0,0,0,false]],\"life\":1000000,\"queue\":16,\"robots\":[[0,false,null,[],[0,0],[0,0]]],\"tick\":0},\"version\":2}",
        2,
        8,
    ),
];
