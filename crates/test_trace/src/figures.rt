//! Figures of a run of two chapters. The expected values were worked out by hand, as `docs/STATS.md` tells.

use fleet_stats::{StatsFault, StatsForm, figures_are_counts, stats};
use std::alloc::{AllocError, Global};

/// Three cells in a row.
const MAP: &str = "type octile\nheight 1\nwidth 3\nmap\n...\n";

/// The robot goes to the right end and back by one cell: two errands, accepted at clock 0.
const FIRST: &str =
    r#"{"chapter":0,"entries":[["take",0,["go",0,2],["accepted",1]],["take",0,["go",0,1],["accepted",2]],["tick",[1],[],[]],["tick",[2],[[0,0,1,0]],[]],["tick",[1],[[0,0,2,0]],[]]],"opening":{"clients":[[0,0,0,false]],"life":1000000,"queue":16,"robots":[[0,false,null,[],[0,0],[0,0]]],"tick":0},"version":2}"#;

/// An order for a cell that there is not, and a tick in which the robot has no errand.
const SECOND: &str =
    r#"{"chapter":1,"entries":[["take",0,["go",0,5],["refused",4]],["tick",[1],[],[]]],"opening":{"clients":[[2,2,4,false]],"life":1000000,"queue":16,"robots":[[1,false,null,[],[0,0],[0,0]]],"tick":3},"version":2}"#;

const LINES: &str =
    "robots 1\nclients 1\nfloor_cells 3\nfirst_tick 0\nticks 4\norders 3\naccepted 2\nclosed 0\nwithdrawn 0\nrefused 1\nrefused_client-closed 0\nrefused_no-robot 0\nrefused_robot-shut 0\nrefused_no-cell 1\nrefused_blocked 0\nrefused_unreachable 0\nrefused_queue-full 0\nrefused_life-spent 0\nrefused_no-errand 0\nrefused_too-late 0\narrivals 2\nthroughput 0.500\nunfinished 0\nerrands 2\nservice_mean 2.500\nservice_median 2\nservice_p90 3\nservice_p99 3\nservice_greatest 3\ntravel_mean 1.500\ntravel_median 1\ntravel_p90 2\ntravel_p99 2\ntravel_greatest 2\nsteps 3\ndistance 3\ndetour 1.000\ndelay 0.000\ndelay_ratio 1.000\nlongest_wait 1\nwait_limit none\nidle_mean 0.250\nunder_way 0.750\nmoves 3\nstands 0\nwindow_arrivals 2\n";

const ERRANDS: &str =
    "client,number,robot,cell,accepted,begun,arrived,from,steps,distance\n0,1,0,2,0,0,2,0,2,2\n0,2,0,1,0,2,3,2,1,1\n";

const TICKS: &str =
    "tick,arrivals,moves,idle,longest_wait\n1,0,1,0,0\n2,1,1,0,1\n3,1,1,0,0\n4,0,0,1,0\n";

/// The run begins with an errand in the queue. Two more are accepted, one of them is withdrawn, and the robot makes one
/// step: the first and the third are left.
const OPEN: &str =
    r#"{"chapter":1,"entries":[["take",0,["go",0,1],["accepted",2]],["take",0,["go",0,0],["accepted",3]],["take",0,["withdraw",2],["withdrawn"]],["tick",[1],[],[]]],"opening":{"clients":[[1,1,1,false]],"life":1000000,"queue":16,"robots":[[0,false,0,[[0,1,2]],[0,0],[0,0]]],"tick":3},"version":2}"#;

const LEFT_LINES: &str =
    "robots 1\nclients 1\nfloor_cells 3\nfirst_tick 3\nticks 1\norders 3\naccepted 2\nclosed 0\nwithdrawn 1\nrefused 0\nrefused_client-closed 0\nrefused_no-robot 0\nrefused_robot-shut 0\nrefused_no-cell 0\nrefused_blocked 0\nrefused_unreachable 0\nrefused_queue-full 0\nrefused_life-spent 0\nrefused_no-errand 0\nrefused_too-late 0\narrivals 0\nthroughput 0.000\nunfinished 2\nerrands 0\nservice_mean none\nservice_median none\nservice_p90 none\nservice_p99 none\nservice_greatest none\ntravel_mean none\ntravel_median none\ntravel_p90 none\ntravel_p99 none\ntravel_greatest none\nsteps 0\ndistance 0\ndetour none\ndelay none\ndelay_ratio none\nlongest_wait 0\nwait_limit none\nidle_mean 0.000\nunder_way 1.000\nmoves 1\nstands 0\nwindow_arrivals 0\n";

/// The first errand was accepted before the run.
const LEFT_ERRANDS: &str = "client,number,robot,cell,accepted\n0,1,0,2,\n0,3,0,0,3\n";

/// What the errands of the first run add up to: of services, of travels, of steps and of distances.
const ROBOTS: &str = "robot,errands,unfinished,service,travel,steps,distance\n0,2,0,5,3,3,3\n";

const CLIENTS: &str = "client,errands,unfinished,service,travel,steps,distance\n0,2,0,5,3,3,3\n";

/// The figures of ticks 3 and 4.
const LATER: &str =
    "ticks 2\narrivals 1\nthroughput 0.500\nerrands 1\nservice_mean 3.000\nservice_median 3\nservice_p90 3\nservice_p99 3\nservice_greatest 3\ndistance 1\ndelay 0.000\ndelay_ratio 1.000\nlongest_wait 0\n";

/// A chapter that leaves an errand: the robot made one of the two steps to its cell.
const LEAVES: &str =
    r#"{"chapter":0,"entries":[["take",0,["go",0,2],["accepted",1]],["tick",[1],[],[]]],"opening":{"clients":[[0,0,0,false]],"life":1000000,"queue":16,"robots":[[0,false,null,[],[0,0],[0,0]]],"tick":0},"version":2}"#;

/// The chapter after it: an order taken, accepted and noticed, and a robot that has waited one tick for its arrival on
/// cell 2.
const NEXT: &str =
    r#"{"chapter":1,"entries":[],"opening":{"clients":[[1,1,1,false]],"life":1000000,"queue":16,"robots":[[1,false,1,[[0,1,2]],[0,0],[0,0]]],"tick":1},"version":2}"#;

/// The same, but the errand is for another cell; the robot has waited less, or is shut; its farewell has another law;
/// one more order was taken and refused.
const OTHERS: [&str; 5] = [
    r#"{"chapter":1,"entries":[],"opening":{"clients":[[1,1,1,false]],"life":1000000,"queue":16,"robots":[[1,false,1,[[0,1,0]],[0,0],[0,0]]],"tick":1},"version":2}"#,
    r#"{"chapter":1,"entries":[],"opening":{"clients":[[1,1,1,false]],"life":1000000,"queue":16,"robots":[[1,false,0,[[0,1,2]],[0,0],[0,0]]],"tick":1},"version":2}"#,
    r#"{"chapter":1,"entries":[],"opening":{"clients":[[1,1,1,false]],"life":1000000,"queue":16,"robots":[[1,true,1,[[0,1,2]],[0,0],[0,0]]],"tick":1},"version":2}"#,
    r#"{"chapter":1,"entries":[],"opening":{"clients":[[1,1,1,false]],"life":1000000,"queue":16,"robots":[[1,false,1,[[0,1,2]],[0,0],[0,1]]],"tick":1},"version":2}"#,
    r#"{"chapter":1,"entries":[],"opening":{"clients":[[2,1,2,false]],"life":1000000,"queue":16,"robots":[[1,false,1,[[0,1,2]],[0,0],[0,0]]],"tick":1},"version":2}"#,
];

/// One text.
fn one(alloc: Global, text: &str) -> Result<Vec<Vec<u8>>, AllocError> {
    let mut texts = Vec::new(alloc);
    texts.push(Vec::from_slice(alloc, text.as_bytes())?)?;
    Ok(texts)
}

/// Two texts, one after the other.
fn both(alloc: Global, first: &str, second: &str) -> Result<Vec<Vec<u8>>, AllocError> {
    let mut texts = Vec::new(alloc);
    texts.push(Vec::from_slice(alloc, first.as_bytes())?)?;
    texts.push(Vec::from_slice(alloc, second.as_bytes())?)?;
    Ok(texts)
}

/// What is printed for two traces; an empty text if there is nothing.
fn printed(alloc: Global, form: StatsForm, texts: &[Vec<u8>]) -> String {
    match stats(alloc, form, MAP.as_bytes(), texts) {
        Ok(text) => text,
        Err(_) => String::new(alloc),
    }
}

#[test]
fn figures_of_two_chapters(rt: HostRuntime) {
    figures_are_counts();
    let alloc = rt.alloc();
    let texts = both(alloc, FIRST, SECOND).expect(&rt, "memory");
    assert!(rt; printed(alloc, StatsForm::Text, &texts).as_str() == LINES);
    assert!(rt; printed(alloc, StatsForm::Errands, &texts).as_str() == ERRANDS);
    assert!(rt; printed(alloc, StatsForm::Ticks, &texts).as_str() == TICKS);
    assert!(rt; printed(alloc, StatsForm::Robots, &texts).as_str() == ROBOTS);
    assert!(rt; printed(alloc, StatsForm::Clients, &texts).as_str() == CLIENTS);
    assert!(rt; printed(alloc, StatsForm::TextAfter(2), &texts).as_str() == LATER);
}

#[test]
fn chapters_in_another_order(rt: HostRuntime) {
    let texts = both(rt.alloc(), SECOND, FIRST).expect(&rt, "memory");
    let none = stats(rt.alloc(), StatsForm::Json, MAP.as_bytes(), &texts);
    assert!(rt; matches!(none, Err(StatsFault::Chapter(2))));
}

/// Whether there are figures of the chapter that leaves an errand and of the one after it. `None` if the fault is not
/// in the second.
fn continues(alloc: Global, next: &str) -> Option<bool> {
    match stats(
        alloc,
        StatsForm::Cells,
        MAP.as_bytes(),
        &both(alloc, LEAVES, next).ok()?,
    ) {
        Ok(_) => Some(true),
        Err(StatsFault::Chapter(2)) => Some(false),
        Err(_) => None,
    }
}

#[test]
fn chapters_with_another_state(rt: HostRuntime) {
    let alloc = rt.alloc();
    assert!(rt; continues(alloc, NEXT) == Some(true));
    for next in &OTHERS {
        assert!(rt; continues(alloc, next) == Some(false));
    }
}

#[test]
fn unfinished_errands(rt: HostRuntime) {
    let alloc = rt.alloc();
    let texts = one(alloc, OPEN).expect(&rt, "memory");
    assert!(rt; printed(alloc, StatsForm::Text, &texts).as_str() == LEFT_LINES);
    assert!(rt; printed(alloc, StatsForm::Unfinished, &texts).as_str() == LEFT_ERRANDS);
}
