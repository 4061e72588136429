//! Sentences that say what is at fault in a trace: in its text, its opening or its first entry that breaks a rule.

use crate::explanations::MAP;
use fleet_explain::explain_trace;
use std::alloc::{AllocError, Global};

/// What stands before and after the entries of a trace: one client, and robots on cells 0 and 8, without errands.
const HEAD: &str = r#"{"chapter":0,"entries":["#;

const OPENING: &str =
    r#"],"opening":{"clients":[[0,0,0,false]],"life":1000000,"queue":16,"robots":[[0,false,null,[],[0,0],[0,0]],[8,false,null,[],[0,0],[0,0]]],"tick":18446744073709551615},"version":2}"#;

/// Entries of traces, and what is wrong with the trace of each.
const TRACES: [(&str, &str); 17] = [
    (
        r#"["tick",[1,7],[],[]],["tick",[4,6],[],[]]"#,
        "the trace: entry 2, a tick: the step has a conflict, or leaves the floor: robot 0 comes to no floor",
    ),
    (
        r#"["take",0,["go",0,1],["accepted",1]],["tick",[1,8],[],[]]"#,
        "the trace: entry 2, a tick: the arrivals are not those that are due: robot 0's with errand 1 of client 0 is due, and not shown",
    ),
    (
        r#"["take",0,["go",0,1],["accepted",1]],["tick",[1,8],[[0,0,1,0]],[]],["tick",[1,8],[[0,0,1,0]],[]]"#,
        "the trace: entry 3, a tick: the arrivals are not those that are due: robot 0's with errand 1 of client 0 is shown, and not due",
    ),
    (
        r#"["take",0,["go",0,4],["accepted",1]]"#,
        "the trace: entry 1, a take of client 0: the verdict is not the one that the order gets: `refused 5 blocked` is due",
    ),
    (
        r#"["take",0,["go",0,1],["accepted",1]],["tick",[1,8],[[0,0,1,0]],[]],["take",0,["go",1,7],["accepted",1]]"#,
        "the trace: entry 3, a take of client 0: the verdict is not the one that the order gets: `accepted 2` is due",
    ),
    (
        r#"["take",0,["close"],["closed"]],["take",0,["close"],["closed"]]"#,
        "the trace: entry 2, a take of client 0: the verdict is not the one that the order gets: `refused 1 client-closed` is due",
    ),
    (
        r#"["take",0,["go",0,1],["accepted",1]],["shut",0],["tick",[1,8],[[0,0,1,0]],[]]"#,
        "the trace: entry 3, a tick: the farewells are not those that are due: robot 0's is due, and not shown",
    ),
    (
        r#"["take",0,["go",0,1],["accepted",1]],["tick",[1,8],[[0,0,1,0]],[[0,0]]]"#,
        "the trace: entry 2, a tick: the farewells are not those that are due: robot 0's is shown, and not due",
    ),
    (
        r#"["shut",1]"#,
        "the trace: entry 1, a shut of robot 1: the farewells are not those that are due: robot 1's is due, and not shown",
    ),
    (
        r#"["take",0,["go",0,1],["accepted",1]],["shut",0,0]"#,
        "the trace: entry 2, a shut of robot 0: the farewells are not those that are due: robot 0's is shown, and not due",
    ),
    (
        r#"["take",0,["go",0,1],["accepted",1]],["tick",[1,8],[[0,0,1,0],[0,0,1,0]],[]]"#,
        "the trace: entry 2, a tick: the arrivals are not those that are due: each is shown that is due, but in another order or more than once",
    ),
    (
        r#"["take",1,["close"],["closed"]]"#,
        "the trace: entry 1, a take of client 1: there is no such client: the number of clients is 1",
    ),
    (
        r#"["shut",2]"#,
        "the trace: entry 1, a shut of robot 2: the robot cannot be shut: the number of robots is 2",
    ),
    (
        r#"["shut",1,0],["shut",1,0]"#,
        "the trace: entry 2, a shut of robot 1: the robot cannot be shut: it is shut already",
    ),
    (
        r#"["take",0,["go",0,1],["accepted",1]],["tick",[1,8],[[0,0,1,5]],[]]"#,
        "the trace: entry 2, a tick: a stamp is outside of its robot's law: robot 0's stamp 5 is not from 0 to 0",
    ),
    (
        r#"["shut",1,3]"#,
        "the trace: entry 1, a shut of robot 1: a stamp is outside of its robot's law: robot 1's stamp 3 is not from 0 to 0",
    ),
    (
        r#"["tick",[1,8],[],[]],["tick",[1,8],[]]"#,
        "the trace: entry 2 is not in the form of a take, a tick or a shut: `[\"take\",CLIENT,ORDER,VERDICT]`, `[\"tick\",CELLS,ARRIVALS,FAREWELLS]`, `[\"shut\",ROBOT]` or `[\"shut\",ROBOT,STAMP]`",
    ),
];

/// The sentence about a text.
fn on_text(alloc: Global, text: &str) -> Result<String, AllocError> {
    let explanation = explain_trace(alloc, MAP.as_bytes(), text.as_bytes())?;
    format!(in alloc; "{explanation}")
}

#[test]
fn entries_of_traces_are_explained(rt: HostRuntime) {
    let alloc = rt.alloc();
    for at in 0..TRACES.len() {
        let (entries, expected) = TRACES[at];
        let trace = format!(in alloc; "{HEAD}{entries}{OPENING}").expect(&rt, "memory");
        let sentence = on_text(alloc, trace.as_str()).expect(&rt, "memory");
        assert_eq!(rt; sentence.as_str(), expected, "at {at}");
    }
}

/// Texts that tell no trace, and why. A place counts bytes from 1.
const TEXTS: [(&str, &str); 7] = [
    (
        "{\"chapter\":x}",
        "it is not UTF-8, or not JSON, or nested deeper than 127: its reader stopped at line 1, column 12",
    ),
    (
        "{\n  x",
        "it is not UTF-8, or not JSON, or nested deeper than 127: its reader stopped at line 2, column 3",
    ),
    (
        "[]",
        "it is JSON, but no object with a whole number under `version`",
    ),
    (
        r#"{"version":3}"#,
        "the number under `version` is not 1 or 2",
    ),
    (
        r#"{"version":2}"#,
        "its keys are not `version`, `chapter`, `opening` and `entries`, and no other",
    ),
    (
        r#"{"chapter":-1,"entries":[],"opening":{},"version":2}"#,
        "under `chapter` is no number from 0 to 4294967295",
    ),
    (
        r#"{"chapter":0,"entries":[],"opening":{},"version":2}"#,
        "under `opening` is no object with `clients`, `life`, `queue`, `robots` and `tick`, and no other key, each in its form",
    ),
];

#[test]
fn texts_that_tell_no_trace_are_explained(rt: HostRuntime) {
    let alloc = rt.alloc();
    for at in 0..TEXTS.len() {
        let (text, expected) = TEXTS[at];
        let sentence = on_text(alloc, text).expect(&rt, "memory");
        let wanted = format!(in alloc; "the trace: {expected}").expect(&rt, "memory");
        assert_eq!(rt; sentence.as_str(), wanted.as_str(), "at {at}");
    }
}

/// A robot of an opening: on cell 0, without errands, whose laws allow stamp 0.
const ROBOT: &str = "[0,false,null,[],[0,0],[0,0]]";

/// Clients, limits and robots of openings, and which part is not in order.
const OPENINGS: [(&str, &str, &str, &str); 9] = [
    (
        "[[0,0,0,false]]",
        r#""life":1,"queue":1"#,
        "",
        "there are not 1 to 512 robots",
    ),
    (
        "[]",
        r#""life":1,"queue":1"#,
        ROBOT,
        "there are not 1 to 64 clients",
    ),
    (
        "[[0,0,0,false]]",
        r#""life":1,"queue":0"#,
        ROBOT,
        "`queue` is not from 1 to 65536",
    ),
    (
        "[[0,0,0,false]]",
        r#""life":1099511627777,"queue":1"#,
        ROBOT,
        "`life` is not from 1 to 1099511627776",
    ),
    (
        "[[0,0,0,false]]",
        r#""life":1,"queue":1"#,
        "[4,false,null,[],[0,0],[0,0]]",
        "two robots are on one cell, or a robot is on no floor",
    ),
    (
        "[[0,0,0,false]]",
        r#""life":1,"queue":1"#,
        "[0,false,null,[],[0,0],[0,0]],[8,false,0,[],[0,0],[0,0]]",
        "robot 1 has a law, a wait or an errand that no robot has there",
    ),
    (
        "[[0,0,0,false]]",
        r#""life":1,"queue":1"#,
        "[0,false,null,[],[2,1],[0,0]]",
        "robot 0 has a law, a wait or an errand that no robot has there",
    ),
    (
        "[[0,0,0,false],[1,2,3,false]]",
        r#""life":9,"queue":1"#,
        ROBOT,
        "client 1 has counts that no client has there",
    ),
    (
        "[[9,9,16,false]]",
        r#""life":9,"queue":2"#,
        "[0,false,0,[[0,2,1]],[0,0],[0,0]],[8,false,0,[[0,2,1]],[0,0],[0,0]]",
        "two errands of client 0 have one number, or their numbers do not rise on a robot",
    ),
];

#[test]
fn openings_of_traces_are_explained(rt: HostRuntime) {
    let alloc = rt.alloc();
    for at in 0..OPENINGS.len() {
        let (clients, limits, robots, expected) = OPENINGS[at];
        let text = format!(in alloc;
            "{HEAD}],\"opening\":{{\"clients\":{clients},{limits},\"robots\":[{robots}],\"tick\":0}},\"version\":2}}"
        ).expect(&rt, "memory");
        let sentence = on_text(alloc, text.as_str()).expect(&rt, "memory");
        let wanted = format!(in alloc;
            "the trace: entry 0, the opening: it is not in order: {expected}"
        ).expect(&rt, "memory");
        assert_eq!(rt; sentence.as_str(), wanted.as_str(), "at {at}");
    }
}
