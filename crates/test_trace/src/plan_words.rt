//! Plans in the other words: the sentence on a plan, and the trace of one. The expected values were worked out by hand.

use fleet_convert::{trace_of_invalid, trace_of_plan};
use fleet_explain::explain_plan;
use fleet_plans::is_plan;
use std::alloc::{AllocError, Global};

/// A ring of eight cells.
const MAP: &str = "type octile\nheight 3\nwidth 3\nmap\n...\n.@.\n...\n";

/// Two robots along the upper and the lower side.
const PLAN: &str = "0:(0,0),(2,2),\n1:(1,0),(1,2),\n";

const TRACE: &str =
    r#"{"chapter":0,"entries":[["tick",[1,7],[],[]]],"opening":{"clients":[[0,0,0,false]],"life":1000000,"queue":16,"robots":[[0,false,null,[],[0,0],[0,0]],[8,false,null,[],[0,0],[0,0]]],"tick":0},"version":2}"#;

/// The sentence about the plan.
fn sentence(alloc: Global, plan: &str) -> Result<String, AllocError> {
    if plan.len() > 4096 {
        return Err(AllocError);
    }
    let explanation = explain_plan(alloc, MAP.as_bytes(), plan.as_bytes())?;
    format!(in alloc; "{explanation}")
}

/// The plan as a trace; an empty text if it has none.
fn traced(alloc: Global, plan: &str) -> String {
    if plan.len() > 4096 {
        return String::new(alloc);
    }
    match trace_of_plan(alloc, MAP.as_bytes(), plan.as_bytes()) {
        Ok(text) => text,
        Err(_) => String::new(alloc),
    }
}

#[test]
fn plans_are_explained(rt: HostRuntime) {
    let alloc = rt.alloc();
    assert_eq!(rt;
        sentence(alloc, PLAN).expect(&rt, "memory").as_str(),
        "all in order"
    );
    assert_eq!(rt;
        sentence(alloc, "0:(0,0),(2,0),\n1:(1,0),(1,0),\n")
            .expect(&rt, "memory")
            .as_str(),
        "the plan: time 1: robots 0 and 1 are both on cell 1 (row 0, column 1)"
    );
    assert_eq!(rt;
        sentence(alloc, "0:(0,0),(9,9),\n")
            .expect(&rt, "memory")
            .as_str(),
        "the plan: time 0: robot 1 is on a cell outside of the map, which is no floor"
    );
}

#[test]
fn plans_become_traces(rt: HostRuntime) {
    let alloc = rt.alloc();
    assert!(rt; traced(alloc, PLAN).as_str() == TRACE);
    assert!(rt; traced(alloc, "0:(0,0),(0,0),\n").is_empty());
}

/// Two robots that go to one cell.
const CRASH: &str = "0:(0,0),(2,0),\n1:(1,0),(1,0),\n";

const CRASH_TRACE: &str =
    r#"{"chapter":0,"entries":[["tick",[1,1],[],[]]],"opening":{"clients":[[0,0,0,false]],"life":1000000,"queue":16,"robots":[[0,false,null,[],[0,0],[0,0]],[2,false,null,[],[0,0],[0,0]]],"tick":0},"version":2}"#;

/// What is shown of the plan; an empty text if nothing is.
fn shown(alloc: Global, plan: &str) -> String {
    if plan.len() > 4096 {
        return String::new(alloc);
    }
    match trace_of_invalid(alloc, MAP.as_bytes(), plan.as_bytes()) {
        Ok(Some(text)) => text,
        Ok(None) | Err(_) => String::new(alloc),
    }
}

#[test]
fn plans_that_break_a_rule_are_shown(rt: HostRuntime) {
    let alloc = rt.alloc();
    assert!(rt; shown(alloc, CRASH).as_str() == CRASH_TRACE);
    // the wall in the middle is a cell of the map
    assert!(rt; !shown(alloc, "0:(1,1),\n").is_empty());
    assert!(rt; shown(alloc, "0:(0,0),(9,9),\n").is_empty());
    assert!(rt; shown(alloc, PLAN).is_empty());
    assert!(rt; shown(alloc, "0:(0,0\n").is_empty());
}

#[test]
fn plans_are_told_from_scripts(rt: HostRuntime) {
    assert!(rt; is_plan(PLAN.as_bytes()));
    assert!(rt; is_plan(b"{\"actualPaths\":[]}"));
    assert!(rt; !is_plan(TRACE.as_bytes()));
    assert!(rt; !is_plan(b"# a=b\nrobots 0\n"));
}
