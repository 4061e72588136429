//! A trace as a plan in each form. The expected values were worked out by hand from the robots' cells.

use fleet_convert::{ConvertFault, Listing, PlanForm, convert, trace_of_plan};
use std::alloc::Global;

/// Two rows of three cells: 0, 1, 2 and below them 3, 4, 5.
const MAP: &str = "type octile\nheight 2\nwidth 3\nmap\n...\n...\n";

/// Robot 0 goes from cell 1 down, right, up and left to it again; robot 1 goes up from cell 3. Then both stay for one
/// tick.
const TRACE: &str =
    r#"{"chapter":0,"entries":[["tick",[4,0],[],[]],["tick",[5,0],[],[]],["tick",[2,0],[],[]],["tick",[1,0],[],[]],["tick",[1,0],[],[]]],"opening":{"clients":[[0,0,0,false]],"life":1000000,"queue":16,"robots":[[1,false,null,[],[0,0],[0,0]],[3,false,null,[],[0,0],[0,0]]],"tick":0},"version":2}"#;

const CELLS: &str =
    "agents=2\nstarts=(1,0),(0,1),\ngoals=(1,0),(0,0),\nsolution=\n0:(1,0),(0,1),\n1:(1,1),(0,0),\n2:(2,1),(0,0),\n3:(2,0),(0,0),\n4:(1,0),(0,0),\n5:(1,0),(0,0),\n";

const MOVES: &str = "form=moves\nstarts=(1,0),(0,1),\nsolution=\ndrulw\nuwwww\n";

const RUNNERS: &str =
    "{\"actionModel\":\"MAPF\",\"teamSize\":2,\"start\":[[0,1,\"E\"],[1,0,\"E\"]],\"actualPaths\":[\"D,R,U,L,W\",\"U,W,W,W,W\"]}\n";

const AGENTS: &str =
    "Agent 0: (0,1)->(1,1)->(1,2)->(0,2)->(0,1)->(0,1)->\nAgent 1: (1,0)->(0,0)->(0,0)->(0,0)->(0,0)->(0,0)->\n";

const TABLE: &str =
    "agent,time,row,column\n0,0,0,1\n0,1,1,1\n0,2,1,2\n0,3,0,2\n0,4,0,1\n0,5,0,1\n1,0,1,0\n1,1,0,0\n1,2,0,0\n1,3,0,0\n1,4,0,0\n1,5,0,0\n";

const SCHEDULE: &str =
    "schedule:\n  agent0:\n    - x: 1\n      y: 0\n      t: 0\n    - x: 1\n      y: 1\n      t: 1\n    - x: 2\n      y: 1\n      t: 2\n    - x: 2\n      y: 0\n      t: 3\n    - x: 1\n      y: 0\n      t: 4\n    - x: 1\n      y: 0\n      t: 5\n  agent1:\n    - x: 0\n      y: 1\n      t: 0\n    - x: 0\n      y: 0\n      t: 1\n    - x: 0\n      y: 0\n      t: 2\n    - x: 0\n      y: 0\n      t: 3\n    - x: 0\n      y: 0\n      t: 4\n    - x: 0\n      y: 0\n      t: 5\n";

/// The plan in this form; an empty text if there is none.
fn plan(alloc: Global, form: PlanForm) -> String {
    match convert(alloc, form, MAP.as_bytes(), TRACE.as_bytes()) {
        Ok(text) => text,
        Err(_) => String::new(alloc),
    }
}

#[test]
fn plans_in_each_form(rt: HostRuntime) {
    let alloc = rt.alloc();
    assert!(rt; plan(alloc, PlanForm::Pibt2).as_str() == CELLS);
    assert!(rt; plan(alloc, PlanForm::Moves).as_str() == MOVES);
    assert!(rt; plan(alloc, PlanForm::Runners).as_str() == RUNNERS);
}

/// The trace of this plan; an empty text if it has none.
fn traced(alloc: Global, plan: &str) -> String {
    if plan.len() > 4096 {
        return String::new(alloc);
    }
    match trace_of_plan(alloc, MAP.as_bytes(), plan.as_bytes()) {
        Ok(text) => text,
        Err(_) => String::new(alloc),
    }
}

#[test]
fn plans_robot_by_robot(rt: HostRuntime) {
    let alloc = rt.alloc();
    assert!(rt; plan(alloc, PlanForm::Listed(Listing::Agents)).as_str() == AGENTS);
    assert!(rt; plan(alloc, PlanForm::Listed(Listing::Table)).as_str() == TABLE);
    assert!(rt; plan(alloc, PlanForm::Listed(Listing::Schedule)).as_str() == SCHEDULE);
}

#[test]
fn converted_plans_are_read_back(rt: HostRuntime) {
    let alloc = rt.alloc();
    for form in [
        PlanForm::Pibt2,
        PlanForm::Moves,
        PlanForm::Runners,
        PlanForm::Listed(Listing::Agents),
        PlanForm::Listed(Listing::Table),
        PlanForm::Listed(Listing::Schedule),
    ] {
        let text = plan(alloc, form);
        assert!(rt; traced(alloc, text.as_str()).as_str() == TRACE);
    }
}

#[test]
fn no_trace_is_no_plan(rt: HostRuntime) {
    let none = convert(rt.alloc(), PlanForm::Moves, MAP.as_bytes(), b"{}");
    assert!(rt; matches!(none, Err(ConvertFault::Trace(_))));
    let no_map = convert(rt.alloc(), PlanForm::Moves, b"", TRACE.as_bytes());
    assert!(rt; matches!(no_map, Err(ConvertFault::Map(_))));
}
