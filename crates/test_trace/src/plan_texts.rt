//! Plans in each form, valid and with each kind of fault. The expected values were worked out by hand.

use fleet_plans::{
    FaultText, GoalFault, KnownKey, Misspelt, PlanAnswer, TextForm, check_form, check_scenario,
    check_solution, check_texts, first_misspelt,
};
use std::alloc::{AllocError, Global};

/// Two rows of three cells; the middle of the second is a wall.
const MAP: &str = "type octile\nheight 2\nwidth 3\nmap\n...\n.@.\n";

/// Robot 0 goes round two corners; robot 1 follows it, and waits a step.
const CELLS: &str =
    "agents=2\nsolver=PIBT\nstarts=(0,0),(0,1),\ngoals=(2,1),(1,0),\nsolution=\n0:(0,0),(0,1),\n1:(1,0),(0,0),\n2:(2,0),(0,0),\n3:(2,1),(1,0),\n";

/// The same plan as moves.
const MOVES: &str = "form=moves\nstarts=(0,0),(0,1)\nsolution=\nrrd\nuwr\n";

/// Both robots' second cell is the upper middle one.
const VERTEX: &str = "starts=(0,0),(2,0),\nsolution=\n0:(0,0),(2,0),\n1:(1,0),(1,0),\n";

const SWAP: &str = "form=moves\nstarts=(0,0),(1,0)\nsolution=\nwr\nwl\n";

/// Robot 1 stands on the wall at time 0.
const WALL: &str = "form=moves\nstarts=(0,0),(1,1)\nsolution=\nw\nw\n";

/// Robot 1 leaves the map by its east side.
const OUTSIDE: &str = "form=moves\nstarts=(0,0),(2,0)\nsolution=\nww\nwr\n";

/// Robot 1 has no letters, and robot 0 comes to its cell.
const INTO_ONE_AT_REST: &str = "form=moves\nstarts=(0,0),(2,0)\nsolution=\nrr\n\n";

/// Robot 0 goes on when robot 1 has no letters left.
const PAST_ONE_AT_REST: &str = "form=moves\nstarts=(0,0),(2,0)\nsolution=\ndur\nd\n";

/// Both robots come to the upper middle cell in the first step, and have letters for further steps.
const LETTERS_AFTER_A_FAULT: &str = "form=moves\nstarts=(0,0),(2,0)\nsolution=\nrwwl\nlww\n";

const JUMP: &str = "solution=\n0:(0,0)\n1:(2,0)\n";

const SHORT: &str = "solution=\n0:(0,0),(2,0)\n1:(0,0)\n";

const NO_TIME_ONE: &str = "solution=\n0:(0,0)\n2:(1,0)\n";

const TWO_STARTS: &str = "starts=(0,0)\nstarts=(0,0)\nsolution=\n0:(0,0)\n";

/// The same plan in JSON, with orientations.
const RUNNERS: &str =
    r#"{"actionModel":"MAPF","teamSize":2,"start":[[0,0,"E"],[1,0,"E"]],"actualPaths":["R,R,D","U,W,R"],"errors":[]}"#;

/// Robot 0 comes to the cell east of the wall, robot 1 to the cell where robot 0 was, and then robot 0 comes back.
const RUNNERS_VERTEX: &str = r#" {"start":[[0,1],[0,0]],"actualPaths":["R,L","R"]}"#;

const MISSING_PATH: &str = r#"{"start":[[0,1],[0,0]],"actualPaths":["R,L"]}"#;

/// Robot 0 goes two cells east, turns and goes south; robot 1 turns left, goes north, turns right, waits and goes east.
const TURNING: &str =
    r#"{"actionModel":"MAPF_T","start":[[0,0,"E"],[1,0,"E"]],"actualPaths":["F,F,R,F,W","C,F,R,W,F"]}"#;

/// Robot 1 turns right instead, and leaves the map by its south side.
const TURNING_OFF: &str =
    r#"{"actionModel":"MAPF_T","start":[[0,0,"E"],[1,0,"E"]],"actualPaths":["F,F","R,F"]}"#;

const NO_DIRECTION: &str =
    r#"{"actionModel":"MAPF_T","start":[[0,0,"E"],[1,0]],"actualPaths":["F,F","R,F"]}"#;

const OTHER_MODEL: &str = r#"{"actionModel":"MAPF-T","start":[[0,1]],"actualPaths":["F"]}"#;

/// The first plan without its head.
const BARE: &str = "0:(0,0),(0,1),\n1:(1,0),(0,0),\n2:(2,0),(0,0),\n3:(2,1),(1,0),\n";

/// The same with directions.
const FACED: &str =
    "0:(0,0,X_PLUS),(0,1,Y_MINUS),\n1:(1,0,X_PLUS),(0,0,Y_MINUS),\n2:(2,0,Y_PLUS),(0,0,X_PLUS),\n3:(2,1,Y_PLUS),(1,0,X_PLUS),\n";

/// Robot 1 has no direction at time 0.
const HALF_FACED: &str = "0:(0,0,X_PLUS),(0,1),\n";

/// The first plan as paths of agents, with rows before columns.
const AGENTS: &str =
    "Agent 0: (0,0)->(0,1)->(0,2)->(1,2)->\nAgent 1: (1,0)->(0,0)->(0,0)->(0,1)->\n";

/// Robot 1 stays on the second cell of its path.
const AGENTS_STAY: &str = "Agent 0: (0,0)->(0,1)->(0,2)->(1,2)\nAgent 1: (1,0)->(0,0)\n";

const AGENTS_SWAP: &str = "Agent 0: (0,0)->(1,0)->\nAgent 1: (1,0)->(0,0)->\n";

const AGENT_TWO: &str = "Agent 0: (0,0)->\nAgent 2: (1,0)->\n";

/// Both robots stay; the planner asked them to exchange their cells.
const ASKED: &str = r#"{"start":[[0,0],[0,1]],"actualPaths":["W","W"],"plannerPaths":["R","L"]}"#;

/// What is said of an answer; `plan N` for a text that is no plan.
fn said(alloc: Global, answer: PlanAnswer) -> Result<String, AllocError> {
    match answer {
        PlanAnswer::Map(_) => String::from_str(alloc, "map"),
        PlanAnswer::Text(line) => format!(in alloc; "plan {line}"),
        PlanAnswer::Cut(line) => format!(in alloc; "cut {line}"),
        PlanAnswer::Scenario(line) => format!(in alloc; "scenario {line}"),
        PlanAnswer::Json(fault) => format!(in alloc; "plan {fault}"),
        PlanAnswer::Head(fault) => format!(in alloc; "head {fault}"),
        PlanAnswer::Goals { time, fault } => match fault {
            GoalFault::NoGoals => String::from_str(alloc, "no goals"),
            GoalFault::OffStart(robot) => format!(in alloc; "off-start {robot}"),
            GoalFault::OffGoal(robot) => format!(in alloc; "{time} off-goal {robot}"),
        },
        PlanAnswer::Valid(report) => format!(in alloc; "{report}"),
        PlanAnswer::Invalid(found) => {
            let (time, fault) = (found.time, FaultText(found.fault));
            format!(in alloc; "{time} {fault}")
        }
    }
}

/// The answer to a plan on the map.
fn answer(alloc: Global, plan: &str) -> Result<String, AllocError> {
    if plan.len() > 4096 {
        return Err(AllocError);
    }
    said(alloc, check_texts(alloc, MAP.as_bytes(), plan.as_bytes())?)
}

/// The answer to a plan on the map, of which it is asked that each robot ends on its goal.
fn strict_answer(alloc: Global, plan: &str) -> Result<String, AllocError> {
    if plan.len() > 4096 {
        return Err(AllocError);
    }
    said(
        alloc,
        check_solution(alloc, MAP.as_bytes(), plan.as_bytes())?,
    )
}

#[test]
fn plans_are_judged(rt: HostRuntime) {
    let cases = [
        (CELLS, "valid 3 2\nsum-of-costs 6\nmakespan 3\non-goals 2\n"),
        (MOVES, "valid 3 2\nsum-of-costs 6\nmakespan 3\n"),
        (VERTEX, "1 vertex 0 1"),
        (SWAP, "2 swap 0 1"),
        (INTO_ONE_AT_REST, "2 vertex 0 1"),
        (PAST_ONE_AT_REST, "valid 3 2\nsum-of-costs 4\nmakespan 3\n"),
        (LETTERS_AFTER_A_FAULT, "1 vertex 0 1"),
        (WALL, "0 off-floor 1"),
        (OUTSIDE, "2 off-floor 1"),
        (JUMP, "1 not-adjacent 0"),
        (SHORT, "1 length"),
        (NO_TIME_ONE, "plan 3"),
        (TWO_STARTS, "plan 2"),
        ("solution=\n", "cut 2"),
        ("no key\n", "plan 1"),
        (RUNNERS, "valid 3 2\nsum-of-costs 6\nmakespan 3\n"),
        (RUNNERS_VERTEX, "2 vertex 0 1"),
        (MISSING_PATH, "plan actualPaths"),
        (TURNING, "valid 5 2\nsum-of-costs 9\nmakespan 5\n"),
        (TURNING_OFF, "2 off-floor 1"),
        (NO_DIRECTION, "plan start 1"),
        (OTHER_MODEL, "plan actionModel"),
        (BARE, "valid 3 2\nsum-of-costs 6\nmakespan 3\n"),
        (FACED, "valid 3 2\nsum-of-costs 6\nmakespan 3\n"),
        (HALF_FACED, "plan 1"),
        (AGENTS, "valid 3 2\nsum-of-costs 6\nmakespan 3\n"),
        (AGENTS_STAY, "valid 3 2\nsum-of-costs 4\nmakespan 3\n"),
        (AGENTS_SWAP, "1 swap 0 1"),
        (AGENT_TWO, "plan 2"),
        ("{\"start\":[[0,1],[0]]}", "plan start 1"),
        ("{\"start\":[]", "plan json"),
    ];
    for (plan, expected) in &cases {
        let said = answer(rt.alloc(), plan).expect(&rt, "memory for an answer");
        assert_eq!(rt; said.as_str(), *expected);
    }
}

#[test]
fn heads_are_compared(rt: HostRuntime) {
    let cases = [
        (
            "agents=1\nsoc=1\nmakespan=1\nsolution=\n0:(0,0)\n1:(1,0)\n",
            "valid 1 1\nsum-of-costs 1\nmakespan 1\n",
        ),
        ("agents=2\nsolution=\n0:(0,0)\n1:(1,0)\n", "head agents"),
        ("makespan=2\nsolution=\n0:(0,0)\n1:(1,0)\n", "head 5 cut"),
        ("makespan=0\nsolution=\n0:(0,0)\n1:(1,0)\n", "head makespan"),
        ("soc=2\nsolution=\n0:(0,0)\n1:(1,0)\n", "head soc"),
        // robot 0 stays in the second step: the makespan is 2 by the lines, and 1 by the costs
        (
            "makespan=1\nsolution=\n0:(0,0)\n1:(1,0)\n2:(1,0)\n",
            "valid 2 1\nsum-of-costs 1\nmakespan 1\n",
        ),
        (
            "makespan=9\nsolution=\n0:(0,0)\n1:(2,0)\n",
            "1 not-adjacent 0",
        ),
    ];
    for (plan, expected) in &cases {
        let said = answer(rt.alloc(), plan).expect(&rt, "memory for an answer");
        assert_eq!(rt; said.as_str(), *expected);
    }
}

#[test]
fn robots_end_on_their_goals(rt: HostRuntime) {
    let cases = [
        (CELLS, "valid 3 2\nsum-of-costs 6\nmakespan 3\non-goals 2\n"),
        (MOVES, "no goals"),
        (
            "goals=(0,0),(2,0)\nsolution=\n0:(0,0),(1,0)\n",
            "0 off-goal 1",
        ),
        (JUMP, "1 not-adjacent 0"),
    ];
    for (plan, expected) in &cases {
        let said = strict_answer(rt.alloc(), plan).expect(&rt, "memory for an answer");
        assert_eq!(rt; said.as_str(), *expected);
    }
}

/// The robots of the first plan, and one more.
const SCENARIO: &str =
    "version 1\n0\tarena.map\t3\t2\t0\t0\t2\t1\t3\n0\tarena.map\t3\t2\t0\t1\t1\t0\t2.41\n9\tarena.map\t3\t2\t2\t0\t0\t0\t2\n";

/// The answer to a plan for a scenario on the map.
fn scenario_answer(alloc: Global, scenario: &str, plan: &str) -> Result<String, AllocError> {
    if plan.len() > 4096 || scenario.len() > 4096 {
        return Err(AllocError);
    }
    said(
        alloc,
        check_scenario(alloc, MAP.as_bytes(), scenario.as_bytes(), plan.as_bytes())?,
    )
}

#[test]
fn robots_do_what_a_scenario_says(rt: HostRuntime) {
    let cases = [
        (SCENARIO, AGENTS, "valid 3 2\nsum-of-costs 6\nmakespan 3\n"),
        (SCENARIO, AGENTS_STAY, "3 off-goal 1"),
        (SCENARIO, "0:(0,0),(2,0)\n", "off-start 1"),
        (SCENARIO, SWAP, "2 swap 0 1"),
        ("version 1\n", BARE, "no goals"),
        (
            "version 1\n0\tarena.map\t2\t3\t0\t0\t2\t1\t3\n",
            BARE,
            "scenario 2",
        ),
        ("0\tarena.map\t3\t2\t0\t0\t2\t1\t3\n", BARE, "scenario 1"),
    ];
    for (scenario, plan, expected) in &cases {
        let said = scenario_answer(rt.alloc(), scenario, plan).expect(&rt, "memory for an answer");
        assert_eq!(rt; said.as_str(), *expected);
    }
}

/// The answer to a plan in this form on the map.
fn form_answer(alloc: Global, form: TextForm, plan: &str) -> Result<String, AllocError> {
    if plan.len() > 4096 {
        return Err(AllocError);
    }
    let answer = check_form(alloc, form, false, None, MAP.as_bytes(), plan.as_bytes())?;
    said(alloc, answer)
}

#[test]
fn forms_are_named(rt: HostRuntime) {
    let cases = [
        (TextForm::PlannerJson, ASKED, "1 swap 0 1"),
        (
            TextForm::Json,
            ASKED,
            "valid 1 2\nsum-of-costs 0\nmakespan 0\n",
        ),
        (TextForm::PlannerJson, RUNNERS, "plan plannerPaths"),
        (TextForm::Bare, CELLS, "plan 1"),
    ];
    for (form, plan, expected) in &cases {
        let said = form_answer(rt.alloc(), *form, plan).expect(&rt, "memory for an answer");
        assert_eq!(rt; said.as_str(), *expected);
    }
}

#[test]
fn misspelt_keys_are_found(rt: HostRuntime) {
    let goals = Misspelt {
        line: 2,
        key: KnownKey::Goals,
    };
    let found = first_misspelt(TextForm::Headed, b"starts=(0,0)\n Goal =(0,0)\nsolution=\n");
    assert_eq!(rt; found, Some(goals));
    assert_eq!(rt; first_misspelt(TextForm::Headed, CELLS.as_bytes()), None);
}
