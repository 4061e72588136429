//! Plans as YAML and as paths that end too early. The expected values were worked out by hand.

use fleet_plans::{PlanAnswer, PlanReport, TextForm, check_form};
use std::alloc::{AllocError, Global};

const MAP: &str = "type octile\nheight 1\nwidth 3\nmap\n...\n";

/// A robot that stays on its cell.
const WHOLE: &str = "schedule:\nagent0:\n- x: 0\ny: 0\nt: 0\n";

/// The text ends within a cell.
const CUT: &str = "schedule:\nagent0:\n- x: 0\ny: 0\n";

/// The text ends after a robot's name.
const NAME_LAST: &str = "schedule:\nagent0:\n- x: 0\ny: 0\nt: 0\nagent1:\n";

const NAME_TWICE: &str = "schedule:\nagent0:\n- x: 0\ny: 0\nt: 0\nagent0:\n- x: 1\ny: 0\nt: 1\n";

const NO_CELL: &str = "schedule:\nagent0:\nagent1:\n- x: 0\ny: 0\nt: 0\n";

const ROW_TWICE: &str = "schedule:\nagent0:\n- x: 0\ny: 0\ny: 0\nt: 0\n";

/// What is said of a plan of one robot that stays where it is.
const STAYS: PlanAnswer = PlanAnswer::Valid(PlanReport {
    steps: 0,
    robots: 1,
    sum_of_costs: 0,
    makespan: 0,
    on_goals: None,
});

/// The answer to a plan in this form on the map.
fn answer(alloc: Global, form: TextForm, plan: &str) -> Result<PlanAnswer, AllocError> {
    if plan.len() > 4096 {
        return Err(AllocError);
    }
    check_form(alloc, form, false, None, MAP.as_bytes(), plan.as_bytes())
}

#[test]
fn no_half_of_a_cell_is_read(rt: HostRuntime) {
    let cases = [
        (TextForm::Schedule, WHOLE, STAYS),
        (TextForm::Schedule, CUT, PlanAnswer::Cut(5)),
        (TextForm::Schedule, NAME_LAST, PlanAnswer::Cut(7)),
        (TextForm::Schedule, NAME_TWICE, PlanAnswer::Text(6)),
        (TextForm::Schedule, NO_CELL, PlanAnswer::Text(3)),
        (TextForm::Schedule, ROW_TWICE, PlanAnswer::Text(5)),
        (TextForm::Schedule, "schedule:\n", PlanAnswer::Cut(2)),
        (TextForm::Agents, "Agent 0: (0,0)\n", STAYS),
        (TextForm::Agents, "", PlanAnswer::Cut(1)),
    ];
    for (form, plan, expected) in &cases {
        let said = answer(rt.alloc(), *form, plan).expect(&rt, "memory for an answer");
        assert_eq!(rt; said, *expected);
    }
}
