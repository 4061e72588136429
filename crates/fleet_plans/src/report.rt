//! The report on a valid plan.

ghost use Rattle.std.specs.Prelude.{◌≡◌, ◌<◌, ◌^◌, length, option_map};
ghost use Rattle.fleet_plans.specs.Report.{goals_reached};
ghost use Rattle.fleet_plans.specs.Shown.{goals_in};
ghost use Rattle.fleet_plans.specs.inside.Figures.{AreFigures};

use crate::costs::{makespan, on_goals, sum_of_costs};

/// The figures of a valid plan.
#[derive(Clone, Copy, Debug, PartialEq, Eq)]
pub struct PlanReport {
    /// The number of steps.
    pub steps: u32,
    /// The number of robots.
    pub robots: u32,
    /// The sum of the robots' costs, where a robot's cost is the time from which it stays on its last cell.
    pub sum_of_costs: u64,
    /// The greatest cost, from which on no robot moves.
    pub makespan: u32,
    /// How many robots end on their goals, if the plan names goals.
    pub on_goals: Option<u32>,
}

/// How many robots of a plan end on their goals, if it names goals.
fn goals_of(goals: Option<&[u32]>, last: &[u32]) -> Option<u32>
    requires { length last.now < 2 ^ 32 }
    ensures { result ≡ option_map (λ goals. goals_reached goals last.now) (goals_in goals.entry) }
{
    match goals {
        Some(goals) => Some(on_goals(goals, last) as u32),
        None => None,
    }
}

/// The figures of a plan of this many steps, after which the robots are on the last cells, with their costs.
pub(crate) fn report_of(
    steps: usize,
    goals: Option<&[u32]>,
    last: &[u32],
    costs: &[u32],
) -> PlanReport
    requires times { steps < 2 ^ 32 }
    requires robots { length last.now < 2 ^ 32 }
    requires each_one { length costs.now ≡ length last.now }
    ensures { AreFigures steps (goals_in goals.entry) last.now costs.now result }
{
    PlanReport {
        steps: steps as u32,
        robots: last.len() as u32,
        sum_of_costs: sum_of_costs(costs),
        makespan: makespan(costs),
        on_goals: goals_of(goals, last),
    }
}
