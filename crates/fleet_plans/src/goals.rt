//! Whether the robots of a plan do what is asked of them: to end on their goals.

ghost use Rattle.std.specs.Prelude.{◌≡◌, ◌<◌, ◌^◌, length, IfSome};
ghost use Rattle.fleet_plans.specs.Goals.{first_off, goal_fault, trip_fault, asked_by, undone};
ghost use Rattle.fleet_plans.specs.Shown.{goals_in};

/// Why a valid plan does not do what is asked of its robots.
#[derive(Clone, Copy, Debug, PartialEq, Eq)]
pub enum GoalFault {
    /// The plan names no goals, or the scenario has none for some robot.
    NoGoals,
    /// This robot is the first that does not begin on its start in the scenario.
    OffStart(u32),
    /// This robot is the first that does not end on its goal.
    OffGoal(u32),
}

/// What is asked of the robots of a plan.
#[derive(Clone, Copy)]
pub(crate) enum Demand<'a> {
    /// Nothing.
    Nothing,
    /// That they end on the goals that the plan names.
    OwnGoals,
    /// That they begin on these starts and end on these goals.
    Trips { starts: &'a [u32], goals: &'a [u32] },
}

/// The first robot that is not on its cell of these.
fn first_off(cells: &[u32], place: &[u32]) -> Option<usize>
    ensures exact { result ≡ first_off cells.now place.now }
    ensures few { IfSome result (λ robot. robot < length place.now) }
{
    cells
        .iter()
        .zip(place)
        .position(|(cell, here)| *cell != *here)
}

/// The first robot that does not end on its goal.
fn goal_fault(goals: Option<&[u32]>, last: &[u32]) -> Option<GoalFault>
    requires { length last.now < 2 ^ 32 }
    ensures { result ≡ goal_fault (goals_in goals.entry) last.now }
{
    let Some(goals) = goals else {
        return Some(GoalFault::NoGoals);
    };
    match first_off(goals, last) {
        Some(robot) => Some(GoalFault::OffGoal(robot as u32)),
        None => None,
    }
}

/// The first robot that does not begin on its start, or does not end on its goal.
fn trip_fault(starts: &[u32], goals: &[u32], first: &[u32], last: &[u32]) -> Option<GoalFault>
    requires begins { length first.now < 2 ^ 32 }
    requires ends { length last.now < 2 ^ 32 }
    ensures { result ≡ trip_fault (record { starts = starts.now; goals = goals.now }) first.now last.now }
{
    if goals.len() < last.len() {
        return Some(GoalFault::NoGoals);
    }
    match first_off(starts, first) {
        Some(robot) => Some(GoalFault::OffStart(robot as u32)),
        None => goal_fault(Some(goals), last),
    }
}

/// The first robot of a plan, from this first placement to this last one, that does not do what is asked of it.
pub(crate) fn undone(
    demand: Demand<'_>,
    goals: Option<&[u32]>,
    first: &[u32],
    last: &[u32],
) -> Option<GoalFault>
    requires begins { length first.now < 2 ^ 32 }
    requires ends { length last.now < 2 ^ 32 }
    ensures { result ≡ undone (asked_by demand.entry) (goals_in goals.entry) first.now last.now }
{
    match demand {
        Demand::Nothing => None,
        Demand::OwnGoals => goal_fault(goals, last),
        Demand::Trips {
            starts,
            goals: trip_goals,
        } => trip_fault(starts, trip_goals, first, last),
    }
}
