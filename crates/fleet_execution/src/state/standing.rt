//! Where robots are, and how far they are behind their plan.

ghost use Rattle.std.specs.Prelude.{◌≡◌, ◌≢◌, ◌≤◌, ◌<◌, Some, None, IfSome};
ghost use Rattle.fleet_execution.specs.Course.{Course};
ghost use Rattle.fleet_execution.specs.Executes.{Executes, moves_between};
ghost use Rattle.fleet_execution.specs.Given.{IsStanding};
ghost use Rattle.fleet_execution.specs.State.{desk_of, IsSized};
ghost use Rattle.fleet_execution.specs.Asked.{IsBehindIn};

use crate::robot::Robot;
use crate::standing::Standing;
use crate::state::State;
use std::alloc::Allocator;

/// The cell to which a robot is under way.
fn bound_for(state: Robot) -> Option<u32>
    ensures still { state.returned ≡ state.reached → result ≡ None }
    ensures moving { state.returned ≢ state.reached → result ≡ Some state.bound }
{
    if state.returned == state.reached {
        return None;
    }
    Some(state.bound)
}

impl<A: Allocator> State<A> {
    /// How many planned steps there are from the first with a move that is not reached.
    pub(crate) fn behind(&self) -> u32
        requires { IsSized self.now }
        ensures { IsBehindIn (desk_of self.now) result }
    {
        let mut steps = self.ahead;
        while steps > 0 {
            let back = u64::from(steps) - 1;
            if back < self.steps && self.unreached.get(self.place(self.steps - back)) > 0 {
                return steps;
            }
            steps -= 1;
        }
        0
    }

    /// Where a robot is.
    pub(crate) fn standing(&self, robot: u32) -> Option<Standing>
        requires { IsSized self.now }
        ensures none { result ≡ None → self.now.count ≤ robot }
        ensures some { IfSome result (λ s. (o : Course) → Executes (desk_of self.now) o → IsStanding o robot s) }
    {
        if robot >= self.count {
            return None;
        }
        let state = self.robots.get(robot as usize);
        let left = self.left(robot);
        Some(Standing {
            cell: state.cell,
            bound_for: bound_for(state),
            left,
        })
    }

    /// How many planned moves of the robot were not returned.
    fn left(&self, robot: u32) -> u32
        requires sized { IsSized self.now }
        requires inside { robot < self.now.count }
        ensures { (o : Course) → Executes (desk_of self.now) o → result ≡ moves_between o.run.plan robot (o.returned robot) o.run.plan.steps }
    {
        let state = self.robots.get(robot as usize);
        let before = self.steps.saturating_sub(u64::from(self.ahead));
        let mut step = state.returned.max(before);
        let mut cell = state.bound;
        let mut left = 0;
        while step < self.steps {
            step += 1;
            let to = self.planned(robot, step).to;
            if to != cell {
                left += 1;
            }
            cell = to;
        }
        left
    }
}
