//! Callers of `fleet_execution`.

ghost use Rattle.std.specs.Prelude.{◌≡◌, true, false};
ghost use Rattle.fleet_execution.specs.Course.{Course, with_step};
ghost use Rattle.fleet_execution.specs.Executes.{Executes};
ghost use Rattle.fleet_execution.specs.Kept.{desk};

use fleet_execution::{Execution, Move, NotUnderWay};
use std::alloc::{AllocError, Global};

/// Gives an execution the next step of a plan of any planner, if there is room and the step is free of conflicts.
pub fn plan_step(run: &mut Execution, to: &[u32]) -> bool
    ensures planned { result ≡ true → (o : Course) → Executes (desk run.old) o → Executes (desk run.new) (with_step o to.now) }
    ensures refused { result ≡ false → run.new ≡ run.old }
{
    if !run.has_room() || !run.is_step(to) {
        return false;
    }
    run.plan(to);
    true
}

/// The moves that may begin now: each robot is told its own.
pub fn moves_to_send(alloc: Global, run: &mut Execution) -> Result<Vec<Move>, AllocError> {
    let mut moves = Vec::new(alloc);
    while let Some(begun) = run.begin() {
        moves.push(begun)?;
    }
    Ok(moves)
}

/// Takes a robot's report, and says how many moves it has left; `None` if it is not under way.
pub fn left_after(run: &mut Execution, robot: u32) -> Option<u32> {
    match run.reached(robot) {
        Ok(_) => Some(run.standing(robot)?.left),
        Err(NotUnderWay) => None,
    }
}

/// How many steps the robots are behind the plan.
pub fn steps_behind(run: &Execution) -> (u32, u64) {
    (run.behind(), run.steps())
}
