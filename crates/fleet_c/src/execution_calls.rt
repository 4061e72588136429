//! Steps that are planned, moves that begin, and reports.

ghost use Rattle.std.specs.Prelude.{◌≡◌, ◌≢◌, None};
ghost use Rattle.fleet_c.specs.Executions.{OnExecution, HasPlanned, HasBegun, HasReached};

use crate::codes::{DONE, NO_MOVE, NO_STEP, NOT_OPEN, NOT_UNDER_WAY, WINDOW_FULL};
use crate::execution_handle::ExecutionHandle;
use crate::motion::Motion;
use fleet_execution::Execution;
use std::alloc::Global;

/// Plans a step, if it may be planned.
fn plan_on(run: &mut Execution, to: &[u32]) -> u32
    ensures { HasPlanned run.old to.now result run.new }
{
    if !run.has_room() {
        return WINDOW_FULL;
    }
    if !run.is_step(to) {
        return NO_STEP;
    }
    run.plan(to);
    DONE
}

/// Begins the next move that may begin.
fn begin_on(run: &mut Execution, begun: &mut Motion) -> u32
    ensures { HasBegun run.old result begun.old begun.new run.new }
{
    match run.begin() {
        Some(next) => {
            *begun = Motion::of(next);
            DONE
        }
        None => NO_MOVE,
    }
}

/// Takes a report.
fn reach_on(run: &mut Execution, robot: u32, ended: &mut Motion) -> u32
    ensures { HasReached run.old robot result ended.old ended.new run.new }
{
    match run.reached(robot) {
        Ok(reached) => {
            *ended = Motion::of(reached);
            DONE
        }
        Err(_) => NOT_UNDER_WAY,
    }
}

/// Plans a further step: item r of `to` is the cell of robot r after it.
///
/// Refused in this order: the handle is closed; a move that lies a window of steps before is not reached; the cells are not
/// one for each robot, or no step, free of conflicts, from the placement that was planned last. That the cells are next to
/// each other is not asked.
#[unsafe(no_mangle)]
pub extern "C" fn nashirudder_execution_plan(
    alloc: Global,
    execution: &mut ExecutionHandle,
    to: &[u32],
) -> u32
    ensures { OnExecution execution.old.owned.held execution.new.owned.held result (λ e n. HasPlanned e to.now result n) }
{
    let Some(mut run) = execution.take(alloc) else {
        return NOT_OPEN;
    };
    let code = plan_on(&mut run, to);
    execution.put(run);
    code
}

/// The next move that may begin; it begins with this call. Moves of robots that turn in a cycle begin together, and the next
/// calls return them. Each move is returned once.
///
/// Refused in this order: the handle is closed; no move may begin.
#[unsafe(no_mangle)]
pub extern "C" fn nashirudder_execution_begin(
    alloc: Global,
    execution: &mut ExecutionHandle,
    begun: &mut Motion,
) -> u32
    ensures begins { OnExecution execution.old.owned.held execution.new.owned.held result (λ e n. HasBegun e result begun.old begun.new n) }
    ensures closed { execution.old.owned.held ≡ None → begun.new ≡ begun.old }
{
    let Some(mut run) = execution.take(alloc) else {
        return NOT_OPEN;
    };
    let code = begin_on(&mut run, begun);
    execution.put(run);
    code
}

/// Takes the report that a robot has reached the cell to which it is under way. `ended` is its move.
///
/// Refused in this order: the handle is closed; the robot is not under way, or there is no robot with this number.
#[unsafe(no_mangle)]
pub extern "C" fn nashirudder_execution_reached(
    alloc: Global,
    execution: &mut ExecutionHandle,
    robot: u32,
    ended: &mut Motion,
) -> u32
    ensures reached { OnExecution execution.old.owned.held execution.new.owned.held result (λ e n. HasReached e robot result ended.old ended.new n) }
    ensures closed { execution.old.owned.held ≡ None → ended.new ≡ ended.old }
{
    let Some(mut run) = execution.take(alloc) else {
        return NOT_OPEN;
    };
    let code = reach_on(&mut run, robot, ended);
    execution.put(run);
    code
}
