//! What an execution shows.

ghost use Rattle.std.specs.Prelude.{◌≡◌, ◌≢◌, None};
ghost use Rattle.fleet_c.specs.Executions.{OfExecution, IsFound, IsProgress};

use crate::codes::{DONE, NO_ROBOT, NOT_OPEN};
use crate::execution_handle::ExecutionHandle;
use crate::progress::Progress;
use crate::whereabouts::Whereabouts;
use fleet_execution::Execution;
use std::alloc::Global;

/// Where a robot is.
fn find_on(run: &Execution, robot: u32, whereabouts: &mut Whereabouts) -> u32
    ensures { IsFound run.now robot result whereabouts.old whereabouts.new }
{
    match run.standing(robot) {
        Some(standing) => {
            *whereabouts = Whereabouts::of(standing);
            DONE
        }
        None => NO_ROBOT,
    }
}

/// Where a robot is, and how many planned moves it has still to begin.
///
/// Refused in this order: the handle is closed; there is no robot with this number.
#[unsafe(no_mangle)]
pub extern "C" fn nashirudder_execution_whereabouts(
    alloc: Global,
    execution: &mut ExecutionHandle,
    robot: u32,
    whereabouts: &mut Whereabouts,
) -> u32
    ensures says { OfExecution execution.old.owned.held execution.new.owned.held result (λ e. IsFound e robot result whereabouts.old whereabouts.new) }
    ensures closed { execution.old.owned.held ≡ None → whereabouts.new ≡ whereabouts.old }
{
    let Some(run) = execution.take(alloc) else {
        return NOT_OPEN;
    };
    let code = find_on(&run, robot, whereabouts);
    execution.put(run);
    code
}

/// How many steps were planned, how far the execution is behind them, and whether a further step may be planned. Refused if
/// the handle is closed.
#[unsafe(no_mangle)]
pub extern "C" fn nashirudder_execution_progress(
    alloc: Global,
    execution: &mut ExecutionHandle,
    progress: &mut Progress,
) -> u32
    ensures says { OfExecution execution.old.owned.held execution.new.owned.held result (λ e. (result ≡ DONE) × IsProgress e progress.new) }
    ensures closed { execution.old.owned.held ≡ None → progress.new ≡ progress.old }
{
    let Some(run) = execution.take(alloc) else {
        return NOT_OPEN;
    };
    *progress = Progress::of(&run);
    execution.put(run);
    DONE
}
