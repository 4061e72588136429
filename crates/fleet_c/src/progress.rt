//! How far an execution has come.

ghost use Rattle.fleet_c.specs.Executions.{IsProgress};

use fleet_execution::Execution;

/// How far an execution has come.
#[repr(C)]
#[derive(Clone, Copy)]
pub struct Progress {
    /// How many steps were planned.
    pub steps: u64,
    /// How many planned steps there are from the first with a move that is not reached. 0 if all are reached.
    pub behind: u32,
    /// Whether a further step may be planned.
    pub has_room: bool,
}

impl Progress {
    /// Of an execution.
    pub(crate) fn of(run: &Execution) -> Progress
        ensures { IsProgress run.now result }
    {
        Progress {
            steps: run.steps(),
            behind: run.behind(),
            has_room: run.has_room(),
        }
    }
}
