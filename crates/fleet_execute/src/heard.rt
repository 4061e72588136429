//! Lines that are read.

ghost use Rattle.std.specs.Prelude.{◌≡◌, ◌++◌, ℕ, OnOk, string_bytes};
ghost use Rattle.fleet_execution.specs.Course.{Course};
ghost use Rattle.fleet_execution.specs.Executes.{Executes};
ghost use Rattle.fleet_execution.specs.Kept.{desk};
ghost use Rattle.fleet_execute.specs.Answers.{HasAnswered};

use crate::fault::TurnFault;
use crate::going::turn;
use crate::plan::Plan;
use crate::print::{tell_bad, tell_refused};
use fleet_execution::Execution;

/// What a line says.
#[derive(Clone, Copy, Debug, PartialEq, Eq)]
pub enum Heard {
    /// It is blank.
    Nothing,
    /// This robot has reached the cell of its move.
    Reached(u32),
    /// It is none that is understood.
    Other,
}

/// Answers the line with this number: a report of a robot that is under way with the moves that may begin then, any other
/// report with `not-under-way ROBOT`, and a line that is not understood with `bad-line NUMBER`.
pub fn hear(
    told: &mut String,
    run: &mut Execution,
    plan: &Plan,
    number: u64,
    heard: Heard,
) -> Result<(), TurnFault>
    ensures answered { OnOk result ((o : Course) → Executes (desk run.old) o → HasAnswered plan.now number heard o (string_bytes told.old) (string_bytes told.new) (desk run.new)) }
{
    match heard {
        Heard::Nothing => Ok(()),
        Heard::Other => Ok(tell_bad(told, number)?),
        Heard::Reached(robot) => match run.reached(robot) {
            Ok(_) => turn(told, run, plan),
            Err(_) => Ok(tell_refused(told, robot)?),
        },
    }
}
