//! Steps are planned while there is room, and moves begin that may.

ghost use Rattle.std.specs.Prelude.{◌≡◌, ◌↔◌, ◌≤◌, ◌<◌, ◌+◌, ℕ, [], IsTrue, OnOk, IfOk, IfErr, string_bytes, length};
ghost use Rattle.execution_law.specs.Run.{Moves};
ghost use Rattle.fleet_execution.specs.Course.{Course};
ghost use Rattle.fleet_execution.specs.Executes.{Executes};
ghost use Rattle.fleet_execution.specs.Kept.{desk};
ghost use Rattle.fleet_execute.specs.Goes.{HasGone, HasTurned, HasMet, IsDone, last_step};

use crate::chunks::{cells_at, steps_in};
use crate::fault::TurnFault;
use crate::plan::Plan;
use crate::print::tell_move;
use fleet_execution::Execution;
use std::alloc::AllocError;

/// Plans the plan's further steps, as far as there is room.
fn plan_ahead(run: &mut Execution, plan: &Plan) -> Result<(), TurnFault>
    ensures gone { OnOk result ((o : Course) → Executes (desk run.old) o → HasGone plan.now o [] (desk run.new)) }
    ensures conflict { IfErr result (λ fault. (o : Course) → Executes (desk run.old) o → HasMet plan.now o fault (desk run.new)) }
{
    let robots = plan.robots;
    let cells = plan.cells.as_slice();
    let last = steps_in(robots, cells);
    for time in run.steps()..last {
        if !run.has_room() {
            return Ok(());
        }
        let to = cells_at(robots, cells, time + 1);
        if !run.is_step(to) {
            return Err(TurnFault::Conflict(time + 1));
        }
        run.plan(to);
    }
    Ok(())
}

/// Begins all moves that may begin, and writes them.
fn begin_all(told: &mut String, run: &mut Execution, plan: &Plan) -> Result<(), AllocError>
    ensures { OnOk result ((o : Course) → Executes (desk run.old) o → HasTurned plan.now o (string_bytes told.old) (string_bytes told.new) (desk run.new)) }
{
    while let Some(begun) = run.begin() {
        tell_move(told, begun)?;
    }
    Ok(())
}

/// Plans the plan's further steps, as far as there is room, and begins all moves that may begin; each is written as a line
/// `move ROBOT FROM TO TICK`. It is a fault if a step of the plan has a conflict: nothing is planned after it.
pub fn turn(told: &mut String, run: &mut Execution, plan: &Plan) -> Result<(), TurnFault>
    ensures turned { OnOk result ((o : Course) → Executes (desk run.old) o → HasTurned plan.now o (string_bytes told.old) (string_bytes told.new) (desk run.new)) }
    ensures conflict { (tick : ℕ) → result ≡ Err (TurnFault.Conflict tick) → (o : Course) → Executes (desk run.old) o → HasMet plan.now o (TurnFault.Conflict tick) (desk run.new) }
{
    plan_ahead(run, plan)?;
    begin_all(told, run, plan)?;
    Ok(())
}

/// Whether all of the plan is planned, and each of its moves is reached.
pub fn is_done(run: &Execution, plan: &Plan) -> bool
    ensures { (o : Course) → Executes (desk run.now) o → IsTrue result ↔ IsDone plan.now o }
{
    run.behind() == 0 && run.steps() >= steps_in(plan.robots, plan.cells.as_slice())
}
