//! An execution as a dialogue: lines are read, and each is answered.

ghost use Rattle.std.specs.Prelude.{◌≡◌, ℕ, List, [], OnOk, OnErr, IfErr, IfSome, string_bytes};
ghost use Rattle.std.specs.Io.KnownBytes.{Appends};
ghost use Rattle.fleet_text.specs.Transfer.{AppendsPrefix};
ghost use Rattle.fleet_execution.specs.Course.{Course};
ghost use Rattle.fleet_execution.specs.Executes.{Executes};
ghost use Rattle.fleet_execution.specs.Kept.{desk};
ghost use Rattle.fleet_execute.specs.declared.fault.HoldFault.TheVariants.{Output};
ghost use Rattle.fleet_execute.specs.Answers.{HasAnswered};
ghost use Rattle.fleet_execute.specs.Dialogue.{BreaksOff, IsDialogue};
ghost use Rattle.fleet_execute.specs.Goes.{HasTurned};
ghost use Rattle.fleet_execute.specs.Heard.{said_by};
ghost use Rattle.fleet_execute.specs.inside.Held.{IsStuck};

use crate::fault::{HoldFault, TurnFault};
use crate::going::{is_done, turn};
use crate::heard::hear;
use crate::line::{next_line, said_by};
use crate::plan::Plan;
use fleet_execution::Execution;
use fleet_text::write_whole;
use std::alloc::Global;
use std::io::{BufRead, Write};

/// Why an execution breaks off that does not go on.
fn hold_fault(fault: TurnFault) -> HoldFault
    ensures { IsStuck result }
{
    match fault {
        TurnFault::NoMemory => HoldFault::NoMemory,
        TurnFault::Conflict(tick) => HoldFault::Conflict(tick),
    }
}

/// Plans the first steps, and begins the moves that may begin.
fn begin(told: &mut String, run: &mut Execution, plan: &Plan) -> Result<(), HoldFault>
    ensures turned { OnOk result ((o : Course) → Executes (desk run.old) o → HasTurned plan.now o (string_bytes told.old) (string_bytes told.new) (desk run.new)) }
    ensures stuck { IfErr result (λ fault. IsStuck fault) }
{
    match turn(told, run, plan) {
        Ok(()) => Ok(()),
        Err(fault) => Err(hold_fault(fault)),
    }
}

/// Answers the line with this number.
fn answer(
    told: &mut String,
    run: &mut Execution,
    plan: &Plan,
    number: u64,
    line: &[u8],
) -> Result<(), HoldFault>
    ensures answered { OnOk result ((o : Course) → Executes (desk run.old) o
        → HasAnswered plan.now number (said_by line.now) o (string_bytes told.old) (string_bytes told.new) (desk run.new)) }
    ensures stuck { IfErr result (λ fault. IsStuck fault) }
{
    match hear(told, run, plan, number, said_by(line)) {
        Ok(()) => Ok(()),
        Err(fault) => Err(hold_fault(fault)),
    }
}

/// Writes what was said.
pub(crate) fn write_told<W: Write>(output: &mut W, told: &str) -> Result<(), HoldFault>
    ensures whole { OnOk result (Appends (W.contents output.old) (W.contents output.new) told.now) }
    ensures cut { IfErr result (λ fault. (fault ≡ Output) × AppendsPrefix (W.contents output.old) (W.contents output.new) told.now) }
{
    if write_whole(output, told.as_bytes()) {
        Ok(())
    } else {
        Err(HoldFault::Output)
    }
}

/// Executes a plan until it is done or the input ends: writes which moves may begin, reads which robots have reached their
/// cells, and answers each line before it reads the next.
pub fn hold<I: BufRead, W: Write>(
    alloc: Global,
    run: &mut Execution,
    plan: &Plan,
    input: &mut I,
    output: &mut W,
) -> Result<(), HoldFault>
    ensures held { OnOk result (IfSome (I.remaining input.old) (λ bytes. (o : Course) → Executes (desk run.old) o
        → (text : List ℕ) × IsDialogue plan.now o bytes text × Appends (W.contents output.old) (W.contents output.new) text)) }
    ensures broken { IfErr result (λ fault. IfSome (I.remaining input.old) (λ bytes. (o : Course) → Executes (desk run.old) o
        → BreaksOff plan.now o bytes (W.contents output.old) (W.contents output.new) fault)) }
{
    let mut told = String::new(alloc);
    let mut line = Vec::new(alloc);
    begin(&mut told, run, plan)?;
    for number in 1..u64::MAX {
        if is_done(run, plan) {
            told.push_str("done\n")?;
            return write_told(output, told.as_str());
        }
        write_told(output, told.as_str())?;
        told.clear();
        if !next_line(input, &mut line)? {
            return Ok(());
        }
        answer(&mut told, run, plan, number, line.as_slice())?;
    }
    Err(HoldFault::Input)
}
