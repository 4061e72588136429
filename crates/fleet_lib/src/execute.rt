//! The word `execute`.

ghost use Rattle.std.specs.Prelude.{◌≡◌, ◌<◌, ◌≤◌, length, IfSome};
ghost use Rattle.fleet_lib.specs.Check.{form_by};
ghost use Rattle.fleet_lib.specs.Execute.{FailedBy, IsExecuted, IsExecutedBy};

use crate::check::{form_by, said_of_answer};
use crate::said::{fail, tell};
use fleet_execute::{ExecuteRules, HoldFault, execute};
use fleet_plans::{MOST_PLAN_BYTES, PlanAnswer, Study, TextForm, study_form};
use fleet_text::{InputFault, write_whole};
use std::alloc::{Alloc, AllocError, Global};
use std::io::{BufRead, Write};

/// The map and the plan of an execution.
#[derive(Clone, Copy, Debug)]
pub struct ExecuteTexts<'a> {
    /// The form in which the plan is read; if none is named, that of its text.
    pub form: Option<TextForm>,
    pub map: &'a [u8],
    pub plan: &'a [u8],
}

/// Prints why an execution broke off. Returns the status.
fn complain_of_hold<E: Write>(fault: HoldFault, error: &mut E) -> u8
    ensures { FailedBy fault (E.contents error.old) (E.contents error.new) result }
{
    match fault {
        HoldFault::Input | HoldFault::Output => fail(InputFault::File, error),
        HoldFault::NoMemory => fail(InputFault::NoMemory, error),
        // A valid plan has no conflict, so this never runs
        HoldFault::Conflict(_) => {
            write_whole(error, b"fleet: plan conflict\n");
            6
        }
    }
}

/// Executes a plan that was studied, if it is valid; else says what is said of it.
fn execute_study<I: BufRead, W: Write, E: Write>(
    alloc: Global,
    rules: ExecuteRules,
    study: &Study,
    input: &mut I,
    output: &mut W,
    error: &mut E,
) -> u8
    requires { 0 < rules.ahead }
    ensures { IfSome (I.remaining input.old) (λ bytes. IsExecutedBy rules.clearance study.now bytes
        (W.contents output.old) (W.contents output.new) (E.contents error.old) (E.contents error.new) result) }
{
    match study.answer {
        PlanAnswer::Valid(_report) => match execute(alloc, rules, &study.places, input, output) {
            Ok(()) => 0,
            Err(fault) => complain_of_hold(fault, error),
        },
        answer => match said_of_answer(alloc, answer) {
            Ok(said) => tell(&said, output, error),
            Err(AllocError) => fail(InputFault::NoMemory, error),
        },
    }
}

/// Executes the plan on the map, if it is valid: writes a line `move ROBOT FROM TO TICK` for each move that may begin, reads
/// lines `reached ROBOT`, and ends with `done`, or when the input ends. Returns the status: 0 good, 3 a line could not be
/// read or written, 4 the map is refused, 6 the plan cannot be read or is not valid, as `fleet check` says it, 7 out of memory.
#[tactic(auto, using(crate::proofs::Executions::unread_by))]
pub fn run_execute<R: Alloc<A = Global>, I: BufRead, W: Write, E: Write>(
    rt: &R,
    texts: ExecuteTexts<'_>,
    rules: ExecuteRules,
    input: &mut I,
    output: &mut W,
    error: &mut E,
) -> u8
    requires plan { length texts.plan.now ≤ MOST_PLAN_BYTES }
    requires ahead { 0 < rules.ahead }
    ensures { IfSome (I.remaining input.old) (λ bytes. IsExecuted (form_by texts.entry.form texts.entry.plan.now) texts.entry.map.now texts.entry.plan.now rules.clearance bytes
        (W.contents output.old) (W.contents output.new) (E.contents error.old) (E.contents error.new) result) }
{
    let alloc = rt.alloc();
    let form = form_by(texts.form, texts.plan);
    match study_form(alloc, form, texts.map, texts.plan) {
        Ok(study) => execute_study(alloc, rules, &study, input, output, error),
        Err(AllocError) => fail(InputFault::NoMemory, error),
    }
}
