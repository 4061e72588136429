//! The word `execute`.

ghost use Rattle.std.specs.Prelude.{◌≤◌, ◌<◌, vec_len, IfOk, IfSome};

use crate::check::no_such_form;
use crate::ends::{FileFault, MOST_MAP_BYTES, complain, file_bytes};
use fleet_lib::{
    Clearance, Execute, ExecuteRules, ExecuteTexts, FormAsked, InputFault, MOST_PLAN_BYTES, fail,
    run_execute, write_whole,
};
use std::alloc::{Alloc, Global};
use std::fs::Files;
use std::io::{BufReader, Read, Write};

/// The greatest number of bytes that are read at once.
const PIECE: usize = 65_536;
/// How many steps are looked at if no number is given.
const AHEAD: u32 = 10;

/// The rule that the word names; none if it names no rule.
pub(crate) fn clearance_asked(word: &Option<String>) -> Option<Clearance> {
    let Some(word) = word else {
        return Some(Clearance::Arrived);
    };
    if word.as_str() == "arrived" {
        Some(Clearance::Arrived)
    } else if word.as_str() == "started" {
        Some(Clearance::Started)
    } else {
        None
    }
}

/// The number that the word says, if it is one from 1; `AHEAD` if there is no word.
pub(crate) fn ahead_asked(word: &Option<String>) -> Option<u32>
    ensures { IfSome result (λ ahead. 0 < ahead) }
{
    let Some(word) = word else {
        return Some(AHEAD);
    };
    match word.as_str().parse::<u32>() {
        Ok(0) => None,
        Ok(ahead) => Some(ahead),
        Err(_) => None,
    }
}

/// Prints that there is no such rule. Returns the status.
pub(crate) fn complain_of_clearance<E: Write>(error: &mut E) -> u8 {
    write_whole(
        error,
        b"error: invalid value for '--clearance <RULE>'\n  [possible values: arrived, started]\n",
    );
    2
}

/// Prints that the window has no step. Returns the status.
pub(crate) fn complain_of_ahead<E: Write>(error: &mut E) -> u8 {
    write_whole(
        error,
        b"error: invalid value for '--ahead <N>': at least 1\n",
    );
    2
}

/// The map and the plan, which are opened and read in their order.
fn texts_of<'a, R: Files + Alloc<A = Global>>(
    rt: &R,
    execute: &'a Execute,
) -> Result<(Vec<u8>, Vec<u8>), FileFault<'a>>
    ensures { IfOk result (λ texts. vec_len texts.1 ≤ 1073741824) }
{
    let map = file_bytes(rt, execute.map.as_str(), MOST_MAP_BYTES)?;
    let plan = file_bytes(rt, execute.plan.as_str(), MOST_PLAN_BYTES)?;
    Ok((map, plan))
}

/// Executes the plan. Returns the status: 2 no such rule or window, 3 a file failed, or as of `run_execute`.
pub(crate) fn execute_plan<R: Files + Alloc<A = Global>, I: Read + Drop, W: Write, E: Write>(
    rt: &R,
    execute: &Execute,
    (input, output): (I, &mut W),
    error: &mut E,
) -> u8 {
    let Some(clearance) = clearance_asked(&execute.clearance) else {
        return complain_of_clearance(error);
    };
    let Some(ahead) = ahead_asked(&execute.ahead) else {
        return complain_of_ahead(error);
    };
    let form = match execute.form {
        FormAsked::Found => None,
        FormAsked::Named(form) => Some(form),
        FormAsked::Unknown => return no_such_form(error),
    };
    let (map, plan) = match texts_of(rt, execute) {
        Ok(texts) => texts,
        Err(fault) => return complain(rt, fault, error),
    };
    let Ok(mut input) = BufReader::with_capacity(rt.alloc(), PIECE, input) else {
        return fail(InputFault::NoMemory, error);
    };
    let texts = ExecuteTexts {
        form,
        map: &map,
        plan: &plan,
    };
    let rules = ExecuteRules { clearance, ahead };
    run_execute(rt, texts, rules, &mut input, output, error)
}
