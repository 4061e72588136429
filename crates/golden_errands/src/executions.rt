//! What `fleet execute` says.
//!
//! A row begins with a line of the clearance, the window and maybe the word `bare`, the plan's form; the map follows, after
//! a line `- plan` the plan, and after a line `- reports` the lines that are read. What is printed of it is what is written, or the
//! complaint, and the status.

ghost use Rattle.std.specs.Prelude.{◌<◌};

use fleet_lib::{Clearance, ExecuteRules, ExecuteTexts, MOST_PLAN_BYTES, TextForm, run_execute};
use fleet_map::text::{first_line, first_word, number_up_to};
use std::alloc::{Alloc, AllocError, Global};
use std::io::BufReader;
use test_kit::{Block, Room, Sink, Source, blocks_of, split_at};

/// The clearance of a word.
fn clearance_of(word: &[u8]) -> Clearance {
    if word == b"started".as_slice() {
        Clearance::Started
    } else {
        Clearance::Arrived
    }
}

/// How a plan is executed, and the form in which it is read, by the words of a row's first line.
fn rules_of(head: &[u8]) -> (ExecuteRules, Option<TextForm>)
    ensures { 0 < result.0.ahead }
{
    let (clearance, rest) = first_word(head).unwrap_or((head, head));
    let (ahead, rest) = first_word(rest).unwrap_or((rest, rest));
    let rules = ExecuteRules {
        clearance: clearance_of(clearance),
        ahead: number_up_to(ahead, 100).unwrap_or(1).max(1) as u32,
    };
    let form = first_word(rest).map(|_| TextForm::Bare);
    (rules, form)
}

/// What is written of an execution, the complaint, and the status.
#[derive(Drop)]
struct Answered {
    output: Vec<u8>,
    complaint: Vec<u8>,
    status: u8,
}

/// Executes the plan of a row.
fn executed<R: Alloc<A = Global>>(rt: &R, text: &[u8]) -> Result<Answered, AllocError> {
    let alloc = rt.alloc();
    let (head, rest) = first_line(text).unwrap_or((text, text));
    let (map, _, rest) = split_at(rest, b"- plan").unwrap_or((rest, rest, rest));
    let (plan, _, lines) = split_at(rest, b"- reports").unwrap_or((rest, rest, rest));
    if plan.len() > MOST_PLAN_BYTES {
        return Err(AllocError);
    }
    let (rules, form) = rules_of(head);
    let source = Source {
        bytes: lines,
        line_feeds: 0,
        step: 7,
        good_reads: 1 << 40,
    };
    let Ok(mut input) = BufReader::new(alloc, source) else {
        return Err(AllocError);
    };
    let mut output = Sink::new(alloc, Room::ALL);
    let mut error = Sink::new(alloc, Room::ALL);
    let texts = ExecuteTexts { form, map, plan };
    let status = run_execute(rt, texts, rules, &mut input, &mut output, &mut error);
    Ok(Answered {
        output: output.bytes,
        complaint: error.bytes,
        status,
    })
}

/// Prints what a row is answered.
fn tell_row<R: Alloc<A = Global>>(
    rt: &R,
    block: Block<'_>,
    told: &mut Vec<u8>,
) -> Result<(), AllocError> {
    let said = executed(rt, block.text)?;
    told.extend_from_slice(b"= ")?;
    told.extend_from_slice(block.name.as_bytes())?;
    told.push(b'\n')?;
    told.extend_from_slice(&said.output)?;
    told.extend_from_slice(&said.complaint)?;
    let status = said.status;
    let end = format!(in rt.alloc(); "status {status}\n")?;
    told.extend_from_slice(end.as_bytes())
}

/// Prints what each row is answered.
pub(crate) fn tell<R: Alloc<A = Global>>(
    rt: &R,
    text: &[u8],
    told: &mut Vec<u8>,
) -> Result<(), AllocError> {
    for block in &blocks_of(rt.alloc(), text, b"= ")? {
        tell_row(rt, *block, told)?;
    }
    Ok(())
}
