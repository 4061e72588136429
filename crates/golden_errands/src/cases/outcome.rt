//! The result of a case.

use super::case::Case;
use errands_lib::{InputFault, Inputs, run_words};
use std::alloc::{Alloc, AllocError, Global};
use std::sync::Wait;
use std::thread::Threads;
use test_kit::Outcome;

/// The status of words that name no job.
const BAD_WORDS: u8 = 2;

/// A file that cannot be opened, since memory runs out.
const OUT_OF_MEMORY: &str = "no-memory";

/// The files and the standard input of a case.
#[derive(Clone, Copy)]
struct CaseInputs<'a> {
    case: &'a Case<'a>,
}

impl<'a> Inputs for CaseInputs<'a> {
    type File = &'a [u8];

    type Input = &'a [u8];

    ghost opens = { λ _ _ _ _. Unit {0} };

    ghost reads = { λ _ _ _. Unit {0} };

    fn open(&mut self, name: &str) -> Result<&'a [u8], InputFault> {
        if name == OUT_OF_MEMORY {
            return Err(InputFault::NoMemory);
        }
        self.case.file(name).ok_or(InputFault::File)
    }

    fn input(&mut self) -> &'a [u8] {
        self.case.input.as_slice()
    }
}

/// What comes out of a case.
fn outcome_of<R: Alloc<A = Global> + Threads + Sync + Wait>(rt: &R, case: &Case<'_>) -> Outcome {
    let mut inputs = CaseInputs { case };
    let mut output = Vec::new(rt.alloc());
    let mut complaint = Vec::new(rt.alloc());
    let status = run_words(rt, &case.words, &mut inputs, &mut output, &mut complaint);
    Outcome {
        status,
        output,
        complaint,
    }
}

/// Writes the lines of a text, each after the mark.
fn write_marked(told: &mut Vec<u8>, mark: u8, text: &[u8]) -> Result<(), AllocError> {
    if text.is_empty() {
        return Ok(());
    }
    let lines = match text.strip_suffix(b"\n".as_slice()) {
        Some(lines) => lines,
        None => text,
    };
    for line in lines.split(|byte| *byte == b'\n') {
        told.push(mark)?;
        told.extend_from_slice(line)?;
        told.push(b'\n')?;
    }
    Ok(())
}

/// What is shown of a complaint: of `clap`'s text on words that name no job its first line, of any other the whole.
fn shown_complaint(outcome: &Outcome) -> &[u8] {
    let text = outcome.complaint.as_slice();
    if outcome.status != BAD_WORDS {
        return text;
    }
    match text.iter().position(|byte| *byte == b'\n') {
        Some(end) => &text[..end],
        None => text,
    }
}

/// Writes what came out of the case of this name.
fn write_outcome(
    alloc: Global,
    name: &str,
    outcome: &Outcome,
    told: &mut Vec<u8>,
) -> Result<(), AllocError> {
    told.extend_from_slice(b"= ")?;
    told.extend_from_slice(name.as_bytes())?;
    told.push(b'\n')?;
    write_marked(told, b'|', &outcome.output)?;
    write_marked(told, b'!', shown_complaint(outcome))?;
    let status = format!(in alloc; "? {}\n", outcome.status)?;
    told.extend_from_slice(status.as_bytes())
}

/// Prints what came out of a case.
pub(crate) fn tell_outcome<R: Alloc<A = Global> + Threads + Sync + Wait>(
    rt: &R,
    case: &Case<'_>,
    told: &mut Vec<u8>,
) -> Result<(), AllocError> {
    let outcome = outcome_of(rt, case);
    write_outcome(rt.alloc(), case.name, &outcome, told)
}
