//! Conversations, held as `fleet talk` does: what was written, and how each ended. `tools/talk/model.py --cases` prints
//! the same from an independent model.
//!
//! A case begins with a line `case: NAME`. Lines that begin with `+ ` follow: `+ marks` and `+ roll` are the settings,
//! `+ script LINE` is a line of the file of header lines, `+ kept N TEXT` the chapter from which the fleet goes on, by
//! a file for chapter N, `+ map NAME` another map, `+ cut` takes the last line feed away, and `+ trials` asks for the
//! trials of readers, writers and sinks that fail. The other lines are those of the conversation.

mod case;
mod hold;
mod tray;
mod trial;

use crate::options::Conversation;
use case::Case;
use hold::{Streams, outcome_of};
use std::alloc::{Alloc, AllocError, Global};
use test_kit::blocks_of;
use trial::{Trial, is_good};

/// Prints the result of a case.
fn tell_case<R: Alloc<A = Global>>(
    rt: &R,
    case: Case<'_>,
    told: &mut Vec<u8>,
) -> Result<(), AllocError> {
    let outcome = outcome_of(rt, case, Streams::GOOD, case.lines)?;
    told.extend_from_slice(b"case: ")?;
    told.extend_from_slice(case.talk.name.as_bytes())?;
    told.extend_from_slice(b"\n")?;
    told.extend_from_slice(&outcome.output)?;
    let line = format!(in rt.alloc(); "status {}\n", outcome.status)?;
    told.extend_from_slice(line.as_bytes())?;
    told.extend_from_slice(&outcome.complaint)?;
    if !case.has_trials {
        return Ok(());
    }
    for trial in Trial::ALL {
        let answer = if is_good(rt, case, &outcome, trial)? {
            "as it should"
        } else {
            "WRONG"
        };
        let line = format!(in rt.alloc(); "{}: {answer}\n", trial.name())?;
        told.extend_from_slice(line.as_bytes())?;
    }
    Ok(())
}

/// Prints the result of each case.
pub(crate) fn tell<R: Alloc<A = Global>>(
    rt: &R,
    text: &[u8],
    told: &mut Vec<u8>,
) -> Result<(), AllocError> {
    for block in &blocks_of(rt.alloc(), text, b"case: ")? {
        tell_case(rt, Case::of(Conversation::of(*block)), told)?;
    }
    Ok(())
}
