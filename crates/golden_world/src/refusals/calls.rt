//! The calls of a row.

use fleet_map::text::{first_word, number_up_to};
use fleet_script::Script;
use fleet_world::Event;
use std::alloc::{AllocError, Global};

/// A call of a world, or what a client does besides.
#[derive(Clone, Copy)]
pub(crate) enum Call {
    Event(Event),
    Widen { client: u32, extra: u64 },
    NextChapter,
    Keep(u64),
    SearchAhead,
}

/// The call that a comment of a script is.
fn call_in(line: &[u8]) -> Option<Call> {
    let (word, rest) = first_word(line)?;
    if word == b"#next".as_slice() {
        return Some(Call::NextChapter);
    }
    if word == b"#ahead".as_slice() {
        return Some(Call::SearchAhead);
    }
    if word == b"#keep".as_slice() {
        let (bytes, _) = first_word(rest)?;
        return Some(Call::Keep(number_up_to(bytes, 65_536)?));
    }
    if word != b"#widen".as_slice() {
        return None;
    }
    let (client, rest) = first_word(rest)?;
    let (extra, _) = first_word(rest)?;
    let client = number_up_to(client, 64)? as u32;
    let extra = number_up_to(extra, 65_536)?;
    Some(Call::Widen { client, extra })
}

/// Adds the events of the script's line of this number.
fn add_events(calls: &mut Vec<Call>, script: &Script, number: usize) -> Result<(), AllocError> {
    for (event, line) in script.events.iter().zip(script.lines.iter()) {
        if *line as usize == number {
            calls.push(Call::Event(*event))?;
        }
    }
    Ok(())
}

/// The calls of a script, line by line.
pub(crate) fn calls_of(
    alloc: Global,
    text: &[u8],
    script: &Script,
) -> Result<Vec<Call>, AllocError> {
    let mut calls = Vec::new(alloc);
    let mut number = 0usize;
    for line in text.split(|byte| *byte == b'\n') {
        number = number.saturating_add(1);
        match call_in(line) {
            Some(call) => calls.push(call)?,
            None => add_events(&mut calls, script, number)?,
        }
    }
    Ok(calls)
}
