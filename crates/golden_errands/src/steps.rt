//! Each tick of rows, judged by itself.
//!
//! A row is a map, the line `script` and a script, which is run, or a map, the line `trace` and a trace. Its line tells
//! how many steps the row has, that each of them is conflict-free, or which is not, and how many arrivals they bring.

mod find;
mod walk;

use find::find;
use std::alloc::{Alloc, AllocError, Global};
use std::sync::Wait;
use std::thread::Threads;
use test_kit::{Block, blocks_of};
use walk::Finding;

/// The line of a row. Without a finding the program writes no chapter of it.
fn line_of(alloc: Global, name: &str, found: Option<Finding>) -> Result<String, AllocError> {
    match found {
        None => format!(in alloc; "{name}: no chapter\n"),
        Some(Finding::ConflictFree { steps, arrivals }) => format!(in alloc;
            "{name}: ticks {steps}, each conflict-free, arrivals {arrivals}\n"
        ),
        Some(Finding::Refused { step, fault }) => {
            format!(in alloc; "{name}: tick {step} is refused, {fault:?}\n")
        }
        Some(Finding::Misplaced { step }) => {
            format!(in alloc; "{name}: tick {step} begins with no placement\n")
        }
    }
}

/// Prints the steps of a row.
fn tell_row<R: Alloc<A = Global> + Threads + Sync + Wait>(
    rt: &R,
    block: Block<'_>,
    told: &mut Vec<u8>,
) -> Result<(), AllocError> {
    let found = find(rt, block.text)?;
    let line = line_of(rt.alloc(), block.name, found)?;
    told.extend_from_slice(line.as_bytes())
}

/// Prints the steps of each row.
pub(crate) fn tell<R: Alloc<A = Global> + Threads + Sync + Wait>(
    rt: &R,
    text: &[u8],
    told: &mut Vec<u8>,
) -> Result<(), AllocError> {
    for block in &blocks_of(rt.alloc(), text, b"= ")? {
        tell_row(rt, *block, told)?;
    }
    Ok(())
}
