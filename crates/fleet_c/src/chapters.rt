//! Chapters of a fleet's history, and their text.

ghost use Rattle.std.specs.Prelude.{◌≡◌, ◌≢◌};
ghost use Rattle.fleet_c.specs.Answers.{IsTurned};
ghost use Rattle.fleet_c.specs.Views.{IsTold, present};
ghost use Rattle.fleet_trace.specs.Trace.{trace_of};
ghost use Rattle.fleet_c.specs.Handles.{OfFleet, OnFleet};

use crate::codes::{BOOK_SPENT, DONE, NO_MEMORY, NOT_OPEN, WRONG_LENGTH};
use crate::handle::Handle;
use fleet_core::{ChapterFault, Core};
use fleet_history::Chapter;
use fleet_trace::write_trace;
use std::alloc::Global;

/// Begins the next chapter, and lets the current one go.
fn turn(core: &mut Core) -> u32
    ensures { IsTurned core.old result core.new }
{
    match core.next_chapter() {
        Ok(_chapter) => DONE,
        Err(ChapterFault::BookSpent) => BOOK_SPENT,
        Err(ChapterFault::NoMemory) => NO_MEMORY,
    }
}

/// Writes the trace of a chapter.
pub(crate) fn trace(alloc: Global, chapter: &Chapter, text: &mut [u8], length: &mut usize) -> u32
    ensures told { IsTold (trace_of chapter.now) result text.old text.new length.new }
    ensures length { result ≡ NO_MEMORY → length.new ≡ length.old }
{
    let Ok(told) = write_trace(alloc, chapter) else {
        return NO_MEMORY;
    };
    let bytes = told.as_str().as_bytes();
    *length = bytes.len();
    if text.len() < bytes.len() {
        return WRONG_LENGTH;
    }
    text[..bytes.len()].copy_from_slice(bytes);
    DONE
}

/// Writes the trace of the current chapter.
fn trace_now(alloc: Global, core: &Core, text: &mut [u8], length: &mut usize) -> u32
    ensures told { IsTold (present core.now) result text.old text.new length.new }
    ensures length { result ≡ NO_MEMORY → length.new ≡ length.old }
{
    trace(alloc, core.chapter(), text, length)
}

/// The text of the current chapter's trace, and its length. Where the list has no room for it only the length is told.
///
/// Refused in this order: the handle is closed, out of memory, the list is shorter than the text.
#[unsafe(no_mangle)]
pub extern "C" fn nashirudder_trace(
    alloc: Global,
    fleet: &mut Handle,
    text: &mut [u8],
    length: &mut usize,
) -> u32
    ensures says { OfFleet fleet.old.owned.held fleet.new.owned.held result (λ w. IsTold (present w) result text.old text.new length.new) }
    ensures untouched { (result ≢ DONE) → text.new ≡ text.old }
    ensures closed { (result ≡ NOT_OPEN) → length.new ≡ length.old }
    ensures memory { (result ≡ NO_MEMORY) → length.new ≡ length.old }
{
    let Some(held) = fleet.take(alloc) else {
        return NOT_OPEN;
    };
    let code = trace_now(alloc, &held.core, text, length);
    fleet.put(held);
    code
}

/// Begins the next chapter, whose opening is the current state. The present one is let go: take its trace before.
///
/// Refused in this order: the handle is closed, this is the last of the chapters, out of memory.
#[unsafe(no_mangle)]
pub extern "C" fn nashirudder_next_chapter(alloc: Global, fleet: &mut Handle) -> u32
    ensures { OnFleet fleet.old.owned.held fleet.new.owned.held result (λ w n. IsTurned w result n) }
{
    let Some(mut held) = fleet.take(alloc) else {
        return NOT_OPEN;
    };
    let code = turn(&mut held.core);
    fleet.put(held);
    code
}

/// Keeps the fields of goals that no robot has any more, up to this many bytes. Refused where the handle is closed.
#[unsafe(no_mangle)]
pub extern "C" fn nashirudder_keep(alloc: Global, fleet: &mut Handle, bytes: usize) -> u32
    ensures { OnFleet fleet.old.owned.held fleet.new.owned.held result (λ w n. (result ≡ DONE) × (n ≡ w)) }
{
    let Some(mut held) = fleet.take(alloc) else {
        return NOT_OPEN;
    };
    held.core.keep(bytes);
    fleet.put(held);
    DONE
}
