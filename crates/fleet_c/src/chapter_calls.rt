//! Chapters that were handed out: their text can be written while the fleet goes on.

ghost use Rattle.std.specs.Prelude.{◌≡◌, ◌≢◌, ◌+◌, ◌↔◌, None, is_some, false, IsTrue};
ghost use Rattle.fleet_trace.specs.Trace.{trace_of};
ghost use Rattle.fleet_c.specs.Handles.{OnFleet};
ghost use Rattle.fleet_c.specs.HandedOut.{HandsOut, IsHandedOut, OfChapter};
ghost use Rattle.fleet_c.specs.Views.{IsTold};

use crate::chapter_handle::ChapterHandle;
use crate::chapters::trace;
use crate::codes::{ALREADY_OPEN, BOOK_SPENT, DONE, NO_MEMORY, NOT_OPEN};
use crate::handle::Handle;
use fleet_core::{ChapterFault, Core, Opening, Row};
use fleet_history::Chapter;
use std::alloc::Global;

/// A chapter of which nothing takes memory.
fn nothing(alloc: Global) -> Chapter {
    Chapter {
        number: 0,
        opening: Opening {
            tick: 0,
            queue: 0,
            life: 0,
            clients: Row::new(alloc),
            robots: Row::new(alloc),
        },
        entries: Vec::new(alloc),
    }
}

/// Whether the current chapter is the last that there may be.
fn is_last(core: &Core) -> bool
    ensures { IsTrue result ↔ (core.now.number + 1 ≡ core.now.limits.chapters) }
{
    u64::from(core.chapter().number) + 1 == u64::from(core.limits().chapters)
}

/// Begins the next chapter, and hands out the current one.
fn hand_out(alloc: Global, core: &mut Core, chapter: &mut ChapterHandle) -> u32
    requires { is_some chapter.old.owned.held ≡ false }
    ensures { IsHandedOut core.old result chapter.old.owned.held chapter.new.owned.held core.new }
{
    if is_last(core) {
        return BOOK_SPENT;
    }
    // The box is made first, so that no chapter is lost where memory for it is refused.
    let Ok(mut kept) = Box::new(alloc, nothing(alloc)) else {
        return NO_MEMORY;
    };
    match core.next_chapter() {
        Ok(ended) => {
            *kept = ended;
            chapter.put(kept);
            DONE
        }
        Err(ChapterFault::BookSpent) => BOOK_SPENT,
        Err(ChapterFault::NoMemory) => NO_MEMORY,
    }
}

/// The same, if the handle to a chapter is closed.
fn hand_out_to(alloc: Global, core: &mut Core, chapter: &mut ChapterHandle) -> u32
    ensures { HandsOut core.old result chapter.old.owned.held chapter.new.owned.held core.new }
{
    if chapter.is_open() {
        return ALREADY_OPEN;
    }
    hand_out(alloc, core, chapter)
}

/// Begins the next chapter, whose opening is the current state, and hands out the present one: it opens a closed handle
/// to it. The fleet may go on while the chapter's text is written.
///
/// Refused in this order: the fleet's handle is closed, the chapter's is open, this is the last of the chapters, out of
/// memory.
#[unsafe(no_mangle)]
pub extern "C" fn nashirudder_next_chapter_into(
    alloc: Global,
    fleet: &mut Handle,
    chapter: &mut ChapterHandle,
) -> u32
    ensures says { OnFleet fleet.old.owned.held fleet.new.owned.held result (λ w n. HandsOut w result chapter.old.owned.held chapter.new.owned.held n) }
    ensures untouched { (result ≢ DONE) → chapter.new.owned.held ≡ chapter.old.owned.held }
{
    let Some(mut held) = fleet.take(alloc) else {
        return NOT_OPEN;
    };
    let code = hand_out_to(alloc, &mut held.core, chapter);
    fleet.put(held);
    code
}

/// The text of a chapter's trace, as `nashirudder_trace` writes it.
///
/// Refused in this order: the handle is closed, out of memory, the list is shorter than the text.
#[unsafe(no_mangle)]
pub extern "C" fn nashirudder_chapter_trace(
    alloc: Global,
    chapter: &mut ChapterHandle,
    text: &mut [u8],
    length: &mut usize,
) -> u32
    ensures says { OfChapter chapter.old.owned.held chapter.new.owned.held result (λ c. IsTold (trace_of c) result text.old text.new length.new) }
    ensures untouched { (result ≢ DONE) → text.new ≡ text.old }
    ensures closed { (result ≡ NOT_OPEN) → length.new ≡ length.old }
    ensures memory { (result ≡ NO_MEMORY) → length.new ≡ length.old }
{
    let Some(kept) = chapter.take(alloc) else {
        return NOT_OPEN;
    };
    let code = trace(alloc, &kept, text, length);
    chapter.put(kept);
    code
}

/// Closes a handle to a chapter: frees what an open one owns. A closed one stays closed.
#[unsafe(no_mangle)]
pub extern "C" fn nashirudder_chapter_close(alloc: Global, chapter: &mut ChapterHandle)
    ensures { chapter.new.owned.held ≡ None }
{
    chapter.take(alloc);
}
