//! What a world shows, as text, and what it holds.

use fleet_trace::write_trace;
use fleet_world::{Chapter, ChapterFault, World};
use std::alloc::{AllocError, Allocator, Global};
use std::fmt::Write;

/// The robots' waits.
fn write_waits<A: Allocator + Copy>(text: &mut String, world: &World<A>) -> Result<(), AllocError> {
    for robot in 0..512u32 {
        if (robot as usize) < world.robots() {
            write!(text, " wait {:?}", world.wait_of(robot))?;
        }
    }
    Ok(())
}

/// How many notices each client was not given yet, and the first of them.
fn write_notices<A: Allocator + Copy>(
    text: &mut String,
    world: &World<A>,
) -> Result<(), AllocError> {
    for client in 0..64u32 {
        if (client as usize) < world.clients() {
            let (count, next) = (world.pending_count(client), world.next_notice(client));
            write!(text, " {count} notices, next {next:?}")?;
        }
    }
    Ok(())
}

/// The answers of the calls that show a world.
fn write_answers<A: Allocator + Copy>(
    text: &mut String,
    world: &World<A>,
) -> Result<(), AllocError> {
    write!(
        text,
        " cells {:?} clock {}",
        world.placement(),
        world.clock()
    )?;
    write!(
        text,
        " eldest {:?} idle {}",
        world.eldest(),
        world.is_idle()
    )?;
    write!(text, " within {:?}", world.idle_within())?;
    write_waits(text, world)?;
    write_notices(text, world)
}

/// All that a world shows: its chapter as a trace, and the answers of its other calls.
pub(crate) fn shown<A: Allocator + Copy>(
    alloc: Global,
    world: &World<A>,
) -> Result<String, AllocError> {
    let mut text = write_trace(alloc, world.chapter())?;
    write_answers(&mut text, world)?;
    Ok(text)
}

/// Takes out each client's notices.
fn give_all<A: Allocator + Copy>(
    text: &mut String,
    world: &mut World<A>,
) -> Result<(), AllocError> {
    for client in 0..64u32 {
        for _notice in 0..65_536u32 {
            if client as usize >= world.clients() {
                break;
            }
            let Some(notice) = world.give(client) else {
                break;
            };
            write!(text, " {notice:?}")?;
        }
    }
    Ok(())
}

/// Writes a chapter.
fn write_chapter<A: Allocator + Copy>(
    alloc: Global,
    text: &mut String,
    chapter: &Chapter<A>,
) -> Result<(), AllocError> {
    text.push_str(&write_trace(alloc, chapter)?)
}

/// Begins the next chapter, at a second try where the first finds no memory, and writes the one before it.
fn end_chapter<A: Allocator + Copy>(
    alloc: Global,
    text: &mut String,
    world: &mut World<A>,
) -> Result<(), AllocError> {
    for _try in 0..2 {
        match world.next_chapter() {
            Ok(chapter) => return write_chapter(alloc, text, &chapter),
            Err(ChapterFault::BookSpent) => break,
            Err(ChapterFault::NoMemory) => {}
        }
    }
    Ok(())
}

/// Writes each of a world's notices, and the opening of its next chapter with every errand.
fn write_rest<A: Allocator + Copy>(
    alloc: Global,
    text: &mut String,
    world: &mut World<A>,
) -> Result<(), AllocError> {
    give_all(text, world)?;
    end_chapter(alloc, text, world)?;
    text.push_str(&shown(alloc, world)?)
}

/// All that a world holds: what it shows, each of its notices, and the opening of its next chapter with every errand.
pub(crate) fn held<A: Allocator + Copy>(
    alloc: Global,
    world: &mut World<A>,
) -> Result<String, AllocError> {
    let mut text = shown(alloc, world)?;
    write_rest(alloc, &mut text, world)?;
    Ok(text)
}
