//! Chapters that follow one another.

mod openings;
mod turn;

ghost use Rattle.std.specs.Prelude.{◌≡◌, ◌++◌, ◌∷◌, [], map, IfOk, IfErr, OnOk};
ghost use Rattle.fleet_trace.specs.Trace.{trace_of};
ghost use Rattle.fleet_trace.specs.Reads.{IsTraceFault, Tells};
ghost use Rattle.fleet_trace.specs.Chapters.{TellEach, TellChapters, IsChaptersFault};
ghost use Rattle.fleet_trace.specs.inside.Turns.{IsToldMore, IsUntold, AreUntold};

use crate::fault::{ChaptersFault, TraceFault};
use crate::read::read_trace;
use fleet_grid::Grid;
use fleet_history::Chapter;
use std::alloc::{AllocError, Global};
use turn::first_unfit;

/// Adds the chapter that the text tells.
fn push_chapter(alloc: Global, text: &[u8], chapters: &mut Vec<Chapter>) -> Result<(), TraceFault>
    ensures told { OnOk result (IsToldMore text.now (map trace_of chapters.old.items) (map trace_of chapters.new.items)) }
    ensures fault { IfErr result (λ fault. IsTraceFault text.now fault) }
{
    let chapter = read_trace(alloc, text)?;
    chapters.push(chapter)?;
    Ok(())
}

/// The same, with the number of the text in the fault.
fn push_numbered(
    alloc: Global,
    number: u64,
    text: &[u8],
    chapters: &mut Vec<Chapter>,
) -> Result<(), ChaptersFault>
    ensures told { OnOk result (IsToldMore text.now (map trace_of chapters.old.items) (map trace_of chapters.new.items)) }
    ensures fault { IfErr result (λ fault. IsUntold number text.now fault) }
{
    match push_chapter(alloc, text, chapters) {
        Ok(()) => Ok(()),
        Err(TraceFault::NoMemory) => Err(ChaptersFault::NoMemory),
        Err(fault) => Err(ChaptersFault::Trace(number, fault)),
    }
}

/// Reads a chapter from each of these texts. The fault is that of the first text that is no trace.
fn read_each(alloc: Global, texts: &[Vec<u8>]) -> Result<Vec<Chapter>, ChaptersFault>
    ensures told { IfOk result (λ chapters. TellEach (map (λ text. text.items) texts.now) (map trace_of chapters.items)) }
    ensures fault { IfErr result (λ fault. AreUntold (map (λ text. text.items) texts.now) fault) }
{
    let mut chapters = Vec::new(alloc);
    let mut number = 1;
    for text in texts {
        match push_numbered(alloc, number, text, &mut chapters) {
            Ok(()) => number += 1,
            Err(fault) => return Err(fault),
        }
    }
    Ok(chapters)
}

/// Reads chapters from these texts, in their order. When all are read, it is checked that each one continues the one
/// before it on the map: it has the next number, and begins with the state after the one before. After a chapter that
/// is not legal, or whose clock may come to 2^63, only the clock, the cells, the limits and the number of clients are
/// compared.
pub fn read_chapters(
    alloc: Global,
    grid: &Grid,
    texts: &[Vec<u8>],
) -> Result<Vec<Chapter>, ChaptersFault>
    ensures told { IfOk result (λ chapters. TellChapters grid.now (map (λ text. text.items) texts.now) (map trace_of chapters.items)) }
    ensures fault { IfErr result (λ fault. IsChaptersFault grid.now (map (λ text. text.items) texts.now) fault) }
{
    match read_each(alloc, texts) {
        Ok(chapters) => match first_unfit(alloc, grid, &chapters) {
            Ok(None) => Ok(chapters),
            Ok(Some(place)) => Err(ChaptersFault::Chapter(place as u64 + 1)),
            Err(AllocError) => Err(ChaptersFault::NoMemory),
        },
        Err(fault) => Err(fault),
    }
}
