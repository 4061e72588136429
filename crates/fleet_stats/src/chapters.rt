//! The chapters of a run.

ghost use Rattle.std.specs.Prelude.{map, IfOk, IfErr};
ghost use Rattle.fleet_trace.specs.Trace.{trace_of};
ghost use Rattle.fleet_trace.specs.Chapters.{TellChapters};
ghost use Rattle.fleet_stats.specs.Chapters.{IsUntold};

use crate::fault::StatsFault;
use fleet_grid::Grid;
use fleet_history::Chapter;
use fleet_trace::{ChaptersFault, read_chapters};
use std::alloc::Global;

/// Reads the chapters from these texts, and checks that each one continues the one before it.
pub(crate) fn chapters_in_turn(
    alloc: Global,
    grid: &Grid,
    texts: &[Vec<u8>],
) -> Result<Vec<Chapter>, StatsFault>
    ensures told { IfOk result (λ chapters. TellChapters grid.now (map (λ text. text.items) texts.now) (map trace_of chapters.items)) }
    ensures fault { IfErr result (λ fault. IsUntold grid.now (map (λ text. text.items) texts.now) fault) }
{
    match read_chapters(alloc, grid, texts) {
        Ok(chapters) => Ok(chapters),
        Err(ChaptersFault::Trace(number, fault)) => Err(StatsFault::Trace(number, fault)),
        Err(ChaptersFault::Chapter(number)) => Err(StatsFault::Chapter(number)),
        Err(ChaptersFault::NoMemory) => Err(StatsFault::NoMemory),
    }
}
