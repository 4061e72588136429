//! The chapters that are shown.

ghost use Rattle.std.specs.Prelude.{map, IfOk, IfErr};
ghost use Rattle.fleet_trace.specs.Trace.{trace_of};
ghost use Rattle.fleet_trace.specs.Chapters.{TellChapters};
ghost use Rattle.fleet_view.specs.View.{AreNotInTurn};

use crate::fault::ViewFault;
use fleet_grid::Grid;
use fleet_history::Chapter;
use fleet_trace::{ChaptersFault, read_chapters};
use std::alloc::Global;

/// Reads the chapters from these texts, and checks that each one continues the one before it on the grid.
pub(crate) fn chapters_in_turn(
    alloc: Global,
    grid: &Grid,
    texts: &[Vec<u8>],
) -> Result<Vec<Chapter>, ViewFault>
    ensures told { IfOk result (λ chapters. TellChapters grid.now (map (λ text. text.items) texts.now) (map trace_of chapters.items)) }
    ensures fault { IfErr result (λ fault. AreNotInTurn grid.now (map (λ text. text.items) texts.now) fault) }
{
    match read_chapters(alloc, grid, texts) {
        Ok(chapters) => Ok(chapters),
        Err(ChaptersFault::Trace(_number, fault)) => Err(ViewFault::Trace(fault)),
        Err(ChaptersFault::Chapter(number)) => Err(ViewFault::Chapter(number)),
        Err(ChaptersFault::NoMemory) => Err(ViewFault::NoMemory),
    }
}
