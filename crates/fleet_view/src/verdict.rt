//! What the judge says of each chapter.

ghost use Rattle.std.specs.Prelude.{◌≡◌, map, IfOk};
ghost use Rattle.fleet_grid.specs.Floor.{floor_of_map};
ghost use Rattle.fleet_map.specs.Form.{HasSides};
ghost use Rattle.fleet_map.specs.Grammar.{view};
ghost use Rattle.fleet_history.specs.History.{history_of};
ghost use Rattle.fleet_trace.specs.Trace.{trace_of};
ghost use Rattle.fleet_view.specs.Verdicts.{AreVerdicts, IsVerdictOn};

use fleet_grid::Grid;
use fleet_history::Chapter;
use fleet_map::MapText;
use fleet_trace::{JudgeFault, judge};
use std::alloc::{AllocError, Global};

/// What the judge says of a chapter.
#[derive(Clone, Copy, Debug, PartialEq, Eq)]
pub enum ChapterVerdict {
    /// The opening is in order and each entry is legal.
    Legal,
    /// The entry `at`, counted from 1, is the first that breaks a rule, and `rule` the first that it breaks, by the
    /// numbers of `JudgeFault`. At 0 the opening breaks rule 1.
    Illegal { at: u64, rule: u8 },
}

/// The judge's verdict on a chapter.
pub(crate) fn judge_chapter(
    alloc: Global,
    grid: &Grid,
    chapter: &Chapter,
) -> Result<ChapterVerdict, AllocError>
    ensures { IfOk result (λ v. IsVerdictOn grid.now (history_of chapter.now) v) }
{
    match judge(alloc, grid, chapter) {
        Ok(()) => Ok(ChapterVerdict::Legal),
        Err(JudgeFault::Illegal { at, rule }) => Ok(ChapterVerdict::Illegal { at, rule }),
        Err(JudgeFault::NoMemory) => Err(AllocError),
    }
}

/// The judge's verdict on each of the chapters.
pub(crate) fn judge_each(
    alloc: Global,
    grid: &Grid,
    chapters: &[Chapter],
) -> Result<Vec<ChapterVerdict>, AllocError>
    ensures { IfOk result (λ vs. AreVerdicts grid.now (map trace_of chapters.now) vs.items) }
{
    let mut verdicts = Vec::new(alloc);
    for chapter in chapters {
        let verdict = judge_chapter(alloc, grid, chapter)?;
        verdicts.push(verdict)?;
    }
    Ok(verdicts)
}

/// The same map.
fn copy_of(alloc: Global, floor: &MapText) -> Result<MapText, AllocError>
    ensures { IfOk result (λ copy. view copy ≡ view floor.now) }
{
    Ok(MapText {
        height: floor.height,
        width: floor.width,
        cells: Vec::from_slice(alloc, &floor.cells)?,
    })
}

/// The grid of the map.
pub(crate) fn grid_of(alloc: Global, floor: &MapText) -> Result<Grid, AllocError>
    requires { HasSides (view floor.now) }
    ensures { IfOk result (λ grid. grid ≡ floor_of_map (view floor.now)) }
{
    let copy = copy_of(alloc, floor)?;
    Grid::new(copy)
}

/// The judge's verdict on each of the chapters, on this map. The only error is that memory runs out.
pub fn judge_chapters(
    alloc: Global,
    floor: &MapText,
    chapters: &[Chapter],
) -> Result<Vec<ChapterVerdict>, AllocError>
    requires { HasSides (view floor.now) }
    ensures { IfOk result (λ vs. AreVerdicts (floor_of_map (view floor.now)) (map trace_of chapters.now) vs.items) }
{
    let grid = grid_of(alloc, floor)?;
    judge_each(alloc, &grid, chapters)
}
