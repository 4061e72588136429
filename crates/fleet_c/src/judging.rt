//! The judge of a chapter.

ghost use Rattle.std.specs.Prelude.{⊤, ◌≡◌, IfErr, IfOk};
ghost use Rattle.fleet_history.specs.Legal.{IsLegal};
ghost use Rattle.fleet_trace.specs.Trace.{trace_of};
ghost use Rattle.fleet_c.specs.Maps.{OnMap};
ghost use Rattle.fleet_c.specs.Judged.{IsLegalText, IsIllegalText, IsIllegal, IsJudged};

use crate::codes::DONE;
use crate::fault::Fault;
use crate::maps::tell;
use crate::opening::grid_of;
use crate::reopen_refusal::ReopenRefusal;
use fleet_grid::Grid;
use fleet_history::Chapter;
use fleet_reopen::ReopenFault;
use fleet_trace::{JudgeFault, judge, read_trace};
use std::alloc::Global;

/// Judges a chapter.
fn judge_chapter(alloc: Global, grid: &Grid, chapter: &Chapter) -> Result<(), ReopenRefusal>
    ensures ok { IfOk result (λ _. IsLegal grid.now (trace_of chapter.now).history) }
    ensures err { IfErr result (λ why. IsIllegal grid.now (trace_of chapter.now) why) }
{
    match judge(alloc, grid, chapter) {
        Ok(()) => Ok(()),
        Err(JudgeFault::NoMemory) => Err(ReopenRefusal::NoMemory),
        Err(JudgeFault::Illegal { at, rule }) => {
            Err(ReopenRefusal::Chapter(ReopenFault::Illegal { at, rule }))
        }
    }
}

/// Judges the chapter that a text tells.
fn judge_text(alloc: Global, grid: &Grid, text: &[u8]) -> Result<(), ReopenRefusal>
    ensures ok { IfOk result (λ _. IsLegalText grid.now text.now) }
    ensures err { IfErr result (λ why. IsIllegalText grid.now text.now why) }
{
    match read_trace(alloc, text) {
        Ok(chapter) => judge_chapter(alloc, grid, &chapter),
        Err(why) => Err(ReopenRefusal::Trace(why)),
    }
}

/// The same, told to C.
fn judged(alloc: Global, grid: &Grid, text: &[u8], fault: &mut Fault) -> u32
    ensures { IsJudged grid.now text.now result fault.old fault.new }
{
    match judge_text(alloc, grid, text) {
        Ok(()) => DONE,
        Err(why) => {
            *fault = why.fault();
            fault.code
        }
    }
}

/// Whether a text tells a chapter that is legal on the map.
///
/// Refused in this order, and told in `fault`: the map's first fault; a text that is no trace; the first entry that
/// breaks a rule, and the first rule that it breaks; and out of memory at any time.
#[unsafe(no_mangle)]
pub extern "C" fn nashirudder_judge(
    alloc: Global,
    map: &[u8],
    text: &[u8],
    fault: &mut Fault,
) -> u32
    ensures { OnMap map.now result fault.new (λ m. IsJudged m text.now result fault.old fault.new) ⊤ }
{
    match grid_of(alloc, map) {
        Ok(grid) => judged(alloc, &grid, text, fault),
        Err(why) => tell(why, fault),
    }
}
