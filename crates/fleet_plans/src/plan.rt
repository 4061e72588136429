//! Plans in lines, read and judged.

ghost use Rattle.std.specs.Prelude.{◌≡◌, ◌≤◌, ◌+◌, [], length, IfOk, IfErr};
ghost use Rattle.fleet_map.specs.Text.{lines_of};
ghost use Rattle.fleet_plans.specs.Judge.{HasJudged};
ghost use Rattle.fleet_plans.specs.Text.{source_of, source_after, after, from_starts, IsReadAs};
ghost use Rattle.fleet_plans.specs.Shown.{shown, FailsAt};
ghost use Rattle.fleet_plans.specs.inside.Few.{HasFewStarts};
ghost use Rattle.fleet_plans.specs.inside.Given.{IsGiven};

use crate::fault::PlanTextFault;
use crate::head::{Head, Opened, read_head};
use crate::judge::PlanJudge;
use crate::limit::MOST_PLAN_BYTES;
use crate::places::{covers, read_places};
use crate::sides::Sides;
use crate::tracks::read_tracks;
use crate::walk::walk;
use fleet_history::Row;
use std::alloc::Allocator;

/// Gives the judge the placements of a solution of moves; this is the number of the solution's first line.
fn read_moves<A: Allocator + Copy, B: Allocator + Copy>(
    alloc: A,
    sides: Sides,
    head: &Head<A>,
    number: u32,
    text: &[u8],
    judge: &mut PlanJudge<A, B>,
) -> Result<(), PlanTextFault>
    requires room { number + length text.now ≤ 2 + MOST_PLAN_BYTES }
    requires few { HasFewStarts (shown head.now) }
    requires short { length text.now ≤ MOST_PLAN_BYTES }
    requires fresh { HasJudged judge.old.floor [] judge.old }
    ensures read { IfOk result (λ _. IsGiven judge.old.floor (IsReadAs sides.width sides.height (from_starts (shown head.now) number (lines_of text.now) (shown head.now).starts) (shown head.now).goals) judge.new) }
    ensures fault { IfErr result (λ fault. FailsAt fault (from_starts (shown head.now) number (lines_of text.now) (shown head.now).starts)) }
{
    let Some(starts) = &head.starts else {
        return Err(PlanTextFault::Line(number));
    };
    if !covers(&head.goals, starts.as_slice()) {
        return Err(PlanTextFault::Line(number));
    }
    let tracks = read_tracks(alloc, starts.len(), number, text)?;
    Ok(walk(alloc, sides, starts.as_slice(), tracks.as_slice(), judge)?)
}

/// Gives the judge the placements of the solution after this head; this is the number of the solution's first line.
fn read_solution<A: Allocator + Copy, B: Allocator + Copy>(
    alloc: A,
    sides: Sides,
    head: &Head<A>,
    number: u32,
    text: &[u8],
    judge: &mut PlanJudge<A, B>,
) -> Result<(), PlanTextFault>
    requires room { number + length text.now ≤ 2 + MOST_PLAN_BYTES }
    requires few { HasFewStarts (shown head.now) }
    requires short { length text.now ≤ MOST_PLAN_BYTES }
    requires fresh { HasJudged judge.old.floor [] judge.old }
    ensures read { IfOk result (λ _. IsGiven judge.old.floor (IsReadAs sides.width sides.height (source_after sides.width sides.height (after (shown head.now) number (lines_of text.now))) (shown head.now).goals) judge.new) }
    ensures fault { IfErr result (λ fault. FailsAt fault (source_after sides.width sides.height (after (shown head.now) number (lines_of text.now)))) }
{
    if head.is_moves.unwrap_or(false) {
        read_moves(alloc, sides, head, number, text, judge)
    } else {
        read_places(alloc, sides, head, number, text, judge)
    }
}

/// Gives the judge the placements of a plan in lines, and returns the plan's goals. The lines are KEY=VALUE up to the
/// line `solution=`, and then TIME:CELLS for each time, as Okumura's planners write it; or, with the line `form=moves`,
/// a line of the letters u, d, l, r, w for each robot.
///
/// The fault is the first line that is not allowed where it is, or `NoMemory`.
pub(crate) fn read_plan<A: Allocator + Copy, B: Allocator + Copy>(
    alloc: A,
    sides: Sides,
    text: &[u8],
    judge: &mut PlanJudge<A, B>,
) -> Result<Option<Row<u32, A>>, PlanTextFault>
    requires short { length text.now ≤ MOST_PLAN_BYTES }
    requires fresh { HasJudged judge.old.floor [] judge.old }
    ensures read { IfOk result (λ goals. IsGiven judge.old.floor (IsReadAs sides.width sides.height (source_of sides.width sides.height text.now) goals) judge.new) }
    ensures fault { IfErr result (λ fault. FailsAt fault (source_of sides.width sides.height text.now)) }
{
    let Opened { head, number, rest } = read_head(alloc, sides, text)?;
    read_solution(alloc, sides, &head, number, rest, judge)?;
    let Head {
        starts: _,
        goals,
        is_moves: _,
    } = head;
    Ok(goals)
}
