//! Plans with a line of cells for each robot.

ghost use Rattle.std.specs.Prelude.{◌≡◌, ◌≤◌, ◌<◌, ◌-◌, ◌∷◌, ◌==◌, ℕ, [], length, slice_index, slice_index_or, MatchOption, IfOk, IfErr, IfSome};
ghost use Rattle.std.specs.List.{position};
ghost use Rattle.std.specs.Option.{option_map};
ghost use Rattle.fleet_map.specs.Text.{lines_of};
ghost use Rattle.fleet_plans.specs.Agents.{is_dash, pieces, led_cell, cells_led, without_arrow, path_of, after_agent, agent_in, AreAgents, IsNoAgents, IsAgentsPlan};
ghost use Rattle.fleet_plans.specs.Judge.{HasJudged};
ghost use Rattle.fleet_plans.specs.inside.Given.{IsGiven};

use crate::cells::{cell_by_row, is_closed};
use crate::fault::PlanTextFault;
use crate::follow::follow;
use crate::form::is_agent;
use crate::head::split_once;
use crate::judge::PlanJudge;
use crate::limit::MOST_PLAN_BYTES;
use crate::places::is_number;
use crate::sides::Sides;
use fleet_history::Row;
use fleet_map::text::first_line;
use std::alloc::{AllocError, Allocator, Global};

fn dash(text: &[u8]) -> Option<usize>
    ensures { result ≡ position is_dash text.now }
{
    text.iter().position(|byte| *byte == b'-')
}

/// The first part before a dash and what follows it; `None` if nothing is left.
#[tactic(auto, using(crate::proofs::Pieces::pieces_first, crate::proofs::Pieces::pieces_last))]
fn first_piece(text: &[u8]) -> Option<(&[u8], &[u8])>
    ensures cut { MatchOption result (pieces text.now ≡ []) (λ x. pieces text.now ≡ x.0.now ∷ pieces x.1.now) }
    ensures shorter { IfSome result (λ x. length x.1.now < length text.now) }
{
    if text.is_empty() {
        return None;
    }
    match dash(text) {
        None => Some((text, &[])),
        Some(end) => Some((&text[..end], &text[end + 1..])),
    }
}

/// The cell `(R,C)` after this byte.
fn led_cell(sides: Sides, lead: u8, part: &[u8]) -> Option<u32>
    ensures { result ≡ led_cell sides.width sides.height lead part.now }
{
    if part.is_empty() || part[0] != lead {
        return None;
    }
    cell_by_row(sides, &part[1..])
}

/// The cells of a text ` (R,C)->(R,C)`; `None` if it is not such a text.
fn cells_of(alloc: Global, sides: Sides, text: &[u8]) -> Result<Option<Row<u32>>, AllocError>
    ensures read { IfOk result (λ cells. cells ≡ cells_led sides.width sides.height 32 (pieces text.now)) }
    ensures few { IfOk result (λ cells. IfSome cells (λ list. length list ≤ length text.now)) }
{
    let mut cells = Vec::new(alloc);
    let mut lead = b' ';
    let mut rest = text;
    while let Some((part, after)) = first_piece(rest) {
        let Some(cell) = led_cell(sides, lead, part) else {
            return Ok(None);
        };
        cells.push(cell)?;
        lead = b'>';
        rest = after;
    }
    Ok(Some(Row::from_vec(cells)))
}

/// The text without the arrow at its end.
#[tactic(auto, using(crate::proofs::Parts::rest_of))]
fn without_arrow(text: &[u8]) -> &[u8]
    ensures value { result.now ≡ without_arrow text.now }
    ensures within { length result.now ≤ length text.now }
{
    let end = text.len().saturating_sub(2);
    if &text[end..] == b"->".as_slice() {
        &text[..end]
    } else {
        text
    }
}

/// The cells of a text ` (R,C)->(R,C)`, which ends with a bracket.
fn path_of(alloc: Global, sides: Sides, text: &[u8]) -> Result<Option<Row<u32>>, AllocError>
    ensures read { IfOk result (λ path. path ≡ path_of sides.width sides.height text.now) }
    ensures few { IfOk result (λ path. IfSome path (λ list. length list ≤ length text.now)) }
{
    if is_closed(text) {
        cells_of(alloc, sides, text)
    } else {
        Ok(None)
    }
}

/// What stands after `Agent ` in a line.
#[tactic(auto, using(crate::proofs::Parts::rest_of))]
fn after_agent(line: &[u8]) -> Option<&[u8]>
    ensures value { option_map (λ x. x.now) result ≡ after_agent line.now }
    ensures within { IfSome result (λ x. length x.now ≤ length line.now) }
{
    if is_agent(line) && line.len() >= 6 {
        Some(&line[6..])
    } else {
        None
    }
}

/// The cells of the robot's line; `None` if it is not such a line.
fn agent_in(
    alloc: Global,
    sides: Sides,
    robot: usize,
    line: &[u8],
) -> Result<Option<Row<u32>>, AllocError>
    ensures read { IfOk result (λ path. path ≡ agent_in sides.width sides.height robot line.now) }
    ensures few { IfOk result (λ path. IfSome path (λ list. length list ≤ length line.now)) }
{
    let Some(rest) = after_agent(line) else {
        return Ok(None);
    };
    match split_once(rest, b':') {
        Some((number, path)) if is_number(robot, number) => {
            path_of(alloc, sides, without_arrow(path))
        }
        _ => Ok(None),
    }
}

/// The paths of all robots, of which there has to be one.
fn all_paths(alloc: Global, sides: Sides, text: &[u8]) -> Result<Vec<Row<u32>>, PlanTextFault>
    requires { length text.now ≤ MOST_PLAN_BYTES }
    ensures read { IfOk result (λ paths. AreAgents sides.width sides.height (lines_of text.now) (length (lines_of text.now)) paths.items) }
    ensures fault { IfErr result (λ fault. IsNoAgents sides.width sides.height text.now fault) }
    ensures some { IfOk result (λ paths. 1 ≤ length paths.items) }
    ensures few { IfOk result (λ paths. length paths.items ≤ MOST_PLAN_BYTES) }
    ensures short { IfOk result (λ paths. (r : ℕ) → length (slice_index_or paths.items r []) ≤ MOST_PLAN_BYTES) }
{
    let mut paths = Vec::new(alloc);
    let mut rest = text;
    while let Some((line, after)) = first_line(rest) {
        let robot = paths.len();
        let Some(path) = agent_in(alloc, sides, robot, line)? else {
            return Err(PlanTextFault::Line(robot as u32 + 1));
        };
        paths.push(path)?;
        rest = after;
    }
    if paths.is_empty() {
        return Err(PlanTextFault::Line(1));
    }
    Ok(paths)
}

/// Gives the judge the placements of a plan with a line `Agent K: (R,C)->(R,C)->..` for each robot. Such a plan names
/// no goals.
///
/// The fault is the first line that is not its robot's, which is line 1 in a text without lines; or `NoMemory`.
pub(crate) fn read_agents<B: Allocator + Copy>(
    alloc: Global,
    sides: Sides,
    text: &[u8],
    judge: &mut PlanJudge<Global, B>,
) -> Result<(), PlanTextFault>
    requires short { length text.now ≤ MOST_PLAN_BYTES }
    requires fresh { HasJudged judge.old.floor [] judge.old }
    ensures read { IfOk result (λ _. IsGiven judge.old.floor (IsAgentsPlan sides.width sides.height text.now) judge.new) }
    ensures fault { IfErr result (λ fault. IsNoAgents sides.width sides.height text.now fault) }
{
    let paths = all_paths(alloc, sides, text)?;
    Ok(follow(alloc, &paths, judge)?)
}
