//! The solution of a plan's text, with one line of cells for each time.

ghost use Rattle.std.specs.Prelude.{◌≡◌, ◌≤◌, ◌+◌, ◌<◌, ◌^◌, ℕ, List, [], length, IfOk, IfErr, IfSome, Ok};
ghost use Rattle.fleet_grid.specs.Floor.{Floor};
ghost use Rattle.fleet_map.specs.Text.{lines_of, number_of};
ghost use Rattle.fleet_plans.specs.Head.{split_once, or_line};
ghost use Rattle.fleet_plans.specs.Places.{is_number, place_in, agrees, covers, with_step, places_of};
ghost use Rattle.fleet_plans.specs.Judge.{HasJudged};
ghost use Rattle.fleet_plans.specs.Shown.{shown, FailsAt};
ghost use Rattle.fleet_plans.specs.inside.Given.{IsGiven, IsGivenAs};
ghost use Rattle.fleet_plans.specs.inside.Fits.{fits};

use crate::cells::listed_cells;
use crate::fault::PlanTextFault;
use crate::head::{Head, split_once};
use crate::judge::PlanJudge;
use crate::sides::Sides;
use fleet_history::Row;
use fleet_map::text::{first_line, number_up_to};
use std::alloc::{AllocError, Allocator};

/// Whether the word is this number.
pub(crate) fn is_number(number: usize, word: &[u8]) -> bool
    ensures { result ≡ is_number number (number_of word.now) }
{
    match number_up_to(word, 1 << 32) {
        Some(found) => found == number as u64,
        None => false,
    }
}

/// The cells in the line of this time; `None` if it is not such a line.
fn place_of<A: Allocator + Copy>(
    alloc: A,
    sides: Sides,
    time: usize,
    line: &[u8],
) -> Result<Option<Row<u32, A>>, AllocError>
    ensures read { IfOk result (λ place. place ≡ place_in sides.width sides.height time (split_once 58 line.now)) }
    ensures few { IfOk result (λ place. IfSome place (λ cells. length cells ≤ length line.now)) }
{
    match split_once(line, b':') {
        Some((number, cells)) if is_number(time, number) => listed_cells(alloc, sides, cells),
        _ => Ok(None),
    }
}

/// Whether the cells are the starts, if the head names starts.
fn agrees<A: Allocator + Copy>(starts: &Option<Row<u32, A>>, place: &[u32]) -> bool
    ensures { result ≡ agrees starts.now place.now }
{
    match starts {
        None => true,
        Some(starts) => starts.as_slice() == place,
    }
}

/// Whether each robot has a goal, if the head names goals.
pub(crate) fn covers<A: Allocator + Copy>(goals: &Option<Row<u32, A>>, place: &[u32]) -> bool
    ensures { result ≡ covers goals.now place.now }
{
    match goals {
        None => true,
        Some(goals) => goals.len() == place.len(),
    }
}

/// Whether a plan with this head may have these cells at a time. At time 0 they are its starts, and each robot has a
/// goal, if the head names them.
fn fits<A: Allocator + Copy>(head: &Head<A>, time: usize, place: &[u32]) -> bool
    ensures { result ≡ fits (shown head.now) time place.now }
{
    time > 0 || (agrees(&head.starts, place) && covers(&head.goals, place))
}

/// Gives the judge the placement of one more line; this is the line's number.
fn add_step<A: Allocator + Copy, B: Allocator + Copy>(
    alloc: A,
    sides: Sides,
    head: &Head<A>,
    number: u32,
    line: &[u8],
    judge: &mut PlanJudge<A, B>,
) -> Result<(), PlanTextFault>
    requires times { judge.old.count < 2 ^ 32 }
    requires robots { length line.now < 2 ^ 32 }
    ensures read { (m : Floor) (places : List (List ℕ)) → HasJudged m places judge.old → IfOk result (λ _. IsGivenAs m (with_step sides.width sides.height (shown head.now) places line.now) judge.new) }
    ensures fault { (m : Floor) (places : List (List ℕ)) → HasJudged m places judge.old → IfErr result (λ fault. FailsAt fault (or_line number (with_step sides.width sides.height (shown head.now) places line.now))) }
    ensures count { judge.new.count ≤ judge.old.count + 1 }
{
    if line.is_empty() {
        return Ok(());
    }
    let time = judge.count();
    let Some(place) = place_of(alloc, sides, time, line)? else {
        return Err(PlanTextFault::Line(number));
    };
    if !fits(head, time, place.as_slice()) {
        return Err(PlanTextFault::Line(number));
    }
    Ok(judge.take(place.as_slice())?)
}

/// Gives the judge the placements of a solution; this is the number of its first line.
pub(crate) fn read_places<A: Allocator + Copy, B: Allocator + Copy>(
    alloc: A,
    sides: Sides,
    head: &Head<A>,
    number: u32,
    text: &[u8],
    judge: &mut PlanJudge<A, B>,
) -> Result<(), PlanTextFault>
    requires room { number + length text.now < 2 ^ 32 }
    requires fresh { HasJudged judge.old.floor [] judge.old }
    ensures read { IfOk result (λ _. IsGiven judge.old.floor (λ places. places_of sides.width sides.height (shown head.now) [] number (lines_of text.now) ≡ Ok places) judge.new) }
    ensures fault { IfErr result (λ fault. FailsAt fault (places_of sides.width sides.height (shown head.now) [] number (lines_of text.now))) }
{
    let mut number = number;
    let mut rest = text;
    while let Some((line, after)) = first_line(rest) {
        add_step(alloc, sides, head, number, line, judge)?;
        number += 1;
        rest = after;
    }
    if judge.count() == 0 {
        return Err(PlanTextFault::Line(number));
    }
    Ok(())
}
