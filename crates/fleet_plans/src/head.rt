//! The head of a plan's text.

ghost use Rattle.std.specs.Prelude.{◌≡◌, ◌≤◌, ◌+◌, ◌<◌, ◌^◌, ◌==◌, length, IfOk, IfSome, Some, Ok, Err};
ghost use Rattle.std.specs.List.{position};
ghost use Rattle.std.specs.Option.{option_map};
ghost use Rattle.fleet_map.specs.Text.{lines_of};
ghost use Rattle.fleet_plans.specs.Head.{blank_head, split_once, if_new, form_in, with_value, with_pair, with_line, or_line, head_of};
ghost use Rattle.fleet_plans.specs.inside.Few.{HasFewStarts};
ghost use Rattle.fleet_plans.specs.Shown.{shown, opened, Gives};

use crate::cells::listed_cells;
use crate::fault::PlanTextFault;
use crate::limit::MOST_PLAN_BYTES;
use crate::sides::Sides;
use fleet_history::Row;
use fleet_map::text::first_line;
use std::alloc::{Allocator, Global};

/// What the lines before a plan's solution say.
#[derive(Drop)]
pub(crate) struct Head<A: Allocator + Copy = Global> {
    pub(crate) starts: Option<Row<u32, A>>,
    pub(crate) goals: Option<Row<u32, A>>,
    pub(crate) is_moves: Option<bool>,
}

fn place_of(line: &[u8], byte: u8) -> Option<usize>
    ensures { result ≡ position (λ b. b == byte) line.now }
{
    line.iter().position(|b| *b == byte)
}

/// The text before the first such byte, and the text after it.
#[tactic(auto, using(crate::proofs::Parts::rest_of))]
pub(crate) fn split_once(line: &[u8], byte: u8) -> Option<(&[u8], &[u8])>
    ensures value { option_map (λ x. (x.0.now, x.1.now)) result ≡ split_once byte line.now }
    ensures within { IfSome result (λ x. length x.0.now + length x.1.now < length line.now) }
{
    let at = place_of(line, byte)?;
    Some((&line[..at], &line[at + 1..]))
}

/// Takes what a line says, unless an earlier line said it.
fn set_once<T: Drop>(place: &mut Option<T>, said: Option<T>) -> Option<()>
    ensures { option_map (λ done. place.new) result ≡ option_map Some (if_new place.old said) }
{
    let said = said?;
    match place {
        Some(_) => None,
        None => {
            *place = Some(said);
            Some(())
        }
    }
}

/// The form of a solution that a value names: whether it is the form of moves.
fn is_form_of_moves(value: &[u8]) -> Option<bool>
    ensures { result ≡ form_in value.now }
{
    if value == b"moves".as_slice() {
        Some(true)
    } else if value == b"cells".as_slice() {
        Some(false)
    } else {
        None
    }
}

impl<A: Allocator + Copy> Head<A> {
    /// The head before any line.
    pub(crate) fn new() -> Head<A>
        ensures { shown result ≡ blank_head }
    {
        Head {
            starts: None,
            goals: None,
            is_moves: None,
        }
    }

    /// Adds what a key's value says.
    fn add_value(
        &mut self,
        alloc: A,
        sides: Sides,
        number: u32,
        key: &[u8],
        value: &[u8],
    ) -> Result<(), PlanTextFault>
        ensures read { Gives (λ done. shown self.new) result (or_line number (with_value sides.width sides.height (shown self.old) key.now value.now)) }
        ensures few { length value.now ≤ MOST_PLAN_BYTES → HasFewStarts (shown self.old) → IfOk result (λ _. HasFewStarts (shown self.new)) }
    {
        let fault = PlanTextFault::Line(number);
        if key == b"starts".as_slice() {
            let starts = listed_cells(alloc, sides, value)?;
            set_once(&mut self.starts, starts).ok_or(fault)
        } else if key == b"goals".as_slice() {
            let goals = listed_cells(alloc, sides, value)?;
            set_once(&mut self.goals, goals).ok_or(fault)
        } else if key == b"form".as_slice() {
            set_once(&mut self.is_moves, is_form_of_moves(value)).ok_or(fault)
        } else {
            Ok(())
        }
    }

    /// Adds one more line.
    fn add_line(
        &mut self,
        alloc: A,
        sides: Sides,
        number: u32,
        line: &[u8],
    ) -> Result<(), PlanTextFault>
        ensures read { Gives (λ done. shown self.new) result (or_line number (with_line sides.width sides.height (shown self.old) line.now)) }
        ensures few { length line.now ≤ MOST_PLAN_BYTES → HasFewStarts (shown self.old) → IfOk result (λ _. HasFewStarts (shown self.new)) }
    {
        if line.is_empty() {
            return Ok(());
        }
        match split_once(line, b'=') {
            Some((key, value)) => self.add_value(alloc, sides, number, key, value),
            None => Err(PlanTextFault::Line(number)),
        }
    }
}

/// A plan's text whose head was read.
pub(crate) struct Opened<'a, A: Allocator + Copy = Global> {
    pub(crate) head: Head<A>,
    /// The number of the first line after the head.
    pub(crate) number: u32,
    /// The text from that line on.
    pub(crate) rest: &'a [u8],
}

/// Reads the head of a plan's text.
#[tactic(auto, unfolding(crate::specs::Head::head_of))]
pub(crate) fn read_head<A: Allocator + Copy>(
    alloc: A,
    sides: Sides,
    text: &[u8],
) -> Result<Opened<'_, A>, PlanTextFault>
    requires { length text.now ≤ MOST_PLAN_BYTES }
    ensures read { Gives opened result (head_of sides.width sides.height blank_head 1 (lines_of text.now)) }
    ensures room { IfOk result (λ x. x.number + length x.rest.now ≤ 2 + MOST_PLAN_BYTES) }
    ensures few { IfOk result (λ x. HasFewStarts (shown x.head)) }
    ensures short { IfOk result (λ x. length x.rest.now ≤ MOST_PLAN_BYTES) }
{
    let mut head = Head::new();
    let mut number = 1;
    let mut rest = text;
    while let Some((line, after)) = first_line(rest) {
        if line == b"solution=".as_slice() {
            return Ok(Opened {
                head,
                number: number + 1,
                rest: after,
            });
        }
        head.add_line(alloc, sides, number, line)?;
        number += 1;
        rest = after;
    }
    Err(PlanTextFault::Line(number))
}
