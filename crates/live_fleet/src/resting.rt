//! How an answer goes on.

ghost use Rattle.std.specs.Prelude.{◌≡◌, ◌≤◌, ◌<◌, ℕ, Option, Vec, IfOk, OnOk, vec_len};
ghost use Rattle.std.specs.declared.alloc.Global.{Global};
ghost use Rattle.live_fleet.specs.declared.rest.Rest.TheVariants.{Nothing, Ticking};
ghost use Rattle.live_fleet.specs.Out.{out_of};
ghost use Rattle.live_fleet.specs.Party.{resting};
ghost use Rattle.live_fleet.specs.Resting.{KeptIn, ListsOn, SaysOn, last_turn, line_of};
ghost use Rattle.live_fleet.specs.Turning.{SaysOrNot};

use crate::answering::{answer, answer_with, mark_in, marked_text};
use crate::listing::next_listed;
use crate::outboxes::Outboxes;
use crate::rest::{Listing, Rest};
use crate::speaker::Speaker;
use crate::turning::say_if_room;
use fleet_text::chapter_line;
use std::alloc::{AllocError, Global};
use std::mem;

/// Says the next line of a list if there is room, and returns whether it was said.
fn say_listed(
    alloc: Global,
    out: &mut Outboxes,
    to: usize,
    list: &Listing,
) -> Result<bool, AllocError>
    requires { to < vec_len out.old.texts }
    ensures ok { IfOk result (λ is. SaysOrNot to (line_of list.now) is (out_of out.old) (out_of out.new)) }
    ensures count { vec_len out.new.texts ≡ vec_len out.old.texts }
{
    let text = next_listed(alloc, &list.rows, list.listed)?;
    let line = marked_text(alloc, mark_in(&list.mark), text.as_str())?;
    say_if_room(out, to, &line)
}

/// Says the next line of a list if there is room, and returns what is left.
fn list_on(
    alloc: Global,
    out: &mut Outboxes,
    to: usize,
    mut list: Listing,
) -> Result<Rest, AllocError>
    requires { to < vec_len out.old.texts }
    ensures ok { IfOk result (λ left. ListsOn to list (out_of out.old) (out_of out.new) left) }
    ensures count { vec_len out.new.texts ≡ vec_len out.old.texts }
{
    if !say_listed(alloc, out, to, &list)? {
        return Ok(Rest::Listing(list));
    }
    if list.listed >= list.rows.count() {
        return Ok(Rest::Nothing);
    }
    list.listed += 1;
    Ok(Rest::Listing(list))
}

/// Goes on with an answer of which nothing but text is left: says its next line if there is room.
pub(crate) fn say_on(
    alloc: Global,
    out: &mut Outboxes,
    to: usize,
    speaker: &mut Speaker,
) -> Result<(), AllocError>
    requires { to < vec_len out.old.texts }
    ensures ok { OnOk result (SaysOn to speaker.old.rest (out_of out.old) (out_of out.new) speaker.new.rest) }
    ensures same { speaker.new ≡ resting speaker.old speaker.new.rest }
    ensures count { vec_len out.new.texts ≡ vec_len out.old.texts }
{
    match mem::replace(&mut speaker.rest, Rest::Nothing) {
        Rest::Line(line) => answer_with(out, speaker, to, line),
        Rest::Listing(list) => {
            speaker.rest = list_on(alloc, out, to, list)?;
            Ok(())
        }
        rest => {
            speaker.rest = rest;
            Ok(())
        }
    }
}

/// Notes how many turns are left to be made.
pub(crate) fn set_left(speaker: &mut Speaker, turns: u32)
    ensures { (mark : Option (Vec ℕ Global)) (left : ℕ) → speaker.old.rest ≡ Ticking mark left → speaker.new ≡ resting speaker.old (Ticking mark turns) }
{
    if let Rest::Ticking { left, .. } = &mut speaker.rest {
        *left = turns;
    }
}

/// Lets no more than one be made of the turns that are left.
pub(crate) fn hasten(speaker: &mut Speaker)
    ensures { speaker.new ≡ resting speaker.old (last_turn speaker.old.rest) }
{
    if let Rest::Ticking { left, .. } = &mut speaker.rest {
        *left = (*left).min(1);
    }
}

/// The mark of an answer whose turns are made. Nothing else of it is left.
pub(crate) fn take_mark(speaker: &mut Speaker) -> Option<Vec<u8>>
    ensures mark { (mark : Option (Vec ℕ Global)) (left : ℕ) → speaker.old.rest ≡ Ticking mark left → result ≡ mark }
    ensures done { speaker.new ≡ resting speaker.old Nothing }
{
    match mem::replace(&mut speaker.rest, Rest::Nothing) {
        Rest::Ticking { mark, left: _ } => mark,
        _ => None,
    }
}

/// Answers a conversation that waits until this chapter is kept.
pub(crate) fn note_kept_of(
    alloc: Global,
    out: &mut Outboxes,
    to: usize,
    speaker: &mut Speaker,
    number: u32,
) -> Result<(), AllocError>
    requires { to < vec_len out.old.texts }
    ensures ok { OnOk result (KeptIn speaker.old.rest number to (out_of out.old) (out_of out.new) speaker.new.rest) }
    ensures same { speaker.new ≡ resting speaker.old speaker.new.rest }
    ensures count { vec_len out.new.texts ≡ vec_len out.old.texts }
{
    match mem::replace(&mut speaker.rest, Rest::Nothing) {
        Rest::Keeping {
            mark,
            chapter,
            entries,
        } if chapter == number => {
            let text = chapter_line(alloc, chapter, entries)?;
            answer(alloc, out, speaker, to, mark_in(&mark), text.as_str())
        }
        rest => {
            speaker.rest = rest;
            Ok(())
        }
    }
}
