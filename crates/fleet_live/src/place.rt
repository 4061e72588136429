//! How far the loop is with a conversation.

ghost use Rattle.std.specs.Prelude.{◌≡◌, ◌≤◌, ◌<◌, ◌↔◌, ◌&&◌, ◌||◌, not, false, IsTrue, length, nat_le, vec_len};
ghost use Rattle.live_fleet.specs.Out.{IsFull, out_of, text_at};
ghost use Rattle.fleet_live.specs.Place.{HasRoom, listed_len};

use crate::lines_in::LinesIn;
use crate::link::Link;
use live_fleet::{Listing, MOST_TEXT, Outboxes, Rest};
use std::sync::Arc;

/// If no more than this waits for a reader, what had no room is tried again.
const LITTLE: usize = MOST_TEXT / 2;

/// No line of a list is longer, its mark and the blank after that not counted.
const LISTED: usize = 128;

/// A conversation, as the loop hears it.
#[derive(Drop)]
pub(crate) struct Place {
    pub(crate) lines: LinesIn,
    pub(crate) link: Arc<Link>,
    /// Whether notices may be left for which there was no room.
    is_held: bool,
}

impl Place {
    pub(crate) fn new(lines: LinesIn, link: Arc<Link>) -> Place
        ensures { result ≡ record { lines = lines; link = link; is_held = false } }
    {
        Place {
            lines,
            link,
            is_held: false,
        }
    }

    /// Notes whether there was no room for all that the conversation was to be told.
    pub(crate) fn note_full(&mut self, is_full: bool)
        ensures { self.new ≡ record self.old { is_held = self.old.is_held || is_full } }
    {
        self.is_held |= is_full;
    }

    /// Whether notices that had no room are to be told now.
    pub(crate) fn takes_held(&mut self, waits: usize) -> bool
        ensures takes { result ≡ (self.old.is_held && nat_le waits 32768) }
        ensures held { self.new ≡ record self.old { is_held = self.old.is_held && not result } }
    {
        let takes = self.is_held && waits <= LITTLE;
        if takes {
            self.is_held = false;
        }
        takes
    }

    /// Whether its reader has to take some before the conversation is heard again.
    pub(crate) fn is_held(&self) -> bool
        ensures { result ≡ self.now.is_held }
    {
        self.is_held
    }
}

/// Whether there is room for the line of a tick and many notices.
pub(crate) fn has_much_room(out: &Outboxes, to: usize) -> bool
    ensures { IsTrue result ↔ (to < vec_len out.now.texts) × (length (text_at (out_of out.now) to) ≤ 32768) }
{
    match out.texts.get(to) {
        Some(text) => text.len() <= LITTLE,
        None => false,
    }
}

/// Whether no more notices fit into what waits for a conversation.
pub(crate) fn is_full(out: &Outboxes, to: usize) -> bool
    ensures { IsTrue result ↔ (to < vec_len out.now.texts) × IsFull (text_at (out_of out.now) to) }
{
    to < out.texts.len() && out.is_full(to)
}

/// The greatest length that the next line of a list may have.
fn listed_len(list: &Listing) -> usize
    ensures { result ≡ listed_len list.now }
{
    let mark = match &list.mark {
        Some(mark) => mark.len().saturating_add(1),
        None => 0,
    };
    mark.saturating_add(LISTED)
}

/// Whether there is room for what is left of an answer, or for its next line.
pub(crate) fn has_room(out: &Outboxes, to: usize, rest: &Rest) -> bool
    ensures { IsTrue result ↔ (to < vec_len out.now.texts) × HasRoom (text_at (out_of out.now) to) rest.now }
{
    if to >= out.texts.len() {
        return false;
    }
    match rest {
        Rest::Line(line) => out.fits(to, line.len()),
        Rest::Listing(list) => out.fits(to, listed_len(list)),
        _ => true,
    }
}

/// How much waits for a conversation.
pub(crate) fn waiting(out: &Outboxes, to: usize) -> usize
    ensures { result ≡ length (text_at (out_of out.now) to) }
{
    match out.texts.get(to) {
        Some(text) => text.len(),
        None => 0,
    }
}
