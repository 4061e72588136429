//! What is told when the fleet has ended.

use crate::ends::{Asked, Next};
use crate::place::{has_room, is_full, waiting};
use crate::source::Source;
use live_fleet::{Outboxes, Party, Rest};
use std::alloc::{AllocError, Global};
use std::sync::Wait;
use std::time::{Clock, Duration};

/// For how many microseconds the loop waits for conversations other than the first.
const PATIENCE: u64 = 1_000_000;

impl Source {
    /// Whether a conversation was told everything, or cannot be.
    fn is_told(&self, at: usize) -> bool {
        match self.places.get(at) {
            Some(place) => place.link.is_gone() || place.link.is_written(),
            None => true,
        }
    }

    /// Whether all conversations other than the first were told everything, or cannot be.
    fn are_others_told(&self) -> bool {
        for at in 1..self.places.len() {
            if !self.is_told(at) {
                return false;
            }
        }
        true
    }

    /// What is left to be told in a conversation, if there may be room for some of it. The writer of a conversation
    /// that was told everything may end.
    fn next_left<R: Wait>(
        &mut self,
        rt: &R,
        party: &Party,
        out: &Outboxes,
        at: usize,
    ) -> Option<Asked> {
        let (place, speaker) = (self.places.get_mut(at)?, party.speakers.get(at)?);
        if place.link.is_gone() {
            return None;
        }
        if matches!(&speaker.rest, Rest::Ended) {
            if waiting(out, at) == 0 && !place.link.is_behind() {
                place.link.finish(rt);
            }
            return None;
        }
        if is_full(out, at) || !has_room(out, at, &speaker.rest) {
            return None;
        }
        Some(Asked::Rest(at))
    }

    /// Waits until something was written, for as long as there is patience. Returns whether there still is.
    fn wait_for_writers<R: Clock + Wait>(&mut self, rt: &R, left_at: u64) -> bool {
        if self.are_others_told() {
            self.wake.sleep(rt);
            return true;
        }
        self.read_clock(rt);
        let gone_by = self.pace.now.saturating_sub(left_at);
        if gone_by >= PATIENCE {
            if self.is_told(0) {
                return false;
            }
            self.wake.sleep(rt);
            return true;
        }
        self.wake
            .sleep_for(rt, Duration::from_micros(PATIENCE - gone_by));
        true
    }

    /// Tells what is left, until the first conversation was told everything. It waits a second at most for the others.
    pub(crate) fn leave<R: Clock + Wait>(
        &mut self,
        rt: &R,
        party: &Party,
        out: &Outboxes,
    ) -> Result<Next, AllocError> {
        let Some(left_at) = self.left_at else {
            self.read_clock(rt);
            self.left_at = Some(self.pace.now);
            return Ok(self.hand());
        };
        for at in 0..self.places.len() {
            if let Some(asked) = self.next_left(rt, party, out, at) {
                return Ok(self.hear(asked));
            }
        }
        if !self.batch.is_empty {
            return Ok(self.hand());
        }
        let is_over = self.is_told(0) && self.are_others_told();
        if is_over || !self.wait_for_writers(rt, left_at) {
            return Ok(Next::Over);
        }
        Ok(self.hand())
    }

    /// Says what is left to be said of chapters, and lets all writers end, also those that were not told of the end.
    pub(crate) fn finish<R: Clock + Wait>(&mut self, rt: &R, alloc: Global) {
        self.reports.say_kept(rt, alloc, &self.shelf);
        self.reports.finish(rt);
        for place in &self.places {
            place.link.finish(rt);
        }
    }

    /// Whether the reader of what the first conversation is told went away.
    pub(crate) fn is_first_gone(&self) -> bool {
        match self.places.first() {
            Some(place) => place.link.is_gone(),
            None => false,
        }
    }
}
