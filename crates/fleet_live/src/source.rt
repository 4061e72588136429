//! Where the loop's events come from: the rings of the readers, the clock, and the thread that keeps chapters.

use crate::batch::Batch;
use crate::counts::Counts;
use crate::ends::{Asked, Next};
use crate::pace::Pace;
use crate::place::{Place, has_room, is_full};
use crate::reports::Reports;
use crate::shelf::Shelf;
use crate::wake::Wake;
use live_fleet::{Outboxes, Party, Rest};
use live_parts::Stop;
use std::alloc::{Alloc, AllocError, Global};
use std::sync::{Arc, Wait};
use std::time::Clock;

/// How a fleet is kept.
#[derive(Clone, Copy)]
pub(crate) struct Rules {
    /// Whether turns come by themselves.
    pub(crate) is_paced: bool,
    /// Whether the fleet goes on without its first conversation.
    pub(crate) is_service: bool,
    /// Whether fields are searched between turns.
    pub(crate) searches: bool,
    /// The most bytes that a chapter's text has, not counting the entries of one batch.
    pub(crate) chapter_bytes: u64,
}

/// What decides what is heard next.
#[derive(Drop)]
pub(crate) struct Source {
    /// By conversation.
    pub(crate) places: Vec<Place>,
    /// Wakes the loop.
    pub(crate) wake: Arc<Wake>,
    pub(crate) shelf: Arc<Shelf>,
    pub(crate) pace: Pace,
    pub(crate) counts: Counts,
    pub(crate) reports: Reports,
    pub(crate) rules: Rules,
    pub(crate) batch: Batch,
    /// When the last turn that came by itself began, until its end is noted.
    pub(crate) turn: Option<u64>,
    /// How many ticks were made at the last look, and before the first of those that a line asks for.
    pub(crate) ticks: u64,
    pub(crate) first_tick: u64,
    /// How many chapters wait to be kept.
    pub(crate) unkept: u64,
    /// Why the fleet ends, once it does.
    pub(crate) stop: Option<Stop>,
    /// When the loop first found that the fleet has ended.
    pub(crate) left_at: Option<u64>,
}

/// Whether a conversation waits until a chapter is kept.
fn is_keeping(party: &Party) -> bool {
    party
        .speakers
        .iter()
        .any(|speaker| matches!(&speaker.rest, Rest::Keeping { .. }))
}

impl Source {
    /// Notes that this is to be heard.
    pub(crate) fn hear(&mut self, asked: Asked) -> Next {
        self.batch.note_deed();
        Next::Hear(asked)
    }

    /// What was said is to be handed on, and then another batch begins.
    pub(crate) fn hand(&mut self) -> Next {
        self.batch = self.batch.next();
        Next::Hand
    }

    /// Notes for which conversations there was no room, and ends the batch.
    pub(crate) fn end_batch(&mut self, out: &Outboxes) -> Next {
        let mut to = 0usize;
        for place in self.places.iter_mut() {
            place.note_full(is_full(out, to));
            to = to.saturating_add(1);
        }
        self.hand()
    }

    /// The end of the fleet, once nobody waits for a chapter that may be kept.
    fn stop<R: Wait>(&mut self, rt: &R, party: &Party, out: &Outboxes, stop: Stop) -> Next {
        if !is_keeping(party) || matches!(stop, Stop::Sink | Stop::NoMemory) {
            return self.hear(Asked::End);
        }
        if let Some(asked) = self.kept(rt, party) {
            return self.hear(asked);
        }
        if !self.batch.is_empty {
            return self.end_batch(out);
        }
        self.wake.sleep(rt);
        self.hand()
    }

    /// Whether the first conversation has to take some of what it was told before it is heard again.
    fn is_first_stalled(&self, party: &Party, out: &Outboxes) -> bool {
        match (self.places.first(), party.speakers.first()) {
            (Some(place), Some(speaker)) => {
                place.is_held() || is_full(out, 0) || !has_room(out, 0, &speaker.rest)
            }
            _ => false,
        }
    }

    /// Waits until there is something to do, or uses the time to search fields ahead.
    fn rest<R: Clock + Wait>(
        &mut self,
        rt: &R,
        alloc: Global,
        party: &Party,
    ) -> Result<Next, AllocError> {
        if !self.pace.is_timed() {
            self.wake.sleep(rt);
            return Ok(self.hand());
        }
        if !self.batch.is_timed {
            self.read_clock(rt);
            if let Some(asked) = self.timed(rt, alloc, party)? {
                return Ok(self.hear(asked));
            }
        }
        self.batch.is_timed = false;
        if self.rules.searches && self.counts.has_news {
            self.counts.has_news = false;
            return Ok(Next::Search);
        }
        if let Some(time) = self.pace.time_left() {
            self.wake.sleep_for(rt, time);
        }
        Ok(self.hand())
    }

    /// Ends a batch in which something was done; else waits until there is something to do.
    fn pause<R: Clock + Wait>(
        &mut self,
        rt: &R,
        alloc: Global,
        party: &Party,
        out: &Outboxes,
    ) -> Result<Next, AllocError> {
        if !self.batch.is_empty {
            return Ok(self.end_batch(out));
        }
        if self.rules.is_paced && self.is_first_stalled(party, out) && self.hurry(rt, party)? {
            return Ok(self.hand());
        }
        self.rest(rt, alloc, party)
    }
}

impl Source {
    /// What is to be done next; waits until there is something.
    pub(crate) fn decide<R: Alloc<A = Global> + Clock + Wait>(
        &mut self,
        rt: &R,
        party: &Party,
        out: &Outboxes,
        line: &mut Vec<u8>,
    ) -> Result<Next, AllocError> {
        let alloc = rt.alloc();
        self.counts.note(&out.chapters, &party.fleet.session.world);
        if party.has_ended {
            return self.leave(rt, party, out);
        }
        self.end_turn(rt, alloc, party)?;
        if self.batch.is_empty {
            self.begin_batch(rt, alloc, party);
        }
        if let Some(stop) = self.stop {
            return Ok(self.stop(rt, party, out, stop));
        }
        if self.is_chapter_waiting(party, out) {
            return Ok(self.end_batch(out));
        }
        if let Some(asked) = self.urgent(rt, alloc, party)? {
            return Ok(self.hear(asked));
        }
        match self.next_line(rt, party, out, line)? {
            Some(asked) => Ok(Next::Hear(asked)),
            None => self.pause(rt, alloc, party, out),
        }
    }
}
