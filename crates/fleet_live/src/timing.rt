//! What is due besides lines: turns, figures, chapters, and the end.

use crate::ends::Asked;
use crate::source::Source;
use live_fleet::{Outboxes, Party, Rest};
use live_parts::Stop;
use std::alloc::{AllocError, Global};
use std::sync::Wait;
use std::time::Clock;

impl Source {
    /// Reads the clock. Where that is not possible, the fleet is to end.
    pub(crate) fn read_clock<R: Clock>(&mut self, rt: &R) {
        if !self.pace.read(rt) && self.stop.is_none() {
            self.stop = Some(Stop::Input);
        }
        self.batch.note_time();
    }

    /// Why the first conversation has no more lines, if that ends the fleet.
    pub(crate) fn end_of_first<R: Wait>(&self, rt: &R) -> Option<Stop> {
        let ended = self.places.first()?.link.ended(rt)?;
        if self.rules.is_service && ended != Stop::NoMemory {
            return None;
        }
        Some(ended)
    }

    /// Why the fleet is to end, other than by the end of the first conversation.
    fn why<R: Wait>(&self, rt: &R) -> Option<Stop> {
        if let Some(first) = self.places.first() {
            if !self.rules.is_service && first.link.is_gone() {
                return Some(Stop::Output);
            }
        }
        for place in &self.places {
            if place.link.ended(rt) == Some(Stop::NoMemory) {
                return Some(Stop::NoMemory);
            }
        }
        self.shelf.standing(rt).stop
    }

    /// At the beginning of a batch, looks at what the other threads have to say.
    pub(crate) fn begin_batch<R: Wait>(&mut self, rt: &R, alloc: Global, party: &Party) {
        self.reports.say_kept(rt, alloc, &self.shelf);
        self.unkept = self.shelf.standing(rt).waiting;
        self.ticks = party.fleet.session.world.clock();
        if self.stop.is_none() {
            self.stop = self.why(rt);
        }
    }

    /// Ends a turn that came by itself: sets the next deadline, and does what is done after a turn.
    pub(crate) fn end_turn<R: Clock + Wait>(
        &mut self,
        rt: &R,
        alloc: Global,
        party: &Party,
    ) -> Result<(), AllocError> {
        let Some(began) = self.turn.take() else {
            return Ok(());
        };
        if party.is_over {
            self.stop = Some(Stop::Limit);
            return Ok(());
        }
        let lateness = self.pace.lateness(began);
        self.read_clock(rt);
        let length = self.pace.length();
        let (due, next) = self.pace.end_turn();
        self.counts.timing.note_next(due, next, length);
        let took = self.pace.now.saturating_sub(began);
        self.counts.timing.note_turn(lateness, took);
        self.reports
            .say_counts(rt, alloc, &mut self.pace, &mut self.counts, party)?;
        if self.pace.takes_retry() && self.unkept > 0 {
            self.shelf.retry();
        }
        Ok(())
    }

    /// Whether chapters are to be handed on at once: where turns are made on demand, after each turn while chapters
    /// wait to be kept, and where one was handed out.
    pub(crate) fn is_chapter_waiting(&mut self, party: &Party, out: &Outboxes) -> bool {
        if self.rules.is_paced {
            return false;
        }
        let ticks = party.fleet.session.world.clock();
        let is_turned = ticks != self.ticks;
        self.ticks = ticks;
        if is_turned && self.unkept > 0 {
            self.shelf.retry();
            return true;
        }
        !out.chapters.is_empty()
    }

    /// Whether the chapter may be handed out before it is full: it has an entry, is not the last, and none before it
    /// waits to be kept.
    fn may_hand_out(&self, party: &Party) -> bool {
        let world = &party.fleet.session.world;
        let chapter = world.chapter();
        !chapter.entries.is_empty()
            && chapter.number.saturating_add(1) < world.core.limits().chapters
            && self.unkept == 0
            && self.shelf.is_answered()
    }

    /// What is due by the clock, which was just read.
    pub(crate) fn timed<R: Wait>(
        &mut self,
        rt: &R,
        alloc: Global,
        party: &Party,
    ) -> Result<Option<Asked>, AllocError> {
        if self.pace.takes_figures() {
            let standing = self.shelf.standing(rt);
            self.reports
                .show(rt, alloc, (&self.pace, &self.counts), party, standing)?;
        }
        if self.pace.is_turn_due() {
            let lateness = self.pace.lateness(self.pace.now);
            self.counts.note_lateness(lateness, self.pace.length());
            self.turn = Some(self.pace.now);
            return Ok(Some(Asked::Turn));
        }
        if self.pace.takes_chapter() && self.may_hand_out(party) {
            return Ok(Some(Asked::Due));
        }
        Ok(None)
    }

    /// The chapter for which the first conversation waits, if it was kept or waits to be.
    pub(crate) fn kept<R: Wait>(&self, rt: &R, party: &Party) -> Option<Asked> {
        match &party.speakers.first()?.rest {
            Rest::Keeping { chapter, .. } if self.shelf.standing(rt).last >= Some(*chapter) => {
                Some(Asked::Kept(*chapter))
            }
            _ => None,
        }
    }

    /// What comes before lines.
    pub(crate) fn urgent<R: Clock + Wait>(
        &mut self,
        rt: &R,
        alloc: Global,
        party: &Party,
    ) -> Result<Option<Asked>, AllocError> {
        if let Some(asked) = self.kept(rt, party) {
            return Ok(Some(asked));
        }
        if self.counts.size.is_full(self.rules.chapter_bytes) && self.may_hand_out(party) {
            return Ok(Some(Asked::Due));
        }
        if self.pace.is_timed() && self.batch.is_timing_due() {
            self.read_clock(rt);
            return self.timed(rt, alloc, party);
        }
        Ok(None)
    }
}
