//! Which conversation is heard next.

use crate::ends::Asked;
use crate::place::{has_much_room, has_room, is_full, waiting};
use crate::source::Source;
use live_fleet::{Outboxes, Party, Rest};
use std::alloc::AllocError;
use std::sync::Wait;

/// How many turns of a `tick` are made although `quit` was read after it. So what a conversation is told does not
/// depend on when its `quit` was read, if no `tick` asks for more.
const SURE_TURNS: u64 = 65_536;

impl Source {
    /// If a line that ends the fleet was read, or no more lines come, the first conversation no longer waits for room.
    /// Returns whether that is new.
    pub(crate) fn hurry<R: Wait>(&mut self, rt: &R, party: &Party) -> Result<bool, AllocError> {
        let ended = self.end_of_first(rt).is_some();
        let (Some(place), Some(speaker)) = (self.places.first_mut(), party.speakers.first()) else {
            return Ok(false);
        };
        if place.link.hurries() || !(ended || place.lines.has_quit(rt, speaker.rights)?) {
            return Ok(false);
        }
        place.link.hurry();
        Ok(true)
    }

    /// The next turn of those that a line asked for.
    fn next_tick<R: Wait>(
        &mut self,
        rt: &R,
        party: &Party,
        from: usize,
        left: u32,
    ) -> Result<Option<Asked>, AllocError> {
        let (Some(place), Some(speaker)) = (self.places.get_mut(from), party.speakers.get(from))
        else {
            return Ok(None);
        };
        let made = party
            .fleet
            .session
            .world
            .clock()
            .saturating_sub(self.first_tick);
        if left > 1
            && made.saturating_add(1) >= SURE_TURNS
            && place.lines.has_quit(rt, speaker.rights)?
        {
            return Ok(Some(Asked::Last(from)));
        }
        Ok(Some(Asked::Rest(from)))
    }

    /// The next line of a client's conversation, if there is one.
    fn next_of_client<R: Wait>(
        &mut self,
        rt: &R,
        from: usize,
        line: &mut Vec<u8>,
    ) -> Result<Option<Asked>, AllocError> {
        let Some(place) = self.places.get_mut(from) else {
            return Ok(None);
        };
        if place.link.is_gone() || !place.lines.take(rt, line)? {
            return Ok(None);
        }
        Ok(Some(Asked::Line(from)))
    }

    /// The next line of the first conversation, if there is one, or its end.
    fn next_of_first<R: Wait>(
        &mut self,
        rt: &R,
        party: &Party,
        line: &mut Vec<u8>,
    ) -> Result<Option<Asked>, AllocError> {
        // Before a look at the ring: if the reader has ended, all its lines are there.
        let ended = self.end_of_first(rt);
        self.first_tick = party.fleet.session.world.clock();
        if let Some(place) = self.places.first_mut() {
            if place.lines.take(rt, line)? {
                return Ok(Some(Asked::Line(0)));
            }
        }
        self.stop = ended;
        match ended {
            Some(_) => Ok(Some(Asked::End)),
            None => Ok(None),
        }
    }

    /// What is to be heard next of a conversation.
    fn next_of<R: Wait>(
        &mut self,
        rt: &R,
        party: &Party,
        out: &Outboxes,
        from: usize,
        line: &mut Vec<u8>,
    ) -> Result<Option<Asked>, AllocError> {
        let (Some(place), Some(speaker)) = (self.places.get_mut(from), party.speakers.get(from))
        else {
            return Ok(None);
        };
        if place.takes_held(waiting(out, from)) {
            return Ok(Some(Asked::Room(from)));
        }
        if place.is_held() || is_full(out, from) || !has_room(out, from, &speaker.rest) {
            return Ok(None);
        }
        match &speaker.rest {
            Rest::Nothing if from == 0 => self.next_of_first(rt, party, line),
            Rest::Nothing => self.next_of_client(rt, from, line),
            Rest::Line(_) | Rest::Listing(_) => Ok(Some(Asked::Rest(from))),
            Rest::Ticking { left, .. } if has_much_room(out, from) => {
                self.next_tick(rt, party, from, *left)
            }
            _ => Ok(None),
        }
    }

    /// What is to be heard next of all conversations, one after another.
    pub(crate) fn next_line<R: Wait>(
        &mut self,
        rt: &R,
        party: &Party,
        out: &Outboxes,
        line: &mut Vec<u8>,
    ) -> Result<Option<Asked>, AllocError> {
        for _place in 0..=self.places.len() {
            if self.batch.has_room() {
                let from = self.batch.at;
                if let Some(asked) = self.next_of(rt, party, out, from, line)? {
                    self.batch.count();
                    return Ok(Some(asked));
                }
            }
            self.batch.go_on(self.places.len());
        }
        Ok(None)
    }
}
