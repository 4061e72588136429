//! How what is left of answers goes on.

ghost use Rattle.std.specs.Prelude.{◌≡◌, ◌≤◌, ◌<◌, ℕ, false, List, None, Option, Some, Vec, OnOk, slice_get, vec_len};
ghost use Rattle.std.specs.declared.alloc.Global.{Global};
ghost use Rattle.fleet_talk.specs.Says.{marked};
ghost use Rattle.live_fleet.specs.declared.rest.Rest.TheVariants.{Ending, Ticking};
ghost use Rattle.live_fleet.specs.declared.speaker.Speaker.{Speaker};
ghost use Rattle.live_fleet.specs.Act.{Act};
ghost use Rattle.live_fleet.specs.Answering.{Answers, mark_kept};
ghost use Rattle.live_fleet.specs.Open.{is_ending, turns_left};
ghost use Rattle.live_fleet.specs.Party.{stage_of};
ghost use Rattle.live_fleet.specs.Resting.{Continues, GoesOn, GoesOnce, Hastens, NotesKept, ShowsOn, TellsRest, TicksOnce, goes_on};
ghost use Rattle.live_fleet.specs.Turning.{tick_answer};
ghost use Rattle.fleet_world.specs.Keeps.{talk};

use crate::answering::{answer, mark_in};
use crate::ending::end_answer;
use crate::outboxes::Outboxes;
use crate::party::Party;
use crate::rest::Rest;
use crate::resting::{hasten, note_kept_of, say_on, set_left, take_mark};
use crate::telling::tell_clients;
use crate::turning::{is_ticked, say_if_room, show_tick, tick_answer, turn};
use fleet_text::ended_line;
use fleet_world::Reply;
use std::alloc::{Alloc, AllocError, Global};

/// Whether a turn was made, and others are to follow.
fn goes_on(reply: Reply, left: u32) -> bool
    ensures { result ≡ goes_on reply left }
{
    is_ticked(reply) && left > 1
}

impl Party {
    /// Shows a turn after which others are to be made for a conversation.
    fn show_turn(
        &mut self,
        alloc: Global,
        out: &mut Outboxes,
        to: usize,
        left: u32,
    ) -> Result<(), AllocError>
        requires number { 0 ≤ self.old.fleet.session.world.core.number }
        requires there { to < vec_len self.old.speakers }
        requires texts { vec_len self.old.speakers ≤ vec_len out.old.texts }
        ensures ok { OnOk result ((sp : Speaker) (mark : Option (Vec ℕ Global)) (before : ℕ) → slice_get self.old.speakers.items to ≡ Some sp → sp.rest ≡ Ticking mark before →
            (acts : List Act) × ShowsOn to sp mark left (stage_of self.old out.old) acts (stage_of self.new out.new)) }
        ensures speakers { vec_len self.new.speakers ≡ vec_len self.old.speakers }
    {
        show_tick(alloc, &self.fleet, out, &self.speakers)?;
        set_left(&mut self.speakers[to], left);
        Ok(())
    }

    /// Answers after the last of the turns that were made for a conversation.
    fn answer_ticks(
        &mut self,
        alloc: Global,
        out: &mut Outboxes,
        to: usize,
        reply: Reply,
    ) -> Result<(), AllocError>
        requires number { 0 ≤ self.old.fleet.session.world.core.number }
        requires there { to < vec_len self.old.speakers }
        requires texts { vec_len self.old.speakers ≤ vec_len out.old.texts }
        ensures ok { OnOk result ((sp : Speaker) (mark : Option (Vec ℕ Global)) (before : ℕ) → slice_get self.old.speakers.items to ≡ Some sp → sp.rest ≡ Ticking mark before →
            (acts : List Act) × Answers to sp (marked (mark_kept mark) (tick_answer (talk self.old.fleet.session) reply)) (stage_of self.old out.old) acts (stage_of self.new out.new)) }
        ensures speakers { vec_len self.new.speakers ≡ vec_len self.old.speakers }
    {
        let text = tick_answer(alloc, &self.fleet.session, reply)?;
        let speaker = &mut self.speakers[to];
        let mark = take_mark(speaker);
        answer(alloc, out, speaker, to, mark_in(&mark), text.as_str())
    }

    /// Makes a turn for a conversation that asked for several, and answers after the last.
    fn tick_on<R: Alloc<A = Global>>(
        &mut self,
        rt: &R,
        out: &mut Outboxes,
        to: usize,
        left: u32,
    ) -> Result<(), AllocError>
        requires number { 0 ≤ self.old.fleet.session.world.core.number }
        requires there { to < vec_len self.old.speakers }
        requires texts { vec_len self.old.speakers ≤ vec_len out.old.texts }
        ensures ok { OnOk result ((sp : Speaker) (mark : Option (Vec ℕ Global)) → slice_get self.old.speakers.items to ≡ Some sp → sp.rest ≡ Ticking mark left →
            (acts : List Act) × TicksOnce to sp mark left (stage_of self.old out.old) acts (stage_of self.new out.new)) }
        ensures speakers { vec_len self.new.speakers ≡ vec_len self.old.speakers }
    {
        let reply = turn(rt, &mut self.fleet, out, &self.speakers, self.clients)?;
        if goes_on(reply, left) {
            return self.show_turn(rt.alloc(), out, to, left - 1);
        }
        self.answer_ticks(rt.alloc(), out, to, reply)
    }

    /// Tells what is left for a conversation, and once that was all, that the fleet ended.
    fn tell_left<R: Alloc<A = Global>>(
        &mut self,
        rt: &R,
        out: &mut Outboxes,
        to: usize,
    ) -> Result<(), AllocError>
        requires number { 0 ≤ self.old.fleet.session.world.core.number }
        requires there { to < vec_len self.old.speakers }
        requires texts { vec_len self.old.speakers ≤ vec_len out.old.texts }
        ensures ok { OnOk result ((sp : Speaker) → slice_get self.old.speakers.items to ≡ Some sp →
            (acts : List Act) × TellsRest to sp (stage_of self.old out.old) acts (stage_of self.new out.new)) }
        ensures speakers { vec_len self.new.speakers ≡ vec_len self.old.speakers }
    {
        let clients = self.speakers[to].clients;
        if !tell_clients(rt, &mut self.fleet, out, to, clients)? {
            return Ok(());
        }
        let line = ended_line(rt.alloc(), self.fleet.session.world.clock())?;
        if !say_if_room(out, to, line.as_bytes())? {
            return Ok(());
        }
        self.speakers[to].rest = Rest::Ended;
        Ok(())
    }

    /// Goes on with an answer of which nothing but text is left.
    fn say_left(&mut self, alloc: Global, out: &mut Outboxes, to: usize) -> Result<(), AllocError>
        requires number { 0 ≤ self.old.fleet.session.world.core.number }
        requires there { to < vec_len self.old.speakers }
        requires texts { vec_len self.old.speakers ≤ vec_len out.old.texts }
        ensures ok { OnOk result ((sp : Speaker) → slice_get self.old.speakers.items to ≡ Some sp → turns_left sp.rest ≡ None → is_ending sp.rest ≡ false →
            (acts : List Act) × Continues sp.rest to sp (stage_of self.old out.old) acts (stage_of self.new out.new)) }
        ensures speakers { vec_len self.new.speakers ≡ vec_len self.old.speakers }
    {
        say_on(alloc, out, to, &mut self.speakers[to])
    }

    /// Makes one turn for a conversation, or says one line of its answer.
    fn go_once<R: Alloc<A = Global>>(
        &mut self,
        rt: &R,
        out: &mut Outboxes,
        from: usize,
    ) -> Result<(), AllocError>
        requires number { 0 ≤ self.old.fleet.session.world.core.number }
        requires there { from < vec_len self.old.speakers }
        requires texts { vec_len self.old.speakers ≤ vec_len out.old.texts }
        ensures ok { OnOk result ((acts : List Act) × GoesOnce from (stage_of self.old out.old) acts (stage_of self.new out.new)) }
        ensures speakers { vec_len self.new.speakers ≡ vec_len self.old.speakers }
    {
        if let Some(left) = self.speakers[from].rest.turns_left() {
            return self.tick_on(rt, out, from, left);
        }
        if self.speakers[from].rest.is_ending() {
            return self.tell_left(rt, out, from);
        }
        self.say_left(rt.alloc(), out, from)
    }

    /// Goes on with what is left of a conversation's answer: makes one turn, or says one line.
    pub(crate) fn go_on<R: Alloc<A = Global>>(
        &mut self,
        rt: &R,
        out: &mut Outboxes,
        from: usize,
    ) -> Result<(), AllocError>
        requires number { 0 ≤ self.old.fleet.session.world.core.number }
        requires there { from < vec_len self.old.speakers }
        requires texts { vec_len self.old.speakers ≤ vec_len out.old.texts }
        ensures ok { OnOk result ((acts : List Act) × GoesOn from (stage_of self.old out.old) acts (stage_of self.new out.new)) }
    {
        self.go_once(rt, out, from)?;
        if self.has_ended {
            end_answer(&mut self.speakers[from]);
        }
        Ok(())
    }

    /// Lets no more than one be made of the turns that are left for a conversation.
    pub(crate) fn hasten(&mut self, from: usize, out: &Outboxes)
        requires there { from < vec_len self.old.speakers }
        ensures { Hastens from (stage_of self.old out.now) (stage_of self.new out.now) }
    {
        // It is read by the contract alone.
        let _out = out;
        hasten(&mut self.speakers[from]);
    }

    /// Answers those that wait until this chapter is kept.
    pub(crate) fn note_kept(
        &mut self,
        alloc: Global,
        out: &mut Outboxes,
        number: u32,
    ) -> Result<(), AllocError>
        requires number { 0 ≤ self.old.fleet.session.world.core.number }
        requires texts { vec_len self.old.speakers ≤ vec_len out.old.texts }
        ensures ok { OnOk result ((acts : List Act) × NotesKept number (stage_of self.old out.old) acts (stage_of self.new out.new)) }
    {
        for to in 0..self.speakers.len() {
            note_kept_of(alloc, out, to, &mut self.speakers[to], number)?;
        }
        Ok(())
    }
}
