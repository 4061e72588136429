//! What is done at a line.

ghost use Rattle.std.specs.Prelude.{◌≡◌, ◌≤◌, ◌<◌, true, List, Some, OnOk, slice_get, vec_len};
ghost use Rattle.fleet_talk.specs.Said.{under};
ghost use Rattle.fleet_talk.specs.Says.{marked};
ghost use Rattle.fleet_talk.specs.Lines.{line_shown};
ghost use Rattle.fleet_text.specs.Answers.{no_room_line};
ghost use Rattle.fleet_text.specs.Output.{no_client_line};
ghost use Rattle.live_parts.specs.declared.demand.Demand.TheVariants.{Bad, Watch};
ghost use Rattle.live_fleet.specs.declared.speaker.Speaker.{Speaker};
ghost use Rattle.live_fleet.specs.Act.{Act};
ghost use Rattle.live_fleet.specs.Answering.{Answers};
ghost use Rattle.live_fleet.specs.Hearing.{HearsLine, HearsNoRoom, HearsOpen, HearsPost, Obeys, Opens, next_number, numbered};
ghost use Rattle.live_fleet.specs.Own.{is_own};
ghost use Rattle.live_fleet.specs.Party.{IsDoorOf, IsWhole, stage_of};
ghost use Rattle.live_fleet.specs.Posting.{Posts, SettlesAll};

use crate::answering::answer;
use crate::line::Place;
use crate::listing::begin_listing;
use crate::outboxes::Outboxes;
use crate::party::Party;
use crate::posting::post_answered;
use crate::speaker::Speaker;
use crate::turning::settle;
use fleet_book::Order;
use fleet_talk::line_let_in;
use fleet_text::{bad_line, no_client_line, no_room_line, watch_line};
use live_parts::{Demand, demand_of};
use std::alloc::{Alloc, AllocError, Global};

/// Counts a line, and returns its number.
fn next_line(speaker: &mut Speaker) -> u64
    ensures number { result ≡ next_number speaker.old.lines }
    ensures counts { speaker.new ≡ numbered speaker.old }
{
    speaker.lines = speaker.lines.saturating_add(1);
    speaker.lines
}

impl Party {
    /// Says an answer to a line.
    pub(crate) fn say(
        &mut self,
        alloc: Global,
        out: &mut Outboxes,
        place: Place<'_>,
        text: &str,
    ) -> Result<(), AllocError>
        requires number { 0 ≤ self.old.fleet.session.world.core.number }
        requires there { place.to < vec_len self.old.speakers }
        requires texts { vec_len self.old.speakers ≤ vec_len out.old.texts }
        ensures ok { OnOk result ((sp : Speaker) → slice_get self.old.speakers.items place.entry.to ≡ Some sp →
            (acts : List Act) × Answers place.entry.to sp (marked (under place.entry.line.mark) text.now) (stage_of self.old out.old) acts (stage_of self.new out.new)) }
        ensures speakers { vec_len self.new.speakers ≡ vec_len self.old.speakers }
        ensures count { vec_len out.new.texts ≡ vec_len out.old.texts }
    {
        let Place { to, line } = place;
        answer(alloc, out, &mut self.speakers[to], to, line.mark, text)
    }

    /// Judges the orders that wait, and tells what became of them.
    fn settle<R: Alloc<A = Global>>(&mut self, rt: &R, out: &mut Outboxes) -> Result<(), AllocError>
        requires number { 0 ≤ self.old.fleet.session.world.core.number }
        requires texts { vec_len self.old.speakers ≤ vec_len out.old.texts }
        ensures ok { OnOk result ((acts : List Act) × SettlesAll (stage_of self.old out.old) acts (stage_of self.new out.new)) }
        ensures speakers { self.new.speakers ≡ self.old.speakers }
    {
        settle(rt, &mut self.fleet, out, &self.speakers, self.clients)
    }

    /// Whether a conversation speaks for a client that there is.
    pub(crate) fn is_own(&self, to: usize, client: u32) -> bool
        requires { to < vec_len self.now.speakers }
        ensures own { (sp : Speaker) → slice_get self.now.speakers.items to ≡ Some sp → result ≡ is_own sp.clients self.now.clients client }
        ensures there { result ≡ true → client < self.now.clients }
    {
        self.speakers[to].clients.has(client) && client < self.clients
    }

    /// Answers that there is no such client here.
    pub(crate) fn refuse_client(
        &mut self,
        alloc: Global,
        out: &mut Outboxes,
        place: Place<'_>,
        client: u32,
    ) -> Result<(), AllocError>
        requires number { 0 ≤ self.old.fleet.session.world.core.number }
        requires there { place.to < vec_len self.old.speakers }
        requires texts { vec_len self.old.speakers ≤ vec_len out.old.texts }
        ensures ok { OnOk result ((sp : Speaker) → slice_get self.old.speakers.items place.entry.to ≡ Some sp →
            (acts : List Act) × Answers place.entry.to sp (marked (under place.entry.line.mark) (no_client_line client)) (stage_of self.old out.old) acts (stage_of self.new out.new)) }
    {
        let text = no_client_line(alloc, client)?;
        self.say(alloc, out, place, text.as_str())
    }

    /// Posts an order of a client, answers, and judges it.
    pub(crate) fn post<R: Alloc<A = Global>>(
        &mut self,
        rt: &R,
        out: &mut Outboxes,
        place: Place<'_>,
        client: u32,
        order: Order,
    ) -> Result<(), AllocError>
        requires number { 0 ≤ self.old.fleet.session.world.core.number }
        requires there { place.to < vec_len self.old.speakers }
        requires texts { vec_len self.old.speakers ≤ vec_len out.old.texts }
        requires client { client < self.old.clients }
        requires whole { IsWhole (stage_of self.old out.old) }
        ensures ok { OnOk result ((sp : Speaker) → slice_get self.old.speakers.items place.entry.to ≡ Some sp →
            (acts : List Act) × Posts place.entry.to sp (under place.entry.line.mark) client order (stage_of self.old out.old) acts (stage_of self.new out.new)) }
    {
        let note = &mut self.notes[client as usize];
        let (text, posted) = post_answered(rt, &mut self.fleet.session, note, client, order)?;
        self.say(rt.alloc(), out, place, text.as_str())?;
        if !posted {
            return Ok(());
        }
        self.settle(rt, out)
    }

    /// Hears a post.
    fn hear_post<R: Alloc<A = Global>>(
        &mut self,
        rt: &R,
        out: &mut Outboxes,
        place: Place<'_>,
        client: u32,
        order: Order,
    ) -> Result<(), AllocError>
        requires number { 0 ≤ self.old.fleet.session.world.core.number }
        requires there { place.to < vec_len self.old.speakers }
        requires texts { vec_len self.old.speakers ≤ vec_len out.old.texts }
        requires whole { IsWhole (stage_of self.old out.old) }
        ensures ok { OnOk result ((sp : Speaker) → slice_get self.old.speakers.items place.entry.to ≡ Some sp →
            (acts : List Act) × HearsPost place.entry.to sp (under place.entry.line.mark) client order (stage_of self.old out.old) acts (stage_of self.new out.new)) }
    {
        if !self.is_own(place.to, client) {
            return self.refuse_client(rt.alloc(), out, place, client);
        }
        self.post(rt, out, place, client, order)
    }

    /// Hears a post to a cell to which posts are refused.
    fn hear_no_room(
        &mut self,
        alloc: Global,
        out: &mut Outboxes,
        place: Place<'_>,
        client: u32,
    ) -> Result<(), AllocError>
        requires number { 0 ≤ self.old.fleet.session.world.core.number }
        requires there { place.to < vec_len self.old.speakers }
        requires texts { vec_len self.old.speakers ≤ vec_len out.old.texts }
        ensures ok { OnOk result ((sp : Speaker) → slice_get self.old.speakers.items place.entry.to ≡ Some sp →
            (acts : List Act) × HearsNoRoom place.entry.to sp (under place.entry.line.mark) client (stage_of self.old out.old) acts (stage_of self.new out.new)) }
    {
        if !self.is_own(place.to, client) {
            return self.refuse_client(alloc, out, place, client);
        }
        let text = no_room_line(alloc, client)?;
        self.say(alloc, out, place, text.as_str())
    }

    /// Judges the orders that wait, and begins to list the open errands of a client.
    fn open<R: Alloc<A = Global>>(
        &mut self,
        rt: &R,
        out: &mut Outboxes,
        place: Place<'_>,
        client: u32,
    ) -> Result<(), AllocError>
        requires number { 0 ≤ self.old.fleet.session.world.core.number }
        requires there { place.to < vec_len self.old.speakers }
        requires texts { vec_len self.old.speakers ≤ vec_len out.old.texts }
        ensures ok { OnOk result ((sp : Speaker) → slice_get self.old.speakers.items place.entry.to ≡ Some sp →
            (acts : List Act) × Opens place.entry.to sp (under place.entry.line.mark) client (stage_of self.old out.old) acts (stage_of self.new out.new)) }
    {
        self.settle(rt, out)?;
        let rest = begin_listing(rt.alloc(), &self.fleet.session, place.line.mark, client)?;
        self.speakers[place.to].rest = rest;
        Ok(())
    }

    /// Hears that a client's open errands are to be listed.
    fn hear_open<R: Alloc<A = Global>>(
        &mut self,
        rt: &R,
        out: &mut Outboxes,
        place: Place<'_>,
        client: u32,
    ) -> Result<(), AllocError>
        requires number { 0 ≤ self.old.fleet.session.world.core.number }
        requires there { place.to < vec_len self.old.speakers }
        requires texts { vec_len self.old.speakers ≤ vec_len out.old.texts }
        ensures ok { OnOk result ((sp : Speaker) → slice_get self.old.speakers.items place.entry.to ≡ Some sp →
            (acts : List Act) × HearsOpen place.entry.to sp (under place.entry.line.mark) client (stage_of self.old out.old) acts (stage_of self.new out.new)) }
    {
        if !self.is_own(place.to, client) {
            return self.refuse_client(rt.alloc(), out, place, client);
        }
        self.open(rt, out, place, client)
    }

    /// Watches from now on, or not.
    fn hear_watch(
        &mut self,
        alloc: Global,
        out: &mut Outboxes,
        place: Place<'_>,
        on: bool,
    ) -> Result<(), AllocError>
        requires number { 0 ≤ self.old.fleet.session.world.core.number }
        requires there { place.to < vec_len self.old.speakers }
        requires texts { vec_len self.old.speakers ≤ vec_len out.old.texts }
        ensures ok { OnOk result ((sp : Speaker) → slice_get self.old.speakers.items place.entry.to ≡ Some sp →
            (acts : List Act) × Obeys place.entry.to sp (line_shown place.entry.line) (Watch on) (stage_of self.old out.old) acts (stage_of self.new out.new)) }
    {
        self.speakers[place.to].watching = on;
        self.say(alloc, out, place, watch_line(on))
    }

    /// Answers that it is no line of this conversation.
    fn hear_bad(
        &mut self,
        alloc: Global,
        out: &mut Outboxes,
        place: Place<'_>,
    ) -> Result<(), AllocError>
        requires number { 0 ≤ self.old.fleet.session.world.core.number }
        requires there { place.to < vec_len self.old.speakers }
        requires texts { vec_len self.old.speakers ≤ vec_len out.old.texts }
        ensures ok { OnOk result ((sp : Speaker) → slice_get self.old.speakers.items place.entry.to ≡ Some sp →
            (acts : List Act) × Obeys place.entry.to sp (line_shown place.entry.line) Bad (stage_of self.old out.old) acts (stage_of self.new out.new)) }
    {
        let text = bad_line(alloc, place.line.number)?;
        self.say(alloc, out, place, text.as_str())
    }

    /// Does what a line asks.
    fn obey<R: Alloc<A = Global>>(
        &mut self,
        rt: &R,
        out: &mut Outboxes,
        place: Place<'_>,
        demand: Demand,
    ) -> Result<(), AllocError>
        requires number { 0 ≤ self.old.fleet.session.world.core.number }
        requires there { place.to < vec_len self.old.speakers }
        requires texts { vec_len self.old.speakers ≤ vec_len out.old.texts }
        requires whole { IsWhole (stage_of self.old out.old) }
        requires door { IsDoorOf (stage_of self.old out.old) }
        ensures ok { OnOk result ((sp : Speaker) → slice_get self.old.speakers.items place.entry.to ≡ Some sp →
            (acts : List Act) × Obeys place.entry.to sp (line_shown place.entry.line) demand (stage_of self.old out.old) acts (stage_of self.new out.new)) }
    {
        match demand {
            Demand::Nothing => Ok(()),
            Demand::Post(client, order) => self.hear_post(rt, out, place, client, order),
            Demand::PostAs(post) => self.hear_post_as(rt, out, place, post),
            Demand::NoRoom(client) => self.hear_no_room(rt.alloc(), out, place, client),
            Demand::Open(client) => self.hear_open(rt, out, place, client),
            Demand::Session(client) => self.hear_session(rt.alloc(), out, place, client),
            Demand::Since(client, seq) => self.hear_since(rt.alloc(), out, place, client, seq),
            Demand::Hello => self.hear_hello(rt.alloc(), out, place),
            Demand::Robots => self.hear_robots(rt.alloc(), out, place),
            Demand::Ask(wanted) => self.ask(rt, out, place, wanted),
            Demand::Watch(on) => self.hear_watch(rt.alloc(), out, place, on),
            Demand::Quit => self.end(rt, out),
            Demand::Bad => self.hear_bad(rt.alloc(), out, place),
        }
    }

    /// Hears a line of a conversation.
    pub(crate) fn hear_line<R: Alloc<A = Global>>(
        &mut self,
        rt: &R,
        out: &mut Outboxes,
        from: usize,
        bytes: &[u8],
    ) -> Result<(), AllocError>
        requires number { 0 ≤ self.old.fleet.session.world.core.number }
        requires there { from < vec_len self.old.speakers }
        requires texts { vec_len self.old.speakers ≤ vec_len out.old.texts }
        requires whole { IsWhole (stage_of self.old out.old) }
        requires door { IsDoorOf (stage_of self.old out.old) }
        ensures ok { OnOk result ((acts : List Act) × HearsLine from bytes.now (stage_of self.old out.old) acts (stage_of self.new out.new)) }
    {
        let speaker = &mut self.speakers[from];
        let number = next_line(speaker);
        let rights = speaker.rights;
        let line = line_let_in(&self.door.refused, number, bytes);
        let demand = demand_of(rights, line);
        self.obey(rt, out, Place { to: from, line }, demand)
    }
}
