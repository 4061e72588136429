//! Posts that count only as an order of one number: so a client may post again what may have been heard.

ghost use Rattle.std.specs.Prelude.{◌≡◌, ◌≤◌, ◌<◌, ◌==◌, IfOk, List, OnOk, Some, slice_get, string_bytes, vec_len};
ghost use Rattle.fleet_talk.specs.Said.{under};
ghost use Rattle.live_fleet.specs.declared.speaker.Speaker.{Speaker};
ghost use Rattle.live_fleet.specs.Act.{Act};
ghost use Rattle.live_fleet.specs.Numbered.{HearsPostAs, PostsAs, PostsLetIn, RefusesCell, RefusesNumber, is_let_in, next_order, not_next_line};
ghost use Rattle.live_fleet.specs.Party.{IsWhole, stage_of};

use crate::line::Place;
use crate::notes::Note;
use crate::outboxes::Outboxes;
use crate::party::Party;
use crate::sessions::note_at;
use fleet_book::Order;
use fleet_roomy::UnroomyCells;
use fleet_text::no_room_line;
use live_parts::Numbered;
use std::alloc::{Alloc, AllocError, Global};

/// The number that a client's next order has.
fn next_order(notes: &[Note], client: u32) -> u64
    ensures { result ≡ next_order notes.now client }
{
    note_at(notes, client).last.saturating_add(1)
}

/// Whether that is the number of the client's next order.
fn is_next(notes: &[Note], client: u32, number: u64) -> bool
    ensures { result ≡ (next_order notes.now client == number) }
{
    next_order(notes, client) == number
}

/// Whether an order is none to a cell to which posts are refused.
fn is_let_in(cells: &UnroomyCells, order: Order) -> bool
    ensures { result ≡ is_let_in cells.now.marks.items order }
{
    match order {
        Order::Go { robot: _, cell } => !cells.has(cell),
        Order::Close | Order::Withdraw { .. } => true,
    }
}

/// The answer to a post whose number is not the one of its client's next order, which is this.
fn not_next_line(alloc: Global, client: u32, next: u64) -> Result<String, AllocError>
    ensures { IfOk result (λ text. string_bytes text ≡ not_next_line client next) }
{
    format!(in alloc; "post-refused {client} 4 next {next}\n")
}

impl Party {
    /// Answers that an order is not its client's next one.
    fn refuse_number(
        &mut self,
        alloc: Global,
        out: &mut Outboxes,
        place: Place<'_>,
        client: u32,
    ) -> Result<(), AllocError>
        requires number { 0 ≤ self.old.fleet.session.world.core.number }
        requires there { place.to < vec_len self.old.speakers }
        requires texts { vec_len self.old.speakers ≤ vec_len out.old.texts }
        ensures ok { OnOk result ((sp : Speaker) → slice_get self.old.speakers.items place.entry.to ≡ Some sp →
            (acts : List Act) × RefusesNumber place.entry.to sp (under place.entry.line.mark) client (stage_of self.old out.old) acts (stage_of self.new out.new)) }
    {
        let next = next_order(&self.notes, client);
        let text = not_next_line(alloc, client, next)?;
        self.say(alloc, out, place, text.as_str())
    }

    /// Answers that posts to this cell are refused.
    pub(crate) fn refuse_cell(
        &mut self,
        alloc: Global,
        out: &mut Outboxes,
        place: Place<'_>,
        client: u32,
    ) -> Result<(), AllocError>
        requires number { 0 ≤ self.old.fleet.session.world.core.number }
        requires there { place.to < vec_len self.old.speakers }
        requires texts { vec_len self.old.speakers ≤ vec_len out.old.texts }
        ensures ok { OnOk result ((sp : Speaker) → slice_get self.old.speakers.items place.entry.to ≡ Some sp →
            (acts : List Act) × RefusesCell place.entry.to sp (under place.entry.line.mark) client (stage_of self.old out.old) acts (stage_of self.new out.new)) }
    {
        let text = no_room_line(alloc, client)?;
        self.say(alloc, out, place, text.as_str())
    }

    /// Posts an order of a client if posts to its cell are not refused.
    fn post_let_in<R: Alloc<A = Global>>(
        &mut self,
        rt: &R,
        out: &mut Outboxes,
        place: Place<'_>,
        client: u32,
        order: Order,
    ) -> Result<(), AllocError>
        requires number { 0 ≤ self.old.fleet.session.world.core.number }
        requires there { place.to < vec_len self.old.speakers }
        requires texts { vec_len self.old.speakers ≤ vec_len out.old.texts }
        requires client { client < self.old.clients }
        requires whole { IsWhole (stage_of self.old out.old) }
        ensures ok { OnOk result ((sp : Speaker) → slice_get self.old.speakers.items place.entry.to ≡ Some sp →
            (acts : List Act) × PostsLetIn place.entry.to sp (under place.entry.line.mark) client order (stage_of self.old out.old) acts (stage_of self.new out.new)) }
    {
        if !is_let_in(&self.door.refused, order) {
            return self.refuse_cell(rt.alloc(), out, place, client);
        }
        self.post(rt, out, place, client, order)
    }

    /// Posts an order of a client if its number is the next.
    fn post_as<R: Alloc<A = Global>>(
        &mut self,
        rt: &R,
        out: &mut Outboxes,
        place: Place<'_>,
        post: Numbered,
    ) -> Result<(), AllocError>
        requires number { 0 ≤ self.old.fleet.session.world.core.number }
        requires there { place.to < vec_len self.old.speakers }
        requires texts { vec_len self.old.speakers ≤ vec_len out.old.texts }
        requires client { post.client < self.old.clients }
        requires whole { IsWhole (stage_of self.old out.old) }
        ensures ok { OnOk result ((sp : Speaker) → slice_get self.old.speakers.items place.entry.to ≡ Some sp →
            (acts : List Act) × PostsAs place.entry.to sp (under place.entry.line.mark) post (stage_of self.old out.old) acts (stage_of self.new out.new)) }
    {
        if !is_next(&self.notes, post.client, post.number) {
            return self.refuse_number(rt.alloc(), out, place, post.client);
        }
        self.post_let_in(rt, out, place, post.client, post.order)
    }

    /// Hears a post that counts only as the order of this number of its client.
    pub(crate) fn hear_post_as<R: Alloc<A = Global>>(
        &mut self,
        rt: &R,
        out: &mut Outboxes,
        place: Place<'_>,
        post: Numbered,
    ) -> Result<(), AllocError>
        requires number { 0 ≤ self.old.fleet.session.world.core.number }
        requires there { place.to < vec_len self.old.speakers }
        requires texts { vec_len self.old.speakers ≤ vec_len out.old.texts }
        requires whole { IsWhole (stage_of self.old out.old) }
        ensures ok { OnOk result ((sp : Speaker) → slice_get self.old.speakers.items place.entry.to ≡ Some sp →
            (acts : List Act) × HearsPostAs place.entry.to sp (under place.entry.line.mark) post (stage_of self.old out.old) acts (stage_of self.new out.new)) }
    {
        if !self.is_own(place.to, post.client) {
            return self.refuse_client(rt.alloc(), out, place, post.client);
        }
        self.post_as(rt, out, place, post)
    }
}
