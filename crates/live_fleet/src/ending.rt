//! How a fleet ends.

ghost use Rattle.std.specs.Prelude.{◌≡◌, ◌≤◌, ◌<◌, List, IfOk, OnOk, map, vec_len};
ghost use Rattle.std.specs.List.{range_with_len};
ghost use Rattle.fleet_core.specs.Core.{HasNoRoom, widened};
ghost use Rattle.fleet_history.specs.History.{clients};
ghost use Rattle.fleet_world.specs.Keeps.{talk};
ghost use Rattle.fleet_world.specs.Talk.{talk_of};
ghost use Rattle.live_fleet.specs.Act.{Act};
ghost use Rattle.live_fleet.specs.Ending.{Ends, TakesLeft, TakesNext, at_end, missing_room, wants_mailbox};
ghost use Rattle.live_fleet.specs.Party.{stage_of};
ghost use Rattle.live_fleet.specs.Went.{Each, at_of};

use crate::open_fleet::OpenFleet;
use crate::outboxes::Outboxes;
use crate::party::Party;
use crate::rest::Rest;
use crate::speaker::Speaker;
use crate::stepping::step_on;
use crate::taking::is_took;
use fleet_book::Event;
use fleet_core::TakeFault;
use fleet_world::{Reply, Session};
use std::alloc::{Alloc, AllocError, Global};

/// Gives a client's mailbox room for the next order. It had none, and holds little: no mailbox holds much.
fn make_room(session: &mut Session, client: u32) -> Result<(), AllocError>
    requires number { 0 ≤ session.old.world.core.number }
    requires there { client < clients session.old.world.core.history }
    requires full { HasNoRoom session.old.world.core client }
    ensures { OnOk result (talk session.new ≡ talk_of (widened session.old.world.core client (missing_room session.old.world.core client)) session.old.waiting.items) }
{
    let _chapter = session.world.chapter();
    let core = &session.world.core;
    let wanted = core.pending_count(client) as u64 + core.owed(client) + 2;
    let limit = core.room_of(client);
    session.world.widen(client, wanted - limit)
}

/// Whether an order was refused because the mailbox has no room.
fn wants_mailbox(reply: Reply) -> bool
    ensures { result ≡ wants_mailbox reply }
{
    matches!(reply, Reply::TakeRefused(TakeFault::MailboxFull))
}

/// Judges the next order of a client that waits, and returns whether another may wait.
fn take_next<R: Alloc<A = Global>>(
    rt: &R,
    fleet: &mut OpenFleet,
    out: &mut Outboxes,
    client: u32,
) -> Result<bool, AllocError>
    requires { 0 ≤ fleet.old.session.world.core.number }
    ensures ok { IfOk result (λ more. (acts : List Act) × TakesNext client more (at_of fleet.old out.old) acts (at_of fleet.new out.new)) }
    ensures count { vec_len out.new.texts ≡ vec_len out.old.texts }
{
    let reply = step_on(rt, fleet, out, Event::Take(client))?;
    if !wants_mailbox(reply) {
        return Ok(is_took(reply));
    }
    make_room(&mut fleet.session, client)?;
    let again = step_on(rt, fleet, out, Event::Take(client))?;
    Ok(is_took(again))
}

/// Judges all orders of a client that wait.
fn take_left<R: Alloc<A = Global>>(
    rt: &R,
    fleet: &mut OpenFleet,
    out: &mut Outboxes,
    client: u32,
) -> Result<(), AllocError>
    requires { 0 ≤ fleet.old.session.world.core.number }
    ensures ok { OnOk result ((acts : List Act) × TakesLeft client (at_of fleet.old out.old) acts (at_of fleet.new out.new)) }
    ensures count { vec_len out.new.texts ≡ vec_len out.old.texts }
{
    while take_next(rt, fleet, out, client)? {}
    Ok(())
}

/// Judges all orders that wait.
fn take_all_left<R: Alloc<A = Global>>(
    rt: &R,
    fleet: &mut OpenFleet,
    out: &mut Outboxes,
    clients: u32,
) -> Result<(), AllocError>
    requires { 0 ≤ fleet.old.session.world.core.number }
    ensures ok { OnOk result ((acts : List Act) × Each TakesLeft (range_with_len 0 clients) (at_of fleet.old out.old) acts (at_of fleet.new out.new)) }
    ensures count { vec_len out.new.texts ≡ vec_len out.old.texts }
{
    for client in 0..clients {
        take_left(rt, fleet, out, client)?;
    }
    Ok(())
}

/// From now on a conversation is told what is left, after what waits of its last answer.
pub(crate) fn end_answer(speaker: &mut Speaker)
    ensures { speaker.new ≡ at_end speaker.old }
{
    if speaker.rest.stays_at_end() {
        return;
    }
    speaker.rest = Rest::Ending;
}

/// From now on conversations are told what is left.
fn end_answers(speakers: &mut [Speaker])
    ensures { speakers.new ≡ map at_end speakers.old }
{
    for to in 0..speakers.len() {
        end_answer(&mut speakers[to]);
    }
}

impl Party {
    /// Ends the fleet: judges all orders that are left. No line is heard from then on, and no turn made.
    pub(crate) fn end<R: Alloc<A = Global>>(
        &mut self,
        rt: &R,
        out: &mut Outboxes,
    ) -> Result<(), AllocError>
        requires { 0 ≤ self.old.fleet.session.world.core.number }
        ensures { OnOk result ((acts : List Act) × Ends (stage_of self.old out.old) acts (stage_of self.new out.new)) }
    {
        take_all_left(rt, &mut self.fleet, out, self.clients)?;
        end_answers(&mut self.speakers);
        self.is_over = true;
        self.has_ended = true;
        Ok(())
    }
}
