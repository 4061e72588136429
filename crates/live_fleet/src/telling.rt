//! What clients are told unasked: their notices.

ghost use Rattle.std.specs.Prelude.{◌≡◌, ◌≤◌, ◌<◌, ◌+◌, ◌++◌, ◌↔◌, ℕ, List, Ok, true, false, length, slice_get, slice_set, IsTrue, OnOk, IfOk, vec_len};
ghost use Rattle.fleet_text.specs.Output.{notice_line};
ghost use Rattle.fleet_world.specs.Keeps.{talk};
ghost use Rattle.live_fleet.specs.Act.{Act};
ghost use Rattle.live_fleet.specs.Out.{IsFull, out_of, text_at};
ghost use Rattle.live_fleet.specs.Telling.{HasNoNotice, TellsAll, collected_in, TellsClients, TellsNext, TellsOne, TellsTo, TellsWhole};
ghost use Rattle.live_fleet.specs.Went.{at_of};

use crate::length::note_length;
use crate::open_fleet::OpenFleet;
use crate::outboxes::Outboxes;
use crate::speaker::{Clients, Speaker};
use fleet_book::{Event, Notice};
use fleet_text::notice_line;
use fleet_world::{Reply, Session};
use std::alloc::{Alloc, AllocError, Global};

/// More lines than one text may have.
const MOST_LINES: u32 = 65_537;

/// What became of a client's next notice.
#[derive(Clone, Copy, Debug, PartialEq, Eq)]
enum Told {
    One,
    /// It finds none.
    All,
    /// There is no room.
    Full,
}

/// The notice that was collected, if one was.
fn collected(reply: Reply) -> Option<Notice>
    ensures { result ≡ collected_in reply }
{
    match reply {
        Reply::Collected(notice) => Some(notice),
        _ => None,
    }
}

/// Says the line of a notice.
fn say_notice(
    alloc: Global,
    out: &mut Outboxes,
    to: usize,
    client: u32,
    notice: Notice,
) -> Result<(), AllocError>
    requires there { to < vec_len out.old.texts }
    ensures texts { OnOk result ((out_of out.new).texts ≡ slice_set (out_of out.old).texts to (text_at (out_of out.old) to ++ notice_line client notice)) }
    ensures short { OnOk result (length (notice_line client notice) ≤ 256) }
    ensures chapters { out.new.chapters ≡ out.old.chapters }
    ensures count { vec_len out.new.texts ≡ vec_len out.old.texts }
{
    note_length(client, notice);
    let line = notice_line(alloc, client, notice)?;
    out.say(to, line.as_bytes())
}

/// Whether no notice waits for a client, neither in its mailbox nor in its outlet.
fn has_no_notice(session: &Session, client: u32) -> bool
    requires { 0 ≤ session.now.world.core.number }
    ensures { IsTrue result ↔ HasNoNotice (talk session.now) client }
{
    if client as usize >= session.waiting.len() {
        return true;
    }
    session.waiting[client as usize].outlet_len() == 0 && session.world.pending_count(client) == 0
}

/// Tells a client's next notice. A client for whom none waits is passed over.
fn tell_next<R: Alloc<A = Global>>(
    rt: &R,
    fleet: &mut OpenFleet,
    out: &mut Outboxes,
    to: usize,
    client: u32,
) -> Result<Told, AllocError>
    requires number { 0 ≤ fleet.old.session.world.core.number }
    requires there { to < vec_len out.old.texts }
    ensures ok { IfOk result (λ told. (acts : List Act) × TellsNext to client told (at_of fleet.old out.old) acts (at_of fleet.new out.new)) }
    ensures count { vec_len out.new.texts ≡ vec_len out.old.texts }
{
    if out.is_full(to) {
        return Ok(Told::Full);
    }
    if has_no_notice(&fleet.session, client) {
        return Ok(Told::All);
    }
    let _given = fleet.session.step(rt, Event::Give(client))?;
    match collected(fleet.session.step(rt, Event::Collect(client))?) {
        Some(notice) => {
            say_notice(rt.alloc(), out, to, client, notice)?;
            fleet.recalls.note(client, notice)?;
            Ok(Told::One)
        }
        None => Ok(Told::All),
    }
}

/// Tells a client's notices in a conversation, as many as there is room for, and returns whether that was all.
fn tell_client<R: Alloc<A = Global>>(
    rt: &R,
    fleet: &mut OpenFleet,
    out: &mut Outboxes,
    to: usize,
    client: u32,
) -> Result<bool, AllocError>
    requires number { 0 ≤ fleet.old.session.world.core.number }
    requires there { to < vec_len out.old.texts }
    ensures ok { IfOk result (λ all. (acts : List Act) × TellsOne to client all (at_of fleet.old out.old) acts (at_of fleet.new out.new)) }
    ensures count { vec_len out.new.texts ≡ vec_len out.old.texts }
{
    for _ in 0..MOST_LINES {
        match tell_next(rt, fleet, out, to, client)? {
            Told::One => {}
            Told::All => return Ok(true),
            Told::Full => return Ok(false),
        }
    }
    Ok(false)
}

/// Tells the notices of each of these clients, and returns whether those were all.
pub(crate) fn tell_clients<R: Alloc<A = Global>>(
    rt: &R,
    fleet: &mut OpenFleet,
    out: &mut Outboxes,
    to: usize,
    clients: Clients,
) -> Result<bool, AllocError>
    requires number { 0 ≤ fleet.old.session.world.core.number }
    requires there { to < vec_len out.old.texts }
    ensures ok { IfOk result (λ all. (acts : List Act) × TellsClients to clients (at_of fleet.old out.old) acts (at_of fleet.new out.new)) }
    ensures whole { IfOk result (λ all. all ≡ true → (acts : List Act) × TellsWhole to clients (at_of fleet.old out.old) acts (at_of fleet.new out.new)) }
    ensures full { IfOk result (λ all. all ≡ false → IsFull (text_at (out_of out.new) to)) }
    ensures count { vec_len out.new.texts ≡ vec_len out.old.texts }
{
    let mut all = true;
    for client in clients.first..clients.end {
        all &= tell_client(rt, fleet, out, to, client)?;
    }
    Ok(all)
}

/// Tells a conversation the notices of its clients, unless an answer to it waits.
pub(crate) fn tell<R: Alloc<A = Global>>(
    rt: &R,
    fleet: &mut OpenFleet,
    out: &mut Outboxes,
    to: usize,
    speaker: &Speaker,
) -> Result<(), AllocError>
    requires number { 0 ≤ fleet.old.session.world.core.number }
    requires there { to < vec_len out.old.texts }
    ensures ok { OnOk result ((acts : List Act) × TellsTo speaker.now to (at_of fleet.old out.old) acts (at_of fleet.new out.new)) }
    ensures count { vec_len out.new.texts ≡ vec_len out.old.texts }
{
    if speaker.rest.is_open() {
        tell_clients(rt, fleet, out, to, speaker.clients)?;
    }
    Ok(())
}

/// Tells each conversation the notices of its clients.
pub(crate) fn tell_all<R: Alloc<A = Global>>(
    rt: &R,
    fleet: &mut OpenFleet,
    out: &mut Outboxes,
    speakers: &[Speaker],
) -> Result<(), AllocError>
    requires number { 0 ≤ fleet.old.session.world.core.number }
    requires there { length speakers.now ≤ vec_len out.old.texts }
    ensures ok { OnOk result ((acts : List Act) × TellsAll speakers.now (at_of fleet.old out.old) acts (at_of fleet.new out.new)) }
    ensures count { vec_len out.new.texts ≡ vec_len out.old.texts }
{
    for to in 0..speakers.len() {
        tell(rt, fleet, out, to, &speakers[to])?;
    }
    Ok(())
}
