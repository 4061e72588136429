//! Turns.

ghost use Rattle.std.specs.Prelude.{◌≡◌, ◌≤◌, ◌<◌, List, length, OnOk, IfOk, string_bytes, vec_len};
ghost use Rattle.fleet_world.specs.Keeps.{talk};
ghost use Rattle.live_fleet.specs.Act.{Act};
ghost use Rattle.live_fleet.specs.Out.{out_of};
ghost use Rattle.live_fleet.specs.Turning.{SaysOrNot, Settles, Shows, ShowsTo, Turns, is_ticked, place_line, tick_answer};
ghost use Rattle.live_fleet.specs.Went.{at_of};

use crate::open_fleet::OpenFleet;
use crate::outboxes::Outboxes;
use crate::speaker::Speaker;
use crate::stepping::step_on;
use crate::taking::take_all;
use crate::telling::tell_all;
use fleet_book::Event;
use fleet_text::{tick_line, tick_refused_line};
use fleet_world::{Reply, Session};
use std::alloc::{Alloc, AllocError, Global};

/// Judges the orders that wait, and tells what became of them.
pub(crate) fn settle<R: Alloc<A = Global>>(
    rt: &R,
    fleet: &mut OpenFleet,
    out: &mut Outboxes,
    speakers: &[Speaker],
    clients: u32,
) -> Result<(), AllocError>
    requires number { 0 ≤ fleet.old.session.world.core.number }
    requires there { length speakers.now ≤ vec_len out.old.texts }
    ensures ok { OnOk result ((acts : List Act) × Settles speakers.now clients (at_of fleet.old out.old) acts (at_of fleet.new out.new)) }
    ensures count { vec_len out.new.texts ≡ vec_len out.old.texts }
{
    tell_all(rt, fleet, out, speakers)?;
    take_all(rt, fleet, out, clients)?;
    tell_all(rt, fleet, out, speakers)
}

/// A turn: tells what waits, judges the orders that wait, makes a tick, and tells again. Returns what the tick came to.
pub(crate) fn turn<R: Alloc<A = Global>>(
    rt: &R,
    fleet: &mut OpenFleet,
    out: &mut Outboxes,
    speakers: &[Speaker],
    clients: u32,
) -> Result<Reply, AllocError>
    requires number { 0 ≤ fleet.old.session.world.core.number }
    requires there { length speakers.now ≤ vec_len out.old.texts }
    ensures ok { IfOk result (λ reply. (acts : List Act) × Turns speakers.now clients reply (at_of fleet.old out.old) acts (at_of fleet.new out.new)) }
    ensures count { vec_len out.new.texts ≡ vec_len out.old.texts }
{
    tell_all(rt, fleet, out, speakers)?;
    take_all(rt, fleet, out, clients)?;
    let reply = step_on(rt, fleet, out, Event::Tick)?;
    tell_all(rt, fleet, out, speakers)?;
    Ok(reply)
}

/// Whether a turn was made.
pub(crate) fn is_ticked(reply: Reply) -> bool
    ensures { result ≡ is_ticked reply }
{
    matches!(reply, Reply::Ticked(_))
}

/// The line of where the robots stand.
pub(crate) fn place_line(alloc: Global, session: &Session) -> Result<String, AllocError>
    requires { 0 ≤ session.now.world.core.number }
    ensures { IfOk result (λ text. string_bytes text ≡ place_line (talk session.now)) }
{
    tick_line(alloc, session.world.clock(), session.world.placement())
}

/// Says a text to a conversation if there is room.
pub(crate) fn say_if_room(out: &mut Outboxes, to: usize, text: &[u8]) -> Result<bool, AllocError>
    requires { to < vec_len out.old.texts }
    ensures ok { IfOk result (λ is_said. SaysOrNot to text.now is_said (out_of out.old) (out_of out.new)) }
    ensures count { vec_len out.new.texts ≡ vec_len out.old.texts }
{
    if !out.fits(to, text.len()) {
        return Ok(false);
    }
    out.say(to, text)?;
    Ok(true)
}

/// Shows a text to a conversation if it watches and has room.
fn show(
    fleet: &OpenFleet,
    out: &mut Outboxes,
    to: usize,
    speaker: &Speaker,
    text: &[u8],
) -> Result<(), AllocError>
    requires number { 0 ≤ fleet.now.session.world.core.number }
    requires there { to < vec_len out.old.texts }
    ensures ok { OnOk result ((acts : List Act) × ShowsTo text.now speaker.now to (at_of fleet.now out.old) acts (at_of fleet.now out.new)) }
    ensures count { vec_len out.new.texts ≡ vec_len out.old.texts }
{
    // It is read by the contract alone.
    let _fleet = fleet;
    if speaker.watching && speaker.rest.is_open() {
        say_if_room(out, to, text)?;
    }
    Ok(())
}

/// Shows where the robots stand to each conversation that watches and has room.
pub(crate) fn show_tick(
    alloc: Global,
    fleet: &OpenFleet,
    out: &mut Outboxes,
    speakers: &[Speaker],
) -> Result<(), AllocError>
    requires number { 0 ≤ fleet.now.session.world.core.number }
    requires there { length speakers.now ≤ vec_len out.old.texts }
    ensures ok { OnOk result ((acts : List Act) × Shows speakers.now (at_of fleet.now out.old) acts (at_of fleet.now out.new)) }
    ensures count { vec_len out.new.texts ≡ vec_len out.old.texts }
{
    let line = place_line(alloc, &fleet.session)?;
    for to in 0..speakers.len() {
        show(fleet, out, to, &speakers[to], line.as_bytes())?;
    }
    Ok(())
}

/// The answer to a tick that came to this.
pub(crate) fn tick_answer(
    alloc: Global,
    session: &Session,
    reply: Reply,
) -> Result<String, AllocError>
    requires { 0 ≤ session.now.world.core.number }
    ensures { IfOk result (λ text. string_bytes text ≡ tick_answer (talk session.now) reply) }
{
    match reply {
        Reply::TickRefused(fault) => tick_refused_line(alloc, fault),
        _ => place_line(alloc, session),
    }
}
