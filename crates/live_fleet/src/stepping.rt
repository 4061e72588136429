//! Events that may find the chapter full.

ghost use Rattle.std.specs.Prelude.{◌≡◌, ◌≤◌, ◌+◌, ◌||◌, List, true, map, IfOk, vec_len, vec_capacity};
ghost use Rattle.fleet_talk.specs.Chapters.{chapter_shown};
ghost use Rattle.fleet_world.specs.Keeps.{talk};
ghost use Rattle.fleet_world.specs.Talk.{TalkStep};
ghost use Rattle.fleet_text.specs.Output.{is_limit_met};
ghost use Rattle.live_fleet.specs.Act.{Act};
ghost use Rattle.live_fleet.specs.Stepping.{HandsOut, HandsOver, StepsOn, wants_room};
ghost use Rattle.live_fleet.specs.Went.{at_of};

use crate::open_fleet::OpenFleet;
use crate::outboxes::Outboxes;
use fleet_book::Event;
use fleet_core::{ChapterFault, ShutFault, TakeFault, TickFault};
use fleet_history::Chapter;
use fleet_text::is_limit_met;
use fleet_world::{Reply, Session};
use std::alloc::{Alloc, AllocError, Global};

/// Whether an event was refused because the chapter has no room for its entry.
fn wants_room(reply: Reply) -> bool
    ensures { result ≡ wants_room reply }
{
    matches!(
        reply,
        Reply::TakeRefused(TakeFault::ChapterFull)
            | Reply::TickRefused(TickFault::ChapterFull)
            | Reply::ShutRefused(ShutFault::ChapterFull)
    )
}

/// Hands out the chapter, and returns whether that was done: the last is not. There is room for it.
fn hand_over(session: &mut Session, chapters: &mut Vec<Chapter>) -> Result<bool, AllocError>
    requires number { 0 ≤ session.old.world.core.number }
    requires room { vec_len chapters.old + 1 ≤ vec_capacity chapters.old }
    ensures { IfOk result (λ handed. HandsOver (talk session.old) (map chapter_shown chapters.old.items) handed (talk session.new) (map chapter_shown chapters.new.items)) }
{
    match session.next_chapter() {
        Ok(chapter) => {
            chapters.push_reserved(chapter);
            Ok(true)
        }
        Err(ChapterFault::BookSpent) => Ok(false),
        Err(ChapterFault::NoMemory) => Err(AllocError),
    }
}

/// Hands out the chapter, unless it is the last, and returns whether that was done.
pub(crate) fn hand_out(fleet: &mut OpenFleet, out: &mut Outboxes) -> Result<bool, AllocError>
    requires { 0 ≤ fleet.old.session.world.core.number }
    ensures ok { IfOk result (λ handed. (acts : List Act) × HandsOut (at_of fleet.old out.old) handed acts (at_of fleet.new out.new)) }
    ensures count { vec_len out.new.texts ≡ vec_len out.old.texts }
{
    out.chapters.reserve(1)?;
    hand_over(&mut fleet.session, &mut out.chapters)
}

/// Does an event, and notes whether a limit was met.
fn note_step<R: Alloc<A = Global>>(
    rt: &R,
    fleet: &mut OpenFleet,
    event: Event,
) -> Result<Reply, AllocError>
    requires { 0 ≤ fleet.old.session.world.core.number }
    ensures step { IfOk result (λ reply. TalkStep (talk fleet.old.session) event reply (talk fleet.new.session)) }
    ensures met { IfOk result (λ reply. fleet.new.limited ≡ (fleet.old.limited || is_limit_met reply)) }
    ensures recalls { fleet.new.recalls ≡ fleet.old.recalls }
{
    let reply = fleet.session.step(rt, event)?;
    fleet.limited |= is_limit_met(reply);
    Ok(reply)
}

/// Does an event; where the chapter has no room for its entry, in the next one.
pub(crate) fn step_on<R: Alloc<A = Global>>(
    rt: &R,
    fleet: &mut OpenFleet,
    out: &mut Outboxes,
    event: Event,
) -> Result<Reply, AllocError>
    requires { 0 ≤ fleet.old.session.world.core.number }
    ensures ok { IfOk result (λ reply. (acts : List Act) × StepsOn event reply (at_of fleet.old out.old) acts (at_of fleet.new out.new)) }
    ensures count { vec_len out.new.texts ≡ vec_len out.old.texts }
{
    let reply = fleet.session.step(rt, event)?;
    if !wants_room(reply) {
        fleet.limited |= is_limit_met(reply);
        return Ok(reply);
    }
    if hand_out(fleet, out)? {
        return note_step(rt, fleet, event);
    }
    fleet.limited |= is_limit_met(reply);
    Ok(reply)
}
