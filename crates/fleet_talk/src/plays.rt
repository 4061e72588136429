//! Events and chapters of a conversation. Nothing here reads, writes or keeps chapters.

ghost use Rattle.std.specs.Prelude.{◌≡◌, ◌+◌, ◌≤◌, ℕ, List, Some, length, OnOk, OnErr, IfOk};
ghost use Rattle.fleet_text.specs.Output.{event_text};
ghost use Rattle.fleet_world.specs.Keeps.{talk};
ghost use Rattle.fleet_talk.specs.Act.{act_asked, play};
ghost use Rattle.fleet_talk.specs.Acts.{Plays, last_entry, wants_room};
ghost use Rattle.fleet_talk.specs.Chapters.{beginning, chapter_shown};
ghost use Rattle.fleet_talk.specs.Lines.{line_shown};
ghost use Rattle.fleet_talk.specs.Open.{fleet_of};
ghost use Rattle.fleet_talk.specs.Said.{IsAdded, IsKept, under};
ghost use Rattle.fleet_talk.specs.Says.{marked};
ghost use Rattle.fleet_talk.specs.Once.{Comes, GoesOn, Hands};
ghost use Rattle.fleet_talk.specs.Long.{IsLong};

use crate::ask::{Asked, Line};
use crate::long::is_long;
use crate::open_fleet::OpenFleet;
use crate::pen::Pen;
use fleet_book::Event;
use fleet_core::{ChapterFault, ShutFault, TakeFault, TickFault};
use fleet_history::Chapter;
use fleet_text::{chapter_line, is_limit_met, write_event};
use fleet_world::{Reply, Session};
use std::alloc::{Alloc, AllocError, Global};

/// Whether an event was refused because the chapter has no room for its entry, and may have the chapter handed out.
fn wants_room(roll: Option<u64>, reply: Reply) -> bool
    ensures { result ≡ wants_room roll reply }
{
    roll.is_some()
        && matches!(
            reply,
            Reply::TakeRefused(TakeFault::ChapterFull)
                | Reply::TickRefused(TickFault::ChapterFull)
                | Reply::ShutRefused(ShutFault::ChapterFull)
        )
}

/// Hands out the chapter, unless it is the last.
pub(crate) fn hand_out(session: &mut Session) -> Result<Option<Chapter>, AllocError>
    requires { 0 ≤ session.old.world.core.number }
    ensures ok { IfOk result (λ handed. Hands (talk session.old) handed (talk session.new)) }
{
    match session.next_chapter() {
        Ok(chapter) => Ok(Some(chapter)),
        Err(ChapterFault::BookSpent) => Ok(None),
        Err(ChapterFault::NoMemory) => Err(AllocError),
    }
}

/// Says what is replied to an event that was done.
fn tell(
    alloc: Global,
    session: &Session,
    pen: &mut Pen,
    mark: Option<&[u8]>,
    event: Event,
    reply: Reply,
) -> Result<(), AllocError>
    requires { 0 ≤ session.now.world.core.number }
    ensures ok { OnOk result (IsAdded pen.old pen.new (marked (under mark.entry) (event_text event reply (last_entry (talk session.now))))) }
    ensures err { OnErr result (IsKept pen.old pen.new) }
{
    let mut text = String::new(alloc);
    let entry = session.world.chapter().entries.last();
    write_event(&mut text, event, reply, entry)?;
    pen.say(alloc, mark, text.as_str())
}

/// Does one event, and says what is replied.
fn play<R: Alloc<A = Global>>(
    rt: &R,
    fleet: &mut OpenFleet,
    pen: &mut Pen,
    mark: Option<&[u8]>,
    event: Event,
) -> Result<(), AllocError>
    requires { 0 ≤ fleet.old.session.world.core.number }
    ensures ok { OnOk result ((text : List ℕ) × Plays (fleet_of fleet.old) (under mark.entry) event text (fleet_of fleet.new) × IsAdded pen.old pen.new text) }
    ensures same { OnOk result (beginning fleet.new.session.world.core ≡ beginning fleet.old.session.world.core) }
    ensures err { OnErr result (IsKept pen.old pen.new) }
{
    let reply = fleet.session.step(rt, event)?;
    fleet.limited |= is_limit_met(reply);
    tell(rt.alloc(), &fleet.session, pen, mark, event, reply)
}

/// As `play_here`, where the chapter's text is not too long, or the chapter is the last.
fn play_if_room<R: Alloc<A = Global>>(
    rt: &R,
    fleet: &mut OpenFleet,
    pen: &mut Pen,
    mark: Option<&[u8]>,
    event: Event,
) -> Result<Option<Chapter>, AllocError>
    requires short { (most : ℕ) → pen.old.settings.roll ≡ Some most → IsLong most (talk fleet.old.session) event → fleet.old.session.world.core.number + 1 ≡ fleet.old.session.world.core.limits.chapters }
    ensures ok { IfOk result (λ handed. Comes pen.old.settings.roll (fleet_of fleet.old) (play (under mark.entry) event) handed pen.old pen.new (fleet_of fleet.new)) }
    ensures err { OnErr result (IsKept pen.old pen.new) }
{
    let reply = fleet.session.step(rt, event)?;
    if !wants_room(pen.settings.roll, reply) {
        fleet.limited |= is_limit_met(reply);
        tell(rt.alloc(), &fleet.session, pen, mark, event, reply)?;
        return Ok(None);
    }
    match hand_out(&mut fleet.session)? {
        Some(chapter) => Ok(Some(chapter)),
        None => {
            fleet.limited |= is_limit_met(reply);
            tell(rt.alloc(), &fleet.session, pen, mark, event, reply)?;
            Ok(None)
        }
    }
}

/// Does one event and says what is replied, unless the chapter may be handed out unasked, and is full or its text too
/// long: then it is handed out, nothing is said, and the event is still to be done.
pub(crate) fn play_here<R: Alloc<A = Global>>(
    rt: &R,
    fleet: &mut OpenFleet,
    pen: &mut Pen,
    mark: Option<&[u8]>,
    event: Event,
) -> Result<Option<Chapter>, AllocError>
    requires { 0 ≤ fleet.old.session.world.core.number }
    ensures ok { IfOk result (λ handed. Comes pen.old.settings.roll (fleet_of fleet.old) (play (under mark.entry) event) handed pen.old pen.new (fleet_of fleet.new)) }
    ensures err { OnErr result (IsKept pen.old pen.new) }
{
    if is_long(&fleet.session, pen.settings.roll, event) {
        if let Some(chapter) = hand_out(&mut fleet.session)? {
            return Ok(Some(chapter));
        }
    }
    play_if_room(rt, fleet, pen, mark, event)
}

/// As `turned`, but where memory runs out, part of the answer may have been said.
fn tell_turned<R: Alloc<A = Global>>(
    rt: &R,
    fleet: &mut OpenFleet,
    pen: &mut Pen,
    line: Line<'_>,
    chapter: &Chapter,
) -> Result<(), AllocError>
    requires { 0 ≤ fleet.old.session.world.core.number }
    ensures ok { OnOk result ((text : List ℕ) × GoesOn (fleet_of fleet.old) (act_asked (line_shown line.entry) line.entry.asked) (chapter_shown chapter.now) text (fleet_of fleet.new) × IsAdded pen.old pen.new text) }
    ensures same { OnOk result (beginning fleet.new.session.world.core ≡ beginning fleet.old.session.world.core) }
    ensures err { OnErr result ((text : List ℕ) × IsAdded pen.old pen.new text) }
{
    let text = chapter_line(rt.alloc(), chapter.number, chapter.entries.len())?;
    pen.say(rt.alloc(), line.mark, text.as_str())?;
    match line.asked {
        Asked::Events(more) => play(rt, fleet, pen, line.mark, more.event),
        _ => Ok(()),
    }
}

/// Says that a chapter was handed out, which is kept by now, and does the event for whose entry that was done, if there
/// is one. If it fails, nothing is said.
pub(crate) fn turned<R: Alloc<A = Global>>(
    rt: &R,
    fleet: &mut OpenFleet,
    pen: &mut Pen,
    line: Line<'_>,
    chapter: &Chapter,
) -> Result<(), AllocError>
    requires { 0 ≤ fleet.old.session.world.core.number }
    ensures ok { OnOk result ((text : List ℕ) × GoesOn (fleet_of fleet.old) (act_asked (line_shown line.entry) line.entry.asked) (chapter_shown chapter.now) text (fleet_of fleet.new) × IsAdded pen.old pen.new text) }
    ensures same { OnOk result (beginning fleet.new.session.world.core ≡ beginning fleet.old.session.world.core) }
    ensures err { OnErr result (IsKept pen.old pen.new) }
{
    let said = pen.out.len();
    match tell_turned(rt, fleet, pen, line, chapter) {
        Ok(()) => Ok(()),
        Err(AllocError) => {
            pen.take_back(said);
            Err(AllocError)
        }
    }
}
