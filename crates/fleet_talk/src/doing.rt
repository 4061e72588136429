//! Does once what a line asks of an open fleet. Nothing here reads, writes or keeps chapters.

ghost use Rattle.std.specs.Prelude.{◌≡◌, ◌≤◌, ℕ, List, OnOk, OnErr, IfOk};
ghost use Rattle.fleet_bridge.specs.Roominess.{AreRoomyFor};
ghost use Rattle.fleet_talk.specs.Act.{act_asked, show, times_asked, turn};
ghost use Rattle.fleet_talk.specs.Acts.{Does};
ghost use Rattle.fleet_talk.specs.Lines.{line_shown};
ghost use Rattle.fleet_talk.specs.Listed.{listed_text};
ghost use Rattle.fleet_talk.specs.Door.{refused_post_text};
ghost use Rattle.fleet_talk.specs.Open.{fleet_of};
ghost use Rattle.fleet_talk.specs.Said.{IsAdded, IsKept, under};
ghost use Rattle.fleet_talk.specs.Says.{marked};
ghost use Rattle.fleet_talk.specs.Once.{Comes};

use crate::ask::{Asked, Line};
use crate::door::refused_post_text;
use crate::listed::listed_text;
use crate::look::look_text;
use crate::open_fleet::OpenFleet;
use crate::pen::Pen;
use crate::plays::{hand_out, play_here};
use fleet_history::Chapter;
use fleet_text::chapter_refused_line;
use fleet_world::Session;
use std::alloc::{Alloc, AllocError, Global};

/// Looks at the fleet.
fn show(
    alloc: Global,
    fleet: &OpenFleet,
    pen: &mut Pen,
    mark: Option<&[u8]>,
    roominess: &[u32],
) -> Result<(), AllocError>
    requires { AreRoomyFor fleet.now.session.world.core.floor roominess.now }
    ensures ok { OnOk result ((text : List ℕ) × Does pen.old.settings.roll (fleet_of fleet.now) (show (under mark.entry)) text (fleet_of fleet.now) × IsAdded pen.old pen.new text) }
    ensures err { OnErr result (IsKept pen.old pen.new) }
{
    let line = look_text(alloc, &fleet.session.world, roominess)?;
    pen.say(alloc, mark, line.as_str())
}

/// Lists a client's open errands.
fn list(
    alloc: Global,
    session: &Session,
    pen: &mut Pen,
    mark: Option<&[u8]>,
    client: u32,
) -> Result<(), AllocError>
    requires { 0 ≤ session.now.world.core.number }
    ensures ok { OnOk result (IsAdded pen.old pen.new (marked (under mark.entry) (listed_text session.now.world.core client))) }
    ensures err { OnErr result (IsKept pen.old pen.new) }
{
    let lines = listed_text(alloc, &session.world, client)?;
    pen.say(alloc, mark, lines.as_str())
}

/// Refuses a client's post.
fn refuse(
    alloc: Global,
    session: &Session,
    pen: &mut Pen,
    mark: Option<&[u8]>,
    client: u32,
) -> Result<(), AllocError>
    requires { 0 ≤ session.now.world.core.number }
    ensures ok { OnOk result (IsAdded pen.old pen.new (marked (under mark.entry) (refused_post_text session.now.world.core client))) }
    ensures err { OnErr result (IsKept pen.old pen.new) }
{
    let line = refused_post_text(alloc, &session.world, client)?;
    pen.say(alloc, mark, line.as_str())
}

/// Hands out the chapter, and says nothing yet. If it is the last, it says that instead.
fn turn(
    alloc: Global,
    fleet: &mut OpenFleet,
    pen: &mut Pen,
    mark: Option<&[u8]>,
) -> Result<Option<Chapter>, AllocError>
    requires { 0 ≤ fleet.old.session.world.core.number }
    ensures ok { IfOk result (λ handed. Comes pen.old.settings.roll (fleet_of fleet.old) (turn (under mark.entry)) handed pen.old pen.new (fleet_of fleet.new)) }
    ensures err { OnErr result (IsKept pen.old pen.new) }
{
    match hand_out(&mut fleet.session)? {
        Some(chapter) => Ok(Some(chapter)),
        None => {
            pen.say(alloc, mark, chapter_refused_line())?;
            Ok(None)
        }
    }
}

/// How many times a line's answer does what it asks.
pub(crate) fn times(asked: Asked) -> u32
    ensures { result ≡ times_asked asked }
{
    match asked {
        Asked::Nothing | Asked::Quit => 0,
        Asked::Events(more) => more.times,
        Asked::Chapter
        | Asked::Look
        | Asked::Open(_)
        | Asked::Other
        | Asked::Long
        | Asked::NoRoom(_) => 1,
    }
}

/// Does once what a line asks, and says it; or hands out a chapter, which is to be kept first: then nothing is said,
/// and `turned` goes on.
pub(crate) fn hear<R: Alloc<A = Global>>(
    rt: &R,
    fleet: &mut OpenFleet,
    pen: &mut Pen,
    line: Line<'_>,
    roominess: &[u32],
) -> Result<Option<Chapter>, AllocError>
    requires { AreRoomyFor fleet.old.session.world.core.floor roominess.now }
    ensures ok { IfOk result (λ handed. Comes pen.old.settings.roll (fleet_of fleet.old) (act_asked (line_shown line.entry) line.entry.asked) handed pen.old pen.new (fleet_of fleet.new)) }
    ensures err { OnErr result (IsKept pen.old pen.new) }
{
    match line.asked {
        Asked::Nothing | Asked::Quit => Ok(None),
        Asked::Events(more) => play_here(rt, fleet, pen, line.mark, more.event),
        Asked::Chapter => turn(rt.alloc(), fleet, pen, line.mark),
        Asked::Look => {
            show(rt.alloc(), fleet, pen, line.mark, roominess)?;
            Ok(None)
        }
        Asked::Open(client) => {
            list(rt.alloc(), &fleet.session, pen, line.mark, client)?;
            Ok(None)
        }
        Asked::Other | Asked::Long => {
            pen.say_bad(rt.alloc(), line)?;
            Ok(None)
        }
        Asked::NoRoom(client) => {
            refuse(rt.alloc(), &fleet.session, pen, line.mark, client)?;
            Ok(None)
        }
    }
}
