//! How a fleet is kept that is open: its threads, the loop, and its end.

ghost use Rattle.std.specs.Prelude.{◌≡◌, ◌≤◌, [], IfErr, IfOk, IfSome, List, OnOk, map, option_map, vec_len};
ghost use Rattle.rtrb.specs.Ring.{sent};
ghost use Rattle.fleet_bridge.specs.Roominess.{AreRoomyFor};
ghost use Rattle.fleet_talk.specs.Chapters.{ChapterView, chapter_shown};
ghost use Rattle.fleet_world.specs.Keeps.{talk};
ghost use Rattle.live_parts.specs.Recalls.{Recalls};
ghost use Rattle.live_fleet.specs.Party.{door_shown, stage_of};
ghost use Rattle.live_fleet.specs.Recalling.{AreBegun};
ghost use Rattle.fleet_live.specs.Begin.{Serves, first_stage, speakers_at};
ghost use Rattle.fleet_live.specs.Ended.{IsEnded};
ghost use Rattle.fleet_live.specs.Logged.{IsToldLogged, log_view};
ghost use Rattle.fleet_live.specs.Taken.{noted};
ghost use Rattle.fleet_live.specs.Told.{handed_at};
ghost use Rattle.std.specs.declared.alloc.Global.{Global};

use crate::desk::{Desk, Site, begin, party_of};
use crate::ended::{cause, ended};
use crate::keeping::keep;
use fleet_talk::{ChapterSink, Door, TalkFault};
use fleet_world::Session;
use live_parts::{Journal, LiveEnds, Recalls, Stop};
use std::alloc::{Alloc, AllocError, Global};
use std::io::{Read, Write};
use std::mem;
use std::sync::Wait;
use std::thread::Threads;
use std::time::Clock;

/// How many fields are kept of goals that no robot has any more: two for each robot of the largest fleet.
const KEPT_GOALS: usize = 1024;

/// The bytes of such fields, at least and at most: 64 MiB and 256 MiB.
const LEAST_KEPT: usize = 64 << 20;

const MOST_KEPT: usize = 256 << 20;

/// How many bytes of fields are kept on a map of this many cells, each of which takes a byte of a field.
fn kept_bytes(cells: u32) -> usize {
    (KEPT_GOALS * cells as usize).max(LEAST_KEPT).min(MOST_KEPT)
}

/// Starts all threads, and lets the fleet hear its clients until it has ended, and all was told. Returns what it is kept
/// with, and whether memory ran out in the meantime.
fn live<
    R: Alloc<A = Global> + Clock + Threads + Sync + Wait + Copy + Send + Drop + 'static,
    I: Read + Send + Drop + 'static,
    W: Write + Send + Drop + 'static,
    P: Read + Send + Drop + 'static,
    Q: Write + Send + Drop + 'static,
    E: Write + Send + Drop + 'static,
    S: ChapterSink + Send + Drop + 'static,
    J: Journal + Drop,
>(
    rt: &R,
    session: Session,
    door: Door,
    site: Site,
    ends: LiveEnds<I, W, P, Q, E, S, J>,
) -> Result<(Desk<S, J>, Result<(), AllocError>), AllocError>
    requires number { 0 ≤ session.world.core.number }
    requires door { AreRoomyFor session.world.core.floor door.roominess.items }
    // What was put into the ring of each conversation, and into that of chapters, is what a core run of the events says.
    ensures serves { IfOk result (λ r. OnOk r.1 ((recalls : Recalls) × AreBegun session.world.core.history ends.recalls recalls
        × Serves (first_stage (talk session) recalls (door_shown door) (speakers_at site.settings (vec_len ends.pipes) session.world.core.history))
        (stage_of r.0.party r.0.out) (map noted r.0.events.taken.items) r.0.listeners.texts.items (map chapter_shown (sent r.0.listeners.chapters)))) }
    // It follows from entries that the journal has, if one is written.
    ensures logged { IfOk result (λ r. OnOk r.1 ((before : List (ChapterView Global)) → IfSome (option_map J.logged ends.journal) (λ logged. logged ≡ before) → (recalls : Recalls) × AreBegun session.world.core.history ends.recalls recalls
        × IsToldLogged (first_stage (talk session) recalls (door_shown door) (speakers_at site.settings (vec_len ends.pipes) session.world.core.history)) (map noted r.0.events.taken.items) (handed_at r.0.listeners.texts.items) before
        (log_view J.logged r.0.listeners.log.journal r.0.listeners.log.number r.0.listeners.log.entries))) }
{
    let (pipes, settings) = (ends.pipes.len(), site.settings);
    let mut ends = ends;
    let recalls = mem::replace(&mut ends.recalls, Recalls::new(rt.alloc(), 0));
    let (party, out) = party_of(rt.alloc(), session, (door, recalls), pipes, settings)?;
    let desk = begin(rt, party, out, site, ends)?;
    let Desk {
        mut party,
        mut out,
        mut events,
        mut listeners,
        writer,
    } = desk;
    let kept = keep(rt, &mut party, &mut out, &mut events, &mut listeners);
    let desk = Desk {
        party,
        out,
        events,
        listeners,
        writer,
    };
    Ok((desk, kept))
}

/// Lets the fleet hear its clients until it has ended, and all was told. Returns whether a limit was met.
pub(crate) fn serve<
    R: Alloc<A = Global> + Clock + Threads + Sync + Wait + Copy + Send + Drop + 'static,
    I: Read + Send + Drop + 'static,
    W: Write + Send + Drop + 'static,
    P: Read + Send + Drop + 'static,
    Q: Write + Send + Drop + 'static,
    E: Write + Send + Drop + 'static,
    S: ChapterSink + Send + Drop + 'static,
    J: Journal + Drop,
>(
    rt: &R,
    session: Session,
    door: Door,
    site: Site,
    ends: LiveEnds<I, W, P, Q, E, S, J>,
) -> Result<bool, TalkFault>
    requires number { 0 ≤ session.world.core.number }
    requires door { AreRoomyFor session.world.core.floor door.roominess.items }
    ensures opened { IfErr result IsEnded }
{
    let mut session = session;
    session.world.keep(kept_bytes(site.cells));
    let Ok((desk, kept)) = live(rt, session, door, site, ends) else {
        return Err(TalkFault::NoMemory);
    };
    let Desk {
        party,
        out: _out,
        events,
        mut listeners,
        writer,
    } = desk;
    let last = listeners.end(rt, &party);
    let mut source = events.source;
    source.finish(rt, rt.alloc());
    if let Some(writer) = writer {
        writer.join(rt);
    }
    let is_written = site.settings.service || !source.is_first_gone();
    let stop = match kept {
        Ok(()) => source.stop.unwrap_or(Stop::Quit),
        Err(AllocError) => listeners.why(),
    };
    ended(cause(stop, last, is_written), party.fleet.limited)
}
