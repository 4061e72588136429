//! A fleet in real time, as a whole.

ghost use Rattle.std.specs.Prelude.{◌≡◌, ◌≤◌, ◌↔◌, ◌⊎◌, ℕ, List, Err, IfErr, Some, vec_len};
ghost use Rattle.fleet_bridge.specs.Roominess.{AreRoomyFor};
ghost use Rattle.fleet_text.specs.Kit.{kit_laws};
ghost use Rattle.fleet_core.specs.Hooks.{laws_of};
ghost use Rattle.fleet_core.specs.OpeningFaults.{IsNamed as IsNamedFault, IsRefused};
ghost use Rattle.fleet_talk.specs.Heading.{drafted};
ghost use Rattle.fleet_talk.specs.Manners.{IsFresh};
ghost use Rattle.fleet_live.specs.Ended.{IsEnded, IsRefusedHead};

use crate::desk::Site;
use crate::ended::unopened;
use crate::manner::planned_fleet;
use crate::opening::Opening;
use crate::serving::serve;
use fleet_core::OpenFault;
use fleet_script::Head;
use fleet_talk::{ChapterSink, Door, Ground, TALK_LIMITS, TalkFault, counted, door_for};
use fleet_world::Session;
use live_parts::{Journal, LiveEnds, LiveSettings};
use std::alloc::{Alloc, AllocError, Global};
use std::io::{Read, Write};
use std::mem;
use std::sync::Wait;
use std::thread::Threads;
use std::time::Clock;

/// How many robots a head names.
fn robots_in(head: &Head) -> u32 {
    match &head.starts {
        Some(starts) => counted(starts.len()),
        None => 0,
    }
}

/// Lets a fleet of which nothing was done hear its clients until it has ended, its ticks planned in the manner of the
/// settings. Returns whether a limit was met.
pub(crate) fn serve_planned<
    R: Alloc<A = Global> + Clock + Threads + Sync + Wait + Copy + Send + Drop + 'static,
    I: Read + Send + Drop + 'static,
    W: Write + Send + Drop + 'static,
    P: Read + Send + Drop + 'static,
    Q: Write + Send + Drop + 'static,
    E: Write + Send + Drop + 'static,
    S: ChapterSink + Send + Drop + 'static,
    J: Journal + Drop,
>(
    rt: &R,
    session: Session,
    door: Door,
    site: Site,
    ends: LiveEnds<I, W, P, Q, E, S, J>,
) -> Result<bool, TalkFault>
    requires number { 0 ≤ session.world.core.number }
    requires fresh { IsFresh session.world.core }
    requires door { AreRoomyFor session.world.core.floor door.roominess.items }
    ensures opened { IfErr result IsEnded }
{
    match planned_fleet(session, door, site.settings.manner) {
        Ok((session, door)) => {
            let mut ends = ends;
            ends.sink.opened(&door);
            serve(rt, session, door, site, ends)
        }
        Err(fault) => Err(fault),
    }
}

/// Keeps the fleet of an opening, to its end.
fn keep_fleet<
    R: Alloc<A = Global> + Clock + Threads + Sync + Wait + Copy + Send + Drop + 'static,
    I: Read + Send + Drop + 'static,
    W: Write + Send + Drop + 'static,
    P: Read + Send + Drop + 'static,
    Q: Write + Send + Drop + 'static,
    E: Write + Send + Drop + 'static,
    S: ChapterSink + Send + Drop + 'static,
    J: Journal + Drop,
>(
    rt: &R,
    opening: Opening,
    settings: LiveSettings,
    door: Door,
    ends: LiveEnds<I, W, P, Q, E, S, J>,
) -> Result<bool, TalkFault>
    // Of each call: only a call with a condition may hand on closures.
    requires hooks { 0 ≤ vec_len opening.hooks.ties }
    requires door { AreRoomyFor opening.grid door.roominess.items }
    ensures refused { (why : OpenFault) → IsNamedFault why →
        ((result ≡ Err (TalkFault.Opening why)) ↔ IsRefused opening.grid opening.starts.items opening.clients opening.limits (laws_of opening.hooks) why) }
{
    let Opening {
        clients,
        limits,
        grid,
        starts,
        hooks,
    } = opening;
    let cells = grid.cell_count();
    let session = match Session::open(rt.alloc(), grid, starts, clients, limits, hooks) {
        Ok(session) => session,
        Err(fault) => return Err(unopened(fault)),
    };
    serve_planned(rt, session, door, Site { settings, cells }, ends)
}

/// Keeps the fleet that the head names, with this door.
fn keep_ground<
    R: Alloc<A = Global> + Clock + Threads + Sync + Wait + Copy + Send + Drop + 'static,
    I: Read + Send + Drop + 'static,
    W: Write + Send + Drop + 'static,
    P: Read + Send + Drop + 'static,
    Q: Write + Send + Drop + 'static,
    E: Write + Send + Drop + 'static,
    S: ChapterSink + Send + Drop + 'static,
    J: Journal + Drop,
>(
    rt: &R,
    ground: Ground,
    settings: LiveSettings,
    door: Door,
    ends: LiveEnds<I, W, P, Q, E, S, J>,
) -> Result<bool, TalkFault>
    // Of each call: only a call with a condition may hand on closures.
    requires hooks { 0 ≤ vec_len ground.kit.plain.ties }
    requires door { AreRoomyFor ground.grid door.roominess.items }
    ensures refused { (starts : List ℕ) → (drafted ground.head).starts ≡ Some starts → (why : OpenFault) → IsNamedFault why →
        result ≡ Err (TalkFault.Opening why) → IsRefusedHead (kit_laws ground.kit) ground.grid (drafted ground.head) starts why }
    ensures named { (starts : List ℕ) → (drafted ground.head).starts ≡ Some starts → (why : OpenFault) →
        IsRefusedHead (kit_laws ground.kit) ground.grid (drafted ground.head) starts why → (result ≡ Err (TalkFault.Opening why)) ⊎ (result ≡ Err TalkFault.NoMemory) }
{
    let Ground { grid, kit, head } = ground;
    let starts = head.starts.unwrap_or(Vec::new(rt.alloc()));
    let hooks = kit.choose(head.south.unwrap_or(false)).cut(starts.len());
    let limits = head.limits.limits_over(TALK_LIMITS);
    let opening = Opening::of(head.clients.unwrap_or(1), limits, grid, starts, hooks);
    keep_fleet(rt, opening, settings, door, ends)
}

/// Keeps a fleet in real time: opens one with the head's robots and clients, lets each conversation post, look and be
/// told, and makes turns at their deadlines, or where a line asks for them. It ends where the first conversation does.
/// Each chapter goes to the sink when it is handed out, and the last at the end. Returns whether a limit was met.
///
/// If the fleet cannot be opened, the fault is `Opening` with the first reason that stands, then `NoRooms` if its robots were
/// to take turns and the rooms of the map do not pass their checks, or `NoMemory`.
pub fn keep_live<
    R: Alloc<A = Global> + Clock + Threads + Sync + Wait + Copy + Send + Drop + 'static,
    I: Read + Send + Drop + 'static,
    W: Write + Send + Drop + 'static,
    P: Read + Send + Drop + 'static,
    Q: Write + Send + Drop + 'static,
    E: Write + Send + Drop + 'static,
    S: ChapterSink + Send + Drop + 'static,
    J: Journal + Drop,
>(
    rt: &R,
    ground: Ground,
    settings: LiveSettings,
    ends: LiveEnds<I, W, P, Q, E, S, J>,
) -> Result<bool, TalkFault>
    // Of each call: only a call with a condition may hand on closures.
    requires { 0 ≤ vec_len ground.kit.plain.ties }
    ensures refused { (starts : List ℕ) → (drafted ground.head).starts ≡ Some starts → (why : OpenFault) → IsNamedFault why →
        result ≡ Err (TalkFault.Opening why) → IsRefusedHead (kit_laws ground.kit) ground.grid (drafted ground.head) starts why }
    ensures named { (starts : List ℕ) → (drafted ground.head).starts ≡ Some starts → (why : OpenFault) →
        IsRefusedHead (kit_laws ground.kit) ground.grid (drafted ground.head) starts why → (result ≡ Err (TalkFault.Opening why)) ⊎ (result ≡ Err TalkFault.NoMemory) }
{
    let robots = robots_in(&ground.head);
    match door_for(rt.alloc(), settings.roomy, &ground.grid, robots) {
        Ok(door) => keep_ground(rt, ground, settings, door, ends),
        Err(AllocError) => {
            mem::drop(ground.kit);
            Err(TalkFault::NoMemory)
        }
    }
}
