//! A fleet in real time that goes on from a chapter that was kept.

ghost use Rattle.std.specs.Prelude.{◌≡◌, ◌≤◌, IfOk, IfErr, OnOk, vec_len};
ghost use Rattle.fleet_bridge.specs.Roominess.{AreRoomyFor};
ghost use Rattle.fleet_text.specs.Kit.{kit_laws};
ghost use Rattle.fleet_talk.specs.Chapters.{chapter_shown};
ghost use Rattle.fleet_talk.specs.Heading.{drafted};
ghost use Rattle.fleet_talk.specs.Manners.{IsFresh};
ghost use Rattle.fleet_talk.specs.Resumed.{IsRefusal, IsResumeFault, MayResume, world_after};

use crate::desk::Site;
use crate::live::serve_planned;
use fleet_core::World;
use fleet_history::Chapter;
use fleet_talk::{
    ChapterSink, Door, Ground, Manner, ResumeFault, Settings, TalkFault, world_with_door,
};
use fleet_world::Session;
use live_parts::{Journal, LiveEnds, LiveSettings};
use std::alloc::{Alloc, AllocError, Global};
use std::io::{Read, Write};
use std::sync::Wait;
use std::thread::Threads;
use std::time::Clock;

/// The world that goes on from a chapter, and its door. The chapter is dropped.
fn world_on(
    alloc: Global,
    ground: Ground,
    chapter: Chapter,
    roomy: bool,
) -> Result<(World, Door), ResumeFault>
    // Of each call: only a call with a condition may hand on closures that another crate hands out.
    requires { 0 ≤ vec_len ground.kit.plain.ties }
    ensures ok { IfOk result (λ r. r.0.core ≡ world_after (kit_laws ground.kit) ground.grid (drafted ground.head) (chapter_shown chapter)) }
    ensures may { OnOk result (MayResume (kit_laws ground.kit) ground.grid (drafted ground.head) (chapter_shown chapter)) }
    ensures fresh { IfOk result (λ r. IsFresh r.0.core) }
    ensures known { IfOk result (λ r. AreRoomyFor r.0.core.floor r.1.roominess.items) }
    ensures fault { IfErr result (λ fault. IsResumeFault roomy (kit_laws ground.kit) ground.grid (drafted ground.head) (chapter_shown chapter) fault) }
{
    let settings = Settings {
        marks: false,
        roll: None,
        roomy,
        manner: Manner::Plain,
    };
    world_with_door(alloc, ground, &chapter, settings)
}

/// Keeps a fleet in real time that goes on from a chapter: its world is that of `world_with_door`, and its orders, errands,
/// notices and ticks are numbered on. All else is as of `keep_live`. Returns whether a limit was met.
///
/// Refused as `world_with_door` is, and then as `planned` of fleet_talk (`TalkFault::NoRooms`), before a line is read; out of
/// memory may come at any point.
pub fn resume_live<
    R: Alloc<A = Global> + Clock + Threads + Sync + Wait + Copy + Send + Drop + 'static,
    I: Read + Send + Drop + 'static,
    W: Write + Send + Drop + 'static,
    P: Read + Send + Drop + 'static,
    Q: Write + Send + Drop + 'static,
    E: Write + Send + Drop + 'static,
    S: ChapterSink + Send + Drop + 'static,
    J: Journal + Drop,
>(
    rt: &R,
    ground: Ground,
    chapter: Chapter,
    settings: LiveSettings,
    ends: LiveEnds<I, W, P, Q, E, S, J>,
) -> Result<bool, ResumeFault>
    // Of each call: only a call with a condition may hand on closures.
    requires { 0 ≤ vec_len ground.kit.plain.ties }
    // A fleet goes on from the chapter.
    ensures may { OnOk result (MayResume (kit_laws ground.kit) ground.grid (drafted ground.head) (chapter_shown chapter)) }
    // None does, for this reason.
    ensures refused { IfErr result (λ fault. IsRefusal fault → IsResumeFault settings.roomy (kit_laws ground.kit) ground.grid (drafted ground.head) (chapter_shown chapter) fault) }
{
    let (cells, number) = (ground.grid.cell_count(), chapter.number);
    let mut ends = ends;
    let (world, door) = match world_on(rt.alloc(), ground, chapter, settings.roomy) {
        Ok(opened) => opened,
        Err(fault) => return Err(fault),
    };
    let clock = world.clock();
    match Session::over(rt.alloc(), world) {
        Ok(session) => {
            ends.sink.goes_on(number, clock);
            match serve_planned(rt, session, door, Site { settings, cells }, ends) {
                Ok(limited) => Ok(limited),
                Err(fault) => Err(ResumeFault::Talk(fault)),
            }
        }
        Err(AllocError) => Err(ResumeFault::Talk(TalkFault::NoMemory)),
    }
}
