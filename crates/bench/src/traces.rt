//! Measures a chapter: its memory, its text, and the text read back.

ghost use Rattle.std.specs.Prelude.{◌<◌, length};

use crate::kind::Kind;
use crate::lifelong::time_run;
use crate::measure::{Measure, print_measure};
use crate::memory::resident;
use crate::site::Site;
use crate::steps::FLEETS;
use crate::worlds::{Task, Work, measure_fleets};
use fleet_history::Chapter;
use fleet_trace::{read_trace, write_trace};
use fleet_world::World;
use std::alloc::{Alloc, Global};
use std::fs::Files;
use std::io::{self, ErrorKind};
use std::thread::Threads;
use std::time::{Clock, Instant};
use test_kit::Random;

/// The number of stations between which robots travel.
const STATIONS: usize = 64;

/// How many runs of the same length go before the last of those whose memory is measured: enough that what they keep is
/// far more than the memory that earlier runs gave back.
const BEFORE: u32 = 15;

/// A chapter of this number of robots, or of each: the memory of a tick, and the time for each entry.
pub(crate) fn measure_trace<R: Alloc<A = Global> + Clock + Files + Print + Threads + Sync>(
    rt: &R,
    kind: Kind,
    site: &Site,
    robots: Option<usize>,
) -> io::Result<()> {
    let mut random = Random::from_seed(11);
    let goals = site.goals(rt.alloc(), STATIONS, &mut random)?;
    let task = Task {
        map: kind.name(),
        work: Work::Trace,
        goals: &goals,
    };
    match robots {
        Some(robots) => measure_fleets(rt, kind, site, task, &[robots], &mut random),
        None => measure_fleets(rt, kind, site, task, &FLEETS, &mut random),
    }
}

/// The chapter of long runs. The memory is that of the runs after a first one, in which fields were searched.
pub(crate) fn time_trace<R: Alloc<A = Global> + Clock + Files + Print + Threads + Sync>(
    rt: &R,
    map: &str,
    world: &mut World,
    goals: &[u32],
    random: &mut Random,
) -> io::Result<()>
    requires { 0 < length goals.now }
{
    let robots = world.robots();
    let _warmed = time_run(rt, world, 0, goals, random)?;
    let (ticks, entries) = (world.clock(), world.chapter().entries.len());
    let before = resident(rt)?;
    let _run = time_run(rt, world, BEFORE, goals, random)?;
    let grown = resident(rt)?.saturating_sub(before);
    let ticks = world.clock().saturating_sub(ticks).max(1);
    let entries = world.chapter().entries.len().saturating_sub(entries);
    println!(rt;
        "trace_memory map={map} fleet={robots} ticks={ticks} entries={entries} bytes_a_tick={}",
        grown / ticks
    )?;
    time_text(rt, map, robots, world.chapter())
}

/// The text of a chapter, and the chapter read from it.
fn time_text<R: Alloc<A = Global> + Clock + Print>(
    rt: &R,
    map: &str,
    robots: usize,
    chapter: &Chapter,
) -> io::Result<()> {
    let entries = chapter.entries.len() as u64;
    let start = Instant::now(rt)?;
    let text = write_trace(rt.alloc(), chapter)?;
    let wrote = Measure::NONE.with(start.elapsed(rt)?.as_nanos());
    print_measure(rt, "trace_write", map, robots, entries, wrote)?;
    let read = Measure::NONE.with(time_reading(rt, text.as_bytes())?);
    print_measure(rt, "trace_read", map, robots, entries, read)
}

/// The nanoseconds in which a trace is read.
fn time_reading<R: Alloc<A = Global> + Clock>(rt: &R, text: &[u8]) -> io::Result<u128> {
    let start = Instant::now(rt)?;
    match read_trace(rt.alloc(), text) {
        Ok(_chapter) => Ok(start.elapsed(rt)?.as_nanos()),
        Err(_) => Err(io::Error::from(ErrorKind::OutOfMemory)),
    }
}
