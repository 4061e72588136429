//! The thread that keeps chapters, while turns go on.

ghost use Rattle.std.specs.Prelude.{OnOk};
ghost use Rattle.fleet_live.specs.Taken.{TakesChapters};

use crate::shelf::{Shelf, SoundChapters, Standing};
use crate::wake::Wake;
use fleet_history::Chapter;
use fleet_talk::ChapterSink;
use live_parts::{Archive, Stop, kept_line, unkept_line};
use rtrb::Consumer;
use std::alloc::{Alloc, AllocError, Global};
use std::sync::{Arc, Wait};
use std::thread::{self, JoinHandle, Threads};
use std::time::Clock;

/// The microseconds since 1970, and 0 where the clock does not say it.
pub(crate) fn wall_micros<R: Clock>(rt: &R) -> u64 {
    match rt.since_1970() {
        Ok(time) => u64::try_from(time.as_micros()).unwrap_or(0),
        Err(_) => 0,
    }
}

/// Says which chapter could not be kept and why, or that the chapters are kept again, of which this was the first that
/// waited.
fn say_kept<R: Alloc<A = Global> + Wait, S: ChapterSink>(
    rt: &R,
    shelf: &Shelf,
    archive: &Archive<S>,
    first: Option<u32>,
) -> Result<(), AllocError> {
    if let Some(number) = archive.waiting.first_number() {
        let line = unkept_line(rt.alloc(), number, archive.sink.fault())?;
        return shelf.say(rt, line.as_str());
    }
    match first {
        Some(number) => {
            let line = kept_line(rt.alloc(), number)?;
            shelf.say(rt, line.as_str())
        }
        None => Ok(()),
    }
}

/// Takes the chapters out of the ring, and lets them wait after the others.
fn take_all<S: ChapterSink>(
    ring: &mut Consumer<Chapter, Global, SoundChapters>,
    archive: &mut Archive<S>,
    standing: &mut Standing,
) -> Result<(), AllocError>
    ensures { OnOk result (TakesChapters ring.old ring.new archive.old.waiting archive.new.waiting) }
{
    for _taken in 0..ring.slots() {
        let Ok(chapter) = ring.pop() else {
            return Ok(());
        };
        standing.last = Some(chapter.number);
        archive.waiting.push(chapter)?;
    }
    Ok(())
}

/// Keeps the chapters that wait, and those that come after them. One that cannot be kept waits, and that is said.
fn keep_all<R: Alloc<A = Global> + Clock + Wait, S: ChapterSink>(
    rt: &R,
    shelf: &Shelf,
    ring: &mut Consumer<Chapter, Global, SoundChapters>,
    archive: &mut Archive<S>,
    standing: &mut Standing,
) -> Result<(), Stop> {
    let (first, before) = (archive.waiting.first_number(), archive.waiting.len());
    take_all(ring, archive, standing)?;
    let all = archive.waiting.len();
    if all == before && !shelf.takes_retry() {
        return Ok(());
    }
    let kept = archive.keep();
    let now = archive.waiting.len();
    if now < all {
        standing.kept_at = wall_micros(rt);
    }
    standing.kept = standing.kept.saturating_add(all.saturating_sub(now) as u64);
    standing.waiting = now as u64;
    say_kept(rt, shelf, archive, first)?;
    match kept {
        Ok(_) => Ok(()),
        Err(stop) => Err(stop),
    }
}

/// Keeps chapters as they come, until that is to end.
fn keep_on<R: Alloc<A = Global> + Clock + Wait, S: ChapterSink>(
    rt: &R,
    shelf: &Shelf,
    wake: &Wake,
    ring: &mut Consumer<Chapter, Global, SoundChapters>,
    archive: &mut Archive<S>,
) -> Result<(), AllocError> {
    for _ in rt.forever() {
        let asked = shelf.wait(rt);
        let mut standing = shelf.standing(rt);
        if shelf.closes() {
            return take_all(ring, archive, &mut standing);
        }
        if let Err(stop) = keep_all(rt, shelf, ring, archive, &mut standing) {
            standing.stop = Some(stop);
        }
        shelf.note(rt, standing);
        shelf.answer(asked);
        wake.ring(rt);
    }
    unreachable!()
}

/// The chapters that wait when the fleet has ended, with their sink, and whether memory ran out.
#[derive(Drop)]
pub(crate) struct Kept<S> {
    pub(crate) archive: Archive<S>,
    pub(crate) taken: Result<(), AllocError>,
}

/// Starts the thread that keeps chapters.
pub(crate) fn start_keeper<
    R: Alloc<A = Global> + Clock + Threads + Wait + Copy + Send + Drop + 'static,
    S: ChapterSink + Send + Drop + 'static,
>(
    rt: &R,
    archive: Archive<S>,
    ring: Consumer<Chapter, Global, SoundChapters>,
    shelf: &Arc<Shelf>,
    wake: &Arc<Wake>,
) -> Result<JoinHandle<Kept<S>>, AllocError> {
    let (shelf, wake, own) = (Arc::try_clone(shelf)?, Arc::try_clone(wake)?, *rt);
    let keeper = thread::spawn(rt, move || {
        let (mut archive, mut ring) = (archive, ring);
        let taken = keep_on(&own, &shelf, &wake, &mut ring, &mut archive);
        Kept { archive, taken }
    });
    match keeper {
        Ok(keeper) => Ok(keeper),
        Err(_) => Err(AllocError),
    }
}
