//! The rings of the writers, and the chapters.

ghost use Rattle.std.specs.Prelude.{◌≡◌, ◌≤◌, ◌++◌, ◌∷◌, [], ℕ, List, Some, None, OnOk, false, length, map, option_map, true, unwrap_or};
ghost use Rattle.std.specs.declared.alloc.Global.{Global};
ghost use Rattle.rtrb.specs.Ring.{sent};
ghost use Rattle.fleet_talk.specs.Chapters.{ChapterView, chapter_in, chapter_shown};
ghost use Rattle.live_fleet.specs.Out.{out_of, text_at};
ghost use Rattle.live_parts.specs.Kept.{AreSound, IsKeepable};
ghost use Rattle.live_parts.specs.declared.stop.Stop.TheVariants.{NoMemory};
ghost use Rattle.fleet_live.specs.Logged.{HasAll, IsReady, log_view, stop_for};
ghost use Rattle.fleet_live.specs.Loop.{HandsOn};
ghost use Rattle.fleet_live.specs.Told.{ahead_at, handed_at};

use crate::archiving::Kept;
use crate::ends::Listeners;
use crate::handing::hand_texts;
use crate::logging::Log;
use crate::shelf::{Shelf, SoundChapters};
use crate::text_out::TextOut;
use crate::wake::Wake;
use fleet_history::Chapter;
use fleet_talk::ChapterSink;
use live_fleet::{Outboxes, Party};
use live_parts::{Journal, Stop};
use rtrb::{Producer, PushError};
use std::alloc::{Alloc, AllocError, Global};
use std::sync::{Arc, Wait};
use std::thread::{JoinHandle, Threads};
use std::time::Clock;

/// Where what is said goes: by conversation the ring of its writer, and the ring of the thread that keeps chapters.
#[derive(Drop)]
pub(crate) struct LiveListeners<S, J> {
    pub(crate) texts: Vec<TextOut>,
    pub(crate) chapters: Producer<Chapter, Global, SoundChapters>,
    pub(crate) shelf: Arc<Shelf>,
    /// What has the entries before anything is told that follows from them.
    pub(crate) log: Log<J>,
    /// Wakes the loop.
    pub(crate) wake: Arc<Wake>,
    /// The thread that keeps chapters, until the fleet has ended.
    pub(crate) keeper: Option<JoinHandle<Kept<S>>>,
    /// Whether the last chapter was kept, once that was tried.
    pub(crate) last: Option<Result<(), Stop>>,
    /// Whether turns come by themselves: then no turn waits until a chapter is kept.
    pub(crate) paced: bool,
}

/// Waits until the keeper has answered.
fn wait_for_keeper<R: Wait>(rt: &R, shelf: &Shelf, wake: &Wake) {
    for _ in rt.forever() {
        if shelf.is_answered() {
            return;
        }
        wake.sleep(rt);
    }
    unreachable!()
}

/// Gives a chapter to the keeper, once there is room in its ring.
fn give<R: Wait>(
    rt: &R,
    ring: &mut Producer<Chapter, Global, SoundChapters>,
    shelf: &Shelf,
    wake: &Wake,
    chapter: Chapter,
)
    requires sound { IsKeepable (chapter_shown chapter) }
    ensures { sent ring.new ≡ sent ring.old ++ chapter ∷ [] }
{
    let mut chapter = chapter;
    for _ in rt.forever() {
        match ring.push(chapter) {
            Ok(()) => return,
            Err(PushError::Full(back)) => chapter = back,
        }
        shelf.ask(rt);
        wait_for_keeper(rt, shelf, wake);
    }
    unreachable!()
}

/// Gives all chapters to the keeper, in their order.
fn give_all<R: Wait>(
    rt: &R,
    ring: &mut Producer<Chapter, Global, SoundChapters>,
    shelf: &Shelf,
    wake: &Wake,
    chapters: &mut Vec<Chapter>,
)
    requires sound { AreSound (map chapter_shown chapters.old.items) }
    ensures sent { sent ring.new ≡ sent ring.old ++ chapters.old.items }
    ensures none { chapters.new.items ≡ [] }
{
    while !chapters.is_empty() {
        let chapter = chapters.remove(0);
        give(rt, ring, shelf, wake, chapter);
    }
}

impl<S: ChapterSink + Drop, J: Journal + Drop> LiveListeners<S, J> {
    /// Gives the chapters that were handed out to the keeper. If turns are made on demand, waits until it has tried to
    /// keep them.
    fn hand_chapters<R: Wait>(&mut self, rt: &R, chapters: &mut Vec<Chapter>)
        requires sound { AreSound (map chapter_shown chapters.old.items) }
        ensures texts { self.new.texts ≡ self.old.texts }
        ensures sent { sent self.new.chapters ≡ sent self.old.chapters ++ chapters.old.items }
        ensures none { chapters.new.items ≡ [] }
        ensures log { self.new.log ≡ self.old.log }
    {
        let is_asked = !chapters.is_empty() || self.shelf.retries();
        give_all(rt, &mut self.chapters, &self.shelf, &self.wake, chapters);
        if is_asked {
            self.shelf.ask(rt);
            if !self.paced {
                wait_for_keeper(rt, &self.shelf, &self.wake);
            }
        }
    }

    /// Keeps the chapters that wait, and the last one after them. Where the journal could not be written none is: the
    /// journals have all that was told.
    fn keep_last<R: Threads + Wait>(
        &self,
        rt: &R,
        party: &Party,
        keeper: JoinHandle<Kept<S>>,
    ) -> Result<(), Stop> {
        self.shelf.close(rt);
        let Kept { mut archive, taken } = keeper.join(rt);
        taken?;
        if let Some(stop) = self.log.stop() {
            return Err(stop);
        }
        archive.keep_last(party.fleet.session.world.chapter())
    }

    /// Ends the thread that keeps chapters, and keeps the last one, if that is not done yet. Returns whether all were
    /// kept.
    pub(crate) fn end<R: Threads + Wait>(&mut self, rt: &R, party: &Party) -> Result<(), Stop>
        ensures texts { self.new.texts ≡ self.old.texts }
        ensures chapters { self.new.chapters ≡ self.old.chapters }
        ensures log { self.new.log ≡ self.old.log }
    {
        if let Some(keeper) = self.keeper.take() {
            self.last = Some(self.keep_last(rt, party, keeper));
        }
        self.last.unwrap_or(Ok(()))
    }

    /// Why the loop broke off: the journal could not be written, or memory ran out.
    pub(crate) fn why(&self) -> Stop
        ensures { result ≡ unwrap_or (option_map stop_for self.now.log.fault) NoMemory }
    {
        self.log.stop().unwrap_or(Stop::NoMemory)
    }

    /// Brings all entries that the journal has not yet down to the disk: those of the chapters that were handed out, and
    /// of the one that goes on. Returns whether it has all.
    fn bring_down(&mut self, party: &Party, chapters: &[Chapter]) -> bool
        requires ready { (before : List (ChapterView Global)) × IsReady (log_view J.logged self.old.log.journal self.old.log.number self.old.log.entries) before (map chapter_shown chapters.now) (chapter_in party.now.fleet.session.world.core) }
        requires sound { AreSound (map chapter_shown chapters.now) }
        ensures texts { self.new.texts ≡ self.old.texts }
        ensures chapters { self.new.chapters ≡ self.old.chapters }
        ensures logged { result ≡ true → (before : List (ChapterView Global)) → IsReady (log_view J.logged self.old.log.journal self.old.log.number self.old.log.entries) before (map chapter_shown chapters.now) (chapter_in party.now.fleet.session.world.core)
            → HasAll (log_view J.logged self.new.log.journal self.new.log.number self.new.log.entries) (before ++ map chapter_shown chapters.now) (chapter_in party.now.fleet.session.world.core) false }
    {
        let chapter = party.fleet.session.world.chapter();
        self.log.bring_down(chapters, chapter)
    }

    /// Hands on what was said, as much as its readers have room for, and all chapters.
    fn hand_on<R: Threads + Wait>(
        &mut self,
        rt: &R,
        party: &Party,
        out: &mut Outboxes,
    ) -> Result<(), AllocError>
        // Of each call: only a call with a condition may hand on closures.
        requires number { 0 ≤ party.now.fleet.session.world.core.number }
        requires within { (k : ℕ) → ahead_at self.old.texts.items k ≤ length (text_at (out_of out.old) k) }
        requires sound { AreSound (out_of out.old).chapters }
        ensures hands { OnOk result (HandsOn (handed_at self.old.texts.items) (handed_at self.new.texts.items) (ahead_at self.old.texts.items) (ahead_at self.new.texts.items)
            (map chapter_shown (sent self.old.chapters)) (map chapter_shown (sent self.new.chapters)) (out_of out.old) (out_of out.new)) }
        ensures none { OnOk result ((out_of out.new).chapters ≡ []) }
        ensures log { self.new.log ≡ self.old.log }
    {
        hand_texts(rt, &mut self.texts, &mut out.texts, party.has_ended)?;
        self.hand_chapters(rt, &mut out.chapters);
        if !party.has_ended {
            return Ok(());
        }
        // Whether all were kept is told once everything else is.
        let _kept = self.end(rt, party);
        Ok(())
    }
}

impl<S: ChapterSink + Drop, J: Journal + Drop> Listeners for LiveListeners<S, J> {
    ghost use Rattle.std.specs.Prelude.{map};
    ghost use Rattle.rtrb.specs.Ring.{sent};
    ghost use Rattle.fleet_talk.specs.Chapters.{chapter_shown};
    ghost use Rattle.fleet_live.specs.Logged.{log_view};
    ghost use Rattle.fleet_live.specs.Told.{ahead_at, handed_at};

    ghost told = { λ l k. handed_at l.texts.items k };

    ghost ahead = { λ l k. ahead_at l.texts.items k };

    ghost kept = { λ l. map chapter_shown (sent l.chapters) };

    ghost log = { λ l. log_view J.logged l.log.journal l.log.number l.log.entries };

    fn hand<R: Alloc<A = Global> + Clock + Threads + Wait>(
        &mut self,
        rt: &R,
        party: &Party,
        out: &mut Outboxes,
    ) -> Result<(), AllocError> {
        if !self.bring_down(party, &out.chapters) {
            return Err(AllocError);
        }
        self.hand_on(rt, party, out)
    }
}
