//! The sink of a fleet's chapters, and the chapters that wait for it.

ghost use Rattle.std.specs.Prelude.{◌≡◌, ◌∷◌, ◌++◌, [], Ok, Option, true, OnOk};
ghost use Rattle.fleet_grid.specs.Floor.{Floor};
ghost use Rattle.fleet_history.specs.History.{history_of};
ghost use Rattle.turns_law.specs.Turns.{Turns};
ghost use Rattle.fleet_talk.specs.Chapters.{Adds, IsSound, chapter_shown};
ghost use Rattle.live_parts.specs.Kept.{KeepsFirst};

use crate::stop::Stop;
use crate::unkept::Unkept;
use fleet_history::Chapter;
use fleet_talk::ChapterSink;
use std::alloc::{AllocError, Global};

/// With this many chapters that wait, the fleet stops.
const MOST_WAITING: usize = 16;

/// A sink, and the chapters that wait for it, in order. No chapter is kept before those that wait.
#[derive(Drop)]
pub struct Archive<S> {
    pub sink: S,
    pub waiting: Unkept,
}

impl<S: ChapterSink> Archive<S> {
    pub fn new(alloc: Global, sink: S) -> Archive<S>
        ensures sink { result.sink ≡ sink }
        ensures waiting { result.waiting ≡ [] }
    {
        Archive {
            sink,
            waiting: Unkept::new(alloc),
        }
    }

    /// Keeps the chapters that wait, in order, until one cannot be kept. Returns whether all were kept; with 16 or more
    /// that still wait the error is that a chapter could not be kept.
    pub fn keep(&mut self) -> Result<bool, Stop>
        ensures kept { KeepsFirst self.old.waiting self.new.waiting (S.kept self.old.sink) (S.kept self.new.sink) }
        ensures all { (result ≡ Ok true) → self.new.waiting ≡ [] }
    {
        match self.waiting.keep_on(&mut self.sink) {
            Ok(()) => Ok(true),
            Err(Stop::Sink) if self.waiting.len() < MOST_WAITING => Ok(false),
            Err(stop) => Err(stop),
        }
    }

    /// Keeps the last chapter, after those that wait.
    pub fn keep_last(&mut self, chapter: &Chapter) -> Result<(), Stop>
        requires sound { (turns : Option Turns) × (m : Floor) × IsSound turns m (history_of chapter.now) }
        ensures kept { OnOk result (Adds (S.kept self.old.sink) (S.kept self.new.sink) (self.old.waiting ++ chapter_shown chapter.now ∷ [])) }
    {
        self.waiting.keep_on(&mut self.sink)?;
        Ok(self.sink.keep(chapter)?)
    }
}
