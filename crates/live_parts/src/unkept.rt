//! Chapters that were handed out and are not kept yet.

ghost use Rattle.std.specs.Prelude.{◌≡◌, List, Option, [], ◌∷◌, ◌++◌, length, map, IsTrue, ◌↔◌, OnOk, OnErr, IfNone, IfSome};
ghost use Rattle.std.specs.declared.alloc.Global.{Global};
ghost use Rattle.fleet_grid.specs.Floor.{Floor};
ghost use Rattle.fleet_history.specs.History.{history_of};
ghost use Rattle.turns_law.specs.Turns.{Turns};
ghost use Rattle.fleet_talk.specs.Chapters.{ChapterView, IsSound, chapter_shown};
ghost use Rattle.live_parts.specs.Kept.{AreSound, KeepsFirst};

use crate::stop::Stop;
use fleet_history::Chapter;
use fleet_talk::{ChapterSink, SinkFault};
use std::alloc::{AllocError, Global};
use std::collections::VecDeque;
use std::marker::Model;
use std::mem;

/// Chapters that were handed out and are not kept yet, in order. Each is as `ChapterSink::keep` asks.
#[derive(Drop)]
pub struct Unkept {
    chapters: VecDeque<Chapter>,
}

impl Model for Unkept {
    ghost use Rattle.std.specs.Prelude.{List, map};
    ghost use Rattle.std.specs.declared.alloc.Global.{Global};
    ghost use Rattle.fleet_talk.specs.Chapters.{ChapterView, chapter_shown};
    ghost use Rattle.live_parts.specs.Kept.{AreSound};

    ghost Value = { List (ChapterView Global) };

    ghost view = { λ u. map chapter_shown u.chapters.items };

    ghost invariant = { λ u. AreSound (map chapter_shown u.chapters.items) };
}

/// Keeps chapters from the front on, and removes each that was kept.
fn keep_from_front<S: ChapterSink>(
    sink: &mut S,
    chapters: &mut VecDeque<Chapter>,
) -> Result<(), SinkFault>
    requires sound { AreSound (map chapter_shown chapters.old.items) }
    ensures kept { KeepsFirst (map chapter_shown chapters.old.items) (map chapter_shown chapters.new.items) (S.kept sink.old) (S.kept sink.new) }
    ensures sound { AreSound (map chapter_shown chapters.new.items) }
    ensures none { OnOk result (chapters.new.items ≡ []) }
{
    while let Some(chapter) = chapters.front() {
        sink.keep(chapter)?;
        mem::drop(chapters.pop_front());
    }
    Ok(())
}

impl Unkept {
    pub fn new(alloc: Global) -> Unkept
        ensures { result ≡ [] }
    {
        Unkept {
            chapters: VecDeque::new(alloc),
        }
    }

    pub fn is_empty(&self) -> bool
        ensures { IsTrue result ↔ (self.now ≡ []) }
    {
        self.chapters.is_empty()
    }

    /// Adds a chapter.
    pub fn push(&mut self, chapter: Chapter) -> Result<(), AllocError>
        requires sound { (turns : Option Turns) × (m : Floor) × IsSound turns m (history_of chapter) }
        ensures ok { OnOk result (self.new ≡ self.old ++ chapter_shown chapter ∷ []) }
        ensures err { OnErr result (self.new ≡ self.old) }
    {
        match self.chapters.push_back(chapter) {
            Ok(()) => Ok(()),
            Err(refused) => {
                mem::drop(refused);
                Err(AllocError)
            }
        }
    }

    /// How many they are.
    pub fn len(&self) -> usize
        ensures { result ≡ length self.now }
    {
        self.chapters.len()
    }

    /// The number of the first.
    pub fn first_number(&self) -> Option<u32>
        ensures none { IfNone result (self.now ≡ []) }
        ensures some { IfSome result (λ number. (chapter : ChapterView Global) × (rest : List (ChapterView Global)) × (self.now ≡ chapter ∷ rest) × (number ≡ chapter.number)) }
    {
        match self.chapters.front() {
            Some(chapter) => Some(chapter.number),
            None => None,
        }
    }

    /// Adds others, in their order. Out of memory, both stay as they were.
    pub fn append(&mut self, others: &mut Unkept) -> Result<(), AllocError>
        ensures ok { OnOk result ((self.new ≡ self.old ++ others.old) × (others.new ≡ [])) }
        ensures err { OnErr result ((self.new ≡ self.old) × (others.new ≡ others.old)) }
    {
        self.chapters.append(&mut others.chapters)
    }

    /// Keeps them on a sink, in order. Each that was kept is removed: after a fault the others are left.
    pub fn keep_on<S: ChapterSink>(&mut self, sink: &mut S) -> Result<(), Stop>
        ensures kept { KeepsFirst self.old self.new (S.kept sink.old) (S.kept sink.new) }
        ensures none { OnOk result (self.new ≡ []) }
    {
        Ok(keep_from_front(sink, &mut self.chapters)?)
    }
}
