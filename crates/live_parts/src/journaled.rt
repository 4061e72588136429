//! A sink of chapters that has a journal of the one that goes on.

ghost use Rattle.std.specs.Prelude.{◌≡◌, ◌≤◌, List, OnErr, OnOk, length, option_map};
ghost use Rattle.std.specs.declared.alloc.Global.{Global};
ghost use Rattle.fleet_history.specs.History.{history_of};
ghost use Rattle.fleet_talk.specs.Chapters.{ChapterView, chapter_shown};
ghost use Rattle.fleet_talk.specs.Journal.{HasAll, IsAt, count_in, with_first, with_whole};
ghost use Rattle.live_parts.specs.Journaled.{journal_view};
ghost use Rattle.live_parts.specs.Kept.{IsKeepable};

use crate::journal::Journal;
use fleet_history::Chapter;
use fleet_talk::{ChapterSink, Door, SinkFault};

/// A sink of chapters, with a journal of the entries of the chapter that goes on, if one is written.
#[derive(Drop)]
pub struct Journaled<S, J> {
    sink: S,
    journal: Option<J>,
    /// The number of the chapter whose entries it was given last, and how many of them it has.
    number: u32,
    entries: usize,
    /// Why it could not be written, once that is so.
    fault: Option<SinkFault>,
}

/// Gives a journal a chapter's entries from this one on, if there are more.
fn log_from<J: Journal>(journal: &mut J, chapter: &Chapter, from: usize) -> Result<(), SinkFault>
    requires sound { IsKeepable (chapter_shown chapter.now) }
    ensures ok { OnOk result ((before : List (ChapterView Global)) → from ≤ length (history_of chapter.now).entries → J.logged journal.old ≡ with_first before (chapter_shown chapter.now) from
        → J.logged journal.new ≡ with_whole before (chapter_shown chapter.now)) }
    ensures err { OnErr result (J.logged journal.new ≡ J.logged journal.old) }
{
    if from >= chapter.entries.len() {
        return Ok(());
    }
    journal.log(chapter, from)
}

impl<S, J: Journal> Journaled<S, J> {
    /// A sink with a journal that has nothing yet.
    pub fn new(sink: S, journal: Option<J>) -> Journaled<S, J> {
        Journaled {
            sink,
            journal,
            number: 0,
            entries: 0,
            fault: None,
        }
    }

    /// Why the journal could not be written, if that is so.
    pub fn journal_fault(&self) -> Option<SinkFault>
        ensures { result ≡ self.now.fault }
    {
        self.fault
    }

    /// How many entries of a chapter the journal has.
    fn count_of(&self, chapter: &Chapter) -> usize
        ensures { result ≡ count_in (journal_view J.logged self.now.journal self.now.number self.now.entries self.now.fault) chapter.now.number }
    {
        if chapter.number == self.number {
            self.entries
        } else {
            0
        }
    }

    /// Gives the journal the entries of a chapter that it does not have yet.
    fn bring_down(&mut self, chapter: &Chapter) -> Result<(), SinkFault>
        requires sound { IsKeepable (chapter_shown chapter.now) }
        ensures sink { self.new.sink ≡ self.old.sink }
        ensures fault { self.new.fault ≡ self.old.fault }
        ensures ok { OnOk result ((before : List (ChapterView Global)) → IsAt (journal_view J.logged self.old.journal self.old.number self.old.entries self.old.fault) before (chapter_shown chapter.now)
            → HasAll (journal_view J.logged self.new.journal self.new.number self.new.entries self.new.fault) before (chapter_shown chapter.now)) }
        ensures err { OnErr result (option_map J.logged self.new.journal ≡ option_map J.logged self.old.journal) }
    {
        let from = self.count_of(chapter);
        if let Some(journal) = &mut self.journal {
            log_from(journal, chapter, from)?;
        }
        self.number = chapter.number;
        self.entries = chapter.entries.len();
        Ok(())
    }
}

impl<S: ChapterSink, J: Journal> ChapterSink for Journaled<S, J> {
    ghost use Rattle.live_parts.specs.Journaled.{journal_view};

    ghost kept = { λ s. S.kept s.sink };

    ghost journal = { λ s. journal_view J.logged s.journal s.number s.entries s.fault };

    fn keep(&mut self, chapter: &Chapter) -> Result<(), SinkFault> {
        self.sink.keep(chapter)
    }

    fn log(&mut self, chapter: &Chapter) -> bool {
        if self.fault.is_some() {
            return false;
        }
        match self.bring_down(chapter) {
            Ok(()) => true,
            Err(fault) => {
                self.fault = Some(fault);
                false
            }
        }
    }

    fn fault(&self) -> &str {
        self.sink.fault()
    }

    fn goes_on(&mut self, chapter: u32, tick: u64) {
        self.sink.goes_on(chapter, tick);
    }

    fn opened(&mut self, door: &Door) {
        self.sink.opened(door);
    }
}
