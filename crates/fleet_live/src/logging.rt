//! How far the journal of a fleet is.

ghost use Rattle.std.specs.Prelude.{◌≡◌, ◌≤◌, ◌++◌, ◌∷◌, [], List, Option, IfSome, IsSome, None, OnOk, length, map, option_map, true, false};
ghost use Rattle.std.specs.declared.alloc.Global.{Global};
ghost use Rattle.fleet_history.specs.History.{history_of};
ghost use Rattle.fleet_talk.specs.Chapters.{ChapterView, chapter_shown};
ghost use Rattle.fleet_talk.specs.Journal.{with_first};
ghost use Rattle.live_parts.specs.Kept.{AreSound, IsKeepable};
ghost use Rattle.fleet_live.specs.Logged.{HasAll, IsAt, IsReady, count_at, is_due, log_view, stop_for, with_all};

use fleet_history::Chapter;
use fleet_talk::SinkFault;
use live_parts::{Journal, Stop};

/// The journal of a fleet, if one is written, and what it has.
#[derive(Drop)]
pub(crate) struct Log<J> {
    pub(crate) journal: Option<J>,
    /// The number of the chapter whose entries it was given last, and how many of them it has.
    pub(crate) number: u32,
    pub(crate) entries: usize,
    /// Why it could not be written, once that is so.
    pub(crate) fault: Option<SinkFault>,
}

/// Whether a chapter with this many entries is to be logged from this one on. A chapter that was handed out has a
/// journal also where it has no entry, so that none is missing between two others.
fn is_due(from: usize, count: usize, is_handed_out: bool) -> bool
    ensures { result ≡ is_due from count is_handed_out }
{
    if is_handed_out {
        from < count || from == 0
    } else {
        from < count
    }
}

/// Gives a journal a chapter's entries from this one on, if it is due.
fn log_from<J: Journal>(
    journal: &mut J,
    chapter: &Chapter,
    from: usize,
    is_handed_out: bool,
) -> Result<(), SinkFault>
    requires few { from ≤ length (history_of chapter.now).entries }
    requires first { (before : List (ChapterView Global)) × (J.logged journal.old ≡ with_first before (chapter_shown chapter.now) from) }
    requires sound { IsKeepable (chapter_shown chapter.now) }
    ensures ok { OnOk result ((before : List (ChapterView Global)) → J.logged journal.old ≡ with_first before (chapter_shown chapter.now) from
        → J.logged journal.new ≡ with_all before (chapter_shown chapter.now) is_handed_out) }
{
    if !is_due(from, chapter.entries.len(), is_handed_out) {
        return Ok(());
    }
    journal.log(chapter, from)
}

impl<J: Journal> Log<J> {
    /// The journal of a fleet that begins with the chapter of this number, of which nothing was done.
    pub(crate) fn new(journal: Option<J>, number: u32) -> Log<J>
        ensures journal { result.journal ≡ journal }
        ensures number { result.number ≡ number }
        ensures entries { result.entries ≡ 0 }
        ensures fault { result.fault ≡ None }
    {
        Log {
            journal,
            number,
            entries: 0,
            fault: None,
        }
    }

    /// How many entries of a chapter it has.
    fn count_of(&self, chapter: &Chapter) -> usize
        ensures { result ≡ count_at (log_view J.logged self.now.journal self.now.number self.now.entries) chapter.now.number }
    {
        if chapter.number == self.number {
            self.entries
        } else {
            0
        }
    }

    /// Gives it a chapter's entries that it has not yet.
    fn log_one(&mut self, chapter: &Chapter, is_handed_out: bool) -> Result<(), SinkFault>
        requires at { (before : List (ChapterView Global)) × IsAt (log_view J.logged self.old.journal self.old.number self.old.entries) before (chapter_shown chapter.now) }
        requires sound { IsKeepable (chapter_shown chapter.now) }
        ensures fault { self.new.fault ≡ self.old.fault }
        ensures ok { OnOk result ((before : List (ChapterView Global)) → IsAt (log_view J.logged self.old.journal self.old.number self.old.entries) before (chapter_shown chapter.now)
            → HasAll (log_view J.logged self.new.journal self.new.number self.new.entries) before (chapter_shown chapter.now) is_handed_out) }
    {
        let from = self.count_of(chapter);
        let Some(journal) = &mut self.journal else {
            return Ok(());
        };
        log_from(journal, chapter, from, is_handed_out)?;
        self.number = chapter.number;
        self.entries = chapter.entries.len();
        Ok(())
    }

    /// Gives it the entries of the chapters that were handed out, and of the one that goes on, as far as it has not got
    /// them yet.
    fn log_all(&mut self, handed_out: &[Chapter], chapter: &Chapter) -> Result<(), SinkFault>
        requires ready { (before : List (ChapterView Global)) × IsReady (log_view J.logged self.old.journal self.old.number self.old.entries) before (map chapter_shown handed_out.now) (chapter_shown chapter.now) }
        requires sound { AreSound (map chapter_shown handed_out.now) }
        requires last { IsKeepable (chapter_shown chapter.now) }
        ensures fault { self.new.fault ≡ self.old.fault }
        ensures ok { OnOk result ((before : List (ChapterView Global)) → IsReady (log_view J.logged self.old.journal self.old.number self.old.entries) before (map chapter_shown handed_out.now) (chapter_shown chapter.now)
            → HasAll (log_view J.logged self.new.journal self.new.number self.new.entries) (before ++ map chapter_shown handed_out.now) (chapter_shown chapter.now) false) }
    {
        let Some((one, others)) = handed_out.split_first() else {
            return self.log_one(chapter, false);
        };
        self.log_one(one, true)?;
        self.log_all(others, chapter)
    }

    /// The same; a fault is noted, and after one nothing more is asked of it. Returns whether all entries are on the
    /// disk: only then what follows from them may be told.
    pub(crate) fn bring_down(&mut self, handed_out: &[Chapter], chapter: &Chapter) -> bool
        requires ready { (before : List (ChapterView Global)) × IsReady (log_view J.logged self.old.journal self.old.number self.old.entries) before (map chapter_shown handed_out.now) (chapter_shown chapter.now) }
        requires sound { AreSound (map chapter_shown handed_out.now) }
        requires last { IsKeepable (chapter_shown chapter.now) }
        ensures faulty { IfSome self.old.fault (λ _. (result ≡ false) × (self.new ≡ self.old)) }
        ensures noted { result ≡ false → IsSome self.new.fault }
        ensures ok { result ≡ true → self.new.fault ≡ None }
        ensures logs { result ≡ true → (before : List (ChapterView Global)) → IsReady (log_view J.logged self.old.journal self.old.number self.old.entries) before (map chapter_shown handed_out.now) (chapter_shown chapter.now)
            → HasAll (log_view J.logged self.new.journal self.new.number self.new.entries) (before ++ map chapter_shown handed_out.now) (chapter_shown chapter.now) false }
    {
        if self.fault.is_some() {
            return false;
        }
        match self.log_all(handed_out, chapter) {
            Ok(()) => true,
            Err(fault) => {
                self.fault = Some(fault);
                false
            }
        }
    }

    /// Why the fleet is to stop, if the journal could not be written.
    pub(crate) fn stop(&self) -> Option<Stop>
        ensures { result ≡ option_map stop_for self.now.fault }
    {
        match self.fault {
            Some(SinkFault::File) => Some(Stop::Sink),
            Some(SinkFault::NoMemory) => Some(Stop::NoMemory),
            None => None,
        }
    }
}
