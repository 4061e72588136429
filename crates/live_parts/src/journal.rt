//! Where a fleet's entries go before anything is told that follows from them.

ghost use Rattle.std.specs.Prelude.{◌≡◌, ◌∷◌, ◌++◌, [], List, OnOk, OnErr};
ghost use Rattle.std.specs.declared.alloc.Global.{Global};
ghost use Rattle.fleet_talk.specs.Chapters.{ChapterView, chapter_shown};
ghost use Rattle.fleet_talk.specs.Journal.{with_first};
ghost use Rattle.live_parts.specs.Kept.{IsKeepable};

use fleet_history::Chapter;
use fleet_talk::SinkFault;

/// What has the entries of a fleet, so that they stand whatever becomes of its program.
pub trait Journal {
    /// The chapters that it was given, in their order, each of them as far as it was given its entries.
    ghost logged: { Self → List (ChapterView Global) };

    /// Brings a chapter's entries from this place on down to the disk, after those before them, which are there. From
    /// the first on the journal of the chapter begins, with its opening. After a fault nothing may be told that follows
    /// from these entries, and no more are given.
    fn log(&mut self, chapter: &Chapter, from: usize) -> Result<(), SinkFault>
        requires sound { IsKeepable (chapter_shown chapter.now) }
        ensures ok { OnOk result ((before : List (ChapterView Global)) → logged self.old ≡ with_first before (chapter_shown chapter.now) from → logged self.new ≡ before ++ chapter_shown chapter.now ∷ []) }
        ensures err { OnErr result (logged self.new ≡ logged self.old) };
}
