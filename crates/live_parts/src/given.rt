//! What a journal was given, in proofs alone.

ghost use Rattle.std.specs.Prelude.{◌≡◌, ◌∷◌, ◌++◌, [], List, OnErr, OnOk};
ghost use Rattle.std.specs.declared.alloc.Global.{Global};
ghost use Rattle.fleet_talk.specs.Chapters.{ChapterView, chapter_shown};
ghost use Rattle.live_parts.specs.Given.{logged_by};
ghost use Rattle.fleet_talk.specs.Journal.{with_first};

use fleet_history::Chapter;
use std::alloc::AllocError;
use std::snapshot::Snapshot;

/// Entries that a journal was given: those of this chapter, from this one on. It takes no memory: it is remembered in
/// proofs alone, for a `Journal` whose disk knows nothing of proofs.
#[derive(Drop)]
pub struct Given {
    pub chapter: Snapshot<Chapter>,
    pub from: Snapshot<usize>,
}

impl Given {
    /// Remembers that a journal was given a chapter's entries from this one on.
    pub fn note(given: &mut Vec<Given>, chapter: &Chapter, from: usize) -> Result<(), AllocError>
        ensures ok { OnOk result ((before : List (ChapterView Global)) → logged_by given.old.items ≡ with_first before (chapter_shown chapter.now) from
            → logged_by given.new.items ≡ before ++ chapter_shown chapter.now ∷ []) }
        ensures err { OnErr result (given.new.items ≡ given.old.items) }
    {
        let (chapter, from) = (Snapshot::of(chapter), Snapshot::of(&from));
        given.push(Given { chapter, from })?;
        Ok(())
    }
}
