//! A sink that counts, and may fail.

ghost use Rattle.std.specs.Prelude.{None};

use fleet_lib::{Chapter, ChapterSink, Journal, SinkFault};
use std::alloc::{AllocError, Global};
use std::sync::Arc;
use std::sync::atomic::{AtomicU64, Ordering};

/// What a tray was given.
#[derive(Drop)]
pub(crate) struct Counts {
    /// The number of the first chapter.
    first: u64,
    /// How many chapters were kept.
    chapters: AtomicU64,
    /// How many entries they have.
    entries: AtomicU64,
    /// How many were kept that do not follow the one before.
    astray: AtomicU64,
}

impl Counts {
    pub(crate) fn new(alloc: Global, first: u64) -> Result<Arc<Counts>, AllocError> {
        let counts = Counts {
            first,
            chapters: AtomicU64::new(0),
            entries: AtomicU64::new(0),
            astray: AtomicU64::new(0),
        };
        match Arc::new(alloc, counts) {
            Ok(counts) => Ok(counts),
            Err(_) => Err(AllocError),
        }
    }

    /// The line of what was kept.
    pub(crate) fn line(&self, alloc: Global) -> Result<String, AllocError> {
        let chapters = self.chapters.load(Ordering::SeqCst);
        let entries = self.entries.load(Ordering::SeqCst);
        let astray = self.astray.load(Ordering::SeqCst);
        if astray == 0 {
            format!(in alloc; "kept chapters {chapters} entries {entries}\n")
        } else {
            format!(in alloc; "kept chapters {chapters} astray {astray}\n")
        }
    }
}

/// A sink that counts what it is given, once it has failed so often.
#[derive(Drop)]
pub(crate) struct Tray {
    pub(crate) counts: Arc<Counts>,
    pub(crate) fails: u64,
}

impl ChapterSink for Tray {
    ghost use Rattle.fleet_talk.specs.Journal.{no_journal};

    ghost kept = { λ _. None };

    ghost journal = { λ _. no_journal };

    fn keep(&mut self, chapter: &Chapter) -> Result<(), SinkFault> {
        if self.fails > 0 {
            self.fails -= 1;
            return Err(SinkFault::File);
        }
        let before = self.counts.chapters.fetch_add(1, Ordering::SeqCst);
        if self.counts.first.saturating_add(before) != u64::from(chapter.number) {
            self.counts.astray.fetch_add(1, Ordering::SeqCst);
        }
        let entries = chapter.entries.len() as u64;
        self.counts.entries.fetch_add(entries, Ordering::SeqCst);
        Ok(())
    }

    fn log(&mut self, _chapter: &Chapter) -> bool {
        true
    }
}

/// The journal of a fleet that writes none.
#[derive(Drop)]
pub(crate) struct NoJournal;

impl Journal for NoJournal {
    ghost use Rattle.std.specs.Prelude.{[]};

    ghost logged = { λ _. [] };

    fn log(&mut self, _chapter: &Chapter, _from: usize) -> Result<(), SinkFault> {
        Err(SinkFault::File)
    }
}
