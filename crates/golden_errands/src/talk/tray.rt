//! A sink that fails.

ghost use Rattle.std.specs.Prelude.{None};

use fleet_lib::{Chapter, ChapterSink, SinkFault};

/// Takes chapters in their order from one number on, and keeps none. It fails when this many were taken.
#[derive(Clone, Copy, Drop)]
pub(crate) struct Tray {
    pub(crate) first: u64,
    pub(crate) taken: u64,
    pub(crate) room: u64,
}

impl ChapterSink for Tray {
    ghost use Rattle.fleet_talk.specs.Journal.{no_journal};

    ghost kept = { λ _. None };

    ghost journal = { λ _. no_journal };

    fn keep(&mut self, chapter: &Chapter) -> Result<(), SinkFault> {
        let next = self.first.saturating_add(self.taken);
        if self.taken == self.room || u64::from(chapter.number) != next {
            return Err(SinkFault::File);
        }
        self.taken = self.taken.saturating_add(1);
        Ok(())
    }

    fn log(&mut self, _chapter: &Chapter) -> bool {
        true
    }
}
