//! Where a conversation's lines come from and where its answers go.

ghost use Rattle.std.specs.Prelude.{◌≡◌, [], ◌∷◌, List, Option, OnOk, OnErr};
ghost use Rattle.std.specs.declared.alloc.Global.{Global};
ghost use Rattle.fleet_grid.specs.Floor.{Floor};
ghost use Rattle.fleet_history.specs.History.{history_of};
ghost use Rattle.turns_law.specs.Turns.{Turns};
ghost use Rattle.fleet_talk.specs.Chapters.{Adds, ChapterView, IsSound, chapter_shown};
ghost use Rattle.fleet_talk.specs.Journal.{JournalView, Logs};

use crate::door::Door;
use fleet_history::Chapter;
use mover::Manner;
use std::alloc::AllocError;
use std::io::BufReader;

/// How a conversation is held.
#[derive(Clone, Copy, Debug, PartialEq, Eq)]
pub struct Settings {
    /// Whether the answer to line N ends with a line `. N`.
    pub marks: bool,
    /// Where a chapter is handed out unasked, the bytes that the text of one may have: before an event whose entry has no
    /// room, and before one that makes an entry where the text may be as long.
    pub roll: Option<u64>,
    /// Whether posts to cells that are not roomy for the fleet's robots are refused.
    pub roomy: bool,
    /// How the ticks of the fleet are planned.
    pub manner: Manner,
}

/// Why a chapter was not kept.
#[derive(Clone, Copy, Debug, PartialEq, Eq)]
pub enum SinkFault {
    /// A file could not be made or written.
    File,
    NoMemory,
}

impl From<AllocError> for SinkFault {
    ghost use Rattle.std.specs.Prelude.{◌≡◌};
    ghost use Rattle.fleet_talk.specs.declared.ends.SinkFault.TheVariants.{NoMemory};

    ghost from_gives = { λ _ e. e ≡ NoMemory };

    fn from(_error: AllocError) -> SinkFault {
        SinkFault::NoMemory
    }
}

/// Where a conversation's chapters go.
pub trait ChapterSink {
    /// The chapters that it kept, in order, where that is known; of files it is not.
    ghost kept: { Self → Option (List (ChapterView Global)) };

    /// What its journal has of them, if it writes one.
    ghost journal: { Self → JournalView };

    /// Keeps a chapter, which is legal, and each tick of which advances if its robots take no turns and all its errands go to
    /// roomy cells. After a fault it is not kept.
    fn keep(&mut self, chapter: &Chapter) -> Result<(), SinkFault>
        requires sound { (turns : Option Turns) × (m : Floor) × IsSound turns m (history_of chapter.now) }
        ensures ok { OnOk result (Adds (kept self.old) (kept self.new) (chapter_shown chapter.now ∷ [])) }
        ensures err { OnErr result (kept self.new ≡ kept self.old) }
        ensures journal { journal self.new ≡ journal self.old };

    /// Brings the entries of a chapter that its journal does not have yet down to the disk. Returns whether it has all of
    /// them: only then what follows from them may be told. After a fault no more are brought down. Without a journal there
    /// is nothing to do.
    fn log(&mut self, chapter: &Chapter) -> bool
        requires sound { (turns : Option Turns) × (m : Floor) × IsSound turns m (history_of chapter.now) }
        ensures logs { Logs (journal self.old) (journal self.new) (chapter_shown chapter.now) result }
        ensures kept { kept self.new ≡ kept self.old };

    /// What there is to say of the last chapter that it could not keep: its file, and why. Empty where that is not
    /// known.
    fn fault(&self) -> &str {
        ""
    }

    /// Learns that a fleet goes on, with the number of the chapter that was kept and the tick at its end.
    fn goes_on(&mut self, _chapter: u32, _tick: u64)
        ensures kept { kept self.new ≡ kept self.old }
        ensures journal { journal self.new ≡ journal self.old }
    {}

    /// Learns, when the fleet is open, to which cells posts are refused, and how many cells are not roomy.
    fn opened(&mut self, _door: &Door)
        ensures kept { kept self.new ≡ kept self.old }
        ensures journal { journal self.new ≡ journal self.old }
    {}
}

/// The reader of the lines, the writer of the answers, and the sink of the chapters.
#[derive(Drop)]
pub struct Ends<I, W, S> {
    pub input: BufReader<I>,
    pub output: W,
    pub sink: S,
}
