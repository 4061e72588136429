//! Batches: what is done before what was said is handed on again.

ghost use Rattle.std.specs.Prelude.{◌≡◌, ◌<◌, ◌≤◌, ◌↔◌, true, IsTrue};
ghost use Rattle.fleet_live.specs.Batch.{after, place_after, with_deed, with_line};

/// How many lines of a conversation are heard in a row, and how many of all of them in a batch.
const MOST_IN_A_ROW: u32 = 64;

const MOST_LINES: u32 = 256;

/// After this many lines the loop looks whether a turn is due.
const MOST_UNTIMED: u32 = 16;

/// How far a batch is.
#[derive(Clone, Copy, Debug, PartialEq, Eq)]
pub(crate) struct Batch {
    /// The conversation whose lines are heard.
    pub(crate) at: usize,
    /// How many of its lines were heard in a row, how many of all in this batch, and how many since the clock was read.
    row: u32,
    all: u32,
    untimed: u32,
    /// Whether nothing was done in it yet.
    pub(crate) is_empty: bool,
    /// Whether nothing was done, and no time spent, since the clock was read.
    pub(crate) is_timed: bool,
}

impl Batch {
    pub(crate) const FIRST: Batch = Batch {
        at: 0,
        row: 0,
        all: 0,
        untimed: 0,
        is_empty: true,
        is_timed: false,
    };

    /// The next batch.
    pub(crate) fn next(self) -> Batch
        ensures { result ≡ after self }
    {
        Batch {
            row: 0,
            all: 0,
            is_empty: true,
            ..self
        }
    }

    /// Whether another line may be heard in this batch.
    pub(crate) fn has_room(&self) -> bool
        ensures { IsTrue result ↔ (self.now.row < 64) × (self.now.all < 256) }
    {
        self.row < MOST_IN_A_ROW && self.all < MOST_LINES
    }

    /// Counts a line, or a part of an answer.
    pub(crate) fn count(&mut self)
        ensures { self.new ≡ with_line self.old }
    {
        self.row = self.row.saturating_add(1);
        self.all = self.all.saturating_add(1);
        self.note_deed();
    }

    /// Notes that something was done.
    pub(crate) fn note_deed(&mut self)
        ensures { self.new ≡ with_deed self.old }
    {
        self.untimed = self.untimed.saturating_add(1);
        self.is_empty = false;
        self.is_timed = false;
    }

    /// Goes on to the next conversation, of this many.
    pub(crate) fn go_on(&mut self, places: usize)
        ensures { self.new ≡ record self.old { row = 0; at = place_after places self.old.at } }
    {
        self.row = 0;
        self.at = if self.at.saturating_add(1) < places {
            self.at.saturating_add(1)
        } else {
            0
        };
    }

    /// Whether the clock is to be read.
    pub(crate) fn is_timing_due(&self) -> bool
        ensures { IsTrue result ↔ (16 ≤ self.now.untimed) }
    {
        self.untimed >= MOST_UNTIMED
    }

    /// Notes that the clock was read.
    pub(crate) fn note_time(&mut self)
        ensures { self.new ≡ record self.old { untimed = 0; is_timed = true } }
    {
        self.untimed = 0;
        self.is_timed = true;
    }
}
