//! What is counted of the entries of a fleet's chapters.

ghost use Rattle.std.specs.Prelude.{◌≡◌, ◌^◌, ◌-◌, length, map, min, sum_by};
ghost use Rattle.fleet_talk.specs.Chapters.{chapter_in, chapter_shown};
ghost use Rattle.live_parts.specs.Counts as tallies;
ghost use Rattle.live_parts.specs.Size as sizes;
ghost use Rattle.fleet_live.specs.Counts.{errands_in, with_chapter, with_entries, with_entry, with_handed, with_opening, with_order, with_tick};

use fleet_core::World;
use fleet_history::{Chapter, Entry, Opening, RobotState};
use fleet_talk::counted;
use live_parts::{ChapterSize, Notices, Tally, Timing};

/// What is counted since the fleet was opened.
#[derive(Clone, Copy)]
pub(crate) struct Counts {
    /// The number of the chapter that is being filled, and how many of its entries are counted.
    chapter: u32,
    entries: usize,
    /// Since the last line of counts.
    pub(crate) tally: Tally,
    pub(crate) all: Tally,
    pub(crate) timing: Timing,
    /// About how long the chapter is that is being filled.
    pub(crate) size: ChapterSize,
    pub(crate) notices: Notices,
    /// Whether robots have other next errands than when fields were last searched ahead.
    pub(crate) has_news: bool,
}

/// How many errands the queues of robots have.
fn errands_of(robots: &[RobotState]) -> u64
    ensures { result ≡ min (sum_by (λ r. length r.errands) robots.now) (2 ^ 64 - 1) }
{
    let mut errands = 0u64;
    for robot in robots {
        errands = errands.saturating_add(robot.errands.as_slice().len() as u64);
    }
    errands
}

/// How many errands the queues have at the opening of a chapter.
fn errands_in(opening: &Opening) -> u64
    ensures { result ≡ errands_in opening.now }
{
    errands_of(opening.robots.as_slice())
}

impl Counts {
    /// Of a fleet that was just opened, or goes on.
    pub(crate) fn new(world: &World, size: ChapterSize) -> Counts
        ensures chapter { result.chapter ≡ world.now.core.number }
        ensures entries { result.entries ≡ 0 }
        ensures size { result.size ≡ sizes.begun size (errands_in world.now.core.history.opening) }
    {
        let chapter = world.chapter();
        let mut size = size;
        size.begin(errands_in(&chapter.opening));
        Counts {
            chapter: chapter.number,
            entries: 0,
            tally: Tally::NONE,
            all: Tally::NONE,
            timing: Timing::NONE,
            size,
            notices: Notices::NONE,
            has_news: false,
        }
    }

    fn count_order(&mut self)
        ensures { self.new ≡ with_order self.old }
    {
        self.tally.count_orders(1);
        self.all.count_orders(1);
        self.size.add_orders(1);
        self.has_news = true;
    }

    fn count_tick(&mut self, arrived: u32)
        ensures { self.new ≡ with_tick self.old arrived }
    {
        self.tally.count_tick();
        self.all.count_tick();
        self.size.add_tick(arrived);
        self.notices.count_arrivals(arrived);
        self.has_news |= arrived > 0;
    }

    fn count(&mut self, entry: &Entry)
        ensures { self.new ≡ with_entry self.old entry.now }
    {
        match entry {
            Entry::Take { verdict, .. } => {
                self.count_order();
                self.notices.count_verdict(*verdict);
            }
            Entry::Tick { arrived, .. } => self.count_tick(counted(arrived.as_slice().len())),
            Entry::Shut { .. } => self.size.add_orders(1),
        }
    }

    fn count_all(&mut self, entries: &[Entry])
        ensures { self.new ≡ with_entries self.old entries.now }
    {
        for entry in entries {
            self.count(entry);
        }
    }

    /// Notes the chapter that is being filled.
    fn begin(&mut self, chapter: &Chapter)
        ensures { self.new ≡ with_opening self.old (chapter_shown chapter.now) }
    {
        if chapter.number != self.chapter {
            self.chapter = chapter.number;
            self.entries = 0;
            self.size.begin(errands_in(&chapter.opening));
        }
    }

    /// Counts the entries that a chapter has and that are not counted yet.
    fn count_in(&mut self, chapter: &Chapter)
        ensures { self.new ≡ with_chapter self.old (chapter_shown chapter.now) }
    {
        self.begin(chapter);
        let count = self.entries.min(chapter.entries.len());
        self.count_all(&chapter.entries[count..]);
        self.entries = chapter.entries.len();
    }

    /// Counts the entries of chapters that were handed out. One that comes before the chapter that was being filled is
    /// counted.
    fn count_handed(&mut self, handed: &[Chapter])
        ensures { self.new ≡ with_handed self.old (map chapter_shown handed.now) }
    {
        for chapter in handed {
            if chapter.number >= self.chapter {
                self.count_in(chapter);
            }
        }
    }

    /// Counts what was done since the last look: chapters were handed out, and another is being filled.
    pub(crate) fn note(&mut self, handed: &[Chapter], world: &World)
        ensures { self.new ≡ with_chapter (with_handed self.old (map chapter_shown handed.now)) (chapter_in world.now.core) }
    {
        self.count_handed(handed);
        self.count_in(world.chapter());
    }

    /// Notes how many microseconds after its deadline a turn begins.
    pub(crate) fn note_lateness(&mut self, micros: u64, period: u64)
        ensures { self.new ≡ record self.old { tally = tallies.with_lateness self.old.tally micros period; all = tallies.with_lateness self.old.all micros period } }
    {
        self.tally.note_lateness(micros, period);
        self.all.note_lateness(micros, period);
    }
}
