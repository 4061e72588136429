//! When turns were made, since the start.

ghost use Rattle.std.specs.Prelude.{◌≡◌, ◌<◌, ◌≤◌, ◌+◌, ◌-◌, ◌/◌};
ghost use Rattle.live_parts.specs.Histogram.{noted};
ghost use Rattle.live_parts.specs.Notices.{capped};

use crate::histogram::Histogram;

/// How late turns began, how long they took, and how many were left out.
#[derive(Clone, Copy, Debug, PartialEq, Eq)]
pub struct Timing {
    pub lateness: Histogram,
    pub turns: Histogram,
    /// How many deadlines went by without a turn.
    pub left_out: u64,
}

impl Timing {
    pub const NONE: Timing = Timing {
        lateness: Histogram::NONE,
        turns: Histogram::NONE,
        left_out: 0,
    };

    /// Notes that a turn began this long after its deadline, and how long it took.
    pub fn note_turn(&mut self, lateness: u64, micros: u64)
        ensures { self.new ≡ record self.old { lateness = noted lateness self.old.lateness; turns = noted micros self.old.turns } }
    {
        self.lateness.note(lateness);
        self.turns.note(micros);
    }

    /// Notes the deadline of the next turn after that of the last one: those between them are left out.
    pub fn note_next(&mut self, due: u64, next: u64, period: u64)
        requires { (0 < period) × (due + period ≤ next) }
        ensures { self.new ≡ record self.old { left_out = capped self.old.left_out ((next - due) / period - 1) } }
    {
        self.left_out = self.left_out.saturating_add((next - due) / period - 1);
    }
}
