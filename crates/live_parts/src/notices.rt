//! How many notices were told, by kind.

ghost use Rattle.std.specs.Prelude.{◌≡◌, ◌<◌};
ghost use Rattle.live_parts.specs.Notices.{kind, open_count, told_count, with_arrivals, with_verdict};

use fleet_book::Verdict;

/// How many kinds of verdicts there are.
const KINDS: usize = 13;

/// How many notices were told: verdicts by kind, and arrivals.
#[derive(Clone, Copy, Debug, PartialEq, Eq)]
pub struct Notices {
    /// Accepted, closed, withdrawn, and then the refusals by their numbers.
    pub verdicts: [u64; KINDS],
    pub arrived: u64,
}

/// The place of a verdict's kind.
fn place_of(verdict: Verdict) -> usize
    ensures place { result ≡ kind verdict }
    ensures within { result < 13 }
{
    match verdict {
        Verdict::Accepted(_) => 0,
        Verdict::Closed => 1,
        Verdict::Withdrawn => 2,
        Verdict::ClientClosed => 3,
        Verdict::NoRobot => 4,
        Verdict::RobotShut => 5,
        Verdict::NoCell => 6,
        Verdict::Blocked => 7,
        Verdict::Unreachable => 8,
        Verdict::QueueFull => 9,
        Verdict::LifeSpent => 10,
        Verdict::NoErrand => 11,
        Verdict::TooLate => 12,
    }
}

impl Notices {
    pub const NONE: Notices = Notices {
        verdicts: [0; KINDS],
        arrived: 0,
    };

    /// Counts a verdict.
    pub fn count_verdict(&mut self, verdict: Verdict)
        ensures { self.new ≡ with_verdict self.old verdict }
    {
        let place = place_of(verdict);
        self.verdicts[place] = self.verdicts[place].saturating_add(1);
    }

    /// Counts arrivals.
    pub fn count_arrivals(&mut self, arrivals: u32)
        ensures { self.new ≡ with_arrivals self.old arrivals }
    {
        self.arrived = self.arrived.saturating_add(u64::from(arrivals));
    }

    /// How many verdicts of this kind were told.
    pub(crate) fn count_of(&self, verdict: Verdict) -> u64
        ensures { result ≡ told_count self.now verdict }
    {
        self.verdicts[place_of(verdict)]
    }

    /// How many errands are open, by the notices that were told, where this many were open before: those that were
    /// accepted and neither withdrawn nor done.
    pub(crate) fn open(&self, before: u64) -> u64
        ensures { result ≡ open_count before self.now }
    {
        before
            .saturating_add(self.verdicts[0])
            .saturating_sub(self.verdicts[2])
            .saturating_sub(self.arrived)
    }
}
