//! What is compared of a run with closures.

ghost use Rattle.std.specs.Prelude.{◌≡◌, ◌↔◌};
ghost use Rattle.test_kit.specs.declared.finding.Finding.TheVariants.{AsTheRow};

use crate::finding::Finding;

/// What a run's closures noted, its stamps, and its robots' cells at the end.
#[derive(Clone, Copy, Debug)]
pub struct Noted<'a> {
    /// One number for all views that were shown, in their order.
    pub note: u64,
    /// The stamps of the run, tick by tick.
    pub stamps: &'a [u32],
    /// By robot.
    pub cells: &'a [u32],
}

impl Noted<'_> {
    /// Compares what a run noted with what was wanted of it. Names the first that differs: the views, the stamps, or
    /// the robots' cells at the end.
    pub fn compare(self, wanted: Noted<'_>) -> Finding
        ensures alike { (result ≡ AsTheRow) ↔
            ((self.entry.note ≡ wanted.entry.note)
            × (self.entry.stamps.now ≡ wanted.entry.stamps.now)
            × (self.entry.cells.now ≡ wanted.entry.cells.now)) }
    {
        if self.note != wanted.note {
            return Finding::Views;
        }
        if self.stamps != wanted.stamps {
            return Finding::Stamps;
        }
        if self.cells != wanted.cells {
            return Finding::Ways;
        }
        Finding::AsTheRow
    }
}
