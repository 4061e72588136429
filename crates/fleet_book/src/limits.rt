//! The limits of a fleet.

ghost use Rattle.std.specs.Prelude.{◌≡◌, ◌↔◌, IsTrue, MatchOption};
ghost use Rattle.fleet_book.specs.Limits.{AreValid, IsWithin, IsFirstOut, value_of};

use crate::limit::Limit;

/// What bounds a fleet, besides its map, its robots and its clients.
#[derive(Clone, Copy, Debug, PartialEq, Eq)]
pub struct Limits {
    /// Orders that a client's lane holds, 1 to 65,536.
    pub lane: u32,
    /// Notices that a client's outlet holds, 1 to 65,536.
    pub outlet: u32,
    /// Errands that a robot's queue holds, 1 to 65,536.
    pub queue: u32,
    /// Notices and unfinished errands of a client together, 2 to 65,536.
    pub mailbox: u32,
    /// Errands that a client may have accepted in all, 1 to 2^40.
    pub life: u64,
    /// Orders that a client may send in all, 2 to 2^62.
    pub orders: u64,
    /// Ticks in all, 1 to 2^48.
    pub clock: u64,
    /// Entries of a chapter of the history, 1 to 16,777,216.
    pub chapter: u32,
    /// Chapters in all, 1 to 4,294,967,295.
    pub chapters: u32,
}

impl Limits {
    /// The limits that the program uses if a script does not name them.
    pub const DEFAULT: Limits = Limits {
        lane: 64,
        outlet: 64,
        queue: 16,
        mailbox: 64,
        life: 1_000_000,
        orders: 1_000_000,
        clock: 1_000_000,
        chapter: 65_536,
        chapters: 1_000,
    };

    /// The value of a limit.
    pub fn value(&self, limit: Limit) -> u64
        ensures { result ≡ value_of self.now limit }
    {
        match limit {
            Limit::Lane => u64::from(self.lane),
            Limit::Outlet => u64::from(self.outlet),
            Limit::Queue => u64::from(self.queue),
            Limit::Mailbox => u64::from(self.mailbox),
            Limit::Life => self.life,
            Limit::Orders => self.orders,
            Limit::Clock => self.clock,
            Limit::Chapter => u64::from(self.chapter),
            Limit::Chapters => u64::from(self.chapters),
        }
    }

    /// Whether a limit is in its range.
    fn is_within(&self, limit: Limit) -> bool
        ensures { IsTrue result ↔ IsWithin self.now limit }
    {
        let value = self.value(limit);
        limit.least() <= value && value <= limit.most()
    }

    /// The first limit, in the order of the fields, that is out of its range.
    pub fn first_out(&self) -> Option<Limit>
        ensures { MatchOption result (AreValid self.now) (λ limit. IsFirstOut self.now limit) }
    {
        if !self.is_within(Limit::Lane) {
            Some(Limit::Lane)
        } else if !self.is_within(Limit::Outlet) {
            Some(Limit::Outlet)
        } else if !self.is_within(Limit::Queue) {
            Some(Limit::Queue)
        } else if !self.is_within(Limit::Mailbox) {
            Some(Limit::Mailbox)
        } else if !self.is_within(Limit::Life) {
            Some(Limit::Life)
        } else if !self.is_within(Limit::Orders) {
            Some(Limit::Orders)
        } else if !self.is_within(Limit::Clock) {
            Some(Limit::Clock)
        } else if !self.is_within(Limit::Chapter) {
            Some(Limit::Chapter)
        } else if !self.is_within(Limit::Chapters) {
            Some(Limit::Chapters)
        } else {
            None
        }
    }

    /// Whether each limit is in its range.
    pub fn is_valid(&self) -> bool
        ensures { IsTrue result ↔ AreValid self.now }
    {
        self.first_out().is_none()
    }
}
