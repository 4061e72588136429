//! How many clients a fleet has, and its limits.

ghost use Rattle.std.specs.Prelude.{◌≡◌};
ghost use Rattle.fleet_c.specs.Forms.{limits_of};

use fleet_book::Limits;

/// How many bytes a setup has. A program that was made with another form of it says another number.
pub const SETUP_SIZE: u32 = 56;

/// The number of clients, 1 to 64, and the nine limits of a fleet; each has the range that `Limits` of fleet_book gives
/// it.
#[repr(C)]
#[derive(Clone, Copy)]
pub struct Setup {
    /// `SETUP_SIZE`.
    pub size: u32,
    pub clients: u32,
    pub life: u64,
    pub orders: u64,
    pub clock: u64,
    pub lane: u32,
    pub outlet: u32,
    pub queue: u32,
    pub mailbox: u32,
    pub chapter: u32,
    pub chapters: u32,
}

impl Setup {
    /// These limits, and this many clients.
    pub(crate) fn of(limits: Limits, clients: u32) -> Setup
        ensures limits { limits_of result ≡ limits }
        ensures clients { result.clients ≡ clients }
        ensures size { result.size ≡ SETUP_SIZE }
    {
        Setup {
            size: SETUP_SIZE,
            clients,
            life: limits.life,
            orders: limits.orders,
            clock: limits.clock,
            lane: limits.lane,
            outlet: limits.outlet,
            queue: limits.queue,
            mailbox: limits.mailbox,
            chapter: limits.chapter,
            chapters: limits.chapters,
        }
    }

    /// The limits.
    pub(crate) fn limits(&self) -> Limits
        ensures { result ≡ limits_of self.now }
    {
        Limits {
            lane: self.lane,
            outlet: self.outlet,
            queue: self.queue,
            mailbox: self.mailbox,
            life: self.life,
            orders: self.orders,
            clock: self.clock,
            chapter: self.chapter,
            chapters: self.chapters,
        }
    }
}
