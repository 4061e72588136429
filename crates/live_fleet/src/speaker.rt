//! A conversation's part in the fleet.

ghost use Rattle.std.specs.Prelude.{◌≡◌, ◌≤◌, ◌<◌, ◌↔◌, IsTrue};
ghost use Rattle.live_fleet.specs.declared.rest.Rest.TheVariants.{Nothing};

use crate::rest::Rest;
use live_parts::Rights;

/// Clients: those with numbers from `first` on, below `end`.
#[derive(Clone, Copy, Debug, PartialEq, Eq)]
pub struct Clients {
    pub first: u32,
    pub end: u32,
}

impl Clients {
    /// Whether a client is one of them.
    pub fn has(self, client: u32) -> bool
        ensures { IsTrue result ↔ ((self.first ≤ client) × (client < self.end)) }
    {
        self.first <= client && client < self.end
    }
}

/// A conversation: the clients for whom it speaks, what it may ask, and how far it is.
#[derive(Drop)]
pub struct Speaker {
    pub rights: Rights,
    pub clients: Clients,
    /// Whether it is shown each tick.
    pub watching: bool,
    /// How many of its lines were heard.
    pub lines: u64,
    pub rest: Rest,
}

impl Speaker {
    /// A conversation that has not begun.
    pub fn new(rights: Rights, clients: Clients, watching: bool) -> Speaker
        ensures { result ≡ record { rights = rights; clients = clients; watching = watching; lines = 0; rest = Nothing } }
    {
        Speaker {
            rights,
            clients,
            watching,
            lines: 0,
            rest: Rest::Nothing,
        }
    }
}
