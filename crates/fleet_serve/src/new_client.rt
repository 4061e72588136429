//! A client of an office before its first line.

ghost use Rattle.std.specs.Prelude.{◌≡◌, []};
ghost use Rattle.fleet_office.specs.Views.{AreOn, cores};
ghost use Rattle.fleet_serve.specs.Posted.{AreNew};

use crate::names::ScriptName;
use fleet_lanes::Client;
use fleet_office::Guest;
use std::alloc::{AllocError, Global};
use std::marker::Model;

/// A client of an office that has sent nothing.
#[derive(Drop)]
pub struct NewClient<N: ScriptName> {
    guest: Guest<N>,
}

impl<N: ScriptName> Model for NewClient<N> {
    ghost use Rattle.std.specs.Prelude.{◌≡◌, []};
    ghost use Rattle.std.specs.declared.alloc.Global.{Global};
    ghost use Rattle.fleet_lanes.specs.Ends.{ClientView};

    ghost Value = { ClientView Global };

    ghost view = { λ n. n.guest };

    ghost invariant = { λ n. (n.guest.sent ≡ []) × (n.guest.orders ≡ N.orders) };
}

impl<N: ScriptName> NewClient<N> {
    /// A client that has sent nothing yet.
    pub fn new(guest: Guest<N>) -> NewClient<N>
        requires fresh { guest.sent ≡ [] }
        requires orders { guest.orders ≡ N.orders }
        ensures { result ≡ guest }
    {
        NewClient { guest }
    }

    /// The client, which has sent nothing.
    pub fn into_guest(self) -> Guest<N>
        ensures same { result ≡ self }
        ensures fresh { result.sent ≡ [] }
        ensures orders { result.orders ≡ N.orders }
    {
        self.guest
    }
}

/// The clients of an office that was just opened.
pub(crate) fn new_clients_of<N: ScriptName>(
    alloc: Global,
    clients: Vec<Client>,
) -> Result<Vec<NewClient<N>>, AllocError>
    requires on { AreOn N.rings (cores clients.items) }
    requires fresh { AreNew N.orders clients.items }
{
    let mut new_clients = Vec::with_capacity(alloc, clients.len())?;
    for client in clients {
        let guest = Guest::new(client);
        let new_client = NewClient::new(guest);
        new_clients.push_reserved(new_client);
    }
    Ok(new_clients)
}
