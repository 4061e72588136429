//! A client of an office that has run its lines.

ghost use Rattle.std.specs.Prelude.{◌≡◌, [], IfOk};
ghost use Rattle.fleet_office.specs.Views.{AreOn, cores};
ghost use Rattle.fleet_serve.specs.Posted.{HasCounted, AllHaveRun, KeepsSent};

use crate::names::ScriptName;
use fleet_lanes::Client;
use fleet_office::Guest;
use std::alloc::{AllocError, Global};
use std::marker::Model;

/// The greatest number of notices that an outlet holds.
const MOST_NOTICES: u32 = 65_536;

/// A client of an office that has run its lines, and how many of its posts met a full lane.
#[derive(Drop)]
pub struct ServedClient<N: ScriptName> {
    guest: Guest<N>,
    lane_full: u32,
}

impl<N: ScriptName> Model for ServedClient<N> {
    ghost use Rattle.std.specs.declared.alloc.Global.{Global};
    ghost use Rattle.fleet_serve.specs.Posted.{ServedClientView, HasCounted};

    ghost Value = { ServedClientView Global };

    ghost view = { λ r. record { client = r.guest; lane_full = r.lane_full } };

    ghost invariant = { λ r. HasCounted N.events N.orders r.guest r.lane_full };
}

/// Collects until nothing is found.
fn collect_all<N: ScriptName>(guest: &mut Guest<N>)
    ensures { KeepsSent guest.old guest.new }
{
    for _ in 0..=MOST_NOTICES {
        let Some(_notice) = guest.collect() else {
            return;
        };
    }
}

impl<N: ScriptName> ServedClient<N> {
    /// A client that has run its lines, and how many of its posts met a full lane.
    pub fn new(guest: Guest<N>, lane_full: u32) -> ServedClient<N>
        requires { HasCounted N.events N.orders guest lane_full }
        ensures { result ≡ record { client = guest; lane_full = lane_full } }
    {
        ServedClient { guest, lane_full }
    }

    /// Collects until nothing is found, and drops what it collects.
    pub fn collect_all(&mut self)
        ensures client { KeepsSent self.old.client self.new.client }
        ensures lane_full { self.new.lane_full ≡ self.old.lane_full }
    {
        collect_all(&mut self.guest)
    }

    /// How many of its posts met a full lane.
    pub fn lane_full(&self) -> u32
        ensures { result ≡ self.now.lane_full }
    {
        self.lane_full
    }

    /// The client, which has run its lines.
    pub fn into_guest(self) -> Guest<N>
        ensures same { result ≡ self.client }
        ensures ran { HasCounted N.events N.orders result self.lane_full }
    {
        self.guest
    }
}

/// The clients that have run their lines, and how many posts met a full lane.
pub(crate) fn clients_of<N: ScriptName>(
    alloc: Global,
    ran: Vec<ServedClient<N>>,
) -> Result<(Vec<Client>, u32), AllocError>
    ensures on { IfOk result (λ r. AreOn N.rings (cores r.0.items)) }
    ensures ran { IfOk result (λ r. AllHaveRun N.events N.orders r.0.items r.1) }
{
    let mut lane_full = 0u32;
    let mut clients = Vec::with_capacity(alloc, ran.len())?;
    for one in ran {
        lane_full = lane_full.saturating_add(one.lane_full());
        clients.push_reserved(one.into_guest().into_client());
    }
    Ok((clients, lane_full))
}
