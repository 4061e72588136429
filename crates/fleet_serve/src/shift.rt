//! What all threads of a serve read.

ghost use Rattle.std.specs.Prelude.{◌≡◌, ◌++◌, ◌∷◌, [], List};
ghost use Rattle.fleet_book.specs.declared.event.Event.{Event};
ghost use Rattle.fleet_serve.specs.Posted.{HasCounted};

use crate::gate::Gate;
use crate::names::ScriptName;
use crate::new_client::NewClient;
use crate::served_client::ServedClient;
use fleet_book::Event;
use fleet_lanes::PostFault;
use fleet_office::Guest;
use std::marker::PhantomData;

/// The lines of a script, and the gate before them.
#[derive(Drop)]
pub struct Shift<'a, N: ScriptName, G> {
    events: &'a [Event],
    gate: &'a G,
    of: PhantomData<N>,
    ghost named: { events.now ≡ N.events },
}

/// Whether the line is the client's.
fn is_of(event: Event, number: u32) -> bool {
    match event {
        Event::Post(client, _) | Event::Collect(client) => client == number,
        Event::Take(_) | Event::Tick | Event::Give(_) | Event::Shut(_) => false,
    }
}

/// Runs a line if it is the client's, after asking the gate. Returns the count of posts that met a full lane, with this
/// one.
fn run_line<N: ScriptName, G: Gate>(
    guest: &mut Guest<N>,
    event: Event,
    line: u32,
    gate: &G,
    lane_full: u32,
) -> u32
    ensures { (events : List Event) → HasCounted events N.orders guest.old lane_full → HasCounted (events ++ event ∷ []) N.orders guest.new result }
{
    match event {
        Event::Post(client, order) if client == guest.number() => {
            gate.before(client, line);
            match guest.post(order) {
                Ok(_number) => lane_full,
                Err(PostFault::LaneFull(_)) => lane_full.saturating_add(1),
                Err(PostFault::Closed) => lane_full,
                Err(PostFault::NumbersSpent(_)) => lane_full,
            }
        }
        Event::Collect(client) if client == guest.number() => {
            gate.before(client, line);
            guest.collect();
            lane_full
        }
        _ => lane_full,
    }
}

impl<'a, N: ScriptName, G: Gate> Shift<'a, N, G> {
    /// The lines of a script, and the gate that is asked before each of them.
    pub fn new(events: &'a [Event], gate: &'a G) -> Shift<'a, N, G>
        requires { events.now ≡ N.events }
    {
        Shift {
            events,
            gate,
            of: PhantomData,
        }
    }

    /// Runs the client's lines in order.
    pub fn run(&self, new_client: NewClient<N>) -> ServedClient<N> {
        let mut guest = new_client.into_guest();
        let mut lane_full = 0;
        // The client's lines so far. The counter cannot overflow: a script has fewer than 2^32 lines.
        let mut line = 0u32;
        for at in 0..self.events.len() {
            let event = self.events[at];
            if is_of(event, guest.number()) {
                line = line.saturating_add(1);
            }
            lane_full = run_line(&mut guest, event, line, self.gate, lane_full);
        }
        ServedClient::new(guest, lane_full)
    }
}
