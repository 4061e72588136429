//! Lines of a script that a serve does not take.

ghost use Rattle.std.specs.Prelude.{◌≡◌};
ghost use Rattle.fleet_script.specs.Runs.{unrolled, numbered};
ghost use Rattle.fleet_explain.specs.Served.{is_served, first_unserved};

use fleet_book::Event;
use fleet_script::Run;

/// Whether a client's thread can run the event: a post or a collect of one of this many clients.
fn is_served(event: Event, clients: u32) -> bool
    ensures { result ≡ is_served clients event }
{
    match event {
        Event::Post(client, _) | Event::Collect(client) => client < clients,
        Event::Take(_) | Event::Tick | Event::Give(_) | Event::Shut(_) => false,
    }
}

/// The line of the first of these events that a serve does not take.
pub(crate) fn first_unserved(clients: u32, runs: &[Run]) -> Option<u32>
    ensures { result ≡ first_unserved clients (unrolled runs.now) (numbered runs.now) }
{
    for run in runs {
        if !is_served(run.event, clients) {
            return Some(run.line);
        }
    }
    None
}
