//! Lines that no client's thread can run.

ghost use Rattle.std.specs.Prelude.{◌≡◌, ◌↔◌, IsTrue, IfNone, IfSome, length, slice_get, Some};
ghost use Rattle.std.specs.List.{All};
ghost use Rattle.fleet_script.specs.Runs.{unrolled, numbered};
ghost use Rattle.fleet_serve.specs.Posted.{IsLine, IsFirstOther, IsLineOfOther};

use fleet_book::Event;
use fleet_script::{Script, ScriptRuns};

/// Whether the event is a post or a collect of one of this many clients.
fn is_line(event: Event, clients: u32) -> bool
    ensures { IsTrue result ↔ IsLine clients event }
{
    match event {
        Event::Post(client, _) | Event::Collect(client) => client < clients,
        Event::Take(_) | Event::Tick | Event::Give(_) | Event::Shut(_) => false,
    }
}

/// The first event that is no post or collect of a client in range, by its place. None where all are.
pub fn first_other(script: &Script) -> Option<usize>
    ensures none { IfNone result (All (IsLine script.now.clients) script.now.events.items) }
    ensures some { IfSome result (λ at. IsFirstOther script.now.clients script.now.events.items at) }
{
    for at in 0..script.events.len() {
        if !is_line(script.events[at], script.clients) {
            return Some(at);
        }
    }
    None
}

/// The line of the first event that is no post or collect of a client in range, from 1. None where all are.
pub fn first_other_line(script: &ScriptRuns) -> Option<u32>
    ensures none { IfNone result (All (IsLine script.now.clients) (unrolled script.now.runs.items)) }
    ensures some { IfSome result (λ line. IsLineOfOther script.now.clients (unrolled script.now.runs.items) (numbered script.now.runs.items) line) }
{
    for at in 0..script.runs.len() {
        let run = script.runs[at];
        if !is_line(run.event, script.clients) {
            return Some(run.line);
        }
    }
    None
}
