//! The source of events, and in proofs alone what was taken from it.

ghost use Rattle.std.specs.Prelude.{◌≡◌, ◌≤◌, ◌++◌, [], ◌∷◌, map, OnOk};
ghost use Rattle.fleet_live.specs.Loop.{heard_by};
ghost use Rattle.fleet_live.specs.Taken.{noted};

use crate::ends::{Asked, Events, Next};
use crate::source::Source;
use live_fleet::{Outboxes, Party};
use std::alloc::{Alloc, AllocError, Global};
use std::snapshot::Snapshot;
use std::sync::Wait;
use std::time::Clock;

/// An event that was taken, with the bytes of its line. It takes no memory: it is remembered in proofs alone.
#[derive(Drop)]
pub(crate) struct Noted {
    pub(crate) asked: Snapshot<Asked>,
    pub(crate) line: Snapshot<Vec<u8>>,
}

/// Where events come from, and those that were taken.
#[derive(Drop)]
pub(crate) struct LiveEvents {
    pub(crate) source: Source,
    pub(crate) taken: Vec<Noted>,
}

impl LiveEvents {
    /// Nothing was taken.
    pub(crate) fn new(alloc: Global, source: Source) -> LiveEvents
        ensures { result.taken.items ≡ [] }
    {
        LiveEvents {
            source,
            taken: Vec::new(alloc),
        }
    }
}

/// Remembers an event.
fn note(taken: &mut Vec<Noted>, asked: Asked, line: &Vec<u8>) -> Result<(), AllocError>
    ensures { OnOk result (map noted taken.new.items ≡ map noted taken.old.items ++ heard_by asked line.now.items ∷ []) }
{
    let (asked, line) = (Snapshot::of(&asked), Snapshot::of(line));
    match taken.push(Noted { asked, line }) {
        Ok(()) => Ok(()),
        Err(_) => Err(AllocError),
    }
}

impl Events for LiveEvents {
    ghost use Rattle.std.specs.Prelude.{map};
    ghost use Rattle.fleet_live.specs.Taken.{noted};

    ghost taken = { λ e. map noted e.taken.items };

    fn next<R: Alloc<A = Global> + Clock + Wait>(
        &mut self,
        rt: &R,
        party: &Party,
        out: &Outboxes,
        line: &mut Vec<u8>,
    ) -> Result<Next, AllocError> {
        let next = self.source.decide(rt, party, out, line)?;
        let Next::Hear(asked) = next else {
            return Ok(next);
        };
        if !party.can_hear(asked.cue(line), out) {
            // Not expected: what is decided can be heard.
            return Ok(Next::Hand);
        }
        note(&mut self.taken, asked, line)?;
        Ok(next)
    }
}
