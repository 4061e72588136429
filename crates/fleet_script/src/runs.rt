//! Scripts whose events are runs, so that a script takes no more memory than its text has lines.

ghost use Rattle.std.specs.Prelude.{◌≡◌, ◌++◌, IfOk, OnOk, replicate};
ghost use Rattle.fleet_script.specs.Runs.{unrolled, numbered, runs_plan};
ghost use Rattle.fleet_script.specs.Shown.{plan};

use crate::run::Run;
use crate::script::Script;
use fleet_book::{Event, Limits};
use std::alloc::{AllocError, Allocator, Global};

/// What a script says, as `Script`, with a run for each event line.
#[derive(Drop)]
pub struct ScriptRuns<A: Allocator + Copy = Global> {
    /// The start cells of robots 0, 1, ..
    pub starts: Vec<u32, A>,
    /// The number of clients.
    pub clients: u32,
    /// The limits, with the defaults of those that it does not name.
    pub limits: Limits,
    /// Whether the southern closures rank the cells, and not the plain ones.
    pub south: bool,
    /// How many turns each ticker makes in a serve, 1 to 1,000,000, by default 16.
    pub turns: u32,
    /// The events in order.
    pub runs: Vec<Run, A>,
}

/// Puts an item after the others, this many times.
fn add_times<T: Copy + Drop, A: Allocator + Copy>(
    items: &mut Vec<T, A>,
    item: T,
    times: u32,
) -> Result<(), AllocError>
    ensures { OnOk result (items.new.items ≡ items.old.items ++ replicate times item) }
{
    let count = items.len() + times as usize;
    items.resize(count, item)
}

/// The events of these runs, one after another.
fn events_of<A: Allocator + Copy>(alloc: A, runs: &[Run]) -> Result<Vec<Event, A>, AllocError>
    ensures { IfOk result (λ events. events.items ≡ unrolled runs.now) }
{
    let mut events = Vec::new(alloc);
    for run in runs {
        add_times(&mut events, run.event, run.times)?;
    }
    Ok(events)
}

/// The line of each event of these runs.
fn lines_of<A: Allocator + Copy>(alloc: A, runs: &[Run]) -> Result<Vec<u32, A>, AllocError>
    ensures { IfOk result (λ lines. lines.items ≡ numbered runs.now) }
{
    let mut lines = Vec::new(alloc);
    for run in runs {
        add_times(&mut lines, run.line, run.times)?;
    }
    Ok(lines)
}

impl<A: Allocator + Copy> ScriptRuns<A> {
    /// The same with a list of all its events. The only error is out of memory.
    pub fn unrolled(self, alloc: A) -> Result<Script<A>, AllocError>
        ensures { IfOk result (λ s. plan s ≡ runs_plan self) }
    {
        let events = events_of(alloc, &self.runs)?;
        let lines = lines_of(alloc, &self.runs)?;
        let ScriptRuns {
            starts,
            clients,
            limits,
            south,
            turns,
            runs: _,
        } = self;
        Ok(Script {
            starts,
            clients,
            limits,
            south,
            turns,
            events,
            lines,
        })
    }
}
