//! What is recorded of a run, entry by entry.

ghost use Rattle.std.specs.Prelude.{◌≡◌, ◌++◌, ◌∷◌, [], ◌^◌, ◌<◌, map, OnOk, IfOk};
ghost use Rattle.fleet_stats.specs.Noted.{kind_of, taken_if, landed_by, take_noted, tick_noted, note_by, blank, begun_on};
ghost use Rattle.fleet_stats.specs.Rows.{shown};

use crate::rows::{Landed, Left, Leg, Taken, TickRow};
use crate::tick::{landed_by, legs_after, push_stood, tick_row};
use fleet_book::Verdict;
use fleet_history::{Arrival, Entry, RobotState};
use fleet_state::FleetState;
use std::alloc::{AllocError, Global};
use std::mem;

/// What is recorded of a run.
#[derive(Drop)]
pub(crate) struct Notes {
    /// The robots' ways to their front errands, by robot.
    pub(crate) legs: Vec<Leg>,
    /// A row for each tick.
    pub(crate) ticks: Vec<TickRow>,
    /// An errand for each arrival.
    pub(crate) landed: Vec<Landed>,
    /// The cell of each robot that stood, for each tick.
    pub(crate) stood: Vec<u32>,
    /// The acceptances.
    pub(crate) taken: Vec<Taken>,
    /// The kinds of all verdicts.
    pub(crate) kinds: Vec<u8>,
    /// The errands that are in the robots' queues after the last chapter so far.
    pub(crate) left: Vec<Left>,
}

/// The kind of a verdict: 0 accepted, the code of a refusal, 11 closed, 12 withdrawn.
fn kind_of(verdict: Verdict) -> u8
    ensures { result ≡ kind_of verdict }
{
    match verdict {
        Verdict::Accepted(_) => 0,
        Verdict::Closed => 11,
        Verdict::Withdrawn => 12,
        Verdict::ClientClosed => 1,
        Verdict::NoRobot => 2,
        Verdict::RobotShut => 3,
        Verdict::NoCell => 4,
        Verdict::Blocked => 5,
        Verdict::Unreachable => 6,
        Verdict::QueueFull => 7,
        Verdict::LifeSpent => 8,
        Verdict::NoErrand => 9,
        Verdict::TooLate => 10,
    }
}

/// Adds an acceptance, if the verdict's kind is that of one.
fn push_taken(taken: &mut Vec<Taken>, tick: u64, client: u32, kind: u8) -> Result<(), AllocError>
    ensures { OnOk result (taken.new.items ≡ taken.old.items ++ taken_if tick client kind) }
{
    if kind == 0 {
        taken.push(Taken { client, tick })?;
    }
    Ok(())
}

/// Adds the errands of arrivals, given the state before the tick.
fn push_landed(
    landed: &mut Vec<Landed>,
    state: &FleetState,
    to: &[u32],
    legs: &[Leg],
    arrived: &[Arrival],
) -> Result<(), AllocError>
    requires { state.now.tick < 2 ^ 63 }
    ensures { OnOk result (landed.new.items ≡ landed.old.items ++ map (landed_by state.now.tick state.now.waits state.now.cells to.now legs.now) arrived.now) }
{
    let (clock, waits, from) = (state.clock(), state.waits(), state.place());
    for arrival in arrived {
        landed.push(landed_by(clock, waits, from, to, legs, *arrival))?;
    }
    Ok(())
}

/// Records a tick, given the state before it.
fn note_tick(
    alloc: Global,
    state: &FleetState,
    to: &[u32],
    arrived: &[Arrival],
    notes: &mut Notes,
) -> Result<(), AllocError>
    requires { state.now.tick < 2 ^ 63 }
    ensures { OnOk result (shown notes.new ≡ tick_noted state.now.tick state.now.waits state.now.cells to.now arrived.now (shown notes.old)) }
{
    let (waits, from) = (state.waits(), state.place());
    let row = tick_row(state.clock(), waits, from, to, arrived);
    let after = legs_after(alloc, waits, from, to, arrived, &notes.legs)?;
    let before = mem::replace(&mut notes.legs, after);
    push_landed(&mut notes.landed, state, to, &before, arrived)?;
    push_stood(&mut notes.stood, waits, from, to)?;
    notes.ticks.push(row)?;
    Ok(())
}

/// Records a take, given the clock before it.
fn note_take(notes: &mut Notes, clock: u64, client: u32, verdict: Verdict) -> Result<(), AllocError>
    ensures { OnOk result (shown notes.new ≡ take_noted clock client verdict (shown notes.old)) }
{
    let kind = kind_of(verdict);
    push_taken(&mut notes.taken, clock, client, kind)?;
    notes.kinds.push(kind)?;
    Ok(())
}

/// Records an entry, given the state before it.
pub(crate) fn note(
    alloc: Global,
    state: &FleetState,
    entry: &Entry,
    notes: &mut Notes,
) -> Result<(), AllocError>
    requires { state.now.tick < 2 ^ 63 }
    ensures { OnOk result (shown notes.new ≡ note_by state.now.tick state.now.waits state.now.cells entry.now (shown notes.old)) }
{
    match entry {
        Entry::Take {
            client,
            order: _,
            verdict,
        } => note_take(notes, state.clock(), *client, *verdict),
        Entry::Tick {
            to,
            arrived,
            farewells: _,
        } => note_tick(alloc, state, to.as_slice(), arrived.as_slice(), notes),
        Entry::Shut {
            robot: _,
            farewell: _,
        } => Ok(()),
    }
}

/// The robots' ways before the first entry.
fn first_legs(alloc: Global, robots: &[RobotState]) -> Result<Vec<Leg>, AllocError>
    ensures { IfOk result (λ legs. legs.items ≡ map (λ x. begun_on x.cell) robots.now) }
{
    robots
        .iter()
        .map(|robot| Leg {
            from: robot.cell,
            steps: 0,
        })
        .collect(alloc)
}

/// Before the first entry.
pub(crate) fn blank(alloc: Global, robots: &[RobotState]) -> Result<Notes, AllocError>
    ensures { IfOk result (λ notes. shown notes ≡ blank robots.now) }
{
    Ok(Notes {
        legs: first_legs(alloc, robots)?,
        ticks: Vec::new(alloc),
        landed: Vec::new(alloc),
        stood: Vec::new(alloc),
        taken: Vec::new(alloc),
        kinds: Vec::new(alloc),
        left: Vec::new(alloc),
    })
}
