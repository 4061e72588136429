//! A run: a list of events, done one after another from the opening of a world.

ghost use Rattle.std.specs.Prelude.{◌≡◌, ◌<◌, ◌^◌, ◌↔◌, ℕ, [], Err, IfOk, IfErr, OnOk, length, map, replicate, vec_len};
ghost use Rattle.fleet_bound.specs.Bound.{WaitsAreBounded};
ghost use Rattle.fleet_history.specs.Legal.{IsLegal};
ghost use Rattle.fleet_history.specs.Numbering.{AreNumbered};
ghost use Rattle.fleet_history.specs.Laws.{ArrivesInOrder, ArrivalsRise, HasNoConflict, AcceptsNoneClosed, EachTick};
ghost use Rattle.fleet_planner.specs.Planned.{IsPlanned};
ghost use Rattle.fleet_bound.specs.Roomy.{AdvancesIfRoomy, AreRoomy};
ghost use Rattle.fleet_core.specs.Hooks.{laws_of, AreOrderly};
ghost use Rattle.fleet_core.specs.Opening.{CanOpen};
ghost use Rattle.fleet_core.specs.OpeningFaults.{IsRefused, IsNamed};
ghost use Rattle.fleet_core.specs.Core.{opened_world};
ghost use Rattle.fleet_world.specs.Keeps.{talk};
ghost use Rattle.fleet_world.specs.Run.{Run, IsAtEvent, opened_state};
ghost use Rattle.fleet_world.specs.Laws.{KeepsRings, KeepsEachRing, CollectsInOrder, IsSameGround};
ghost use Rattle.fleet_world.specs.Played.{collected_of, end_of};
ghost use Rattle.fleet_world.specs.Talk.{opened_talk};
ghost use Rattle.fleet_world.specs.inside.Leftovers.{HasRoomFor};
ghost use Rattle.fleet_world.specs.inside.Shown.{Leads, with_reply};

use crate::faults::RunFault;
use crate::leftovers::{Leftovers, none_collected};
use crate::reply::Reply;
use crate::session::Session;
use fleet_book::{Event, Limits, Notice, Order};
use fleet_core::{OpenFault, World};
use fleet_grid::Grid;
use fleet_hooks::Hooks;
use std::alloc::{Alloc, AllocError, Allocator, Global};

/// What is left after a run. A list of lists has one list for each client, by number.
#[derive(Drop)]
pub struct Played<A: Allocator + Copy = Global> {
    pub world: World<A>,
    /// The orders that are left in each lane.
    pub lanes: Vec<Vec<Order, A>, A>,
    /// The notices that are left in each outlet.
    pub outlets: Vec<Vec<Notice, A>, A>,
    /// What each client collected.
    pub collected: Vec<Vec<Notice, A>, A>,
    /// One reply per event.
    pub replies: Vec<Reply, A>,
}

/// Does a list of events, one after another, from the opening of a world. Lanes and outlets are lists, bounded by
/// `lane` and `outlet`. A refused event changes nothing, and its reply says so; only out of memory ends the run, and
/// names the event.
///
/// The clause `run` ties the replies and the chapter to the events. What was sent and taken follows from the history
/// (`end_of`). `rings` says that what was sent, taken, given and collected agrees with this chapter; `each_ring` says
/// so of each client for any chapter. The `requires` is met by each call; without it no call could hand closures to
/// another crate.
pub fn run<A: Allocator + Copy, R: Alloc<A = A>>(
    rt: &R,
    grid: Grid<A>,
    starts: Vec<u32, A>,
    clients: u32,
    limits: Limits,
    hooks: Hooks<A>,
    events: &[Event],
) -> Result<Played<A>, RunFault>
    requires { clients < 2 ^ 32 }
    ensures refused { (fault : _) → IsNamed fault → ((result ≡ Err (RunFault.Opening fault)) ↔ IsRefused grid starts.items clients limits (laws_of hooks) fault) }
    ensures memory { (i : ℕ) → result ≡ Err (RunFault.NoMemory i) → i < length events.now }
    ensures run { IfOk result (λ p. Run (opened_state grid starts.items clients limits (laws_of hooks)) events.now p.replies.items (end_of p)) }
    ensures same { IfOk result (λ p. IsSameGround (opened_world grid starts.items clients limits (laws_of hooks)) p.world.core) }
    ensures counts { IfOk result (λ p. (vec_len p.lanes ≡ clients) × (vec_len p.outlets ≡ clients) × (vec_len p.collected ≡ clients)) }
    ensures legal { IfOk result (λ p. IsLegal p.world.core.floor p.world.core.history) }
    ensures rings { IfOk result (λ p. KeepsRings (end_of p)) }
    ensures each_ring { IfOk result (λ p. KeepsEachRing (end_of p)) }
    ensures once { IfOk result (λ p. CollectsInOrder p.world.core.history (collected_of p)) }
    ensures arrivals { IfOk result (λ p. ArrivesInOrder p.world.core.history) }
    ensures numbers { IfOk result (λ p. ArrivalsRise p.world.core.history) }
    ensures numbered { IfOk result (λ p. (client : ℕ) → AreNumbered p.world.core.history client) }
    ensures conflicts { IfOk result (λ p. HasNoConflict p.world.core.floor p.world.core.history) }
    ensures closes { IfOk result (λ p. AcceptsNoneClosed p.world.core.history) }
    ensures planned { IfOk result (λ p. EachTick (IsPlanned p.world.core.floor p.world.core.ties) p.world.core.history) }
    ensures advancing { IfOk result (λ p. AdvancesIfRoomy p.world.core.floor p.world.core.history) }
    ensures bounded { IfOk result (λ p. AreRoomy p.world.core.floor p.world.core.history → WaitsAreBounded p.world.core.floor p.world.core.history) }
{
    let opened = opened(rt.alloc(), grid, starts, clients, limits, hooks)?;
    let (mut session, (leftovers, mut collected)) = opened;
    match play(rt, &mut session, &mut collected, events) {
        Ok(replies) => Ok(close(session, leftovers, collected, replies)),
        Err(fault) => {
            abandon(session);
            Err(fault)
        }
    }
}

/// What clients will leave, and what each of them collected.
type Rooms<A> = (Leftovers<A>, Vec<Vec<Notice, A>, A>);

/// An opened session, and room for what its clients leave and collect.
fn opened<A: Allocator + Copy>(
    alloc: A,
    grid: Grid<A>,
    starts: Vec<u32, A>,
    clients: u32,
    limits: Limits,
    hooks: Hooks<A>,
) -> Result<(Session<A>, Rooms<A>), RunFault>
    requires { clients < 2 ^ 32 }
    ensures refused { (fault : _) → IsNamed fault → ((result ≡ Err (RunFault.Opening fault)) ↔ IsRefused grid starts.items clients limits (laws_of hooks) fault) }
    ensures memory { (i : ℕ) → result ≡ Err (RunFault.NoMemory i) → ⊥ }
    ensures can { OnOk result (CanOpen grid starts.items clients limits (laws_of hooks)) }
    ensures orderly { OnOk result (AreOrderly (laws_of hooks)) }
    ensures ok { IfOk result (λ o. talk o.0 ≡ opened_talk grid starts.items clients limits (laws_of hooks)) }
    ensures room { IfOk result (λ o. HasRoomFor o.1.0 clients) }
    ensures collected { IfOk result (λ o. map (λ v. v.items) o.1.1.items ≡ replicate clients []) }
{
    let session = match Session::open(alloc, grid, starts, clients, limits, hooks) {
        Ok(session) => session,
        Err(fault) => return Err(RunFault::Opening(fault)),
    };
    match rooms(alloc, clients as usize) {
        Ok(rooms) => Ok((session, rooms)),
        Err(AllocError) => {
            abandon(session);
            Err(RunFault::Opening(OpenFault::NoMemory))
        }
    }
}

/// Room for what this many clients leave, and what they collected before any event.
fn rooms<A: Allocator + Copy>(alloc: A, clients: usize) -> Result<Rooms<A>, AllocError>
    ensures room { IfOk result (λ r. HasRoomFor r.0 clients) }
    ensures collected { IfOk result (λ r. map (λ v. v.items) r.1.items ≡ replicate clients []) }
{
    let leftovers = Leftovers::with_room(alloc, clients)?;
    let collected = none_collected(alloc, clients)?;
    Ok((leftovers, collected))
}

/// Ends a session by a call of its own. A drop that goes unsaid would be proved again here, for each type in it.
fn abandon<A: Allocator + Copy>(session: Session<A>) {
    let _left = session.finish();
}

/// Does events, one after another, and adds what is collected. Out of memory ends it, and names the event.
fn play<A: Allocator + Copy, R: Alloc<A = A>>(
    rt: &R,
    session: &mut Session<A>,
    collected: &mut Vec<Vec<Notice, A>, A>,
    events: &[Event],
) -> Result<Vec<Reply, A>, RunFault>
    ensures leads { IfOk result (λ replies. Leads (talk session.old) (map (λ v. v.items) collected.old.items) events.now replies.items (talk session.new) (map (λ v. v.items) collected.new.items)) }
    ensures fault { IfErr result (λ fault. IsAtEvent (length events.now) fault) }
{
    let mut replies = Vec::new(rt.alloc());
    for i in 0..events.len() {
        let Ok(reply) = session.step(rt, events[i]) else {
            return Err(RunFault::NoMemory(i));
        };
        let Ok(()) = add_collected(collected, events[i], reply) else {
            return Err(RunFault::NoMemory(i));
        };
        if replies.push(reply).is_err() {
            return Err(RunFault::NoMemory(i));
        }
    }
    Ok(replies)
}

/// Adds the notice that was collected at an event, if one was, to what its client collected.
fn add_collected<A: Allocator + Copy>(
    collected: &mut Vec<Vec<Notice, A>, A>,
    event: Event,
    reply: Reply,
) -> Result<(), AllocError>
    ensures { OnOk result (map (λ v. v.items) collected.new.items ≡ with_reply event reply (map (λ v. v.items) collected.old.items)) }
{
    let Event::Collect(client) = event else {
        return Ok(());
    };
    let Reply::Collected(notice) = reply else {
        return Ok(());
    };
    let client = client as usize;
    if client < collected.len() {
        collected[client].push(notice)?;
    }
    Ok(())
}

/// What a session leaves, with what was collected and the replies to its events.
fn close<A: Allocator + Copy>(
    session: Session<A>,
    leftovers: Leftovers<A>,
    collected: Vec<Vec<Notice, A>, A>,
    replies: Vec<Reply, A>,
) -> Played<A>
    requires { HasRoomFor leftovers (vec_len session.waiting) }
    ensures world { result.world.core ≡ session.world.core }
    ensures lanes { map (λ v. v.items) result.lanes.items ≡ map (λ w. w.lane) session.waiting.items }
    ensures outlets { map (λ v. v.items) result.outlets.items ≡ map (λ w. w.outlet) session.waiting.items }
    ensures collected { result.collected ≡ collected }
    ensures replies { result.replies ≡ replies }
{
    let Session { world, waiting } = session;
    let left = leftovers.filled(waiting);
    Played {
        world,
        lanes: left.lanes,
        outlets: left.outlets,
        collected,
        replies,
    }
}
