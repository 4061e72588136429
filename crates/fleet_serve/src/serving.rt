//! A script is served: its clients and two tickers work at one office, and the office is concluded.

ghost use Rattle.std.specs.Prelude.{◌≡◌, ◌<◌, ◌^◌, ◌⊎◌, length, Some, None, Err, IfOk, IfErr};
ghost use Rattle.std.specs.List.{All};
ghost use Rattle.fleet_history.specs.History.{history_of, clock};
ghost use Rattle.fleet_history.specs.Legal.{IsLegal};
ghost use Rattle.fleet_history.specs.Laws.{EachTick};
ghost use Rattle.fleet_planner.specs.Planned.{IsPlanned};
ghost use Rattle.fleet_bound.specs.Bound.{WaitsAreBounded};
ghost use Rattle.fleet_bound.specs.Roomy.{AdvancesIfRoomy, HasBound};
ghost use Rattle.fleet_core.specs.Core.{opened_world, opening_of};
ghost use Rattle.fleet_core.specs.Hooks.{laws_of};
ghost use Rattle.fleet_core.specs.OpeningFaults.{IsNamed as IsNamedFault, IsRefused};
ghost use Rattle.fleet_office.specs.Views.{AreOn, IsNamed, cores};
ghost use Rattle.fleet_office.specs.declared.report.TurnCause.{TurnCause};
ghost use Rattle.fleet_serve.specs.inside.Faults.{IsLater, fault_of};
ghost use Rattle.fleet_serve.specs.inside.Ends.{IsEnd};
ghost use Rattle.fleet_serve.specs.Posted.{IsLine, AreNew, AllHaveRun, TakesPosted, TakesAll, AreFullCounted, AreLastNotices};

use crate::draining::make_last_turns;
use crate::gate::Gate;
use crate::names::ScriptName;
use crate::new_client::new_clients_of;
use crate::served::{ServeFault, Served};
use crate::served_client::{ServedClient, clients_of};
use crate::shift::Shift;
use crate::threads::{WorkEnd, work_all};
use fleet_core::OpenFault;
use fleet_grid::Grid;
use fleet_hooks::Hooks;
use fleet_lanes::Client;
use fleet_office::{ConcludeFault, Desk, Office, Ticker, TurnCause};
use fleet_script::Script;
use std::alloc::{Alloc, AllocError, Global};
use std::marker::Brand;
use std::sync::Wait;
use std::thread::Threads;

/// Why a serve ends with this fault of its opening.
fn opening_fault(fault: OpenFault) -> ServeFault
    ensures named { IsNamedFault fault → result ≡ ServeFault.Opening fault }
    ensures memory { fault ≡ OpenFault.NoMemory → result ≡ ServeFault.NoMemory }
    ensures only { (f : OpenFault) → result ≡ ServeFault.Opening f → (f ≡ fault) × IsNamedFault fault }
{
    match fault {
        OpenFault::NoMemory => ServeFault::NoMemory,
        named => ServeFault::Opening(named),
    }
}

/// Why a serve ends with this fault of its conclusion.
fn conclusion_fault(fault: ConcludeFault) -> ServeFault
    ensures { IsLater result }
{
    match fault {
        ConcludeFault::ChapterFull => ServeFault::ChapterFull,
        // Nobody is away, so what is left is out of memory.
        _ => ServeFault::NoMemory,
    }
}

/// Both tickers.
fn pair_of<N: ScriptName>(
    alloc: Global,
    first: Ticker<N>,
    second: Ticker<N>,
) -> Result<Vec<Ticker<N>>, AllocError> {
    let mut tickers = Vec::with_capacity(alloc, 2)?;
    tickers.push_reserved(first);
    tickers.push_reserved(second);
    Ok(tickers)
}

/// The clients of a drained office, how many of their posts met a full lane, and both tickers.
type OfficeParts<N> = (Vec<Client>, u32, Vec<Ticker<N>>);

/// Why the tickers stopped early, if one did: the first one's cause comes first.
fn first_cause(first: Option<TurnCause>, second: Option<TurnCause>) -> Option<TurnCause>
    ensures first { (cause : TurnCause) → first ≡ Some cause → result ≡ Some cause }
    ensures second { first ≡ None → result ≡ second }
{
    match first {
        Some(cause) => Some(cause),
        None => second,
    }
}

/// What is returned after the last turn.
fn parts_of<N: ScriptName>(
    alloc: Global,
    ran: Vec<ServedClient<N>>,
    first: Ticker<N>,
    second: Ticker<N>,
) -> Result<OfficeParts<N>, ServeFault>
    ensures later { IfErr result (λ fault. IsLater fault) }
    ensures on { IfOk result (λ r. AreOn N.rings (cores r.0.items)) }
    ensures ran { IfOk result (λ r. AllHaveRun N.events N.orders r.0.items r.1) }
{
    let tickers = pair_of(alloc, first, second)?;
    let (clients, lane_full) = clients_of(alloc, ran)?;
    Ok((clients, lane_full, tickers))
}

/// Makes the turns that are left when all threads have ended, with the first ticker. None is made where a ticker
/// stopped early.
fn wind_down<N: ScriptName, R: Alloc<A = Global> + Wait>(
    rt: &R,
    office: &Office<N>,
    home: WorkEnd<N>,
) -> Result<OfficeParts<N>, ServeFault>
    ensures later { IfErr result (λ fault. IsLater fault) }
    ensures first { (cause : TurnCause) → home.1.stopped ≡ Some cause → result ≡ Err (fault_of cause) }
    ensures second { (cause : TurnCause) → home.1.stopped ≡ None → home.2.stopped ≡ Some cause → result ≡ Err (fault_of cause) }
    ensures on { IfOk result (λ r. AreOn N.rings (cores r.0.items)) }
    ensures ran { IfOk result (λ r. AllHaveRun N.events N.orders r.0.items r.1) }
{
    let (mut ran, mut first, second) = home;
    let stopped = first_cause(first.stopped, second.stopped);
    match make_last_turns(rt, office, stopped, &mut first.ticker, ran.as_mut_slice()) {
        Ok(()) => parts_of(rt.alloc(), ran, first.ticker, second.ticker),
        Err(fault) => Err(fault),
    }
}

/// Concludes the drained office with its clients and tickers.
fn conclude<N: ScriptName, R: Alloc<A = Global> + Wait>(
    rt: &R,
    office: Office<N>,
    home: WorkEnd<N>,
) -> Result<Served, ServeFault>
    ensures later { IfErr result (λ fault. IsLater fault) }
    ensures ended { IfOk result (λ s. IsEnd N.start N.events N.orders (length N.rings) s.lane_full s.last.grid
        (history_of s.last.chapter) s.last.chapter.number s.last.tick s.last.rest.items) }
{
    let (clients, lane_full, tickers) = wind_down(rt, &office, home)?;
    match office.conclude(rt.alloc(), clients, tickers) {
        // No serve begins another chapter, so no call ends here.
        Ok(last) if last.chapter.number != 0 => {
            drop(last);
            Err(ServeFault::NoMemory)
        }
        Ok(last) => Ok(Served { last, lane_full }),
        Err((fault, home)) => {
            drop(home);
            Err(conclusion_fault(fault))
        }
    }
}

/// Lets the clients of an office that was just opened run their lines, with two tickers.
fn work<N: ScriptName + Send + Sync, R: Alloc<A = Global> + Threads + Sync + Wait, G: Gate + Sync>(
    rt: &R,
    office: &Office<N>,
    clients: Vec<Client>,
    ticker: Ticker<N>,
    script: &Script,
    gate: &G,
) -> Result<WorkEnd<N>, ServeFault>
    requires on { AreOn N.rings (cores clients.items) }
    requires fresh { AreNew N.orders clients.items }
    requires events { script.now.events.items ≡ N.events }
    ensures { IfErr result (λ fault. IsLater fault) }
{
    let mut first = ticker;
    // A ticker that was just opened has all parts of the ledger, so no call ends here.
    let Some(second) = first.split() else {
        return Err(ServeFault::NoMemory);
    };
    let new_clients = new_clients_of::<N>(rt.alloc(), clients)?;
    let shift = Shift::new(&script.events, gate);
    work_all(
        rt,
        office,
        new_clients,
        (first, second),
        script.turns,
        &shift,
    )
}

/// Lets the clients and two tickers of an office that was just opened work side by side, and concludes it.
fn serve_opened<
    N: ScriptName + Send + Sync,
    R: Alloc<A = Global> + Threads + Sync + Wait,
    G: Gate + Sync,
>(
    rt: &R,
    office: Office<N>,
    clients: Vec<Client>,
    ticker: Ticker<N>,
    script: &Script,
    gate: &G,
) -> Result<Served, ServeFault>
    requires on { AreOn N.rings (cores clients.items) }
    requires fresh { AreNew N.orders clients.items }
    requires events { script.now.events.items ≡ N.events }
    ensures later { IfErr result (λ fault. IsLater fault) }
    ensures ended { IfOk result (λ s. IsEnd N.start N.events N.orders (length N.rings) s.lane_full s.last.grid
        (history_of s.last.chapter) s.last.chapter.number s.last.tick s.last.rest.items) }
{
    let home = work(rt, &office, clients, ticker, script, gate)?;
    conclude(rt, office, home)
}

/// Opens an office over the desk, and serves the script there.
fn serve_at<
    N: ScriptName + Send + Sync,
    R: Alloc<A = Global> + Threads + Sync + Wait,
    G: Gate + Sync,
>(
    rt: &R,
    desk: Desk,
    grid: Grid,
    script: &Script,
    hooks: Hooks,
    gate: &G,
) -> Result<Served, ServeFault>
    requires named { IsNamed desk N.name N.parts N.rings }
    requires clients { length desk.clients ≡ script.now.clients }
    requires rings { length N.rings ≡ script.now.clients }
    requires fresh { AreNew N.orders desk.clients }
    requires limits { desk.limits ≡ script.now.limits }
    requires events { script.now.events.items ≡ N.events }
    requires orders { script.now.limits.orders ≡ N.orders }
    requires start { N.start ≡ opened_world grid script.now.starts.items script.now.clients script.now.limits (laws_of hooks) }
    ensures refused { (f : OpenFault) → result ≡ Err (ServeFault.Opening f) → IsRefused grid script.now.starts.items script.now.clients script.now.limits (laws_of hooks) f }
    ensures opens { (f : OpenFault) → IsRefused grid script.now.starts.items script.now.clients script.now.limits (laws_of hooks) f →
        (result ≡ Err (ServeFault.Opening f)) ⊎ (result ≡ Err ServeFault.NoMemory) }
    ensures ended { IfOk result (λ s. IsEnd (opened_world grid script.now.starts.items script.now.clients script.now.limits (laws_of hooks))
        script.now.events.items script.now.limits.orders script.now.clients s.lane_full s.last.grid
        (history_of s.last.chapter) s.last.chapter.number s.last.tick s.last.rest.items) }
{
    let alloc = rt.alloc();
    let starts = Vec::from_slice(alloc, &script.starts)?;
    match Office::<N>::open(alloc, desk, grid, starts, hooks) {
        Ok((office, clients, ticker)) => serve_opened(rt, office, clients, ticker, script, gate),
        Err(fault) => Err(opening_fault(fault)),
    }
}

/// Serves a script: a thread for each client runs its lines in order, and two threads with a ticker each make `turns`
/// turns each. Then one ticker makes turns until the lanes are empty and, on a bridgeless map, until no robot has an
/// errand, while all clients collect; and the office is concluded.
///
/// A post that meets a full lane is counted in `lane_full` and not tried again. A post of a client that is closed, or
/// that has no number left, sends nothing and is not counted. `ServeFault` says which fault comes first. The notices
/// that the clients collect are dropped.
pub fn serve<R: Alloc<A = Global> + Threads + Sync + Wait, G: Gate + Sync>(
    rt: &R,
    grid: Grid,
    script: &Script,
    hooks: Hooks,
    gate: &G,
) -> Result<Served, ServeFault>
    requires few { length script.now.events.items < 2 ^ 32 }
    requires lines { All (IsLine script.now.clients) script.now.events.items }
    // An opening is refused for the reason that stands first, or because memory ran out.
    ensures refused { (f : OpenFault) → result ≡ Err (ServeFault.Opening f) → IsRefused grid script.now.starts.items script.now.clients script.now.limits (laws_of hooks) f }
    ensures opens { (f : OpenFault) → IsRefused grid script.now.starts.items script.now.clients script.now.limits (laws_of hooks) f →
        (result ≡ Err (ServeFault.Opening f)) ⊎ (result ≡ Err ServeFault.NoMemory) }
    ensures first { IfOk result (λ s. s.last.chapter.number ≡ 0) }
    ensures floor { IfOk result (λ s. s.last.grid ≡ grid) }
    ensures opening { IfOk result (λ s. (history_of s.last.chapter).opening ≡ opening_of script.now.starts.items script.now.clients script.now.limits (laws_of hooks)) }
    ensures legal { IfOk result (λ s. IsLegal s.last.grid (history_of s.last.chapter)) }
    ensures planned { IfOk result (λ s. EachTick (IsPlanned s.last.grid (laws_of hooks).ties) (history_of s.last.chapter)) }
    ensures advancing { IfOk result (λ s. AdvancesIfRoomy s.last.grid (history_of s.last.chapter)) }
    ensures bounded { IfOk result (λ s. HasBound s.last.grid (history_of s.last.chapter) → WaitsAreBounded s.last.grid (history_of s.last.chapter)) }
    ensures tick { IfOk result (λ s. s.last.tick ≡ clock (history_of s.last.chapter)) }
    ensures posted { IfOk result (λ s. TakesPosted (history_of s.last.chapter) script.now.events.items script.now.clients) }
    ensures all { IfOk result (λ s. s.lane_full ≡ 0 → length script.now.events.items < script.now.limits.orders →
        TakesAll (history_of s.last.chapter) script.now.events.items script.now.clients) }
    ensures counted { IfOk result (λ s. AreFullCounted (history_of s.last.chapter) script.now.events.items script.now.limits.orders script.now.clients s.lane_full) }
    ensures rest { IfOk result (λ s. AreLastNotices (history_of s.last.chapter) s.last.rest.items script.now.clients) }
{
    match Desk::new(rt.alloc(), script.clients, script.limits) {
        Ok(desk) => serve_at::<Brand, R, G>(rt, desk, grid, script, hooks, gate),
        Err(OpenFault::Limits) => Err(ServeFault::Opening(OpenFault::Limits)),
        // Apart from its limits a desk is refused for memory alone.
        Err(_) => Err(ServeFault::NoMemory),
    }
}
