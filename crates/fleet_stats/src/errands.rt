//! The errands of a run: those that it accepted and did, and those that are left.

ghost use Rattle.std.specs.Prelude.{◌≡◌, ◌++◌, [], length, map, slice_index_or, IfOk, OnOk};
ghost use Rattle.std.specs.List.{flat_map};
ghost use Rattle.fleet_stats.specs.Rows.{times_of, all_times, accepted_before, time_in, accepted_at, served_if, served_of, served_rows, left_row_of, left_rows};

use crate::rows::{Landed, Left, LeftRow, Served, Taken};
use fleet_history::ClientState;
use std::alloc::{AllocError, Global};

/// The clocks at which errands of the client were accepted, in order.
fn times_of(alloc: Global, taken: &[Taken], client: usize) -> Result<Vec<u64>, AllocError>
    ensures { IfOk result (λ times. times.items ≡ times_of taken.now client) }
{
    taken
        .iter()
        .filter(|one| one.client as usize == client)
        .map(|one| one.tick)
        .collect(alloc)
}

/// Those of each client.
fn all_times(alloc: Global, taken: &[Taken], clients: usize) -> Result<Vec<Vec<u64>>, AllocError>
    ensures { IfOk result (λ times. map (λ one. one.items) times.items ≡ all_times taken.now clients) }
{
    let mut times = Vec::new(alloc);
    for client in 0..clients {
        let one = times_of(alloc, taken, client)?;
        times.push(one)?;
    }
    Ok(times)
}

/// How many errands of the client were accepted before the run.
fn accepted_before(clients: &[ClientState], client: u32) -> u64
    ensures { result ≡ accepted_before clients.now client }
{
    let client = client as usize;
    if client < clients.len() {
        clients[client].accepted
    } else {
        0
    }
}

/// The time of the errand of this number, where this many were accepted before these times.
fn time_in(before: u64, number: u64, times: &[u64]) -> Option<u64>
    ensures { result ≡ time_in before number times.now }
{
    if number <= before {
        return None;
    }
    times.get((number - before - 1) as usize).copied()
}

/// When the run accepted the client's errand of this number; `None` if it was accepted before.
fn accepted_at(clients: &[ClientState], times: &[Vec<u64>], client: u32, number: u64) -> Option<u64>
    ensures { result ≡ accepted_at clients.now (map (λ one. one.items) times.now) client number }
{
    let before = accepted_before(clients, client);
    if (client as usize) < times.len() {
        time_in(before, number, &times[client as usize])
    } else {
        time_in(before, number, &[])
    }
}

/// Adds an errand that was done, if the run accepted it.
fn push_served(
    served: &mut Vec<Served>,
    accepted: Option<u64>,
    done: Landed,
) -> Result<(), AllocError>
    ensures { OnOk result (served.new.items ≡ served.old.items ++ served_if accepted done) }
{
    if let Some(accepted) = accepted {
        served.push(Served { accepted, done })?;
    }
    Ok(())
}

/// Adds the errands that were done.
fn push_all_served(
    served: &mut Vec<Served>,
    clients: &[ClientState],
    times: &[Vec<u64>],
    landed: &[Landed],
) -> Result<(), AllocError>
    ensures { OnOk result (served.new.items ≡ served.old.items ++ flat_map (served_of clients.now (map (λ one. one.items) times.now)) landed.now) }
{
    for done in landed {
        let accepted = accepted_at(clients, times, done.client, done.number);
        push_served(served, accepted, *done)?;
    }
    Ok(())
}

/// The errands that a run accepted and did, in the order of arrival.
pub(crate) fn served_rows(
    alloc: Global,
    clients: &[ClientState],
    taken: &[Taken],
    landed: &[Landed],
) -> Result<Vec<Served>, AllocError>
    ensures { IfOk result (λ served. served.items ≡ served_rows clients.now taken.now landed.now) }
{
    let times = all_times(alloc, taken, clients.len())?;
    let mut served = Vec::new(alloc);
    push_all_served(&mut served, clients, &times, landed)?;
    Ok(served)
}

/// Adds the errands that are left.
fn push_all_left(
    rows: &mut Vec<LeftRow>,
    clients: &[ClientState],
    times: &[Vec<u64>],
    lefts: &[Left],
) -> Result<(), AllocError>
    ensures { OnOk result (rows.new.items ≡ rows.old.items ++ map (left_row_of clients.now (map (λ one. one.items) times.now)) lefts.now) }
{
    for left in lefts {
        rows.push(LeftRow {
            accepted: accepted_at(clients, times, left.client, left.number),
            left: *left,
        })?;
    }
    Ok(())
}

/// The errands that are left at the end of a run, by robot and place in its queue.
pub(crate) fn left_rows(
    alloc: Global,
    clients: &[ClientState],
    taken: &[Taken],
    lefts: &[Left],
) -> Result<Vec<LeftRow>, AllocError>
    ensures { IfOk result (λ rows. rows.items ≡ left_rows clients.now taken.now lefts.now) }
{
    let times = all_times(alloc, taken, clients.len())?;
    let mut rows = Vec::new(alloc);
    push_all_left(&mut rows, clients, &times, lefts)?;
    Ok(rows)
}
