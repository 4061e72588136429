//! Arrivals that a tick does not show, or shows and are not due.

ghost use Rattle.std.specs.Prelude.{◌≡◌, ◌≤◌, ◌&&◌, ◌==◌, IfOk, MatchOption, length, map};
ghost use Rattle.std.specs.List.{list_any};
ghost use Rattle.std.specs.Option.{option_map};
ghost use Rattle.fleet_history.specs.History.{history_of, robots};
ghost use Rattle.fleet_history.specs.Legal.{IsLegal, due_of, due};
ghost use Rattle.fleet_trace.specs.Judged.{before, IsFirstIllegal};
ghost use Rattle.fleet_explain.specs.Only.{is_among, first_only, IsOnlyIn, HasNoOther};
ghost use Rattle.fleet_explain.specs.Details.{named, is_same, IsArrivalDetail, IsDetail};

use crate::detail::Detail;
use fleet_grid::Grid;
use fleet_history::{Arrival, Chapter, Entry};
use fleet_trace::landings_after;
use std::alloc::{AllocError, Global};

/// Whose arrival a tick shows, or has to show.
#[derive(Clone, Copy, Debug, PartialEq, Eq)]
pub struct ArrivalName {
    /// The robot that arrives.
    pub robot: u32,
    /// The client of its errand.
    pub client: u32,
    /// The errand's number among the client's accepted errands.
    pub number: u64,
}

fn name_of(arrival: &Arrival) -> ArrivalName
    ensures { named result ≡ due_of arrival.now }
{
    ArrivalName {
        robot: arrival.robot,
        client: arrival.client,
        number: arrival.number,
    }
}

/// Whether one of the arrivals has this name.
fn has_name(arrivals: &[Arrival], name: ArrivalName) -> bool
    ensures { result ≡ list_any (λ a. is_same (due_of a) (named name)) arrivals.now }
{
    arrivals.iter().any(|arrival| {
        arrival.robot == name.robot
            && arrival.client == name.client
            && arrival.number == name.number
    })
}

/// Whether the arrival is one of these.
fn is_among(arrivals: &[Arrival], name: ArrivalName) -> bool
    ensures { result ≡ is_among is_same (map due_of arrivals.now) (named name) }
{
    has_name(arrivals, name)
}

/// The first of these arrivals that is none of the others, by the lists of their names.
fn find_only(arrivals: &[Arrival], others: &[Arrival]) -> Option<ArrivalName>
    ensures { option_map named result ≡ first_only is_same (map due_of arrivals.now) (map due_of others.now) }
{
    for arrival in arrivals {
        let name = name_of(arrival);
        if !is_among(others, name) {
            return Some(name);
        }
    }
    None
}

/// One of these arrivals that is none of the others.
fn first_only(arrivals: &[Arrival], others: &[Arrival]) -> Option<ArrivalName>
    ensures { MatchOption result (HasNoOther is_same (map due_of arrivals.now) (map due_of others.now)) (λ d. IsOnlyIn is_same (map due_of arrivals.now) (map due_of others.now) (named d)) }
{
    find_only(arrivals, others)
}

/// What is wrong with the arrivals that a tick shows, where these are due.
fn tick_arrivals(due: &[Arrival], shown: &[Arrival]) -> Detail
    ensures { IsArrivalDetail (map due_of due.now) (map due_of shown.now) result }
{
    if let Some(name) = first_only(due, shown) {
        return Detail::Missing(name);
    }
    match first_only(shown, due) {
        Some(name) => Detail::Extra(name),
        None => Detail::Nothing,
    }
}

/// What is wrong with the arrivals that a tick to these cells shows, after this many entries of the chapter.
fn arrival_detail(
    alloc: Global,
    grid: &Grid,
    chapter: &Chapter,
    entries: usize,
    to: &[u32],
    shown: &[Arrival],
) -> Result<Detail, AllocError>
    requires inside { entries ≤ length chapter.now.entries.items }
    requires legal { IsLegal grid.now (before (history_of chapter.now) entries) }
    requires robots { length to.now ≡ robots (history_of chapter.now) }
    ensures { IfOk result (λ detail. IsArrivalDetail (due (before (history_of chapter.now) entries) to.now) (map due_of shown.now) detail) }
{
    let landings = landings_after(alloc, grid, chapter, entries, to)?;
    Ok(tick_arrivals(&landings.arrived, shown))
}

/// What is wrong with the arrivals of the tick that breaks the fifth rule.
pub(crate) fn arrivals_at(
    alloc: Global,
    grid: &Grid,
    chapter: &Chapter,
    at: u64,
) -> Result<Detail, AllocError>
    requires { IsFirstIllegal grid.now (history_of chapter.now) at 5 }
    ensures { IfOk result (λ detail. IsDetail grid.now (history_of chapter.now) at 5 detail) }
{
    let entries = at as usize - 1;
    match &chapter.entries[entries] {
        Entry::Tick { to, arrived, .. } => {
            let (to, arrived) = (to.as_slice(), arrived.as_slice());
            arrival_detail(alloc, grid, chapter, entries, to, arrived)
        }
        Entry::Take { .. } => Ok(Detail::Nothing),
        Entry::Shut { .. } => Ok(Detail::Nothing),
    }
}
