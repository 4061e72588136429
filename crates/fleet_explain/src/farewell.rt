//! Farewells that an entry does not show, or shows and are not due.

ghost use Rattle.std.specs.Prelude.{◌≡◌, ◌==◌, ◌≤◌, IfOk, MatchOption, length, map};
ghost use Rattle.std.specs.List.{list_any};
ghost use Rattle.fleet_history.specs.History.{history_of, robots};
ghost use Rattle.fleet_history.specs.Legal.{IsLegal};
ghost use Rattle.fleet_trace.specs.Judged.{before, IsFirstIllegal};
ghost use Rattle.fleet_explain.specs.Only.{is_among, first_only, IsOnlyIn, HasNoOther};
ghost use Rattle.fleet_explain.specs.Details.{same_robot, IsFarewellDetail, IsTickDetail, shut_detail, IsDetail};

use crate::detail::Detail;
use fleet_grid::Grid;
use fleet_history::{Bye, Chapter, Entry};
use fleet_trace::landings_after;
use std::alloc::{AllocError, Global};

/// Whether one of the farewells is the robot's.
fn has_bye(byes: &[Bye], robot: u32) -> bool
    ensures { result ≡ list_any (λ b. b.robot == robot) byes.now }
{
    byes.iter().any(|bye| bye.robot == robot)
}

/// Whether the robot is one of those that say farewell.
fn is_among(byes: &[Bye], robot: u32) -> bool
    ensures { result ≡ is_among same_robot (map (λ b. b.robot) byes.now) robot }
{
    has_bye(byes, robot)
}

/// The first robot of these farewells that has none of the others, by the lists of the robots.
fn find_only(byes: &[Bye], others: &[Bye]) -> Option<u32>
    ensures { result ≡ first_only same_robot (map (λ b. b.robot) byes.now) (map (λ b. b.robot) others.now) }
{
    for bye in byes {
        if !is_among(others, bye.robot) {
            return Some(bye.robot);
        }
    }
    None
}

/// A robot of these farewells that has none of the others.
fn first_only(byes: &[Bye], others: &[Bye]) -> Option<u32>
    ensures { MatchOption result (HasNoOther same_robot (map (λ b. b.robot) byes.now) (map (λ b. b.robot) others.now)) (IsOnlyIn same_robot (map (λ b. b.robot) byes.now) (map (λ b. b.robot) others.now)) }
{
    find_only(byes, others)
}

/// What is wrong with the farewells that a tick shows, where these are due.
fn tick_farewells(due: &[Bye], shown: &[Bye]) -> Detail
    ensures { IsFarewellDetail (map (λ b. b.robot) due.now) (map (λ b. b.robot) shown.now) result }
{
    if let Some(robot) = first_only(due, shown) {
        return Detail::MissingFarewell(robot);
    }
    match first_only(shown, due) {
        Some(robot) => Detail::ExtraFarewell(robot),
        None => Detail::Nothing,
    }
}

/// What is wrong with the farewells that a tick to these cells shows, after this many entries of the chapter.
fn farewell_detail(
    alloc: Global,
    grid: &Grid,
    chapter: &Chapter,
    entries: usize,
    to: &[u32],
    shown: &[Bye],
) -> Result<Detail, AllocError>
    requires inside { entries ≤ length chapter.now.entries.items }
    requires legal { IsLegal grid.now (before (history_of chapter.now) entries) }
    requires robots { length to.now ≡ robots (history_of chapter.now) }
    ensures { IfOk result (λ detail. IsTickDetail (before (history_of chapter.now) entries) to.now shown.now detail) }
{
    let due = landings_after(alloc, grid, chapter, entries, to)?;
    Ok(tick_farewells(&due.leaving, shown))
}

/// What is wrong with the farewell that a shut shows.
fn shut_detail(robot: u32, farewell: Option<u32>) -> Detail
    ensures { result ≡ shut_detail robot farewell }
{
    match farewell {
        Some(_stamp) => Detail::ExtraFarewell(robot),
        None => Detail::MissingFarewell(robot),
    }
}

/// What is wrong with the farewells of the entry that breaks the sixth rule.
pub(crate) fn farewells_at(
    alloc: Global,
    grid: &Grid,
    chapter: &Chapter,
    at: u64,
) -> Result<Detail, AllocError>
    requires { IsFirstIllegal grid.now (history_of chapter.now) at 6 }
    ensures { IfOk result (λ detail. IsDetail grid.now (history_of chapter.now) at 6 detail) }
{
    let entries = at as usize - 1;
    match &chapter.entries[entries] {
        Entry::Tick { to, farewells, .. } => {
            let (to, farewells) = (to.as_slice(), farewells.as_slice());
            farewell_detail(alloc, grid, chapter, entries, to, farewells)
        }
        Entry::Shut { robot, farewell } => Ok(shut_detail(*robot, *farewell)),
        Entry::Take { .. } => Ok(Detail::Nothing),
    }
}
