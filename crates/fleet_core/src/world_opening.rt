//! The opening of a world: why it may be refused, and what it is made of.

ghost use Rattle.std.specs.Prelude.{Some, ◌≡◌, ◌≤◌, ◌<◌, ℕ, length, IfOk, MatchOption, map, IsTrue, ◌↔◌};
ghost use Rattle.fleet_core.specs.Opening.{AreOnFloor, CanOpen, CanStart};
ghost use Rattle.fleet_core.specs.OpeningFaults.{IsFirstOffFloor, AreShared, IsFirstShared, IsRefused, IsStartRefused};
ghost use Rattle.fleet_core.specs.Hooks.{laws_of, spare_laws, HaveCount};

use crate::faults::OpenFault;
use crate::robot_hooks::RobotHooks;
use fleet_book::Limits;
use fleet_grid::Grid;
use fleet_hooks::{Farewell, Hooks};
use std::alloc::{AllocError, Allocator};

/// The most robots that a world has.
pub(crate) const MOST_ROBOTS: usize = 512;

/// The most clients that a world has.
const MOST_CLIENTS: u32 = 64;

/// The first robot that does not start on floor.
fn first_off_floor<A: Allocator + Copy>(grid: &Grid<A>, starts: &[u32]) -> Option<u32>
    requires { length starts.now ≤ 512 }
    ensures { MatchOption result (AreOnFloor grid.now starts.now) (λ r. IsFirstOffFloor grid.now starts.now r) }
{
    for (r, cell) in starts.iter().enumerate() {
        if !grid.is_floor(*cell) {
            return Some(r as u32);
        }
    }
    None
}

/// The first robot after robot `i` that starts on its cell.
fn first_beside(starts: &[u32], i: usize) -> Option<u32>
    requires few { length starts.now ≤ 512 }
    requires known { i < length starts.now }
    ensures { MatchOption result ((j : ℕ) → AreShared starts.now i j → ⊥) (λ j. AreShared starts.now i j × ((l : ℕ) → AreShared starts.now i l → j ≤ l)) }
{
    for j in i + 1..starts.len() {
        if starts[j] == starts[i] {
            return Some(j as u32);
        }
    }
    None
}

/// The least pair of robots that start on one cell.
fn first_shared(starts: &[u32]) -> Option<(u32, u32)>
    requires { length starts.now ≤ 512 }
    ensures { MatchOption result ((i j : ℕ) → AreShared starts.now i j → ⊥) (λ p. IsFirstShared starts.now p.0 p.1) }
{
    for i in 0..starts.len() {
        if let Some(j) = first_beside(starts, i) {
            return Some((i as u32, j));
        }
    }
    None
}

/// Whether each list has one closure for each robot.
fn are_enough<A: Allocator + Copy>(hooks: &Hooks<A>, robots: usize) -> bool
    ensures { IsTrue result ↔ HaveCount robots (laws_of hooks.now) }
{
    hooks.ties.len() == robots && hooks.arrivals.len() == robots && hooks.farewells.len() == robots
}

/// Why a world with these starts, clients and limits is not opened, whatever its hooks; out of memory apart. The
/// reasons, in order: a limit or the number of clients is out of its range, there are not 1 to 512 robots, the first
/// robot that does not start on floor, the least two robots that start on one cell.
pub fn start_fault<A: Allocator + Copy>(
    grid: &Grid<A>,
    starts: &[u32],
    clients: u32,
    limits: Limits,
) -> Option<OpenFault>
    ensures { MatchOption result (CanStart grid.now starts.now clients limits) (λ fault. IsStartRefused grid.now starts.now clients limits fault) }
{
    if !limits.is_valid() || clients < 1 || clients > MOST_CLIENTS {
        return Some(OpenFault::Limits);
    }
    if starts.is_empty() || starts.len() > MOST_ROBOTS {
        return Some(OpenFault::NoRobots);
    }
    if let Some(r) = first_off_floor(grid, starts) {
        return Some(OpenFault::Start(r));
    }
    if let Some((i, j)) = first_shared(starts) {
        return Some(OpenFault::Shared(i, j));
    }
    None
}

/// Why a world is not opened, except out of memory.
pub(crate) fn opening_fault<A: Allocator + Copy>(
    grid: &Grid<A>,
    starts: &[u32],
    clients: u32,
    limits: Limits,
    hooks: &Hooks<A>,
) -> Option<OpenFault>
    ensures { MatchOption result (CanOpen grid.now starts.now clients limits (laws_of hooks.now)) (λ fault. IsRefused grid.now starts.now clients limits (laws_of hooks.now) fault) }
{
    if let Some(fault) = start_fault(grid, starts, clients, limits) {
        return Some(fault);
    }
    if !are_enough(hooks, starts.len()) {
        return Some(OpenFault::Hooks);
    }
    None
}

/// The farewells, of which none was called yet.
fn spare<A: Allocator + Copy>(
    alloc: A,
    hooks: Vec<Farewell, A>,
) -> Result<Vec<Option<Farewell>, A>, AllocError>
    ensures { IfOk result (λ farewells. spare_laws farewells.items ≡ map (λ h. Some h.law) hooks.items) }
{
    let mut farewells = Vec::with_capacity(alloc, hooks.len())?;
    for hook in hooks {
        farewells.push_reserved(Some(hook));
    }
    Ok(farewells)
}

/// The closures of the robots, of which no farewell was called yet.
pub(crate) fn robots_of<A: Allocator + Copy>(
    alloc: A,
    hooks: Hooks<A>,
) -> Result<RobotHooks<A>, AllocError>
    ensures ties { IfOk result (λ robots. robots.ties ≡ hooks.ties) }
    ensures arrivals { IfOk result (λ robots. robots.arrivals ≡ hooks.arrivals) }
    ensures farewells { IfOk result (λ robots. spare_laws robots.farewells.items ≡ map (λ h. Some h.law) hooks.farewells.items) }
{
    let Hooks {
        ties,
        arrivals,
        farewells,
    } = hooks;
    let farewells = spare(alloc, farewells)?;
    Ok(RobotHooks {
        ties,
        arrivals,
        farewells,
    })
}
