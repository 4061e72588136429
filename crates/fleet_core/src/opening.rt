//! What the core of a world begins with.

ghost use Rattle.std.specs.List.{range_with_len};
ghost use Rattle.std.specs.Prelude.{◌≡◌, ◌≤◌, length, IfOk, OnOk, map, replicate};
ghost use Rattle.fleet_grid.specs.Floor.{Floor};
ghost use Rattle.fleet_history.specs.History.{unknown_client};
ghost use Rattle.fleet_core.specs.Core.{opening_of, robot_at};
ghost use Rattle.fleet_core.specs.Hooks.{AreOrderly, HaveCount};
ghost use Rattle.fleet_core.specs.Opening.{CanOpen};
ghost use Rattle.fleet_core.specs.inside.Begun.{AreMeans, IsOpened, IsBeginning};

use crate::hook_laws::HookLaws;
use crate::mailbox::Mailboxes;
use fleet_book::Limits;
use fleet_grid::Grid;
use fleet_history::{ClientState, Opening, RobotState, Row};
use fleet_hooks::StampLaw;
use fleet_state::FleetState;
use mover::{Manner, Mover};
use std::alloc::{AllocError, Allocator};
use std::mem;

/// A client at the opening of a world.
pub(crate) const NOBODY: ClientState = ClientState {
    taken: 0,
    accepted: 0,
    noticed: 0,
    closed: false,
};

/// The robots at the opening.
pub(crate) fn robots_at<A: Allocator + Copy>(
    alloc: A,
    starts: &[u32],
    arrivals: &[StampLaw],
    farewells: &[StampLaw],
) -> Result<Vec<RobotState<A>, A>, AllocError>
    requires arrivals { length arrivals.now ≡ length starts.now }
    requires farewells { length farewells.now ≡ length starts.now }
    ensures { IfOk result (λ robots. robots.items ≡ map (robot_at starts.now arrivals.now farewells.now) (range_with_len 0 (length starts.now))) }
{
    let mut robots = Vec::with_capacity(alloc, starts.len())?;
    for r in 0..starts.len() {
        robots.push_reserved(RobotState {
            cell: starts[r],
            shut: false,
            wait: None,
            errands: Row::new(alloc),
            arrival_law: arrivals[r],
            farewell_law: farewells[r],
        });
    }
    Ok(robots)
}

/// This many clients that have done nothing yet.
pub(crate) fn nobodies<A: Allocator + Copy>(
    alloc: A,
    count: usize,
) -> Result<Vec<ClientState, A>, AllocError>
    ensures { IfOk result (λ clients. clients.items ≡ replicate count unknown_client) }
{
    let mut clients = Vec::with_capacity(alloc, count)?;
    for _i in 0..count {
        clients.push_reserved(NOBODY);
    }
    Ok(clients)
}

/// The opening: the robots on their starts, and this many clients that did nothing.
fn opening_at<A: Allocator + Copy>(
    alloc: A,
    starts: &[u32],
    clients: u32,
    limits: Limits,
    laws: &HookLaws<A>,
) -> Result<Opening<A>, AllocError>
    requires { HaveCount (length starts.now) laws.now }
    ensures ok { IfOk result (λ opening. opening ≡ opening_of starts.now clients limits laws.now) }
    ensures orderly { OnOk result (AreOrderly laws.now) }
{
    let (arrivals, farewells) = (laws.arrivals.as_slice(), laws.farewells.as_slice());
    let robots = robots_at(alloc, starts, arrivals, farewells)?;
    let clients = nobodies(alloc, clients as usize)?;
    Ok(Opening {
        tick: 0,
        queue: limits.queue,
        life: limits.life,
        clients: Row::from_vec(clients),
        robots: Row::from_vec(robots),
    })
}

/// The opening, and the fleet's state at it.
fn opened<A: Allocator + Copy>(
    alloc: A,
    starts: &[u32],
    clients: u32,
    limits: Limits,
    laws: &HookLaws<A>,
) -> Result<(Opening<A>, FleetState<A>), AllocError>
    requires { (m : Floor) × CanOpen m starts.now clients limits laws.now }
    ensures { IfOk result (λ begun. IsOpened starts.now clients limits laws.now begun.0 begun.1) }
{
    let opening = opening_at(alloc, starts, clients, limits, laws)?;
    let state = FleetState::open(alloc, &opening, limits.queue)?;
    Ok((opening, state))
}

/// A planner of this many robots without goals, and this many empty mailboxes.
fn means<A: Allocator + Copy>(
    alloc: A,
    grid: &Grid<A>,
    robots: usize,
    clients: u32,
    room: u32,
) -> Result<(Mover<A>, Mailboxes<A>), AllocError>
    requires { robots ≤ 512 }
    ensures { IfOk result (λ means. AreMeans grid.now robots clients room means.0 means.1) }
{
    let mailboxes = Mailboxes::open(alloc, clients as usize, room)?;
    match Mover::open(alloc, grid, robots, Manner::Plain) {
        Ok(planner) => Ok((planner, mailboxes)),
        // Plainly only memory can be missing.
        Err(_fault) => Err(AllocError),
    }
}

/// What a world begins with, besides its map, its limits and its closures' laws.
#[derive(Drop)]
pub(crate) struct Beginning<A: Allocator + Copy> {
    pub(crate) opening: Opening<A>,
    pub(crate) state: FleetState<A>,
    pub(crate) planner: Mover<A>,
    pub(crate) mailboxes: Mailboxes<A>,
}

/// The beginning of a world that can be opened.
pub(crate) fn beginning_at<A: Allocator + Copy>(
    alloc: A,
    grid: &Grid<A>,
    starts: &[u32],
    clients: u32,
    limits: Limits,
    laws: &HookLaws<A>,
) -> Result<Beginning<A>, AllocError>
    requires { CanOpen grid.now starts.now clients limits laws.now }
    ensures { IfOk result (λ b. IsBeginning grid.now starts.now clients limits laws.now b.opening b.state b.planner b.mailboxes) }
{
    let (opening, state) = opened(alloc, starts, clients, limits, laws)?;
    match means(alloc, grid, starts.len(), clients, limits.mailbox) {
        Ok((planner, mailboxes)) => Ok(Beginning {
            opening,
            state,
            planner,
            mailboxes,
        }),
        Err(fault) => {
            // Each by a call: a drop that goes unsaid is proved anew, list by list.
            mem::drop(opening);
            mem::drop(state);
            Err(fault)
        }
    }
}
