//! A core that goes on from the opening of a chapter.

ghost use Rattle.std.specs.Prelude.{◌≡◌, IfOk};
ghost use Rattle.fleet_core.specs.Resuming.{CanResume, MayResume, resumed_world};
ghost use Rattle.fleet_core.specs.inside.Resumed.{AreResumed};

use crate::hook_laws::HookLaws;
use crate::kernel::Core;
use crate::mailbox::Mailboxes;
use fleet_book::Limits;
use fleet_grid::Grid;
use fleet_history::{Chapter, Opening};
use fleet_state::FleetState;
use mover::{Manner, Mover};
use std::alloc::{AllocError, Allocator};
use std::mem;

/// What a world goes on with, besides its map, its opening, its limits and its closures' laws.
#[derive(Drop)]
pub(crate) struct Resumed<A: Allocator + Copy> {
    pub(crate) state: FleetState<A>,
    pub(crate) planner: Mover<A>,
    pub(crate) mailboxes: Mailboxes<A>,
}

/// The state, the planner and the mailboxes at an opening from which a world can go on.
pub(crate) fn resumed_at<A: Allocator + Copy>(
    alloc: A,
    grid: &Grid<A>,
    opening: &Opening<A>,
    limits: Limits,
) -> Result<Resumed<A>, AllocError>
    requires { MayResume grid.now opening.now limits }
    ensures { IfOk result (λ b. AreResumed grid.now opening.now limits b.state b.planner b.mailboxes) }
{
    let state = FleetState::open(alloc, opening, limits.queue)?;
    let clients = opening.clients.as_slice();
    let mailboxes = Mailboxes::resume(alloc, clients, &state, limits.mailbox)?;
    match Mover::resume(alloc, grid, &state, Manner::Plain) {
        Ok(planner) => Ok(Resumed {
            state,
            planner,
            mailboxes,
        }),
        // Plainly only memory can be missing.
        Err(_fault) => Err(AllocError),
    }
}

impl<A: Allocator + Copy> Core<A> {
    /// The core that goes on with the chapter of this number, from its opening and with the laws of its closures. Its
    /// mailboxes are empty.
    pub fn resume(
        alloc: A,
        grid: Grid<A>,
        number: u32,
        opening: Opening<A>,
        limits: Limits,
        laws: HookLaws<A>,
    ) -> Result<Core<A>, AllocError>
        requires { CanResume grid number opening limits laws }
        ensures { IfOk result (λ w. w ≡ resumed_world grid number opening limits laws) }
    {
        match resumed_at(alloc, &grid, &opening, limits) {
            Ok(resumed) => Ok(Core {
                grid,
                limits,
                ties: laws.ties,
                chapter: Chapter {
                    number,
                    opening,
                    entries: Vec::new(alloc),
                },
                state: resumed.state,
                planner: resumed.planner,
                mailboxes: resumed.mailboxes,
            }),
            Err(fault) => {
                // Each by a call: a drop that goes unsaid is proved anew, list by list.
                mem::drop(grid);
                mem::drop(opening);
                Err(fault)
            }
        }
    }
}
