//! The queues that robots open with.

ghost use Rattle.std.specs.Prelude.{◌≡◌, ◌≤◌, IfOk, length, map};
ghost use Rattle.std.specs.List.{range_with_len};
ghost use Rattle.fleet_state.specs.Opened.{HaveRooms, queue_in};
ghost use Rattle.fleet_state.specs.inside.Fronts.{AreFronts};

use crate::landing::front_cell;
use fleet_history::RobotState;
use fleet_queue::{Errand, ErrandQueue};
use std::alloc::{AllocError, Allocator};

/// The queues of the robots of an opening, each with its room.
pub(crate) fn queues_of<A: Allocator + Copy>(
    alloc: A,
    states: &[RobotState<A>],
    rooms: &[u32],
) -> Result<Vec<ErrandQueue<A>, A>, AllocError>
    requires { HaveRooms rooms.now states.now }
    ensures { IfOk result (λ queues. queues.items ≡ map (queue_in rooms.now states.now) (range_with_len 0 (length states.now))) }
{
    let mut queues = Vec::new(alloc);
    for r in 0..states.len() {
        queues.push(queue_of(alloc, states[r].errands.as_slice(), rooms[r])?)?;
    }
    Ok(queues)
}

/// The cells of the queues' first errands.
pub(crate) fn fronts_of<A: Allocator + Copy>(
    alloc: A,
    queues: &[ErrandQueue<A>],
) -> Result<Vec<u32, A>, AllocError>
    ensures { IfOk result (λ fronts. AreFronts queues.now fronts.items) }
{
    let mut fronts = Vec::new(alloc);
    for r in 0..queues.len() {
        fronts.push(front_cell(&queues[r]))?;
    }
    Ok(fronts)
}

/// A queue of these errands, with this room.
fn queue_of<A: Allocator + Copy>(
    alloc: A,
    errands: &[Errand],
    room: u32,
) -> Result<ErrandQueue<A>, AllocError>
    requires { length errands.now ≤ room }
    ensures { IfOk result (λ queue. queue ≡ record { items = errands.now; capacity = room }) }
{
    let mut queue = ErrandQueue::new(alloc, room)?;
    for errand in errands {
        let _ = queue.try_push(*errand);
    }
    Ok(queue)
}
