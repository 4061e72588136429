//! For how many errands the queues of a trace need memory.

ghost use Rattle.std.specs.Prelude.{◌≡◌, ◌≤◌, ◌<◌, ◌+◌, ◌==◌, ℕ, All, IfOk, if◌then◌else◌, length, map, min, slice_index};
ghost use Rattle.fleet_trace.specs.inside.Rooms.{robot_joined, room_for};

use fleet_book::{Order, Verdict};
use fleet_history::{Entry, Opening, RobotState};
use std::alloc::{AllocError, Allocator};

/// How many errands each robot has, at most as many as it may have.
fn opened_rooms<A: Allocator + Copy>(
    alloc: A,
    queue: u32,
    robots: &[RobotState<A>],
) -> Result<Vec<u32, A>, AllocError>
    requires { All (λ x. length x.errands ≤ queue) robots.now }
    ensures { IfOk result (λ rooms. rooms.items ≡ map (λ x. length x.errands) robots.now) }
{
    let mut rooms = Vec::new(alloc);
    for robot in robots {
        rooms.push(robot.errands.len() as u32)?;
    }
    Ok(rooms)
}

/// The robot for which an entry accepts an errand.
fn robot_joined<A: Allocator + Copy>(entry: &Entry<A>) -> Option<u32>
    ensures { result ≡ robot_joined entry.now }
{
    match entry {
        Entry::Take {
            client: _,
            order: Order::Go { robot, cell: _ },
            verdict: Verdict::Accepted(_),
        } => Some(*robot),
        _ => None,
    }
}

/// Makes room for one more errand of the robot, where there is such a robot and it may have one more.
fn widen<A: Allocator + Copy>(rooms: &mut Vec<u32, A>, robot: u32, queue: u32)
    requires { (r : ℕ) → r < length rooms.old.items → slice_index rooms.old.items r ≤ queue }
    ensures count { length rooms.new.items ≡ length rooms.old.items }
    ensures each { (r : ℕ) → r < length rooms.old.items → slice_index rooms.new.items r ≡ (if robot == r then min queue (slice_index rooms.old.items r + 1) else slice_index rooms.old.items r) }
{
    let r = robot as usize;
    if r < rooms.len() && rooms[r] < queue {
        rooms[r] += 1;
    }
}

/// For how many errands each robot's queue has memory in a chapter: for those at the opening and one more for each that
/// an entry adds, up to the limit of a queue.
pub(crate) fn rooms_of<A: Allocator + Copy>(
    alloc: A,
    opening: &Opening<A>,
    entries: &[Entry<A>],
) -> Result<Vec<u32, A>, AllocError>
    requires { All (λ x. length x.errands ≤ opening.now.queue) opening.now.robots }
    ensures count { IfOk result (λ rooms. length rooms.items ≡ length opening.now.robots) }
    ensures each { IfOk result (λ rooms. (r : ℕ) → r < length opening.now.robots → slice_index rooms.items r ≡ room_for opening.now entries.now r) }
{
    let mut rooms = opened_rooms(alloc, opening.queue, opening.robots.as_slice())?;
    for entry in entries {
        if let Some(robot) = robot_joined(entry) {
            widen(&mut rooms, robot, opening.queue);
        }
    }
    Ok(rooms)
}
