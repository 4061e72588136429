//! An opening with clock and waits set to 0, with which the judge begins. Whether entries are legal does not depend on
//! the clock and the waits, and counted from 0 they fit their types, whatever a trace says.

ghost use Rattle.std.specs.Prelude.{◌≡◌, IfOk, map};
ghost use Rattle.fleet_trace.specs.inside.Calm.{first_wait, calm_robot, calm};

use fleet_history::{Opening, RobotState, Row};
use fleet_queue::Errand;
use std::alloc::{AllocError, Allocator};

fn first_wait(errands: &[Errand]) -> Option<u64>
    ensures { result ≡ first_wait errands.now }
{
    if errands.is_empty() { None } else { Some(0) }
}

fn calm_robot<A: Allocator + Copy>(
    alloc: A,
    robot: &RobotState<A>,
) -> Result<RobotState<A>, AllocError>
    ensures { IfOk result (λ x. x ≡ calm_robot robot.now) }
{
    let errands = robot.errands.as_slice();
    Ok(RobotState {
        cell: robot.cell,
        shut: robot.shut,
        wait: first_wait(errands),
        errands: Row::from_vec(Vec::from_slice(alloc, errands)?),
        arrival_law: robot.arrival_law,
        farewell_law: robot.farewell_law,
    })
}

fn calm_robots<A: Allocator + Copy>(
    alloc: A,
    robots: &[RobotState<A>],
) -> Result<Vec<RobotState<A>, A>, AllocError>
    ensures { IfOk result (λ xs. xs.items ≡ map calm_robot robots.now) }
{
    let mut calm = Vec::new(alloc);
    for robot in robots {
        calm.push(calm_robot(alloc, robot)?)?;
    }
    Ok(calm)
}

/// The opening with the clock at 0, where each robot with an errand has just begun to wait.
pub(crate) fn calm_opening<A: Allocator + Copy>(
    alloc: A,
    opening: &Opening<A>,
) -> Result<Opening<A>, AllocError>
    ensures { IfOk result (λ o. o ≡ calm opening.now) }
{
    let robots = calm_robots(alloc, opening.robots.as_slice())?;
    let clients = Vec::from_slice(alloc, opening.clients.as_slice())?;
    Ok(Opening {
        tick: 0,
        queue: opening.queue,
        life: opening.life,
        clients: Row::from_vec(clients),
        robots: Row::from_vec(robots),
    })
}
