//! Copies of what a site knows.

ghost use Rattle.std.specs.Prelude.{◌≡◌, IfOk};

use crate::seat::Seat;
use fleet_history::{ClientState, RobotState, Row};
use fleet_queue::Errand;
use std::alloc::{AllocError, Allocator};

/// The same errands.
pub(crate) fn copied_errands<A: Allocator + Copy>(
    alloc: A,
    errands: &Row<Errand, A>,
) -> Result<Row<Errand, A>, AllocError>
    ensures { IfOk result (λ row. row ≡ errands.now) }
{
    Ok(Row::from_vec(Vec::from_slice(alloc, errands.as_slice())?))
}

/// The same clients.
pub(crate) fn copied_clients<A: Allocator + Copy>(
    alloc: A,
    clients: &Row<ClientState, A>,
) -> Result<Row<ClientState, A>, AllocError>
    ensures { IfOk result (λ row. row ≡ clients.now) }
{
    Ok(Row::from_vec(Vec::from_slice(alloc, clients.as_slice())?))
}

/// The same robot.
pub(crate) fn copied_robot<A: Allocator + Copy>(
    alloc: A,
    robot: &RobotState<A>,
) -> Result<RobotState<A>, AllocError>
    ensures { IfOk result (λ copy. copy ≡ robot.now) }
{
    Ok(RobotState {
        cell: robot.cell,
        shut: robot.shut,
        wait: robot.wait,
        errands: copied_errands(alloc, &robot.errands)?,
        arrival_law: robot.arrival_law,
        farewell_law: robot.farewell_law,
    })
}

/// The same robot under the same number.
pub(crate) fn copied_seat<A: Allocator + Copy>(
    alloc: A,
    seat: &Seat<A>,
) -> Result<Seat<A>, AllocError>
    ensures { IfOk result (λ copy. copy ≡ seat.now) }
{
    Ok(Seat {
        standing: seat.standing,
        robot: copied_robot(alloc, &seat.robot)?,
    })
}

/// The same robots.
pub(crate) fn copied_seats<A: Allocator + Copy>(
    alloc: A,
    seats: &[Seat<A>],
) -> Result<Vec<Seat<A>, A>, AllocError>
    ensures { IfOk result (λ copies. copies.items ≡ seats.now) }
{
    let mut copies = Vec::with_capacity(alloc, seats.len())?;
    for place in 0..seats.len() {
        copies.push(copied_seat(alloc, &seats[place])?)?;
    }
    Ok(copies)
}
