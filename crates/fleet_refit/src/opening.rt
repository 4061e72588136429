//! What the fleet of a site goes on with.

ghost use Rattle.std.specs.Prelude.{◌≡◌, ◌≤◌, IfOk, length};
ghost use Rattle.fleet_refit.specs.Opening.{moving_numbers, moving_robots, opening_of};

use crate::copying::{copied_clients, copied_robot};
use crate::seat::{Seat, is_moving};
use crate::site::Site;
use fleet_history::{Opening, RobotState, Row};
use std::alloc::{AllocError, Allocator};

/// The robots that move, in the order of their numbers.
fn moving_robots<A: Allocator + Copy>(
    alloc: A,
    seats: &[Seat<A>],
) -> Result<Vec<RobotState<A>, A>, AllocError>
    ensures { IfOk result (λ robots. robots.items ≡ moving_robots seats.now) }
{
    let mut robots = Vec::new(alloc);
    for place in 0..seats.len() {
        let seat = &seats[place];
        if is_moving(seat.standing) {
            robots.push(copied_robot(alloc, &seat.robot)?)?;
        }
    }
    Ok(robots)
}

/// The numbers of the robots that move.
fn moving_numbers<A: Allocator + Copy>(
    alloc: A,
    seats: &[Seat<A>],
) -> Result<Vec<u32, A>, AllocError>
    requires { length seats.now ≤ 512 }
    ensures { IfOk result (λ numbers. numbers.items ≡ moving_numbers seats.now) }
{
    let mut numbers = Vec::new(alloc);
    for place in 0..seats.len() {
        if is_moving(seats[place].standing) {
            numbers.push(place as u32)?;
        }
    }
    Ok(numbers)
}

impl<A: Allocator + Copy> Site<A> {
    /// The opening of the fleet's next chapter: the robots that move, in the order of their numbers.
    pub(crate) fn opening(&self, alloc: A) -> Result<Opening<A>, AllocError>
        ensures { IfOk result (λ opening. opening ≡ opening_of self.now) }
    {
        Ok(Opening {
            tick: self.tick,
            queue: self.queue,
            life: self.life,
            clients: copied_clients(alloc, &self.clients)?,
            robots: Row::from_vec(moving_robots(alloc, &self.seats)?),
        })
    }

    /// The number of each robot of that opening.
    pub(crate) fn numbers(&self, alloc: A) -> Result<Vec<u32, A>, AllocError>
        ensures { IfOk result (λ numbers. numbers.items ≡ moving_numbers self.now.seats) }
    {
        moving_numbers(alloc, &self.seats)
    }
}
