//! A site at the end of a chapter that its fleet played.

ghost use Rattle.std.specs.Prelude.{◌≡◌, IfErr, IfOk, length};
ghost use Rattle.fleet_history.specs.Legal.{IsInOrder};
ghost use Rattle.fleet_refit.specs.After.{AreTheMoving, DoOthersStay, IsAfter, IsPlayed, IsUnlike, after_site, moving_count, seats_after};
ghost use Rattle.fleet_refit.specs.InOrder.{IsSiteInOrder};
ghost use Rattle.fleet_refit.specs.Map.{plan_map};
ghost use Rattle.fleet_refit.specs.Opening.{moving_numbers, opening_of};
ghost use Rattle.fleet_refit.specs.Site.{moving};

use crate::copying::{copied_clients, copied_robot, copied_seat};
use crate::map::copied_map;
use crate::seat::{Seat, Standing, is_moving};
use crate::site::Site;
use fleet_history::{Opening, RobotState};
use std::alloc::{AllocError, Allocator};

/// Why a site cannot go on from an opening.
#[derive(Clone, Copy, Debug, PartialEq, Eq)]
pub enum AfterFault {
    /// The opening has not as many robots as move.
    Robots,
    /// Memory was refused.
    NoMemory,
}

/// How many robots move.
fn moving_count<A: Allocator + Copy>(seats: &[Seat<A>]) -> usize
    ensures { result ≡ moving_count seats.now }
{
    seats.iter().filter(|seat| is_moving(seat.standing)).count()
}

/// The robot as one that moves.
fn moving<A: Allocator + Copy>(alloc: A, robot: &RobotState<A>) -> Result<Seat<A>, AllocError>
    ensures { IfOk result (λ seat. seat ≡ moving robot.now) }
{
    Ok(Seat {
        standing: Standing::Moving,
        robot: copied_robot(alloc, robot)?,
    })
}

/// The robots where those that move have become these, and the others are as they were.
fn seats_after<A: Allocator + Copy>(
    alloc: A,
    seats: &[Seat<A>],
    robots: &[RobotState<A>],
) -> Result<Vec<Seat<A>, A>, AllocError>
    requires { moving_count seats.now ≡ length robots.now }
    ensures exact { IfOk result (λ after. after.items ≡ seats_after seats.now robots.now) }
    ensures length { IfOk result (λ after. length after.items ≡ length seats.now) }
{
    let mut after = Vec::with_capacity(alloc, seats.len())?;
    let mut next = 0;
    for place in 0..seats.len() {
        let seat = &seats[place];
        if is_moving(seat.standing) {
            after.push(moving(alloc, &robots[next])?)?;
            next += 1;
        } else {
            after.push(copied_seat(alloc, seat)?)?;
        }
    }
    Ok(after)
}

impl<A: Allocator + Copy> Site<A> {
    /// The site with what the opening says.
    fn with_opening(&self, alloc: A, opening: &Opening<A>) -> Result<Site<A>, AllocError>
        requires { moving_count self.now.seats ≡ length opening.now.robots }
        ensures { IfOk result (λ site. site ≡ after_site self.now opening.now) }
    {
        let map = copied_map(alloc, &self.map)?;
        let seats = seats_after(alloc, &self.seats, opening.robots.as_slice())?;
        let clients = copied_clients(alloc, &opening.clients)?;
        Ok(Site {
            map,
            tick: opening.tick,
            queue: opening.queue,
            life: opening.life,
            clients,
            seats,
        })
    }

    /// The site once its fleet has come to that opening.
    fn gone_on(&self, alloc: A, opening: &Opening<A>) -> Result<Site<A>, AllocError>
        requires { moving_count self.now.seats ≡ length opening.now.robots }
        ensures { IfOk result (IsAfter self.now opening.now) }
    {
        self.with_opening(alloc, opening)
    }

    /// The site at the end of a chapter that its fleet played: the robots that move are as the opening of the next chapter
    /// says, in the order of their numbers, and so are the clients and the clock. Robots that are held or were taken away are
    /// as they were. The site itself stays as it is.
    pub fn after(&self, alloc: A, opening: &Opening<A>) -> Result<Site<A>, AfterFault>
        ensures site { IfOk result (λ site. site ≡ after_site self.now opening.now) }
        ensures opening { IfOk result (λ site. opening_of site ≡ opening.now) }
        ensures numbers { IfOk result (λ site. moving_numbers site.seats ≡ moving_numbers self.now.seats) }
        ensures the_moving { IfOk result (AreTheMoving self.now opening.now) }
        ensures others { IfOk result (DoOthersStay self.now) }
        ensures map { IfOk result (λ site. plan_map site ≡ plan_map self.now) }
        ensures in_order { IfOk result (λ site. IsSiteInOrder self.now → IsPlayed self.now opening.now → IsInOrder (plan_map self.now) opening.now → IsSiteInOrder site) }
        ensures refused { IfErr result (IsUnlike self.now opening.now) }
    {
        if moving_count(&self.seats) != opening.robots.len() {
            return Err(AfterFault::Robots);
        }
        match self.gone_on(alloc, opening) {
            Ok(site) => Ok(site),
            Err(AllocError) => Err(AfterFault::NoMemory),
        }
    }
}
