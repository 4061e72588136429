//! A site, taken apart into an opening of all its robots and how each of them takes part, and put together again.

ghost use Rattle.std.specs.Prelude.{◌≡◌, ◌*◌, ◌<◌, ◌≤◌, Some, IfOk, length, map, slice_get};
ghost use Rattle.fleet_grid.specs.Floor.{floor_of};
ghost use Rattle.fleet_refit.specs.Everyone.{IsTakenApart, seats_of, site_of, standings_of};
ghost use Rattle.fleet_refit.specs.InOrder.{everyone};
ghost use Rattle.fleet_refit.specs.Site.{SiteView};

use crate::copying::{copied_clients, copied_robot};
use crate::seat::{Seat, Standing};
use crate::site::Site;
use fleet_history::{Opening, RobotState, Row};
use fleet_map::MapText;
use std::alloc::{AllocError, Allocator};

/// What is known of each robot, also of those that are held or were taken away.
fn all_robots<A: Allocator + Copy>(
    alloc: A,
    seats: &[Seat<A>],
) -> Result<Vec<RobotState<A>, A>, AllocError>
    ensures { IfOk result (λ robots. robots.items ≡ map (λ x. x.robot) seats.now) }
{
    let mut robots = Vec::with_capacity(alloc, seats.len())?;
    for place in 0..seats.len() {
        robots.push(copied_robot(alloc, &seats[place].robot)?)?;
    }
    Ok(robots)
}

/// How the robot of that number takes part.
fn standing_at(standings: &[Standing], place: usize) -> Standing
    requires { place < length standings.now }
    ensures { slice_get standings.now place ≡ Some result }
{
    standings[place]
}

/// Robots that take part in these ways.
fn seats_of<A: Allocator + Copy>(
    alloc: A,
    standings: &[Standing],
    robots: &[RobotState<A>],
) -> Result<Vec<Seat<A>, A>, AllocError>
    requires { length standings.now ≡ length robots.now }
    ensures exact { IfOk result (λ seats. seats.items ≡ seats_of standings.now robots.now) }
    ensures length { IfOk result (λ seats. length seats.items ≡ length robots.now) }
{
    let mut seats = Vec::with_capacity(alloc, robots.len())?;
    for place in 0..robots.len() {
        let standing = standing_at(standings, place);
        let robot = copied_robot(alloc, &robots[place])?;
        seats.push(Seat { standing, robot })?;
    }
    Ok(seats)
}

impl<A: Allocator + Copy> Site<A> {
    /// What is known of the clients and of all robots, also of those that are held or were taken away, as an opening.
    pub fn everyone(&self, alloc: A) -> Result<Opening<A>, AllocError>
        ensures { IfOk result (λ opening. opening ≡ everyone self.now) }
    {
        Ok(Opening {
            tick: self.tick,
            queue: self.queue,
            life: self.life,
            clients: copied_clients(alloc, &self.clients)?,
            robots: Row::from_vec(all_robots(alloc, &self.seats)?),
        })
    }

    /// How each robot takes part.
    pub fn standings(&self, alloc: A) -> Result<Vec<Standing, A>, AllocError>
        ensures { IfOk result (λ standings. standings.items ≡ standings_of self.now.seats) }
    {
        self.seats.iter().map(|seat| seat.standing).collect(alloc)
    }

    /// The site on that map in which the robots of an opening take part in these ways. A site that was taken apart into them
    /// is that site again.
    pub fn of_everyone(
        map: MapText<A>,
        everyone: &Opening<A>,
        standings: &[Standing],
    ) -> Result<Site<A>, AllocError>
        requires low { map.height ≤ 1024 }
        requires slim { map.width ≤ 1024 }
        requires covered { length map.cells.items ≡ map.height * map.width }
        requires few { length everyone.now.robots ≤ 512 }
        requires each { length standings.now ≡ length everyone.now.robots }
        ensures site { IfOk result (λ site. site ≡ site_of (floor_of map.height map.width map.cells.items) everyone.now standings.now) }
        ensures again { (s : SiteView A) → IsTakenApart s (floor_of map.height map.width map.cells.items) everyone.now standings.now → IfOk result (λ site. site ≡ s) }
    {
        let alloc = *map.cells.allocator();
        let seats = seats_of(alloc, standings, everyone.robots.as_slice())?;
        let clients = copied_clients(alloc, &everyone.clients)?;
        Ok(Site {
            map,
            tick: everyone.tick,
            queue: everyone.queue,
            life: everyone.life,
            clients,
            seats,
        })
    }
}
