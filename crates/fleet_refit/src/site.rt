//! A site between two chapters of its fleet.

ghost use Rattle.std.specs.Prelude.{◌≡◌, ◌*◌, ◌≤◌, IfOk, length, map};
ghost use Rattle.fleet_grid.specs.Floor.{floor_of};
ghost use Rattle.fleet_history.specs.Legal.{IsInOrder};
ghost use Rattle.fleet_refit.specs.InOrder.{IsSiteInOrder};
ghost use Rattle.fleet_refit.specs.Site.{first_site, moving};

use crate::copying::{copied_clients, copied_robot, copied_seats};
use crate::map::copied_map;
use crate::seat::{Seat, Standing};
use fleet_history::{ClientState, Opening, Row};
use fleet_map::MapText;
use std::alloc::{AllocError, Allocator, Global};
use std::marker::Model;

/// What is known of a site between two chapters of its fleet: its map, its clients, and the robot of each number. A robot
/// keeps its number for ever.
#[derive(Drop)]
pub struct Site<A: Allocator + Copy = Global> {
    pub(crate) map: MapText<A>,
    pub(crate) tick: u64,
    pub(crate) queue: u32,
    pub(crate) life: u64,
    pub(crate) clients: Row<ClientState, A>,
    pub(crate) seats: Vec<Seat<A>, A>,
}

impl<A: Allocator + Copy> Model for Site<A> {
    ghost use Rattle.fleet_grid.specs.Floor.{floor_of, HasForm};
    ghost use Rattle.std.specs.Prelude.{◌≤◌, length};
    ghost use Rattle.fleet_refit.specs.Site.{SiteView};

    ghost Value = { SiteView A };

    ghost view = { λ s. record { map = floor_of s.map.height s.map.width s.map.cells.items; tick = s.tick; queue = s.queue; life = s.life; clients = s.clients; seats = s.seats.items } };

    ghost invariant = { λ s. HasForm (floor_of s.map.height s.map.width s.map.cells.items) × (length s.seats.items ≤ 512) };
}

/// Robots that all move.
fn moving_seats<A: Allocator + Copy>(
    alloc: A,
    opening: &Opening<A>,
) -> Result<Vec<Seat<A>, A>, AllocError>
    ensures { IfOk result (λ seats. seats.items ≡ map moving opening.now.robots) }
{
    let robots = opening.robots.as_slice();
    let mut seats = Vec::with_capacity(alloc, robots.len())?;
    for place in 0..robots.len() {
        seats.push(Seat {
            standing: Standing::Moving,
            robot: copied_robot(alloc, &robots[place])?,
        })?;
    }
    Ok(seats)
}

impl<A: Allocator + Copy> Site<A> {
    /// The site of a fleet in which all robots move: its map, and the opening of its next chapter.
    pub fn new(map: MapText<A>, opening: &Opening<A>) -> Result<Site<A>, AllocError>
        requires low { map.height ≤ 1024 }
        requires slim { map.width ≤ 1024 }
        requires covered { length map.cells.items ≡ map.height * map.width }
        requires few { length opening.now.robots ≤ 512 }
        ensures site { IfOk result (λ site. site ≡ first_site (floor_of map.height map.width map.cells.items) opening.now) }
        ensures in_order { IfOk result (λ site. IsInOrder (floor_of map.height map.width map.cells.items) opening.now → IsSiteInOrder site) }
    {
        let alloc = *map.cells.allocator();
        let seats = moving_seats(alloc, opening)?;
        let clients = copied_clients(alloc, &opening.clients)?;
        Ok(Site {
            map,
            tick: opening.tick,
            queue: opening.queue,
            life: opening.life,
            clients,
            seats,
        })
    }

    /// The same site.
    pub(crate) fn copied(&self, alloc: A) -> Result<Site<A>, AllocError>
        ensures { IfOk result (λ site. site ≡ self.now) }
    {
        let map = copied_map(alloc, &self.map)?;
        let seats = copied_seats(alloc, &self.seats)?;
        let clients = copied_clients(alloc, &self.clients)?;
        Ok(Site {
            map,
            tick: self.tick,
            queue: self.queue,
            life: self.life,
            clients,
            seats,
        })
    }
}
