//! Errands to cells that a robot can reach.

ghost use Rattle.std.specs.Prelude.{◌≡◌, ◌≤◌, ◌++◌, ◌↔◌, IsTrue, OnOk, length};
ghost use Rattle.fleet_refit.specs.Settled.{AreSettled, IsSettled, Reaches};

use crate::change::Dropped;
use crate::cutting::cut;
use crate::seat::{Seat, Standing};
use crate::sifting::Stays;
use fleet_grid::Grid;
use fleet_queue::Errand;
use std::alloc::{AllocError, Allocator, Global};

/// The errands stay to whose cells a walk leads from that cell.
#[derive(Drop)]
pub(crate) struct Reached<'a, A: Allocator + Copy = Global> {
    pub(crate) grid: &'a Grid<A>,
    pub(crate) from: u32,
}

impl<'a, A: Allocator + Copy> Stays for Reached<'a, A> {
    ghost stays = { λ r. Reaches r.grid.now r.from };

    fn stays(&self, errand: &Errand) -> bool {
        self.grid.is_floor(self.from)
            && self.grid.is_floor(errand.cell)
            && self.grid.same_part(self.from, errand.cell)
    }
}

/// Drops the errands of a robot that moves to cells that it cannot reach.
fn settle<A: Allocator + Copy>(
    alloc: A,
    grid: &Grid<A>,
    seat: &mut Seat<A>,
    robot: u32,
    dropped: &mut Vec<Dropped, A>,
) -> Result<(), AllocError>
    ensures { OnOk result ((more : _) × IsSettled grid.now robot seat.old seat.new more × (dropped.new.items ≡ dropped.old.items ++ more)) }
{
    match seat.standing {
        Standing::Moving => {
            let which = Reached {
                grid,
                from: seat.robot.cell,
            };
            cut(alloc, &mut seat.robot, robot, &which, dropped)
        }
        Standing::Held | Standing::Gone => Ok(()),
    }
}

/// Drops the errands of all robots that move to cells that they cannot reach.
pub(crate) fn settle_all<A: Allocator + Copy>(
    alloc: A,
    grid: &Grid<A>,
    seats: &mut Vec<Seat<A>, A>,
    dropped: &mut Vec<Dropped, A>,
) -> Result<(), AllocError>
    requires { length seats.old.items ≤ 512 }
    ensures settled { OnOk result ((more : _) × AreSettled grid.now seats.old.items seats.new.items more × (dropped.new.items ≡ dropped.old.items ++ more)) }
    ensures length { length seats.new.items ≡ length seats.old.items }
{
    for robot in 0..seats.len() {
        settle(alloc, grid, &mut seats[robot], robot as u32, dropped)?;
    }
    Ok(())
}
