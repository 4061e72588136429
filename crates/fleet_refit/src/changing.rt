//! Why a change cannot be made.

ghost use Rattle.std.specs.Prelude.{◌≡◌, ◌≤◌, length, option_map, slice_get};
ghost use Rattle.std.specs.List.{position};
ghost use Rattle.fleet_queue.specs.Queue.{is_of};
ghost use Rattle.fleet_refit.specs.Fault.{cancel_fault, fault_of, floor_fault, free_fault, has, hold_fault, is_void, join_fault, move_fault, robot_fault, standing_fault, stands_on, taken_fault, wall_fault};

use crate::change::{Change, ChangeFault};
use crate::map::is_floor_letter;
use crate::seat::{Seat, Standing};
use crate::site::Site;
use fleet_hooks::StampLaw;
use fleet_queue::Errand;
use std::alloc::Allocator;

/// How many robots there may have been.
const MOST_ROBOTS: usize = 512;

/// Whether the errand is the client's of that number.
pub(crate) fn is_of(client: u32, number: u64, errand: &Errand) -> bool
    ensures { result ≡ is_of client number errand.now }
{
    errand.client == client && errand.number == number
}

/// Whether the robot stands on the cell.
fn stands_on<A: Allocator + Copy>(cell: u32, seat: &Seat<A>) -> bool
    ensures { result ≡ stands_on cell seat.now }
{
    match seat.standing {
        Standing::Gone => false,
        Standing::Moving | Standing::Held => seat.robot.cell == cell,
    }
}

/// Whether the robot has the client's errand.
pub(crate) fn has<A: Allocator + Copy>(client: u32, number: u64, seat: &Seat<A>) -> bool
    ensures { result ≡ has client number seat.now }
{
    seat.robot
        .errands
        .as_slice()
        .iter()
        .any(|errand| is_of(client, number, errand))
}

/// The place of the first robot that stands on the cell.
fn place_of<A: Allocator + Copy>(seats: &[Seat<A>], cell: u32) -> Option<usize>
    ensures { result ≡ position (stands_on cell) seats.now }
{
    seats.iter().position(|seat| stands_on(cell, seat))
}

/// The first robot that stands on the cell.
fn stander<A: Allocator + Copy>(seats: &[Seat<A>], cell: u32) -> Option<u32>
    requires { length seats.now ≤ 512 }
    ensures { result ≡ position (stands_on cell) seats.now }
{
    match place_of(seats, cell) {
        Some(place) => Some(place as u32),
        None => None,
    }
}

/// The first robot that has the client's errand.
pub(crate) fn owner<A: Allocator + Copy>(
    seats: &[Seat<A>],
    client: u32,
    number: u64,
) -> Option<usize>
    ensures { result ≡ position (has client number) seats.now }
{
    seats.iter().position(|seat| has(client, number, seat))
}

/// A robot stands on the cell, and it is not this one.
fn taken_fault(mine: Option<u32>, robot: Option<u32>) -> Option<ChangeFault>
    ensures { result ≡ taken_fault mine robot }
{
    let robot = robot?;
    match mine {
        Some(me) if robot == me => None,
        _ => Some(ChangeFault::IsTaken { robot }),
    }
}

/// Whether no stamp lies within the law.
fn is_void(law: StampLaw) -> bool
    ensures { result ≡ is_void law }
{
    law.high < law.low
}

/// Why a robot that takes part in this way is none.
fn standing_fault(standing: Standing) -> Option<ChangeFault>
    ensures { result ≡ standing_fault standing }
{
    match standing {
        Standing::Moving | Standing::Held => None,
        Standing::Gone => Some(ChangeFault::NoRobot),
    }
}

/// Why a robot that takes part in this way cannot be held.
fn hold_fault(standing: Standing) -> Option<ChangeFault>
    ensures { result ≡ hold_fault standing }
{
    match standing {
        Standing::Moving => None,
        Standing::Held => Some(ChangeFault::IsHeld),
        Standing::Gone => Some(ChangeFault::NoRobot),
    }
}

/// Why a robot that takes part in this way cannot be let go.
fn free_fault(standing: Standing) -> Option<ChangeFault>
    ensures { result ≡ free_fault standing }
{
    match standing {
        Standing::Moving => Some(ChangeFault::NotHeld),
        Standing::Held => None,
        Standing::Gone => Some(ChangeFault::NoRobot),
    }
}

impl<A: Allocator + Copy> Site<A> {
    /// How the robot of that number takes part, if there was one.
    fn standing(&self, robot: u32) -> Option<Standing>
        ensures { result ≡ option_map (λ x. x.standing) (slice_get self.now.seats robot) }
    {
        Some(self.seats.get(robot as usize)?.standing)
    }

    /// Why the cell is not floor on which nobody stands, apart from this robot.
    fn floor_fault(&self, mine: Option<u32>, cell: u32) -> Option<ChangeFault>
        ensures { result ≡ floor_fault self.now mine cell }
    {
        let Some(letter) = self.map.cells.get(cell as usize) else {
            return Some(ChangeFault::NoCell);
        };
        if !is_floor_letter(*letter) {
            return Some(ChangeFault::IsWall);
        }
        taken_fault(mine, stander(&self.seats, cell))
    }

    /// Why the cell is no wall.
    fn wall_fault(&self, cell: u32) -> Option<ChangeFault>
        ensures { result ≡ wall_fault self.now cell }
    {
        let Some(letter) = self.map.cells.get(cell as usize) else {
            return Some(ChangeFault::NoCell);
        };
        is_floor_letter(*letter).then_some(ChangeFault::IsFloor)
    }

    /// Why no robot with these laws can come to the cell.
    fn join_fault(&self, cell: u32, arrivals: StampLaw, farewells: StampLaw) -> Option<ChangeFault>
        ensures { result ≡ join_fault self.now cell arrivals farewells }
    {
        let fault = self.floor_fault(None, cell);
        if fault.is_some() {
            return fault;
        }
        if self.seats.len() >= MOST_ROBOTS {
            return Some(ChangeFault::TooMany);
        }
        (is_void(arrivals) || is_void(farewells)).then_some(ChangeFault::NoStamp)
    }

    /// Why there is no such robot, or the first reason of its standing.
    fn robot_fault(&self, robot: u32) -> Option<ChangeFault>
        ensures { result ≡ robot_fault standing_fault self.now robot }
    {
        match self.standing(robot) {
            None => Some(ChangeFault::NoRobot),
            Some(standing) => standing_fault(standing),
        }
    }

    /// Why the robot cannot be held.
    fn hold_fault(&self, robot: u32) -> Option<ChangeFault>
        ensures { result ≡ robot_fault hold_fault self.now robot }
    {
        match self.standing(robot) {
            None => Some(ChangeFault::NoRobot),
            Some(standing) => hold_fault(standing),
        }
    }

    /// Why the robot cannot be let go.
    fn free_fault(&self, robot: u32) -> Option<ChangeFault>
        ensures { result ≡ robot_fault free_fault self.now robot }
    {
        match self.standing(robot) {
            None => Some(ChangeFault::NoRobot),
            Some(standing) => free_fault(standing),
        }
    }

    /// Why the robot cannot have been carried to the cell.
    fn move_fault(&self, robot: u32, cell: u32) -> Option<ChangeFault>
        ensures { result ≡ move_fault self.now robot cell }
    {
        let fault = self.robot_fault(robot);
        if fault.is_some() {
            return fault;
        }
        self.floor_fault(Some(robot), cell)
    }

    /// Why no errand is dropped.
    fn cancel_fault(&self, client: u32, number: u64) -> Option<ChangeFault>
        ensures { result ≡ cancel_fault self.now client number }
    {
        match owner(&self.seats, client, number) {
            Some(_) => None,
            None => Some(ChangeFault::NoErrand),
        }
    }

    /// Why the change cannot be made, out of memory apart: the first reason.
    pub(crate) fn fault_of(&self, change: Change) -> Option<ChangeFault>
        ensures { result ≡ fault_of self.now change }
    {
        match change {
            Change::Block { cell } => self.floor_fault(None, cell),
            Change::Open { cell } => self.wall_fault(cell),
            Change::Join {
                cell,
                arrival_law,
                farewell_law,
            } => self.join_fault(cell, arrival_law, farewell_law),
            Change::Leave { robot } => self.robot_fault(robot),
            Change::Hold { robot } => self.hold_fault(robot),
            Change::Free { robot } => self.free_fault(robot),
            Change::Move { robot, cell } => self.move_fault(robot, cell),
            Change::Cancel { client, number } => self.cancel_fault(client, number),
        }
    }
}
