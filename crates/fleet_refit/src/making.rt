//! Changes that are made.

ghost use Rattle.std.specs.Prelude.{◌≡◌, ◌<◌, ◌++◌, ◌∷◌, ◌⊎◌, [], None, Some, IfErr, OnOk, length, map};
ghost use Rattle.fleet_refit.specs.Changed.{Cancels, Changes, ComesTo, Leaves, Replaces, Stands, newcomer};
ghost use Rattle.fleet_refit.specs.Fault.{cancel_fault, fault_of};
ghost use Rattle.fleet_refit.specs.Sifting.{dropped_of};
ghost use Rattle.fleet_refit.specs.Map.{with_letter};
ghost use Rattle.fleet_refit.specs.Site.{moving, with_map, with_seats};
ghost use Rattle.fleet_refit.specs.declared.change.ChangeFault.TheVariants.{NoMemory};

use crate::change::{Change, ChangeFault, Dropped};
use crate::changing::owner;
use crate::cutting::{Other, cut};
use crate::map::{FLOOR, WALL};
use crate::seat::{Seat, Standing};
use crate::sifting::dropped_of;
use crate::site::Site;
use fleet_history::{RobotState, Row};
use fleet_hooks::StampLaw;
use fleet_queue::Errand;
use std::alloc::{AllocError, Allocator};

/// Lists all these errands as dropped by the robot.
fn drop_all<A: Allocator + Copy>(
    errands: &[Errand],
    robot: u32,
    dropped: &mut Vec<Dropped, A>,
) -> Result<(), AllocError>
    ensures { OnOk result (dropped.new.items ≡ dropped.old.items ++ map (dropped_of robot) errands.now) }
{
    for place in 0..errands.len() {
        dropped.push(dropped_of(robot, errands[place]))?;
    }
    Ok(())
}

/// The robot is taken away.
fn leave<A: Allocator + Copy>(
    alloc: A,
    seat: &mut Seat<A>,
    robot: u32,
    dropped: &mut Vec<Dropped, A>,
) -> Result<(), AllocError>
    ensures { OnOk result ((more : _) × Leaves robot more seat.old seat.new × (dropped.new.items ≡ dropped.old.items ++ more)) }
{
    drop_all(seat.robot.errands.as_slice(), robot, dropped)?;
    seat.standing = Standing::Gone;
    seat.robot.wait = None;
    seat.robot.errands = Row::new(alloc);
    Ok(())
}

/// A robot that has just come, under the next number.
fn join<A: Allocator + Copy>(
    alloc: A,
    seats: &mut Vec<Seat<A>, A>,
    cell: u32,
    arrival_law: StampLaw,
    farewell_law: StampLaw,
) -> Result<(), AllocError>
    ensures joined { OnOk result (seats.new.items ≡ seats.old.items ++ moving (newcomer cell arrival_law farewell_law) ∷ []) }
    ensures kept { IfErr result (λ _. seats.new.items ≡ seats.old.items) }
{
    let robot = RobotState {
        cell,
        shut: false,
        wait: None,
        errands: Row::new(alloc),
        arrival_law,
        farewell_law,
    };
    seats.push(Seat {
        standing: Standing::Moving,
        robot,
    })?;
    Ok(())
}

impl<A: Allocator + Copy> Site<A> {
    /// Gives a cell of the map that letter.
    fn put_letter(&mut self, cell: u32, letter: u8)
        requires { cell < length self.old.map.letters }
        ensures { self.new ≡ with_map self.old (with_letter self.old.map cell letter) }
    {
        self.map.cells[cell as usize] = letter;
    }

    /// A new robot comes.
    fn join(
        &mut self,
        alloc: A,
        cell: u32,
        arrival_law: StampLaw,
        farewell_law: StampLaw,
    ) -> Result<(), AllocError>
        requires { length self.old.seats < 512 }
        ensures { OnOk result (self.new ≡ with_seats self.old (self.old.seats ++ moving (newcomer cell arrival_law farewell_law) ∷ [])) }
    {
        join(alloc, &mut self.seats, cell, arrival_law, farewell_law)
    }

    /// A robot is taken away.
    fn leave(
        &mut self,
        alloc: A,
        robot: u32,
        dropped: &mut Vec<Dropped, A>,
    ) -> Result<(), AllocError>
        requires { robot < length self.old.seats }
        ensures { OnOk result ((more : _) × Replaces (Leaves robot more) self.old robot self.new × (dropped.new.items ≡ dropped.old.items ++ more)) }
    {
        leave(alloc, &mut self.seats[robot as usize], robot, dropped)
    }

    /// A robot takes part in another way.
    fn stand(&mut self, robot: u32, standing: Standing)
        requires { robot < length self.old.seats }
        ensures { Replaces (Stands standing) self.old robot self.new }
    {
        self.seats[robot as usize].standing = standing;
    }

    /// A robot was carried to a cell.
    fn carry(&mut self, robot: u32, cell: u32)
        requires { robot < length self.old.seats }
        ensures { Replaces (ComesTo cell) self.old robot self.new }
    {
        self.seats[robot as usize].robot.cell = cell;
    }

    /// An errand is dropped.
    fn cancel(
        &mut self,
        alloc: A,
        client: u32,
        number: u64,
        dropped: &mut Vec<Dropped, A>,
    ) -> Result<(), AllocError>
        requires { cancel_fault self.old client number ≡ None }
        ensures { OnOk result ((more : _) × Cancels self.old client number self.new more × (dropped.new.items ≡ dropped.old.items ++ more)) }
    {
        let Some(robot) = owner(&self.seats, client, number) else {
            unreachable!()
        };
        let which = Other { client, number };
        cut(
            alloc,
            &mut self.seats[robot].robot,
            robot as u32,
            &which,
            dropped,
        )
    }

    /// Makes a change that can be made.
    fn make(
        &mut self,
        alloc: A,
        change: Change,
        dropped: &mut Vec<Dropped, A>,
    ) -> Result<(), AllocError>
        requires { fault_of self.old change ≡ None }
        ensures { OnOk result ((more : _) × Changes self.old change self.new more × (dropped.new.items ≡ dropped.old.items ++ more)) }
    {
        match change {
            Change::Block { cell } => self.put_letter(cell, WALL),
            Change::Open { cell } => self.put_letter(cell, FLOOR),
            Change::Join {
                cell,
                arrival_law,
                farewell_law,
            } => self.join(alloc, cell, arrival_law, farewell_law)?,
            Change::Leave { robot } => self.leave(alloc, robot, dropped)?,
            Change::Hold { robot } => self.stand(robot, Standing::Held),
            Change::Free { robot } => self.stand(robot, Standing::Moving),
            Change::Move { robot, cell } => self.carry(robot, cell),
            Change::Cancel { client, number } => self.cancel(alloc, client, number, dropped)?,
        }
        Ok(())
    }

    /// Makes a change, or returns why it cannot be made: then the site is as it was, unless memory was refused.
    pub(crate) fn change(
        &mut self,
        alloc: A,
        change: Change,
        dropped: &mut Vec<Dropped, A>,
    ) -> Result<(), ChangeFault>
        ensures made { OnOk result ((fault_of self.old change ≡ None) × (more : _) × Changes self.old change self.new more × (dropped.new.items ≡ dropped.old.items ++ more)) }
        ensures refused { IfErr result (λ why. (why ≡ NoMemory) ⊎ (fault_of self.old change ≡ Some why)) }
    {
        if let Some(fault) = self.fault_of(change) {
            return Err(fault);
        }
        match self.make(alloc, change, dropped) {
            Ok(()) => Ok(()),
            Err(AllocError) => Err(ChangeFault::NoMemory),
        }
    }
}
