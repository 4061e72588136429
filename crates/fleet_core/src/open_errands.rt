//! The errands of a client that are accepted, and neither done nor withdrawn.

ghost use Rattle.std.specs.Prelude.{◌≡◌, ◌≤◌, ◌++◌, IfOk, OnOk, length, map};
ghost use Rattle.fleet_core.specs.OpenErrands.{open_if, open_in, open_from, open_errands};

use crate::kernel::Core;
use crate::world::World;
use fleet_queue::{Errand, ErrandQueue};
use std::alloc::{AllocError, Allocator};

/// An errand that is accepted, and neither done nor withdrawn, and where it stands.
#[derive(Clone, Copy, Debug, PartialEq, Eq)]
pub struct OpenErrand {
    /// Its number among the client's accepted errands, from 1.
    pub number: u64,
    /// The robot in whose queue it is.
    pub robot: u32,
    /// The cell that the robot is sent to.
    pub cell: u32,
    /// Its place in the robot's queue, from 1. At place 1 the robot is on its way to the cell.
    pub place: usize,
}

/// Adds the errand at this place of the robot's queue, if it is the client's.
fn add_if<A: Allocator + Copy>(
    found: &mut Vec<OpenErrand, A>,
    client: u32,
    robot: u32,
    place: usize,
    errand: Errand,
) -> Result<(), AllocError>
    ensures { OnOk result (found.new.items ≡ found.old.items ++ open_if client robot place errand) }
{
    if errand.client != client {
        return Ok(());
    }
    let (number, cell) = (errand.number, errand.cell);
    Ok(found.push(OpenErrand {
        number,
        robot,
        cell,
        place,
    })?)
}

/// Adds the client's errands in the robot's queue, from the front on.
fn add_queue<A: Allocator + Copy>(
    found: &mut Vec<OpenErrand, A>,
    client: u32,
    robot: u32,
    queue: &ErrandQueue<A>,
) -> Result<(), AllocError>
    ensures { OnOk result (found.new.items ≡ found.old.items ++ open_in client robot 1 queue.now.items) }
{
    for at in 0..queue.len() {
        if let Some(errand) = queue.get(at) {
            add_if(found, client, robot, at + 1, errand)?;
        }
    }
    Ok(())
}

/// Adds the client's errands in these queues, the first of which is robot 0's.
fn add_queues<A: Allocator + Copy>(
    found: &mut Vec<OpenErrand, A>,
    client: u32,
    queues: &[ErrandQueue<A>],
) -> Result<(), AllocError>
    requires { length queues.now ≤ 512 }
    ensures { OnOk result (found.new.items ≡ found.old.items ++ open_from client 0 (map (λ q. q.items) queues.now)) }
{
    for robot in 0..queues.len() {
        add_queue(found, client, robot as u32, &queues[robot])?;
    }
    Ok(())
}

impl<A: Allocator + Copy> Core<A> {
    /// The client's errands that are accepted, and neither done nor withdrawn: by robot, and by place in its queue.
    /// None of a client that does not exist.
    pub fn open_errands(&self, alloc: A, client: u32) -> Result<Vec<OpenErrand, A>, AllocError>
        ensures { IfOk result (λ found. found.items ≡ open_errands self.now.history client) }
    {
        let mut found = Vec::new(alloc);
        add_queues(&mut found, client, self.state.queues())?;
        Ok(found)
    }
}

impl<A: Allocator + Copy> World<A> {
    /// The client's errands that are accepted, and neither done nor withdrawn: by robot, and by place in its queue.
    /// None of a client that does not exist.
    pub fn open_errands(&self, alloc: A, client: u32) -> Result<Vec<OpenErrand, A>, AllocError>
        ensures { IfOk result (λ found. found.items ≡ open_errands self.now.core.history client) }
    {
        self.core.open_errands(alloc, client)
    }
}
