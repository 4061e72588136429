//! The errands that are accepted, and neither done nor withdrawn: those of a client, and those of a robot.

ghost use Rattle.std.specs.Prelude.{◌≡◌, ◌≢◌, ◌<◌, ◌++◌, ℕ, IfOk, OnOk, length, map, slice_index_or};
ghost use Rattle.fleet_core.specs.OpenErrands.{open_errands};
ghost use Rattle.fleet_history.specs.History.{robots};
ghost use Rattle.fleet_c.specs.Errands.{chore_of, IsListed, ListsOpen, ListsQueue};
ghost use Rattle.fleet_c.specs.Handles.{OfFleet};
ghost use Rattle.fleet_c.specs.inside.Runs.{run, farther, put_at, AreAll};

use crate::chore::Chore;
use crate::codes::{DONE, NO_CLIENT, NO_MEMORY, NO_ROBOT, NOT_OPEN, WRONG_LENGTH};
use crate::handle::Handle;
use fleet_core::{Core, OpenErrand};
use std::alloc::{AllocError, Global};

/// Adds these errands of the client.
fn push_all(found: &[OpenErrand], client: u32, all: &mut Vec<Chore>) -> Result<(), AllocError>
    ensures { OnOk result (all.new.items ≡ all.old.items ++ map (chore_of client) found.now) }
{
    for at in 0..found.len() {
        all.push(Chore::of(client, found[at]))?;
    }
    Ok(())
}

/// Adds the open errands of the client.
fn add_errands(
    alloc: Global,
    core: &Core,
    client: u32,
    all: &mut Vec<Chore>,
) -> Result<(), AllocError>
    ensures { OnOk result (all.new.items ≡ all.old.items ++ map (chore_of client) (open_errands core.now.history client)) }
{
    let found = core.open_errands(alloc, client)?;
    push_all(found.as_slice(), client, all)
}

/// The open errands of all clients.
pub(crate) fn all_errands(alloc: Global, core: &Core) -> Result<Vec<Chore>, AllocError>
    ensures { IfOk result (λ all. AreAll core.now.history all.items) }
{
    let clients = core.chapter().opening.clients.as_slice().len();
    let mut all = Vec::new(alloc);
    for client in 0..clients {
        add_errands(alloc, core, client as u32, &mut all)?;
    }
    Ok(all)
}

/// The greater place, if the errand is the robot's.
fn farther(chore: Chore, robot: u32, last: u64) -> u64
    ensures { result ≡ farther robot chore last }
{
    if chore.robot == robot {
        last.max(chore.place)
    } else {
        last
    }
}

/// The greatest place of the robot's errands.
fn last_place(all: &[Chore], robot: u32) -> u64
    ensures { result ≡ run (farther robot) all.now 0 }
{
    let mut last = 0;
    for at in 0..all.len() {
        last = farther(all[at], robot, last);
    }
    last
}

/// Puts an errand of the robot at its place of the list, if the list has it.
fn put_errand(chore: Chore, robot: u32, errands: &mut [Chore])
    ensures { (k : ℕ) (d : Chore) → k < length errands.old → slice_index_or errands.new k d ≡ put_at robot k chore (slice_index_or errands.old k d) }
{
    if chore.robot != robot {
        return;
    }
    // Places count from 1.
    if chore.place == 0 {
        return;
    }
    let at = chore.place as usize - 1;
    if at < errands.len() {
        errands[at] = chore;
    }
}

/// Puts the robot's errands at their places of the list.
fn put_errands(all: &[Chore], robot: u32, errands: &mut [Chore])
    ensures { (k : ℕ) (d : Chore) → k < length errands.old → slice_index_or errands.new k d ≡ run (put_at robot k) all.now (slice_index_or errands.old k d) }
{
    for at in 0..all.len() {
        put_errand(all[at], robot, errands);
    }
}

/// Tells a list, and how long it is.
fn tell(list: &[Chore], errands: &mut [Chore], count: &mut usize) -> u32
    ensures { IsListed list.now result errands.old errands.new count.old count.new }
{
    *count = list.len();
    if errands.len() < list.len() {
        return WRONG_LENGTH;
    }
    errands[..list.len()].copy_from_slice(list);
    DONE
}

/// Tells the robot's errands, from the front on, and how many they are.
fn tell_queue(
    all: &[Chore],
    core: &Core,
    robot: u32,
    errands: &mut [Chore],
    count: &mut usize,
) -> u32
    requires all { AreAll core.now.history all.now }
    requires known { robot < robots core.now.history }
    ensures { ListsQueue core.now robot result errands.old errands.new count.old count.new }
{
    let length = last_place(all, robot) as usize;
    *count = length;
    if errands.len() < length {
        return WRONG_LENGTH;
    }
    put_errands(all, robot, errands);
    DONE
}

/// The client's open errands.
fn list_open(
    alloc: Global,
    core: &Core,
    client: u32,
    errands: &mut [Chore],
    count: &mut usize,
) -> u32
    ensures says { ListsOpen core.now client result errands.old errands.new count.old count.new }
    ensures untouched { (result ≢ DONE) → errands.new ≡ errands.old }
    ensures uncounted { (result ≢ DONE) → (result ≢ WRONG_LENGTH) → count.new ≡ count.old }
{
    if client as usize >= core.clients() {
        return NO_CLIENT;
    }
    let mut found = Vec::new(alloc);
    let Ok(()) = add_errands(alloc, core, client, &mut found) else {
        return NO_MEMORY;
    };
    tell(found.as_slice(), errands, count)
}

/// The robot's queue.
fn list_queue(
    alloc: Global,
    core: &Core,
    robot: u32,
    errands: &mut [Chore],
    count: &mut usize,
) -> u32
    ensures says { ListsQueue core.now robot result errands.old errands.new count.old count.new }
    ensures untouched { (result ≢ DONE) → errands.new ≡ errands.old }
    ensures uncounted { (result ≢ DONE) → (result ≢ WRONG_LENGTH) → count.new ≡ count.old }
{
    if robot as usize >= core.robots() {
        return NO_ROBOT;
    }
    let Ok(all) = all_errands(alloc, core) else {
        return NO_MEMORY;
    };
    tell_queue(all.as_slice(), core, robot, errands, count)
}

/// A client's errands that are accepted, and neither done nor withdrawn: by robot, and by place in its queue. `count`
/// is how many these are. Where the list is shorter only `count` is told; the places after them stay as they were.
///
/// Refused in this order: the handle is closed, there is no such client, out of memory, the list is shorter than the
/// client has open errands.
#[unsafe(no_mangle)]
pub extern "C" fn nashirudder_open_errands(
    alloc: Global,
    fleet: &mut Handle,
    client: u32,
    errands: &mut [Chore],
    count: &mut usize,
) -> u32
    ensures says { OfFleet fleet.old.owned.held fleet.new.owned.held result (λ w. ListsOpen w client result errands.old errands.new count.old count.new) }
    ensures untouched { (result ≢ DONE) → errands.new ≡ errands.old }
    ensures uncounted { (result ≢ DONE) → (result ≢ WRONG_LENGTH) → count.new ≡ count.old }
{
    let Some(held) = fleet.take(alloc) else {
        return NOT_OPEN;
    };
    let code = list_open(alloc, &held.core, client, errands, count);
    fleet.put(held);
    code
}

/// A robot's errands, in the order of its queue. `count` is how many these are. Where the list is shorter only `count`
/// is told; the places after them stay as they were.
///
/// Refused in this order: the handle is closed, there is no such robot, out of memory, the list is shorter than the
/// queue.
#[unsafe(no_mangle)]
pub extern "C" fn nashirudder_queue(
    alloc: Global,
    fleet: &mut Handle,
    robot: u32,
    errands: &mut [Chore],
    count: &mut usize,
) -> u32
    ensures says { OfFleet fleet.old.owned.held fleet.new.owned.held result (λ w. ListsQueue w robot result errands.old errands.new count.old count.new) }
    ensures untouched { (result ≢ DONE) → errands.new ≡ errands.old }
    ensures uncounted { (result ≢ DONE) → (result ≢ WRONG_LENGTH) → count.new ≡ count.old }
{
    let Some(held) = fleet.take(alloc) else {
        return NOT_OPEN;
    };
    let code = list_queue(alloc, &held.core, robot, errands, count);
    fleet.put(held);
    code
}
