//! Whether no two errands of an opening have the same client and number.

ghost use Rattle.std.specs.Prelude.{◌≡◌, ◌↔◌, ◌<◌, ◌+◌, ◌^◌, IsTrue, IfOk, MatchBool, length};
ghost use Rattle.std.specs.Ordering.{nat_cmp};
ghost use Rattle.std.specs.BTreeMap.{get};
ghost use Rattle.fleet_trace.specs.inside.Opened.{AreRising, AreClientNamesInOrder, AreEntered, IsAbove};

use fleet_history::RobotState;
use fleet_queue::Errand;
use std::alloc::{AllocError, Allocator};
use std::collections::BTreeMap;

fn is_above(number: u64, last: Option<u64>) -> bool
    ensures { IsTrue result ↔ IsAbove number last }
{
    match last {
        None => true,
        Some(last) => last < number,
    }
}

/// Whether the numbers of the client's errands rise.
fn is_rising(errands: &[Errand], client: u32) -> bool
    ensures { IsTrue result ↔ AreRising client errands.now }
{
    let mut last = None;
    for errand in errands {
        if errand.client == client {
            if !is_above(errand.number, last) {
                return false;
            }
            last = Some(errand.number);
        }
    }
    true
}

/// Enters the numbers of the client's errands of one robot; false where one was entered before.
fn enter_numbers<A: Allocator + Copy>(
    robot_of: &mut BTreeMap<u64, u32, A>,
    robots: &[RobotState<A>],
    robot: u32,
    client: u32,
) -> Result<bool, AllocError>
    requires inside { robot < length robots.now }
    requires entered { AreEntered robots.now client robot 0 (get nat_cmp robot_of.old) }
    ensures { IfOk result (λ new. MatchBool new (AreEntered robots.now client (robot + 1) 0 (get nat_cmp robot_of.new)) (AreClientNamesInOrder robots.now client → ⊥)) }
{
    let errands = robots[robot as usize].errands.as_slice();
    for place in 0..errands.len() {
        if errands[place].client == client {
            let number = errands[place].number;
            if robot_of.insert(number, robot)?.is_some() {
                return Ok(false);
            }
        }
    }
    Ok(true)
}

/// Whether the client's errands have different names on different robots, and rising numbers on each.
pub(crate) fn are_names_in_order<A: Allocator + Copy>(
    alloc: A,
    robots: &[RobotState<A>],
    client: u32,
) -> Result<bool, AllocError>
    requires { length robots.now < 2 ^ 32 }
    ensures { IfOk result (λ fine. IsTrue fine ↔ AreClientNamesInOrder robots.now client) }
{
    let mut robot_of = BTreeMap::new(alloc);
    for robot in 0..robots.len() {
        if !is_rising(robots[robot].errands.as_slice(), client) {
            return Ok(false);
        }
        if !enter_numbers(&mut robot_of, robots, robot as u32, client)? {
            return Ok(false);
        }
    }
    Ok(true)
}
