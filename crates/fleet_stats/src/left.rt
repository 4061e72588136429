//! The errands that are in the robots' queues.

ghost use Rattle.std.specs.Prelude.{◌≡◌, ◌++◌, map, drop, length, IfOk, OnOk};
ghost use Rattle.fleet_state.specs.Robots.{queue_at};
ghost use Rattle.fleet_stats.specs.Noted.{left_by, left_if, left_below};

use crate::rows::Left;
use fleet_queue::{Errand, ErrandQueue};
use std::alloc::{AllocError, Global};

/// Adds an errand of a robot, if there is one.
fn push_errand(left: &mut Vec<Left>, robot: usize, errand: Option<Errand>) -> Result<(), AllocError>
    ensures { OnOk result (left.new.items ≡ left.old.items ++ left_if robot errand) }
{
    if let Some(errand) = errand {
        left.push(Left {
            client: errand.client,
            number: errand.number,
            robot,
            cell: errand.cell,
        })?;
    }
    Ok(())
}

/// Adds the errands of a robot's queue.
fn push_queue(left: &mut Vec<Left>, robot: usize, queue: &ErrandQueue) -> Result<(), AllocError>
    ensures { OnOk result (left.new.items ≡ left.old.items ++ map (left_by robot) queue.now.items) }
{
    for place in 0..queue.len() {
        push_errand(left, robot, queue.get(place))?;
    }
    Ok(())
}

/// The errands in the queues, by robot and place.
pub(crate) fn left_of(alloc: Global, queues: &[ErrandQueue]) -> Result<Vec<Left>, AllocError>
    ensures { IfOk result (λ left. left.items ≡ left_below (λ r. (queue_at queues.now r).items) (length queues.now)) }
{
    let mut left = Vec::new(alloc);
    for robot in 0..queues.len() {
        push_queue(&mut left, robot, &queues[robot])?;
    }
    Ok(left)
}
