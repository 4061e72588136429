//! Lists by robots.

ghost use Rattle.std.specs.Prelude.{◌≡◌, None, length, replicate, vec_len, IfOk};
ghost use Rattle.fleet_planner.specs.Turned.{turned, AreKnownTurns};

use fleet_planner::GoalChange;
use std::alloc::{AllocError, Allocator};

/// Nothing for each of this many robots.
pub(crate) fn nothing<T: Copy, A: Allocator + Copy>(
    alloc: A,
    robots: u32,
) -> Result<Vec<Option<T>, A>, AllocError>
    ensures items { IfOk result (λ list. list.items ≡ replicate robots None) }
    ensures len { IfOk result (λ list. vec_len list ≡ robots) }
{
    let mut list = Vec::with_capacity(alloc, robots as usize)?;
    for _robot in 0..robots {
        list.push_reserved(None);
    }
    Ok(list)
}

/// Gives the robots of these changes their new goals.
pub(crate) fn put(goals: &mut [Option<u32>], turns: &[GoalChange])
    requires { AreKnownTurns (length goals.old) turns.now }
    ensures { goals.new ≡ turned turns.now goals.old }
{
    for at in 0..turns.len() {
        let turn = turns[at];
        goals[turn.robot as usize] = turn.goal;
    }
}
