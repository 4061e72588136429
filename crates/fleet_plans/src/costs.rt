//! What a plan costs.

ghost use Rattle.std.specs.Prelude.{◌≡◌, ◌<◌, ◌≤◌, ◌-◌, ◌+◌, ◌^◌, ◌==◌, ℕ, length, slice_index, replicate, sum, count_by, fold, max, zip, IfOk};
ghost use Rattle.fleet_plans.specs.Valid.{place_at};
ghost use Rattle.fleet_plans.specs.Costs.{IsOneFleet, AreCostsBy, IsNoted, greatest};

use crate::placements::Placements;
use std::alloc::{AllocError, Allocator};

/// Notes this time for each robot that moves in the step to it.
pub(crate) fn note_moves(costs: &mut [u32], from: &[u32], to: &[u32], time: u32)
    requires before { length from.now ≡ length costs.old }
    requires after { length to.now ≡ length costs.old }
    ensures { (r : ℕ) → r < length costs.old → IsNoted from.now to.now time r (slice_index costs.old r) (slice_index costs.new r) }
{
    for robot in 0..costs.len() {
        if to[robot] != from[robot] {
            costs[robot] = time;
        }
    }
}

/// A list of n zeros.
pub(crate) fn zeros<A: Allocator + Copy>(alloc: A, n: usize) -> Result<Vec<u32, A>, AllocError>
    ensures { IfOk result (λ list. list.items ≡ replicate n 0) }
{
    let mut list = Vec::with_capacity(alloc, n)?;
    list.resize(n, 0)?;
    Ok(list)
}

/// The sum of these costs.
pub(crate) fn sum_of_costs(costs: &[u32]) -> u64
    requires { length costs.now < 2 ^ 32 }
    ensures { result ≡ sum costs.now }
{
    costs.iter().map(|cost| u64::from(*cost)).sum()
}

/// The greatest of these costs, 0 if there are none: the makespan, from which on no robot moves.
pub(crate) fn makespan(costs: &[u32]) -> u32
    ensures { result ≡ greatest costs.now }
{
    costs.iter().fold(0, |most, cost| most.max(*cost))
}

/// The number of robots whose last cell is their goal.
pub(crate) fn on_goals(goals: &[u32], last: &[u32]) -> usize
    ensures value { result ≡ count_by (λ p. p.0 == p.1) (zip goals.now last.now) }
    ensures most { result ≤ length last.now }
{
    goals
        .iter()
        .zip(last)
        .filter(|(goal, cell)| **goal == **cell)
        .count()
}
