//! A judge that takes a step in which few robots move.

ghost use Rattle.std.specs.Prelude.{◌≡◌, ◌≤◌, ◌<◌, ◌+◌, ◌++◌, ◌∷◌, ◌^◌, ℕ, List, [], length, slice_index, None, IsTrue, OnOk, IfOk};
ghost use Rattle.fleet_grid.specs.Floor.{Floor};
ghost use Rattle.fleet_grid.specs.Step.{IsConflictFree};
ghost use Rattle.fleet_plans.specs.Costs.{IsNoted};
ghost use Rattle.fleet_plans.specs.Judge.{HasJudged};
ghost use Rattle.fleet_plans.specs.inside.Seats.{AreSeated, HaveChanged, IsPartOf, KeepToEdges};

use super::{PlanJudge, keep};
use crate::seats::is_free_step;
use std::alloc::{AllocError, Allocator};

/// Writes the robot's new cell over its last one, and this time if it has moved.
fn note_one(last: &mut [u32], costs: &mut [u32], robot: u32, place: &[u32], time: u32)
    requires same_length { length place.now ≡ length last.old }
    requires each_one { length costs.old ≡ length last.old }
    ensures last_count { length last.new ≡ length last.old }
    ensures costs_count { length costs.new ≡ length costs.old }
    ensures here { robot < length place.now → slice_index last.new robot ≡ slice_index place.now robot }
    ensures others { (r : ℕ) → r < length place.now → IsPartOf last.old costs.old place.now time last.new costs.new r }
{
    let at = robot as usize;
    if at < place.len() && place[at] != last[at] {
        last[at] = place[at];
        costs[at] = time;
    }
}

/// Writes the new cells of these robots over their last ones, and this time at those that have moved.
fn note_all(last: &mut [u32], costs: &mut [u32], robots: &[u32], place: &[u32], time: u32)
    requires same_length { length place.now ≡ length last.old }
    requires each_one { length costs.old ≡ length last.old }
    requires changed { HaveChanged robots.now last.old place.now }
    ensures last { last.new ≡ place.now }
    ensures count { length costs.new ≡ length costs.old }
    ensures costs { (r : ℕ) → r < length costs.old → IsNoted last.old place.now time r (slice_index costs.old r) (slice_index costs.new r) }
{
    for k in 0..robots.len() {
        note_one(last, costs, robots[k], place, time);
    }
}

/// Notes a step in which only these robots have moved.
fn note_some<A: Allocator + Copy>(
    last: &mut Vec<u32, A>,
    costs: &mut Vec<u32, A>,
    robots: &[u32],
    place: &[u32],
    time: u32,
)
    requires same_length { length place.now ≡ length last.old.items }
    requires each_one { length costs.old.items ≡ length last.old.items }
    requires changed { HaveChanged robots.now last.old.items place.now }
    ensures last { last.new.items ≡ place.now }
    ensures count { length costs.new.items ≡ length costs.old.items }
    ensures costs { (r : ℕ) → r < length costs.old.items → IsNoted last.old.items place.now time r (slice_index costs.old.items r) (slice_index costs.new.items r) }
{
    note_all(
        last.as_mut_slice(),
        costs.as_mut_slice(),
        robots,
        place,
        time,
    );
}

impl<'a, A: Allocator + Copy, B: Allocator + Copy> PlanJudge<'a, A, B> {
    /// Takes a next placement that is free of faults and to which only these robots have moved.
    fn take_free(&mut self, robots: &[u32], place: &[u32]) -> Result<(), AllocError>
        requires later { 1 ≤ self.old.count }
        requires times { self.old.count < 2 ^ 32 }
        requires faultless { self.old.fault ≡ None }
        requires each_one { length place.now ≡ length self.old.last }
        requires changed { HaveChanged robots.now self.old.last place.now }
        requires free { IsConflictFree self.old.floor self.old.last place.now }
        ensures taken { (m : Floor) (places : List (List ℕ)) → HasJudged m places self.old → OnOk result (HasJudged m (places ++ place.now ∷ []) self.new) }
        ensures faultless { self.new.fault ≡ None }
        ensures last { OnOk result (self.new.last ≡ place.now) }
    {
        let time = self.count as u32;
        keep(&mut self.kept, place)?;
        note_some(&mut self.last, &mut self.costs, robots, place, time);
        self.count += 1;
        Ok(())
    }

    /// Takes a next placement to which only these robots have moved; it is known whether each of them stayed or crossed
    /// an edge. The table has the robots on their last cells. If the result is true, the placement is free of faults,
    /// and the table has them on their new cells.
    pub(crate) fn take_some(
        &mut self,
        seats: &mut [u32],
        robots: &[u32],
        place: &[u32],
        on_edges: bool,
    ) -> Result<bool, AllocError>
        requires later { 1 ≤ self.old.count }
        requires times { self.old.count < 2 ^ 32 }
        requires faultless { self.old.fault ≡ None }
        requires each_one { length place.now ≡ length self.old.last }
        requires changed { HaveChanged robots.now self.old.last place.now }
        requires edges { IsTrue on_edges → KeepToEdges self.old.floor self.old.last place.now }
        requires seated { AreSeated seats.old self.old.last }
        ensures taken { (m : Floor) (places : List (List ℕ)) → HasJudged m places self.old → OnOk result (HasJudged m (places ++ place.now ∷ []) self.new) }
        ensures faultless { IfOk result (λ free. IsTrue free → self.new.fault ≡ None) }
        ensures last { IfOk result (λ free. IsTrue free → self.new.last ≡ place.now) }
        ensures seated { IfOk result (λ free. IsTrue free → AreSeated seats.new place.now) }
    {
        if on_edges && is_free_step(seats, robots, self.last.as_slice(), place) {
            self.take_free(robots, place)?;
            return Ok(true);
        }
        self.take_next(place)?;
        Ok(false)
    }
}
