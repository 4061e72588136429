//! Whether cells are a further step of the plan.

ghost use Rattle.std.specs.Prelude.{◌≡◌, ◌≢◌, ◌↔◌, ◌⊎◌, ℕ, ◌+◌, ◌<◌, ◌≤◌, IsTrue, true, false, length, slice_index};
ghost use Rattle.fleet_execution.specs.Executes.{IsStep};
ghost use Rattle.fleet_execution.specs.Checked.{AreMarked, Exchanges};
ghost use Rattle.fleet_execution.specs.State.{desk_of, IsSized, IsSound};

use crate::marks::mark_all;
use crate::state::State;
use std::alloc::Allocator;

impl<A: Allocator> State<A> {
    /// Whether these cells, one for each robot, are a step from the placement that was planned last, free of conflicts.
    pub(crate) fn is_step(&mut self, to: &[u32]) -> bool
        requires sound { IsSound self.old }
        ensures rest { self.new ≡ record self.old { marks = self.new.marks } }
        ensures size { length self.new.marks ≡ length self.old.marks }
        ensures step { IsTrue result ↔ IsStep (desk_of self.old) to.now }
    {
        if to.len() != self.count as usize {
            return false;
        }
        if !mark_all(&mut self.marks, to, self.count) {
            return false;
        }
        self.none_exchange(to)
    }

    /// Whether no two robots exchange their cells, whose cells are marked.
    fn none_exchange(&self, to: &[u32]) -> bool
        requires sized { IsSized self.now }
        requires robots { length to.now ≡ self.now.count }
        requires marked { AreMarked to.now self.now.marks self.now.count }
        requires inside { (r : ℕ) → r < self.now.count → ((desk_of self.now).robot r).last < length self.now.leaves }
        ensures none { result ≡ true → (r q : ℕ) → r < self.now.count → Exchanges (desk_of self.now) to.now r q → ⊥ }
        ensures some { result ≡ false → (r : ℕ) × (q : ℕ) × (r < self.now.count) × Exchanges (desk_of self.now) to.now r q }
    {
        for robot in 0..self.count {
            if self.exchanges(to, robot) {
                return false;
            }
        }
        true
    }

    /// Whether a robot exchanges its cell with another one.
    fn exchanges(&self, to: &[u32], robot: u32) -> bool
        requires sized { IsSized self.now }
        requires robots { length to.now ≡ self.now.count }
        requires inside { robot < self.now.count }
        requires marked { AreMarked to.now self.now.marks self.now.count }
        requires last { ((desk_of self.now).robot robot).last < length self.now.leaves }
        ensures one { result ≡ true → (q : ℕ) × Exchanges (desk_of self.now) to.now robot q }
        ensures none { result ≡ false → (q : ℕ) → Exchanges (desk_of self.now) to.now robot q → ⊥ }
    {
        let last = self.robots.get(robot as usize).last;
        let other = self.marks.get(last as usize);
        if other >= self.count || other == robot || to[other as usize] != last {
            return false;
        }
        self.robots.get(other as usize).last == to[robot as usize]
    }
}
