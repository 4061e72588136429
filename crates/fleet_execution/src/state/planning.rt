//! A further step of the plan.

ghost use Rattle.std.specs.Prelude.{◌≡◌, ◌≢◌, ◌↔◌, ◌⊎◌, ℕ, ◌+◌, ◌-◌, ◌%◌, ◌<◌, ◌≤◌, Some, None, IsTrue, not, ◌==◌, length, slice_index, slice_index_or, slice_set};
ghost use Rattle.fleet_execution.specs.declared.robot.Leave.{Leave};
ghost use Rattle.fleet_execution.specs.Course.{Course, with_step};
ghost use Rattle.fleet_execution.specs.Desk.{HasSameBounds};
ghost use Rattle.fleet_execution.specs.Executes.{Executes, IsKept, IsStep, IsIn, count_below};
ghost use Rattle.fleet_execution.specs.Stepped.{IsMover, AreNoted, AreLast, HasRoom, IsTold};
ghost use Rattle.fleet_execution.specs.State.{desk_of, slot_of, nobody, blank, IsSized, IsSound};

use crate::robot::{Leave, Planned};
use crate::state::State;
use std::alloc::Allocator;

impl<A: Allocator> State<A> {
    /// Whether a further step may be planned.
    pub(crate) fn has_room(&self) -> bool
        requires { IsSized self.now }
        ensures { IsTrue result ↔ HasRoom (desk_of self.now) }
    {
        self.steps < u64::MAX && self.unreached.get(self.place(self.steps + 1)) == 0
    }

    /// Plans a step.
    pub(crate) fn plan(&mut self, to: &[u32])
        requires sound { IsSound self.old }
        requires room { HasRoom (desk_of self.old) }
        requires step { IsStep (desk_of self.old) to.now }
        ensures sized { IsSized self.new }
        ensures planned { (o : Course) → Executes (desk_of self.old) o → Executes (desk_of self.new) (with_step o to.now) }
        ensures bounds { HasSameBounds (desk_of self.old) (desk_of self.new) }
    {
        let step = self.steps + 1;
        self.note_leaves(to, step);
        self.note_cells(to, step);
        self.note_followers(to, step);
        let moves = self.moves(to);
        let place = self.place(step);
        self.unreached.set(place, moves);
        self.offer_all(to);
        self.note_last(to);
        self.steps = step;
    }

    /// Notes who leaves a cell.
    fn note_leaves(&mut self, to: &[u32], step: u64)
        requires sized { IsSized self.old }
        requires robots { length to.now ≡ self.old.count }
        requires inside { (r : ℕ) → r < self.old.count → ((desk_of self.old).robot r).last < length self.old.leaves }
        requires step { step ≡ self.old.steps + 1 }
        ensures rest { self.new ≡ record self.old { leaves = self.new.leaves } }
        ensures cells { length self.new.leaves ≡ length self.old.leaves }
        ensures noted { AreNoted (desk_of self.old) to.now (desk_of self.new).leave }
    {
        for robot in 0..self.count {
            let last = self.robots.get(robot as usize).last;
            if to[robot as usize] != last {
                self.leaves.set(last as usize, Some(Leave { robot, step }));
            }
        }
    }

    /// Notes the robots' new cells, and who leaves them last.
    fn note_cells(&mut self, to: &[u32], step: u64)
        requires sized { IsSized self.old }
        requires robots { length to.now ≡ self.old.count }
        requires inside { (r : ℕ) → r < self.old.count → slice_index to.now r < length self.old.leaves }
        ensures rest { self.new ≡ record self.old { window = self.new.window } }
        ensures size { length self.new.window ≡ length self.old.window }
        ensures now { (r : ℕ) → r < self.old.count → (desk_of self.new).window r step
            ≡ record { to = slice_index to.now r; after = (desk_of self.old).leave (slice_index to.now r); follower = None } }
        ensures others { (r t : ℕ) → r < self.old.count → t % self.old.ahead ≢ step % self.old.ahead
            → (desk_of self.new).window r t ≡ (desk_of self.old).window r t }
    {
        for robot in 0..self.count {
            let cell = to[robot as usize];
            let slot = self.slot(robot, step);
            let after = self.leaves.get(cell as usize);
            self.window.set(
                slot,
                Planned {
                    to: cell,
                    after,
                    follower: None,
                },
            );
        }
    }

    /// Tells each robot who enters its old cell next.
    fn note_followers(&mut self, to: &[u32], step: u64)
        requires sized { IsSized self.old }
        requires robots { length to.now ≡ self.old.count }
        requires inside { (r : ℕ) → r < self.old.count → slice_index to.now r < length self.old.leaves }
        requires step { step ≡ self.old.steps + 1 }
        requires last { AreLast (desk_of self.old) to.now }
        ensures rest { self.new ≡ record self.old { window = self.new.window } }
        ensures size { length self.new.window ≡ length self.old.window }
        ensures cells { (r t : ℕ) → ((desk_of self.new).window r t).to ≡ ((desk_of self.old).window r t).to }
        ensures after { (r t : ℕ) → ((desk_of self.new).window r t).after ≡ ((desk_of self.old).window r t).after }
        ensures told { IsTold (desk_of self.old) to.now self.old.count (desk_of self.new).window }
    {
        for robot in 0..self.count {
            self.follow(to, step, robot);
        }
    }

    /// Tells the robot that left this one's new cell last, if its step is kept, who enters the cell next.
    fn follow(&mut self, to: &[u32], step: u64, robot: u32)
        requires sized { IsSized self.old }
        requires robots { length to.now ≡ self.old.count }
        requires inside { robot < self.old.count }
        requires cell { slice_index to.now robot < length self.old.leaves }
        requires known { (l : Leave) → (desk_of self.old).leave (slice_index to.now robot) ≡ Some l → (l.robot < self.old.count) × (l.step ≤ step) }
        ensures rest { self.new ≡ record self.old { window = self.new.window } }
        ensures told { (l : Leave) → IsMover (desk_of self.old) to.now robot → (desk_of self.old).leave (slice_index to.now robot) ≡ Some l →
            step < l.step + self.old.ahead → self.new.window ≡ slice_set self.old.window (slot_of self.old.ahead self.old.count l.robot l.step)
            (record ((desk_of self.old).window l.robot l.step) { follower = Some robot }) }
        ensures same { ((l : Leave) → IsMover (desk_of self.old) to.now robot → (desk_of self.old).leave (slice_index to.now robot) ≡ Some l →
            step < l.step + self.old.ahead → ⊥) → self.new.window ≡ self.old.window }
    {
        let cell = to[robot as usize];
        let last = self.robots.get(robot as usize).last;
        if cell == last {
            return;
        }
        let Some(leave) = self.leaves.get(cell as usize) else {
            return;
        };
        if step - leave.step >= u64::from(self.ahead) {
            return;
        }
        let slot = self.slot(leave.robot, leave.step);
        let mut planned = self.window.get(slot);
        planned.follower = Some(robot);
        self.window.set(slot, planned);
    }

    /// How many robots move in the step.
    fn moves(&self, to: &[u32]) -> u32
        requires sized { IsSized self.now }
        requires robots { length to.now ≡ self.now.count }
        ensures { result ≡ count_below self.now.count (λ r. not (slice_index to.now r == ((desk_of self.now).robot r).last)) }
    {
        let mut moves = 0;
        for robot in 0..self.count {
            if to[robot as usize] != self.robots.get(robot as usize).last {
                moves += 1;
            }
        }
        moves
    }

    /// Adds the robots that move in the step and are not under way.
    fn offer_all(&mut self, to: &[u32])
        requires sized { IsSized self.old }
        requires robots { length to.now ≡ self.old.count }
        ensures rest { self.new ≡ record self.old { ready = self.new.ready } }
        ensures robots { self.new.ready.robots ≡ self.old.ready.robots }
        ensures keeps { (q : ℕ) → IsIn self.old.ready.items q → IsIn self.new.ready.items q }
        ensures offered { (r : ℕ) → r < self.old.count → IsMover (desk_of self.old) to.now r
            → ((desk_of self.old).robot r).returned ≡ ((desk_of self.old).robot r).reached → IsIn self.new.ready.items r }
    {
        for robot in 0..self.count {
            let state = self.robots.get(robot as usize);
            if to[robot as usize] != state.last && state.returned == state.reached {
                self.ready.add(robot);
            }
        }
    }

    /// Notes the last planned cells.
    fn note_last(&mut self, to: &[u32])
        requires sized { IsSized self.old }
        requires robots { length to.now ≡ self.old.count }
        ensures rest { self.new ≡ record self.old { robots = self.new.robots } }
        ensures size { length self.new.robots ≡ length self.old.robots }
        ensures last { (r : ℕ) → r < self.old.count → (desk_of self.new).robot r ≡ record ((desk_of self.old).robot r) { last = slice_index to.now r } }
    {
        for robot in 0..self.count {
            let mut state = self.robots.get(robot as usize);
            state.last = to[robot as usize];
            self.robots.set(robot as usize, state);
        }
    }
}
