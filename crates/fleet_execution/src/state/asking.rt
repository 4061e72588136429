//! Which move is a robot's next, and whether it may begin.

ghost use Rattle.std.specs.Prelude.{◌≡◌, ◌≢◌, ◌↔◌, ℕ, ◌<◌, ◌≤◌, Some, None, IsTrue, true, false};
ghost use Rattle.fleet_execution.specs.declared.robot.Leave.{Leave};
ghost use Rattle.fleet_execution.specs.Desk.{before_in, chain};
ghost use Rattle.fleet_execution.specs.State.{desk_of, slot_of, IsSized, IsSound};
ghost use Rattle.fleet_execution.specs.Asked.{IsNextIn, IsFreeIn, HaveTurned, HasEndedIn, IsRing, MayTurnIn, MayAllTurn};

use crate::robot::{Leave, Planned, Robot};
use crate::state::State;
use execution_law::Clearance;
use std::alloc::Allocator;

impl<A: Allocator> State<A> {
    /// What a step has for a robot.
    pub(crate) fn planned(&self, robot: u32, step: u64) -> Planned
        requires sized { IsSized self.now }
        requires inside { robot < self.now.count }
        ensures { result ≡ (desk_of self.now).window robot step }
    {
        self.window.get(self.slot(robot, step))
    }

    /// The step of the robot's first planned move that was not returned; 0 if there is none.
    pub(crate) fn next(&self, robot: u32) -> u64
        requires sized { IsSized self.now }
        requires inside { robot < self.now.count }
        ensures none { result ≡ 0 → (t : ℕ) → IsNextIn (desk_of self.now) robot t → ⊥ }
        ensures some { result ≢ 0 → IsNextIn (desk_of self.now) robot result }
    {
        let state = self.robots.get(robot as usize);
        let before = self.steps.saturating_sub(u64::from(self.ahead));
        let mut step = state.returned.max(before);
        while step < self.steps {
            step += 1;
            if self.planned(robot, step).to != state.bound {
                return step;
            }
        }
        0
    }

    /// Whether the robot has done with its last move.
    pub(crate) fn is_free(&self, robot: u32) -> bool
        requires sound { IsSound self.now }
        requires inside { robot < self.now.count }
        ensures { IsTrue result ↔ IsFreeIn (desk_of self.now) robot }
    {
        let state = self.robots.get(robot as usize);
        if state.returned != state.reached {
            return false;
        }
        match self.clearance {
            Clearance::Started => true,
            Clearance::Arrived => self.have_turned(robot, state),
        }
    }

    /// Whether those that turned with the robot in its last move have reached their cells, if it turned.
    fn have_turned(&self, robot: u32, state: Robot) -> bool
        requires sound { IsSound self.now }
        requires inside { robot < self.now.count }
        requires state { state ≡ (desk_of self.now).robot robot }
        requires stands { state.returned ≡ state.reached }
        ensures { IsTrue result ↔ HaveTurned (desk_of self.now) robot state }
    {
        let step = state.reached;
        if state.turned != step {
            return true;
        }
        if step == 0 {
            return true;
        }
        if self.steps.saturating_sub(step) >= u64::from(self.ahead) {
            return true;
        }
        self.lap(robot, step) > 0
    }

    /// Whether each stay on the cell of the robot's move has ended before.
    pub(crate) fn is_clear(&self, robot: u32, step: u64) -> bool
        requires sized { IsSized self.now }
        requires inside { robot < self.now.count }
        requires known { (l : Leave) → ((desk_of self.now).window robot step).after ≡ Some l → l.robot < self.now.count }
        ensures { IsTrue result ↔ HasEndedIn (desk_of self.now) ((desk_of self.now).window robot step).after }
    {
        match self.planned(robot, step).after {
            Some(leave) => self.has_ended(leave),
            None => true,
        }
    }

    /// Whether a stay has ended, which did not end in a cycle.
    fn has_ended(&self, leave: Leave) -> bool
        requires sized { IsSized self.now }
        requires inside { leave.robot < self.now.count }
        ensures { IsTrue result ↔ HasEndedIn (desk_of self.now) (Some leave) }
    {
        let state = self.robots.get(leave.robot as usize);
        match self.clearance {
            Clearance::Arrived => leave.step <= state.reached,
            Clearance::Started => leave.step <= state.returned,
        }
    }

    /// The robot that leaves the cell which this one enters; itself if there is none.
    pub(crate) fn before(&self, robot: u32, step: u64) -> u32
        requires sized { IsSized self.now }
        requires inside { robot < self.now.count }
        ensures { result ≡ before_in (desk_of self.now).window step robot }
    {
        match self.planned(robot, step).after {
            Some(leave) => leave.robot,
            None => robot,
        }
    }

    /// How many robots turn in a cycle with this one, itself among them, if all others have reached their cells; else 0.
    pub(crate) fn lap(&self, robot: u32, step: u64) -> u32
        requires sized { IsSized self.now }
        requires inside { robot < self.now.count }
        requires ring { IsRing (desk_of self.now) step robot }
        ensures round { 0 < result → chain (before_in (desk_of self.now).window step) robot result ≡ robot }
        ensures reached { 0 < result → (j : ℕ) → 0 < j → j < result
            → step ≤ ((desk_of self.now).robot (chain (before_in (desk_of self.now).window step) robot j)).reached }
        ensures waits { result ≡ 0
            → (k : ℕ) × (chain (before_in (desk_of self.now).window step) robot k ≢ robot)
            × (((desk_of self.now).robot (chain (before_in (desk_of self.now).window step) robot k)).reached < step) }
    {
        let mut at = robot;
        for passed in 0..self.count {
            at = self.before(at, step);
            if at == robot {
                return passed + 1;
            }
            if self.robots.get(at as usize).reached < step {
                return 0;
            }
        }
        0
    }

    /// How many robots turn in a cycle with this one, itself among them, if the next move of each is in this step and it
    /// is free; else 0. Of the robot itself that is known.
    pub(crate) fn turn(&self, robot: u32, step: u64) -> u32
        requires sound { IsSound self.now }
        requires idle { self.now.turning ≡ None }
        requires inside { robot < self.now.count }
        requires next { IsNextIn (desk_of self.now) robot step }
        requires free { IsFreeIn (desk_of self.now) robot }
        ensures turns { 0 < result → MayTurnIn (desk_of self.now) step robot result }
        ensures not { result ≡ 0 → MayAllTurn (desk_of self.now) step robot → ⊥ }
    {
        let mut at = robot;
        for passed in 0..self.count {
            let Some(leave) = self.planned(at, step).after else {
                return 0;
            };
            if leave.step != step {
                return 0;
            }
            at = leave.robot;
            if at == robot {
                return passed + 1;
            }
            if self.next(at) != step {
                return 0;
            }
            if !self.is_free(at) {
                return 0;
            }
        }
        0
    }
}
