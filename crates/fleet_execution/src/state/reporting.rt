//! Reports of robots that have reached their cells.

ghost use Rattle.std.specs.Prelude.{◌≡◌, ◌≢◌, ℕ, ◌-◌, ◌%◌, ◌<◌, ◌≤◌, IfOk, IfErr, slice_set, slice_index};
ghost use Rattle.fleet_execution.specs.declared.robot.Robot.{Robot};
ghost use Rattle.fleet_execution.specs.Course.{Course, put};
ghost use Rattle.fleet_execution.specs.Desk.{before_in, chain, HasSameBounds};
ghost use Rattle.fleet_execution.specs.Executes.{Executes, IsIn, Wakes};
ghost use Rattle.fleet_execution.specs.Asked.{IsRing};
ghost use Rattle.fleet_execution.specs.State.{desk_of, IsSized, IsSound};
ghost use Rattle.fleet_execution.specs.Given.{IsReported};

use crate::motion::{Move, NotUnderWay};
use crate::robot::Robot;
use crate::state::State;
use execution_law::Clearance;
use std::alloc::Allocator;

impl<A: Allocator> State<A> {
    /// Takes the report of a robot.
    pub(crate) fn reached(&mut self, robot: u32) -> Result<Move, NotUnderWay>
        requires sound { IsSound self.old }
        ensures sized { IsSized self.new }
        ensures refused { IfErr result (λ _. (self.new ≡ self.old) × ((o : Course) → Executes (desk_of self.old) o →
            robot < o.run.plan.robots → o.returned robot ≡ o.run.reached robot)) }
        ensures robot { IfOk result (λ m. m.robot ≡ robot) }
        ensures reported { IfOk result (λ m. (o : Course) → Executes (desk_of self.old) o → IsReported o m (desk_of self.new)) }
        ensures bounds { HasSameBounds (desk_of self.old) (desk_of self.new) }
    {
        if robot >= self.count {
            return Err(NotUnderWay);
        }
        let state = self.robots.get(robot as usize);
        if state.returned == state.reached {
            return Err(NotUnderWay);
        }
        self.ready.add(robot);
        self.wake_after(robot, state);
        Ok(self.arrive(robot, state))
    }

    /// Notes that the robot has reached the cell of its move.
    fn arrive(&mut self, robot: u32, state: Robot) -> Move
        requires sized { IsSized self.old }
        requires inside { robot < self.old.count }
        requires some { 0 < (desk_of self.old).unreached (state.returned % self.old.ahead) }
        ensures rest { self.new ≡ record self.old {
          robots = slice_set self.old.robots robot (record state { cell = state.bound; reached = state.returned });
          unreached = slice_set self.old.unreached (state.returned % self.old.ahead)
              (slice_index self.old.unreached (state.returned % self.old.ahead) - 1);
        } }
        ensures value { result ≡ record { robot = robot; from = state.cell; to = state.bound; tick = state.returned } }
    {
        let place = self.place(state.returned);
        self.unreached.set(place, self.unreached.get(place) - 1);
        let mut now = state;
        now.reached = state.returned;
        now.cell = state.bound;
        self.robots.set(robot as usize, now);
        Move {
            robot,
            from: state.cell,
            to: state.bound,
            tick: state.returned,
        }
    }

    /// Adds the robots that may begin once the robot has reached its cell.
    fn wake_after(&mut self, robot: u32, state: Robot)
        requires sound { IsSound self.old }
        requires inside { robot < self.old.count }
        requires state { (desk_of self.old).robot robot ≡ state }
        requires under_way { state.returned ≢ state.reached }
        ensures rest { self.new ≡ record self.old { ready = self.new.ready } }
        ensures robots { self.new.ready.robots ≡ self.old.ready.robots }
        ensures keeps { (q : ℕ) → IsIn self.old.ready.items q → IsIn self.new.ready.items q }
        ensures wakes { (o : Course) → Executes (desk_of self.old) o
            → Wakes (desk_of self.old) o.run (put o.run.reached robot state.returned) self.new.ready.items robot state.returned }
    {
        if state.turned != state.returned {
            self.wake(Clearance::Arrived, robot, state.returned);
            return;
        }
        match self.clearance {
            Clearance::Started => {}
            Clearance::Arrived => {
                let size = self.lap(robot, state.returned);
                self.wake_turn(robot, state.returned, size);
            }
        }
    }

    /// Adds this many of those that turned with the robot.
    fn wake_turn(&mut self, robot: u32, step: u64, size: u32)
        requires sized { IsSized self.old }
        requires ring { IsRing (desk_of self.old) step robot }
        ensures rest { self.new ≡ record self.old { ready = self.new.ready } }
        ensures robots { self.new.ready.robots ≡ self.old.ready.robots }
        ensures keeps { (q : ℕ) → IsIn self.old.ready.items q → IsIn self.new.ready.items q }
        ensures added { (j : ℕ) → j < size → IsIn self.new.ready.items (chain (before_in (desk_of self.old).window step) robot j) }
    {
        let mut at = robot;
        for passed in 0..size {
            self.ready.add(at);
            at = self.before(at, step);
        }
    }
}
