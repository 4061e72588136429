//! The beginning of moves.

ghost use Rattle.std.specs.Prelude.{◌≡◌, ◌≢◌, ◌↔◌, ◌⊎◌, ℕ, ◌<◌, ◌≤◌, [], Some, None, MatchOption, IfSome, length, slice_get, slice_set, slice_index_or, if◌then◌else◌};
ghost use Rattle.execution_law.specs.declared.clearance.Clearance.TheVariants.{Started};
ghost use Rattle.execution_law.specs.Rule.{MayBegin, MayBeginAlone};
ghost use Rattle.fleet_execution.specs.declared.robot.Turning.{Turning};
ghost use Rattle.fleet_execution.specs.Course.{Course};
ghost use Rattle.fleet_execution.specs.Desk.{before_in, HasSameBounds};
ghost use Rattle.fleet_execution.specs.Executes.{Executes, AreReturned, IsIn};
ghost use Rattle.fleet_execution.specs.Asked.{MayTurnIn, IsNextIn};
ghost use Rattle.fleet_execution.specs.State.{desk_of, IsSized, IsSound};
ghost use Rattle.fleet_execution.specs.Given.{Gives, IsBeginning, MayNotBegin};

use crate::motion::Move;
use crate::robot::Turning;
use crate::state::State;
use execution_law::Clearance;
use std::alloc::Allocator;

/// How a robot's next move may begin, and its step.
#[derive(Clone, Copy)]
pub(crate) enum Beginning {
    /// By itself.
    Alone(u64),
    /// With a cycle.
    Turning(u64),
}

/// A robot whose next move may begin.
#[derive(Clone, Copy)]
struct Start {
    robot: u32,
    beginning: Beginning,
}

/// What is left of a cycle, whose moves were returned up to this robot's.
fn rest(turning: Turning, next: u32) -> Option<Turning>
    ensures through { next ≡ turning.first → result ≡ None }
    ensures more { next ≢ turning.first → result ≡ Some (record turning { next = next }) }
{
    if next == turning.first {
        return None;
    }
    Some(Turning {
        step: turning.step,
        first: turning.first,
        next,
    })
}

impl<A: Allocator> State<A> {
    /// The next move that may begin.
    pub(crate) fn begin(&mut self) -> Option<Move>
        requires sound { IsSound self.old }
        ensures sized { IsSized self.new }
        ensures none { result ≡ None → (o : Course) → Executes (desk_of self.old) o
            → AreReturned o × ((r t : ℕ) → r < o.run.plan.robots → MayBegin o.run r t → ⊥) × Executes (desk_of self.new) o }
        ensures some { IfSome result (λ m. (o : Course) → Executes (desk_of self.old) o → Gives o m (desk_of self.new)) }
        ensures bounds { HasSameBounds (desk_of self.old) (desk_of self.new) }
    {
        if let Some(turning) = self.turning {
            return Some(self.go_on(turning));
        }
        let start = self.choose()?;
        match start.beginning {
            Beginning::Alone(step) => Some(self.begin_alone(start.robot, step)),
            Beginning::Turning(step) => Some(self.begin_turn(start.robot, step)),
        }
    }

    /// Removes robots from the front of the queue until the next move of the first may begin.
    fn choose(&mut self) -> Option<Start>
        requires sound { IsSound self.old }
        requires idle { self.old.turning ≡ None }
        ensures sized { IsSized self.new }
        ensures idle { self.new.turning ≡ None }
        ensures keeps { (o : Course) → Executes (desk_of self.old) o → Executes (desk_of self.new) o }
        ensures bounds { HasSameBounds (desk_of self.old) (desk_of self.new) }
        ensures first { MatchOption result (self.new.ready.items ≡ []) (λ s. (s.robot < self.new.count)
            × (slice_get self.new.ready.items 0 ≡ Some s.robot) × IsBeginning (desk_of self.new) s.robot s.beginning) }
    {
        while let Some(robot) = self.ready.first() {
            if let Some(beginning) = self.beginning(robot) {
                return Some(Start { robot, beginning });
            }
            self.ready.drop_first();
        }
        None
    }

    /// How the robot's next move may begin, if it may.
    fn beginning(&self, robot: u32) -> Option<Beginning>
        requires sound { IsSound self.now }
        requires idle { self.now.turning ≡ None }
        requires inside { robot < self.now.count }
        ensures { MatchOption result (MayNotBegin (desk_of self.now) robot) (λ b. IsBeginning (desk_of self.now) robot b) }
    {
        let step = self.next(robot);
        if step == 0 {
            return None;
        }
        if !self.is_free(robot) {
            return None;
        }
        if self.is_clear(robot, step) {
            return Some(Beginning::Alone(step));
        }
        if self.turn(robot, step) > 0 {
            return Some(Beginning::Turning(step));
        }
        None
    }

    /// Begins a move by itself.
    fn begin_alone(&mut self, robot: u32, step: u64) -> Move
        requires sound { IsSound self.old }
        requires idle { self.old.turning ≡ None }
        requires inside { robot < self.old.count }
        requires first { slice_get self.old.ready.items 0 ≡ Some robot }
        requires may { (o : Course) → Executes (desk_of self.old) o → AreReturned o → MayBeginAlone o.run robot step }
        ensures sized { IsSized self.new }
        ensures gives { (o : Course) → Executes (desk_of self.old) o → Gives o result (desk_of self.new) }
        ensures bounds { HasSameBounds (desk_of self.old) (desk_of self.new) }
    {
        self.ready.drop_first();
        self.wake(Clearance::Started, robot, step);
        self.give(robot, step, false)
    }

    /// Begins the moves of a cycle, and returns the first.
    fn begin_turn(&mut self, robot: u32, step: u64) -> Move
        requires sound { IsSound self.old }
        requires idle { self.old.turning ≡ None }
        requires inside { robot < self.old.count }
        requires first { slice_get self.old.ready.items 0 ≡ Some robot }
        requires may { IsNextIn (desk_of self.old) robot step × ((size : ℕ) × MayTurnIn (desk_of self.old) step robot size) }
        ensures sized { IsSized self.new }
        ensures gives { (o : Course) → Executes (desk_of self.old) o → Gives o result (desk_of self.new) }
        ensures bounds { HasSameBounds (desk_of self.old) (desk_of self.new) }
    {
        self.ready.drop_first();
        let next = self.before(robot, step);
        self.turning = Some(Turning {
            step,
            first: robot,
            next,
        });
        self.give(robot, step, true)
    }

    /// Returns the next move of a cycle.
    fn go_on(&mut self, turning: Turning) -> Move
        requires sound { IsSound self.old }
        requires turning { self.old.turning ≡ Some turning }
        ensures sized { IsSized self.new }
        ensures gives { (o : Course) → Executes (desk_of self.old) o → Gives o result (desk_of self.new) }
        ensures bounds { HasSameBounds (desk_of self.old) (desk_of self.new) }
    {
        let next = self.before(turning.next, turning.step);
        self.turning = rest(turning, next);
        self.give(turning.next, turning.step, true)
    }

    /// Notes that the robot's move in a step is returned, and returns it.
    fn give(&mut self, robot: u32, step: u64, turns: bool) -> Move
        requires sized { IsSized self.old }
        requires inside { robot < self.old.count }
        ensures rest { self.new ≡ record self.old {
          robots = slice_set self.old.robots robot (record ((desk_of self.old).robot robot) {
            bound = ((desk_of self.old).window robot step).to;
            returned = step;
            turned = (if turns then step else ((desk_of self.old).robot robot).turned);
          });
        } }
        ensures value { result ≡ record {
          robot = robot;
          from = ((desk_of self.old).robot robot).cell;
          to = ((desk_of self.old).window robot step).to;
          tick = step;
        } }
    {
        let to = self.planned(robot, step).to;
        let mut state = self.robots.get(robot as usize);
        state.returned = step;
        state.bound = to;
        if turns {
            state.turned = step;
        }
        self.robots.set(robot as usize, state);
        Move {
            robot,
            from: state.cell,
            to,
            tick: step,
        }
    }

    /// By this clearance, adds the robot that enters the cell next that the robot leaves in a step.
    pub(crate) fn wake(&mut self, clearance: Clearance, robot: u32, step: u64)
        requires sized { IsSized self.old }
        requires inside { robot < self.old.count }
        ensures rest { self.new ≡ record self.old { ready = self.new.ready } }
        ensures robots { self.new.ready.robots ≡ self.old.ready.robots }
        ensures keeps { (q : ℕ) → IsIn self.old.ready.items q → IsIn self.new.ready.items q }
        ensures woken { self.old.clearance ≡ clearance → (f : ℕ) → f < self.old.count
            → ((desk_of self.old).window robot step).follower ≡ Some f → IsIn self.new.ready.items f }
    {
        if self.clearance != clearance {
            return;
        }
        if let Some(follower) = self.planned(robot, step).follower {
            if follower < self.count {
                self.ready.add(follower);
            }
        }
    }
}
