//! The execution of a plan.

ghost use Rattle.std.specs.Prelude.{◌≡◌, ◌↔◌, ℕ, ◌<◌, ◌≤◌, None, IsTrue, IfOk, IfErr, IfSome, length, slice_index};
ghost use Rattle.execution_law.specs.Rule.{MayBegin};
ghost use Rattle.fleet_execution.specs.Course.{Course, course_at, with_step};
ghost use Rattle.fleet_execution.specs.Executes.{Executes, AreReturned, IsStep};
ghost use Rattle.fleet_execution.specs.Stepped.{HasRoom};
ghost use Rattle.fleet_execution.specs.Given.{Gives, IsReported, IsStanding, IsBehind, HasRoomFor};
ghost use Rattle.fleet_execution.specs.Kept.{desk};
ghost use Rattle.fleet_execution.specs.Checked.{IsPlacement};
ghost use Rattle.fleet_execution.specs.Desk.{HasSameBounds, steps_left};

use crate::motion::{Move, NotUnderWay};
use crate::standing::Standing;
use crate::state::State;
use execution_law::Clearance;
use std::alloc::{AllocError, Allocator, Global};
use std::marker::Model;

/// The execution of a plan by robots that are not in step. Only `new` allocates.
///
/// A plan is a list of placements, made longer by `plan`; a *move* is a step of it in which a robot changes its cell.
/// A robot may begin its next move if it has reached its cell, and each stay that the plan has on the new cell before
/// has ended, as the clearance says. Robots of which each enters the cell that the next one leaves, in one step of the
/// plan, begin together: each of them has then reached the cell from which it turns. Under `Arrived` none of them begins
/// its next move before all of them have reached their cells.
///
/// Each call takes a time that does not grow with the map: `plan` and `is_step` in proportion to the number of robots, `reached` at
/// most to the length of a cycle, if the robot turns in one, and `begin` at most to its square; `standing` and `behind`
/// at most to the window.
#[derive(Drop)]
pub struct Execution<A: Allocator = Global> {
    state: State<A>,
}

impl<A: Allocator> Model for Execution<A> {
    ghost use Rattle.fleet_execution.specs.State.{Kept, kept_of, IsSound};

    ghost Value = { Kept };

    ghost view = { λ e. kept_of e.state };

    ghost invariant = { λ e. IsSound e.state };
}

impl<A: Allocator + Copy> Execution<A> {
    /// The execution of a plan that begins with a placement, which has the cell of each robot, on a map whose cells are
    /// numbered below `cells`: `is_placement` says whether it is one. At most `ahead` steps are planned that are not reached.
    /// `Err` if memory runs out.
    pub fn new(
        alloc: A,
        cells: u32,
        placement: &[u32],
        clearance: Clearance,
        ahead: u32,
    ) -> Result<Self, AllocError>
        requires some { 0 < ahead }
        requires placement { IsPlacement cells placement.now }
        ensures opened { IfOk result (λ e. Executes (desk e) (course_at clearance placement.now)) }
        ensures cells { IfOk result (λ e. (desk e).cells ≡ cells) }
        ensures ahead { IfOk result (λ e. (desk e).ahead ≡ ahead) }
    {
        let state = State::new(alloc, cells, placement, clearance, ahead)?;
        Ok(Execution { state })
    }
}

impl<A: Allocator> Execution<A> {
    /// How many steps were planned.
    pub fn steps(&self) -> u64
        ensures { result ≡ (desk self.now).steps }
    {
        self.state.steps
    }

    /// Whether a further step may be planned: each move of the step that lies `ahead` steps before it is reached.
    pub fn has_room(&self) -> bool
        ensures desk { IsTrue result ↔ HasRoom (desk self.now) }
        ensures course { (o : Course) → Executes (desk self.now) o → IsTrue result ↔ HasRoomFor o (desk self.now).ahead }
    {
        self.state.has_room()
    }

    /// Whether these cells, one for each robot, are a step from the placement that was planned last, free of conflicts: each
    /// is a cell of the map, no two robots come to one cell, and no two exchange their cells. So the plan of any planner can
    /// be executed, whether it is proved or not. That the cells are neighbours is not asked: an execution knows no map.
    pub fn is_step(&mut self, to: &[u32]) -> bool
        ensures step { IsTrue result ↔ IsStep (desk self.old) to.now }
        ensures same { self.new ≡ self.old }
    {
        self.state.is_step(to)
    }

    /// Plans a step: item r of `to` is the cell of robot r after it. The step is from the placement that was planned
    /// last, and free of conflicts: no two robots come to one cell, and no two exchange their cells.
    pub fn plan(&mut self, to: &[u32])
        requires room { HasRoom (desk self.old) }
        requires step { IsStep (desk self.old) to.now }
        ensures planned { (o : Course) → Executes (desk self.old) o → Executes (desk self.new) (with_step o to.now) }
        ensures bounds { HasSameBounds (desk self.old) (desk self.new) }
    {
        self.state.plan(to);
    }

    /// The next move that may begin; it begins with this call, and so do the moves of all that turn with it, which the
    /// next calls return. Each is returned once; `None` if no move may begin.
    pub fn begin(&mut self) -> Option<Move>
        ensures none { result ≡ None → (o : Course) → Executes (desk self.old) o
            → AreReturned o × ((r t : ℕ) → r < o.run.plan.robots → MayBegin o.run r t → ⊥) × Executes (desk self.new) o }
        ensures some { IfSome result (λ m. (o : Course) → Executes (desk self.old) o → Gives o m (desk self.new)) }
        ensures fewer { IfSome result (λ _. steps_left (desk self.new) < steps_left (desk self.old)) }
        ensures bounds { HasSameBounds (desk self.old) (desk self.new) }
    {
        self.state.begin()
    }

    /// Takes the report that a robot has reached the cell to which it is under way, and returns its move. A robot that
    /// is not under way is refused, and nothing changes.
    pub fn reached(&mut self, robot: u32) -> Result<Move, NotUnderWay>
        ensures refused { IfErr result (λ _. (self.new ≡ self.old) × ((o : Course) → Executes (desk self.old) o →
            robot < o.run.plan.robots → o.returned robot ≡ o.run.reached robot)) }
        ensures robot { IfOk result (λ m. m.robot ≡ robot) }
        ensures reported { IfOk result (λ m. (o : Course) → Executes (desk self.old) o → IsReported o m (desk self.new)) }
        ensures bounds { HasSameBounds (desk self.old) (desk self.new) }
    {
        self.state.reached(robot)
    }

    /// Where a robot is; `None` if there is no robot with this number.
    pub fn standing(&self, robot: u32) -> Option<Standing>
        ensures none { result ≡ None → (o : Course) → Executes (desk self.now) o → o.run.plan.robots ≤ robot }
        ensures some { IfSome result (λ s. (o : Course) → Executes (desk self.now) o → IsStanding o robot s) }
    {
        self.state.standing(robot)
    }

    /// How many planned steps there are from the first with a move that is not reached; 0 if all are reached.
    pub fn behind(&self) -> u32
        ensures { (o : Course) → Executes (desk self.now) o → IsBehind o result }
    {
        self.state.behind()
    }
}
