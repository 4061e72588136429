//! A fleet whose robots take turns: their goals, and the steps of its ticks.

ghost use Rattle.std.specs.Prelude.{◌≡◌, ◌<◌, ◌≤◌, ◌+◌, ◌^◌, ℕ, Some, length, map, slice_set, IfOk, OnOk, OnErr};
ghost use Rattle.fleet_field.specs.FieldCache.{bytes_kept};
ghost use Rattle.fleet_field.specs.Store.{Keeps};
ghost use Rattle.fleet_grid.specs.Floor.{Floor, IsFloor};
ghost use Rattle.fleet_history.specs.History.{History};
ghost use Rattle.fleet_planner.specs.Aimed.{MayPlan, MayBegin, begun, begun_goals, first_goals, goals_ticked};
ghost use Rattle.fleet_planner.specs.Courses.{goals_of, AreOn};
ghost use Rattle.fleet_planner.specs.Searched.{AreMissing, IsSearch};
ghost use Rattle.fleet_state.specs.State.{IsStateOf, robot_count};
ghost use Rattle.fleet_turns.specs.Planning.{IsPlannerOf};
ghost use Rattle.turns_law.specs.Turns.{AreTurns};
ghost use Rattle.mover.specs.Moving.{AreTurnsOf, IsTickBy};
ghost use Rattle.mover.specs.inside.Turning.{IsNewFleet, planner_of, turn_planner};

use fleet_book::{Order, Verdict};
use fleet_field::FieldCache;
use fleet_grid::Grid;
use fleet_hooks::TieHook;
use fleet_planner::{GoalChange, KEPT_BYTES, first_goal, put_turns};
use fleet_state::FleetState;
use fleet_turns::{Fleet, NoTurns, TurnPlanner};
use std::alloc::{AllocError, Allocator, Global};
use std::marker::Model;

/// A planner of turns, and the fields of goals that no robot has any more.
#[derive(Drop)]
pub(crate) struct TurnFleet<A: Allocator + Copy = Global> {
    planner: TurnPlanner<A>,
    cache: FieldCache<A>,
    /// The changes of the last tick, with room for all robots.
    changes: Vec<GoalChange, A>,
}

impl<A: Allocator + Copy> Model for TurnFleet<A> {
    ghost use Rattle.std.specs.Prelude.{◌≤◌, length, vec_capacity};
    ghost use Rattle.fleet_planner.specs.Courses.{goals_of};
    ghost use Rattle.mover.specs.inside.Turning.{TurnFleet};

    ghost Value = { TurnFleet };

    ghost view = { λ f. record { turns = f.planner.turns; aims = f.planner.courses; size = f.planner.stepper; kept = f.cache } };

    ghost invariant = { λ f. length (goals_of f.planner.courses) ≤ vec_capacity f.changes };
}

impl<A: Allocator + Copy> TurnFleet<A> {
    /// This many robots, 512 at most, that have no goals.
    pub(crate) fn open(alloc: A, grid: &Grid<A>, robots: u32) -> Result<Self, NoTurns>
        requires { robots ≤ 512 }
        ensures { IfOk result (IsNewFleet grid.now robots) }
    {
        let planner = TurnPlanner::open(alloc, grid, robots)?;
        let changes = Vec::with_capacity(alloc, robots as usize)?;
        Ok(TurnFleet {
            planner,
            cache: FieldCache::new(alloc, KEPT_BYTES),
            changes,
        })
    }

    /// The fleet of this state: each robot has the cell of its first errand as its goal.
    pub(crate) fn resume(alloc: A, grid: &Grid<A>, state: &FleetState<A>) -> Result<Self, NoTurns>
        requires { (h : History A) × IsStateOf grid.now h state.now }
        ensures turns { IfOk result (λ f. AreTurns grid.now f.turns) }
        ensures many { IfOk result (λ f. f.turns.robots ≡ robot_count state.now) }
        ensures aims { IfOk result (λ f. goals_of f.aims ≡ first_goals state.now.queues) }
        ensures on { IfOk result (λ f. AreOn grid.now f.aims) }
        ensures size { IfOk result (λ f. f.size ≡ record { cells = length grid.now.letters; robots = robot_count state.now }) }
        ensures keeps { IfOk result (λ f. Keeps grid.now f.kept) }
    {
        let mut fleet = TurnFleet::open(alloc, grid, state.robots() as u32)?;
        fleet.aim_fronts(grid, state)?;
        Ok(fleet)
    }

    /// Gives each robot, of which none has a goal yet, the cell of its first errand.
    fn aim_fronts(&mut self, grid: &Grid<A>, state: &FleetState<A>) -> Result<(), AllocError>
        requires is { (h : History A) × IsStateOf grid.now h state.now }
        requires new { IsNewFleet grid.now (robot_count state.now) self.old }
        ensures planner { IsPlannerOf grid.now (robot_count state.now) (turn_planner self.new) }
        ensures keeps { Keeps grid.now self.new.kept }
        ensures goals { OnOk result (goals_of self.new.aims ≡ first_goals state.now.queues) }
    {
        for r in 0..state.robots() {
            let robot = r as u32;
            if let Some(front) = state.front(robot) {
                self.aim(grid, state.place(), robot, front.cell)?;
            }
        }
        Ok(())
    }

    /// Keeps the fields of goals that no robot has any more, up to this many bytes.
    pub(crate) fn keep(&mut self, bytes: usize)
        ensures turns { self.new.turns ≡ self.old.turns }
        ensures aims { self.new.aims ≡ self.old.aims }
        ensures size { self.new.size ≡ self.old.size }
        ensures keeps { (m : Floor) → Keeps m self.old.kept → Keeps m self.new.kept }
    {
        self.cache.keep(bytes);
    }

    /// The bytes of these fields.
    pub(crate) fn kept_bytes(&self) -> usize
        ensures { result ≡ bytes_kept self.now.kept.kept }
    {
        self.cache.kept_bytes()
    }

    /// Searches nothing: in turns each field grows as far as it is asked.
    pub(crate) fn search_ahead(&mut self) -> Result<(), AllocError>
        ensures { self.new ≡ self.old }
    {
        Ok(())
    }

    /// Searches one robot's own field as far as the plan of the next tick will ask it, and returns whether some robot's
    /// field was not searched so far.
    pub(crate) fn search_one(
        &mut self,
        grid: &Grid<A>,
        state: &FleetState<A>,
    ) -> Result<bool, AllocError>
        requires { AreOn grid.now self.old.aims }
        ensures search { IfOk result (λ searched. IsSearch grid.now state.now.cells self.old.aims self.new.aims searched) }
        ensures turns { self.new.turns ≡ self.old.turns }
        ensures goals { goals_of self.new.aims ≡ goals_of self.old.aims }
        ensures on { AreOn grid.now self.new.aims }
        ensures size { self.new.size ≡ self.old.size }
        ensures kept { self.new.kept ≡ self.old.kept }
    {
        self.planner.search_one(grid, state.place())
    }

    /// How many robots' own fields are not searched yet as far as the plan of the next tick may ask them.
    pub(crate) fn missing(&self, grid: &Grid<A>, state: &FleetState<A>) -> usize
        requires { AreOn grid.now self.now.aims }
        ensures { AreMissing grid.now self.now.aims state.now.cells result }
    {
        self.planner.missing(grid, state.place())
    }

    /// Gives a robot a goal, which is a floor cell. The robots are on these cells.
    fn aim(
        &mut self,
        grid: &Grid<A>,
        cells: &[u32],
        robot: u32,
        goal: u32,
    ) -> Result<(), AllocError>
        requires known { robot < length cells.now }
        requires floor { IsFloor grid.now goal }
        requires planner { IsPlannerOf grid.now (length cells.now) (turn_planner self.old) }
        requires keeps { Keeps grid.now self.old.kept }
        ensures planner { IsPlannerOf grid.now (length cells.now) (turn_planner self.new) }
        ensures turns { self.new.turns ≡ self.old.turns }
        ensures keeps { Keeps grid.now self.new.kept }
        ensures goals { OnOk result (goals_of self.new.aims ≡ slice_set (goals_of self.old.aims) robot (Some goal)) }
        ensures refused { OnErr result (self.new.aims ≡ self.old.aims) }
    {
        let change = GoalChange {
            robot,
            goal: Some(goal),
        };
        self.planner.turn(&mut self.cache, grid, cells, &[change])
    }

    /// Gives the robot of an accepted order its cell as the goal, if the errand is the robot's first. `state` is the
    /// state before the order is entered.
    pub(crate) fn begin(
        &mut self,
        grid: &Grid<A>,
        state: &FleetState<A>,
        order: Order,
        verdict: Verdict,
    ) -> Result<(), AllocError>
        requires may { MayBegin grid.now state.now (planner_of self.old) order verdict }
        requires turns { AreTurnsOf grid.now (robot_count state.now) self.old.turns }
        ensures turns { self.new.turns ≡ self.old.turns }
        ensures goals { OnOk result (goals_of self.new.aims ≡ begun_goals (begun state.now.queues order verdict) (goals_of self.old.aims)) }
        ensures on { AreOn grid.now self.new.aims }
        ensures size { self.new.size ≡ self.old.size }
        ensures keeps { Keeps grid.now self.new.kept }
        ensures refused { OnErr result (self.new.aims ≡ self.old.aims) }
    {
        match first_goal(state, order, verdict) {
            Some((robot, cell)) => self.aim(grid, state.place(), robot, cell),
            None => Ok(()),
        }
    }

    /// Gives the robots the goals that they have after a tick to these cells. `state` is the state before the tick is
    /// entered. It allocates no list.
    pub(crate) fn turn(
        &mut self,
        grid: &Grid<A>,
        state: &FleetState<A>,
        to: &[u32],
    ) -> Result<(), AllocError>
        requires may { MayPlan grid.now state.now (planner_of self.old) }
        requires turns { AreTurnsOf grid.now (robot_count state.now) self.old.turns }
        requires same { length to.now ≡ robot_count state.now }
        ensures turns { self.new.turns ≡ self.old.turns }
        ensures goals { OnOk result (goals_of self.new.aims ≡ goals_ticked state.now.queues to.now) }
        ensures on { AreOn grid.now self.new.aims }
        ensures size { self.new.size ≡ self.old.size }
        ensures keeps { Keeps grid.now self.new.kept }
        ensures refused { OnErr result (self.new.aims ≡ self.old.aims) }
    {
        put_turns(state, to, &mut self.changes);
        let changes = self.changes.as_slice();
        self.planner.turn(&mut self.cache, grid, to, changes)
    }

    /// Where the robots go in the next tick, in turns. The only error is out of memory; the goals stay as they are.
    pub(crate) fn plan(
        &mut self,
        alloc: A,
        grid: &Grid<A>,
        state: &FleetState<A>,
        ties: &[TieHook],
    ) -> Result<Vec<u32, A>, AllocError>
        requires may { MayPlan grid.now state.now (planner_of self.old) }
        requires turns { AreTurnsOf grid.now (robot_count state.now) self.old.turns }
        requires tied { length ties.now ≡ robot_count state.now }
        requires early { state.now.tick + 1 < 2 ^ 63 }
        ensures turns { self.new.turns ≡ self.old.turns }
        ensures goals { goals_of self.new.aims ≡ goals_of self.old.aims }
        ensures on { AreOn grid.now self.new.aims }
        ensures size { self.new.size ≡ self.old.size }
        ensures keeps { Keeps grid.now self.new.kept }
        ensures planned { IfOk result (λ to. IsTickBy (Some self.old.turns) grid.now (map (λ h. h.law) ties.now) state.now.waits (goals_of self.old.aims) state.now.cells to.items) }
    {
        let fleet = Fleet {
            cells: state.place(),
            waits: state.waits(),
            tick: state.clock() + 1,
        };
        let mut to = Vec::from_slice(alloc, fleet.cells)?;
        let _lending = self.planner.plan(grid, fleet, ties, to.as_mut_slice())?;
        Ok(to)
    }
}
