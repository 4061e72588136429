//! What the robots need from tick to tick: their goals, and the step by priority inheritance with backtracking.

ghost use Rattle.std.specs.Prelude.{◌≡◌, ◌<◌, ◌≤◌, ◌^◌, ◌↔◌, ℕ, IsTrue, None, slice_get, length, map, replicate, vec_capacity, IfOk, OnOk, OnErr};
ghost use Rattle.fleet_field.specs.FieldCache.{bytes_kept};
ghost use Rattle.fleet_field.specs.Store.{Keeps};
ghost use Rattle.fleet_grid.specs.Floor.{Floor, IsNeighbour};
ghost use Rattle.fleet_grid.specs.Step.{IsConflictFree};
ghost use Rattle.fleet_grid.specs.Walk.{IsBridgeless};
ghost use Rattle.fleet_planner.specs.Courses.{goals_of, AreOn};
ghost use Rattle.fleet_planner.specs.Planned.{IsPlannedBy, cell_of};
ghost use Rattle.fleet_state.specs.Robots.{queue_at};
ghost use Rattle.fleet_state.specs.State.{IsStateOf, robot_count};
ghost use Rattle.fleet_history.specs.History.{History};
ghost use Rattle.fleet_planner.specs.Aimed.{IsAimed, MayPlan, MayBegin, begun, begun_goals, first_goals, goals_ticked, turns_ticked};
ghost use Rattle.fleet_planner.specs.Aimed.{IsNewPlanner};

use crate::ahead::search_goals;
use crate::courses::Courses;
use crate::mover::{TickInput, plan};
use crate::turns::GoalChange;
use fleet_book::{Order, Verdict};
use fleet_bridge::first_bridge;
use fleet_field::FieldCache;
use fleet_grid::Grid;
use fleet_hooks::TieHook;
use fleet_pibt::Stepper;
use fleet_state::FleetState;
use std::alloc::{AllocError, Allocator, Global};
use std::marker::Model;
use std::thread::Threads;

/// The bytes of fields that are kept where nothing else is said: 256 MiB.
pub const KEPT_BYTES: usize = 256 << 20;

/// What each robot aims at, the means to plan a step, and the fields of goals that no robot has any more.
#[derive(Drop)]
pub struct Planner<A: Allocator + Copy = Global> {
    pub(crate) aims: Courses<A>,
    stepper: Stepper<A>,
    bridgeless: bool,
    cache: FieldCache<A>,
    /// The turns of the last tick, with room for all robots.
    turns: Vec<GoalChange, A>,
}

impl<A: Allocator + Copy> Model for Planner<A> {
    ghost use Rattle.std.specs.Prelude.{◌≤◌, length, vec_capacity};
    ghost use Rattle.fleet_planner.specs.Aimed.{Planner};
    ghost use Rattle.fleet_planner.specs.Courses.{goals_of};

    ghost Value = { Planner };

    ghost view = { λ p. record { aims = p.aims; size = p.stepper; bridgeless = p.bridgeless; kept = p.cache } };

    ghost invariant = { λ p. length (goals_of p.aims) ≤ vec_capacity p.turns };
}

impl<A: Allocator + Copy> Planner<A> {
    /// A planner of this many robots, 512 at most, that have no goals.
    pub fn open(alloc: A, grid: &Grid<A>, robots: usize) -> Result<Self, AllocError>
        requires { robots ≤ 512 }
        ensures { IfOk result (λ p. IsNewPlanner grid.now robots p) }
    {
        let bridgeless = has_no_bridge(alloc, grid)?;
        let turns = Vec::with_capacity(alloc, robots)?;
        let aims = Courses::new(alloc, robots, grid.cell_count())?;
        let stepper = Stepper::new(alloc, grid.cell_count(), robots as u32)?;
        Ok(Planner {
            aims,
            stepper,
            bridgeless,
            cache: FieldCache::new(alloc, KEPT_BYTES),
            turns,
        })
    }

    /// A planner of the fleet of this state: each robot has the cell of its first errand as its goal.
    pub fn resume(alloc: A, grid: &Grid<A>, state: &FleetState<A>) -> Result<Self, AllocError>
        requires { (h : History A) × IsStateOf grid.now h state.now }
        ensures { IfOk result (λ p. (h : History A) → IsStateOf grid.now h state.now → IsAimed grid.now h p) }
    {
        let mut planner = Planner::open(alloc, grid, state.robots())?;
        aim_fronts(&mut planner.aims, &mut planner.cache, grid, state)?;
        Ok(planner)
    }

    /// Keeps the fields of goals that no robot has any more, up to this many bytes.
    pub fn keep(&mut self, bytes: usize)
        ensures aims { self.new.aims ≡ self.old.aims }
        ensures size { self.new.size ≡ self.old.size }
        ensures bridge { self.new.bridgeless ≡ self.old.bridgeless }
        ensures keeps { (m : Floor) → Keeps m self.old.kept → Keeps m self.new.kept }
    {
        self.cache.keep(bytes);
    }

    /// The bytes of these fields, one for each cell; of more than 2^64 - 1 this number.
    pub fn kept_bytes(&self) -> usize
        ensures { result ≡ bytes_kept self.now.kept.kept }
    {
        self.cache.kept_bytes()
    }

    /// Whether the map has no bridge.
    pub fn is_bridgeless(&self) -> bool
        ensures { result ≡ self.now.bridgeless }
    {
        self.bridgeless
    }

    /// Where the robots go in the next tick. A robot's own field grows until it tells the ways from the robot's cell.
    /// The only error is out of memory; the goals stay as they are.
    pub fn plan(
        &mut self,
        alloc: A,
        grid: &Grid<A>,
        state: &FleetState<A>,
        ties: &[TieHook],
    ) -> Result<Vec<u32, A>, AllocError>
        requires may { MayPlan grid.now state.now self.old }
        requires tied { length ties.now ≡ robot_count state.now }
        requires early { state.now.tick < 2 ^ 63 }
        ensures goals { goals_of self.new.aims ≡ goals_of self.old.aims }
        ensures on { AreOn grid.now self.new.aims }
        ensures size { self.new.size ≡ self.old.size }
        ensures bridge { self.new.bridgeless ≡ self.old.bridgeless }
        ensures keeps { Keeps grid.now self.new.kept }
        ensures conflict_free { IfOk result (λ to. IsConflictFree grid.now state.now.cells to.items) }
        ensures planned { IfOk result (λ to. IsPlannedBy grid.now (map (λ h. h.law) ties.now) state.now.waits (goals_of self.old.aims) state.now.cells to.items) }
    {
        let input = TickInput {
            cells: state.place(),
            waits: state.waits(),
            tick: state.clock() + 1,
        };
        plan(alloc, grid, input, &mut self.aims, &mut self.stepper, ties)
    }

    /// Gives the robot of an accepted order its cell as the goal, if the errand is the robot's first. `state` is the
    /// state before the order is entered.
    pub fn begin(
        &mut self,
        grid: &Grid<A>,
        state: &FleetState<A>,
        order: Order,
        verdict: Verdict,
    ) -> Result<(), AllocError>
        requires { MayBegin grid.now state.now self.old order verdict }
        ensures goals { OnOk result (goals_of self.new.aims ≡ begun_goals (begun state.now.queues order verdict) (goals_of self.old.aims)) }
        ensures on { AreOn grid.now self.new.aims }
        ensures size { self.new.size ≡ self.old.size }
        ensures bridge { self.new.bridgeless ≡ self.old.bridgeless }
        ensures keeps { Keeps grid.now self.new.kept }
        ensures refused { OnErr result (self.new.aims ≡ self.old.aims) }
    {
        match first_goal(state, order, verdict) {
            Some((robot, cell)) => {
                self.aims
                    .aim(&mut self.cache, grid, state.place(), robot, cell)
            },
            None => Ok(()),
        }
    }

    /// Gives the robots the goals that they have after a tick to these cells: robots that arrive get a new goal, the
    /// others keep theirs. `state` is the state before the tick is entered. It allocates no list.
    pub fn turn(
        &mut self,
        grid: &Grid<A>,
        state: &FleetState<A>,
        to: &[u32],
    ) -> Result<(), AllocError>
        requires may { MayPlan grid.now state.now self.old }
        requires same { length to.now ≡ robot_count state.now }
        ensures goals { OnOk result (goals_of self.new.aims ≡ goals_ticked state.now.queues to.now) }
        ensures on { AreOn grid.now self.new.aims }
        ensures size { self.new.size ≡ self.old.size }
        ensures bridge { self.new.bridgeless ≡ self.old.bridgeless }
        ensures keeps { Keeps grid.now self.new.kept }
        ensures refused { OnErr result (self.new.aims ≡ self.old.aims) }
    {
        put_turns(state, to, &mut self.turns);
        self.aims
            .turn(&mut self.cache, grid, to, self.turns.as_slice())
    }
}

impl<A: Allocator + Copy + Send + Sync> Planner<A> {
    /// Searches the fields of the robots' next goals side by side, as many as fit among those that are kept. A goal
    /// that no robot got lately is left out: its field grows.
    pub fn search_ahead(
        &mut self,
        rt: &(impl Threads + Sync),
        alloc: A,
        grid: &Grid<A>,
        state: &FleetState<A>,
    ) -> Result<(), AllocError>
        requires { Keeps grid.now self.old.kept }
        ensures aims { self.new.aims ≡ self.old.aims }
        ensures size { self.new.size ≡ self.old.size }
        ensures bridge { self.new.bridgeless ≡ self.old.bridgeless }
        ensures keeps { Keeps grid.now self.new.kept }
        ensures refused { OnErr result (self.new ≡ self.old) }
    {
        let _have_all_place = search_goals(rt, alloc, &self.aims, grid, state, &mut self.cache)?;
        Ok(())
    }
}

/// Gives each robot, of which none has a goal yet, the cell of its first errand.
fn aim_fronts<A: Allocator + Copy>(
    aims: &mut Courses<A>,
    cache: &mut FieldCache<A>,
    grid: &Grid<A>,
    state: &FleetState<A>,
) -> Result<(), AllocError>
    requires is { (h : History A) × IsStateOf grid.now h state.now }
    requires none { goals_of aims.old ≡ replicate (robot_count state.now) None }
    requires on { AreOn grid.now aims.old }
    requires keeps { Keeps grid.now cache.old }
    ensures goals { OnOk result (goals_of aims.new ≡ first_goals state.now.queues) }
    ensures count { length (goals_of aims.new) ≡ length (goals_of aims.old) }
    ensures on { AreOn grid.now aims.new }
    ensures keeps { Keeps grid.now cache.new }
{
    for r in 0..state.robots() {
        let robot = r as u32;
        if let Some(front) = state.front(robot) {
            aims.aim(cache, grid, state.place(), robot, front.cell)?;
        }
    }
    Ok(())
}

/// The turns that a tick to these cells brings, sorted by robot, in place of what the list held.
pub fn put_turns<A: Allocator + Copy>(
    state: &FleetState<A>,
    to: &[u32],
    turns: &mut Vec<GoalChange, A>,
)
    requires same { length to.now ≡ robot_count state.now }
    requires few { length to.now ≤ 512 }
    requires room { length to.now ≤ vec_capacity turns.old }
    ensures turns { turns.new.items ≡ turns_ticked state.now.queues to.now }
    ensures room { vec_capacity turns.new ≡ vec_capacity turns.old }
{
    turns.clear();
    for r in 0..to.len() {
        let robot = r as u32;
        if let Some(_errand) = state.landing(robot, to[r]) {
            turns.push_reserved(GoalChange {
                robot,
                goal: goal_after(state, robot),
            });
        }
    }
}

/// The robot of an accepted order and the cell, if the errand is the robot's first. The state is that before the order
/// is entered.
pub fn first_goal<A: Allocator + Copy>(
    state: &FleetState<A>,
    order: Order,
    verdict: Verdict,
) -> Option<(u32, u32)>
    requires { (robot cell n : ℕ) → order ≡ Order.Go robot cell → verdict ≡ Verdict.Accepted n → robot < robot_count state.now }
    ensures { result ≡ begun state.now.queues order verdict }
{
    let Order::Go { robot, cell } = order else {
        return None;
    };
    let Verdict::Accepted(_) = verdict else {
        return None;
    };
    match state.front(robot) {
        Some(_front) => None,
        None => Some((robot, cell)),
    }
}

/// The robot's goal after it has finished its front errand.
fn goal_after<A: Allocator + Copy>(state: &FleetState<A>, robot: u32) -> Option<u32>
    requires { robot < robot_count state.now }
    ensures { result ≡ cell_of (slice_get (queue_at state.now.queues robot).items 1) }
{
    Some(state.next(robot)?.cell)
}

/// Whether the map has no bridge.
pub fn has_no_bridge<A: Allocator + Copy>(alloc: A, grid: &Grid<A>) -> Result<bool, AllocError>
    ensures { IfOk result (λ none. IsTrue none ↔ IsBridgeless (IsNeighbour grid.now)) }
{
    Ok(first_bridge(alloc, grid)?.is_none())
}
