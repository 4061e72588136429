//! A planner of a chosen manner.

ghost use Rattle.std.specs.Prelude.{◌≡◌, ◌<◌, ◌≤◌, ◌+◌, ◌^◌, ℕ, true, false, is_some, length, map, IfOk, OnOk, OnErr};
ghost use Rattle.fleet_field.specs.FieldCache.{bytes_kept};
ghost use Rattle.fleet_field.specs.Store.{Keeps};
ghost use Rattle.fleet_grid.specs.Floor.{Floor, IsNeighbour};
ghost use Rattle.fleet_grid.specs.Step.{IsConflictFree};
ghost use Rattle.fleet_grid.specs.Walk.{IsBridgeless};
ghost use Rattle.fleet_history.specs.History.{History};
ghost use Rattle.fleet_planner.specs.Aimed.{IsAimed, MayPlan, MayBegin, begun, begun_goals, goals_ticked};
ghost use Rattle.fleet_planner.specs.Courses.{goals_of, AreOn};
ghost use Rattle.fleet_planner.specs.Searched.{AreMissing, IsSearch};
ghost use Rattle.fleet_state.specs.State.{IsStateOf, robot_count};
ghost use Rattle.mover.specs.Moving.{HasTurns, IsManner, IsNewMover, IsTickBy};

use crate::manner::Manner;
use crate::turn_fleet::TurnFleet;
use fleet_book::{Order, Verdict};
use fleet_grid::Grid;
use fleet_hooks::TieHook;
use fleet_planner::{Planner, has_no_bridge};
use fleet_state::FleetState;
use fleet_turns::NoTurns;
use std::alloc::{AllocError, Allocator, Global};
use std::marker::Model;
use std::thread::Threads;

/// Either planner.
#[derive(Drop)]
enum Kind<A: Allocator + Copy> {
    Plain(Planner<A>),
    Turns(TurnFleet<A>),
}

/// Plans the ticks of a fleet, in the manner that was chosen where it was opened.
#[derive(Drop)]
pub struct Mover<A: Allocator + Copy = Global> {
    kind: Kind<A>,
}

impl<A: Allocator + Copy> Model for Mover<A> {
    ghost use Rattle.mover.specs.Moving.{Mover};
    ghost use Rattle.mover.specs.inside.Kinds.{seen};

    ghost Value = { Mover };

    ghost view = { λ p. seen p.kind };
}

impl<A: Allocator + Copy> Mover<A> {
    /// A planner of this many robots, 512 at most, that have no goals.
    pub fn open(alloc: A, grid: &Grid<A>, robots: usize, manner: Manner) -> Result<Self, NoTurns>
        requires { robots ≤ 512 }
        ensures { IfOk result (IsNewMover grid.now robots manner) }
    {
        let kind = if takes_turns(alloc, grid, manner)? {
            Kind::Turns(TurnFleet::open(alloc, grid, robots as u32)?)
        } else {
            Kind::Plain(Planner::open(alloc, grid, robots)?)
        };
        Ok(Mover { kind })
    }

    /// A planner of the fleet of this state: each robot has the cell of its first errand as its goal.
    pub fn resume(
        alloc: A,
        grid: &Grid<A>,
        state: &FleetState<A>,
        manner: Manner,
    ) -> Result<Self, NoTurns>
        requires { (h : History A) × IsStateOf grid.now h state.now }
        ensures aimed { IfOk result (λ p. (h : History A) → IsStateOf grid.now h state.now → IsAimed grid.now h p.planner) }
        ensures turns { IfOk result (λ p. HasTurns grid.now (robot_count state.now) p.turns) }
        ensures chosen { IfOk result (λ p. IsManner grid.now manner p.turns) }
    {
        let kind = if takes_turns(alloc, grid, manner)? {
            Kind::Turns(TurnFleet::resume(alloc, grid, state)?)
        } else {
            Kind::Plain(Planner::resume(alloc, grid, state)?)
        };
        Ok(Mover { kind })
    }

    /// Whether the map has no bridge.
    pub fn is_bridgeless(&self) -> bool
        ensures { result ≡ self.now.planner.bridgeless }
    {
        match &self.kind {
            Kind::Plain(planner) => planner.is_bridgeless(),
            Kind::Turns(_fleet) => false,
        }
    }

    /// Whether the robots take turns.
    pub fn takes_turns(&self) -> bool
        ensures { result ≡ is_some self.now.turns }
    {
        match &self.kind {
            Kind::Plain(_planner) => false,
            Kind::Turns(_fleet) => true,
        }
    }

    /// The bytes of the fields of goals that no robot has any more, one for each cell; of more than 2^64 - 1 this number.
    pub fn kept_bytes(&self) -> usize
        ensures { result ≡ bytes_kept self.now.planner.kept.kept }
    {
        match &self.kind {
            Kind::Plain(planner) => planner.kept_bytes(),
            Kind::Turns(fleet) => fleet.kept_bytes(),
        }
    }

    /// Keeps the fields of goals that no robot has any more, up to this many bytes.
    pub fn keep(&mut self, bytes: usize)
        ensures turns { self.new.turns ≡ self.old.turns }
        ensures aims { self.new.planner.aims ≡ self.old.planner.aims }
        ensures size { self.new.planner.size ≡ self.old.planner.size }
        ensures bridge { self.new.planner.bridgeless ≡ self.old.planner.bridgeless }
        ensures keeps { (m : Floor) → Keeps m self.old.planner.kept → Keeps m self.new.planner.kept }
    {
        match &mut self.kind {
            Kind::Plain(planner) => planner.keep(bytes),
            Kind::Turns(fleet) => fleet.keep(bytes),
        }
    }

    /// Where the robots go in the next tick. The only error is out of memory; the goals stay as they are.
    pub fn plan(
        &mut self,
        alloc: A,
        grid: &Grid<A>,
        state: &FleetState<A>,
        ties: &[TieHook],
    ) -> Result<Vec<u32, A>, AllocError>
        requires may { MayPlan grid.now state.now self.old.planner }
        requires turns { HasTurns grid.now (robot_count state.now) self.old.turns }
        requires tied { length ties.now ≡ robot_count state.now }
        requires early { state.now.tick + 1 < 2 ^ 63 }
        ensures turns { self.new.turns ≡ self.old.turns }
        ensures goals { goals_of self.new.planner.aims ≡ goals_of self.old.planner.aims }
        ensures on { AreOn grid.now self.new.planner.aims }
        ensures size { self.new.planner.size ≡ self.old.planner.size }
        ensures bridge { self.new.planner.bridgeless ≡ self.old.planner.bridgeless }
        ensures keeps { Keeps grid.now self.new.planner.kept }
        ensures conflict_free { IfOk result (λ to. IsConflictFree grid.now state.now.cells to.items) }
        ensures planned { IfOk result (λ to. IsTickBy self.old.turns grid.now (map (λ h. h.law) ties.now) state.now.waits (goals_of self.old.planner.aims) state.now.cells to.items) }
    {
        match &mut self.kind {
            Kind::Plain(planner) => planner.plan(alloc, grid, state, ties),
            Kind::Turns(fleet) => fleet.plan(alloc, grid, state, ties),
        }
    }

    /// Gives the robot of an accepted order its cell as the goal, if the errand is the robot's first. `state` is the
    /// state before the order is entered.
    pub fn begin(
        &mut self,
        grid: &Grid<A>,
        state: &FleetState<A>,
        order: Order,
        verdict: Verdict,
    ) -> Result<(), AllocError>
        requires may { MayBegin grid.now state.now self.old.planner order verdict }
        requires turns { HasTurns grid.now (robot_count state.now) self.old.turns }
        ensures turns { self.new.turns ≡ self.old.turns }
        ensures goals { OnOk result (goals_of self.new.planner.aims ≡ begun_goals (begun state.now.queues order verdict) (goals_of self.old.planner.aims)) }
        ensures on { AreOn grid.now self.new.planner.aims }
        ensures size { self.new.planner.size ≡ self.old.planner.size }
        ensures bridge { self.new.planner.bridgeless ≡ self.old.planner.bridgeless }
        ensures keeps { Keeps grid.now self.new.planner.kept }
        ensures refused { OnErr result (self.new.planner.aims ≡ self.old.planner.aims) }
    {
        match &mut self.kind {
            Kind::Plain(planner) => planner.begin(grid, state, order, verdict),
            Kind::Turns(fleet) => fleet.begin(grid, state, order, verdict),
        }
    }

    /// Gives the robots the goals that they have after a tick to these cells: robots that arrive get a new goal, the
    /// others keep theirs. `state` is the state before the tick is entered. It allocates no list.
    pub fn turn(
        &mut self,
        grid: &Grid<A>,
        state: &FleetState<A>,
        to: &[u32],
    ) -> Result<(), AllocError>
        requires may { MayPlan grid.now state.now self.old.planner }
        requires turns { HasTurns grid.now (robot_count state.now) self.old.turns }
        requires same { length to.now ≡ robot_count state.now }
        ensures turns { self.new.turns ≡ self.old.turns }
        ensures goals { OnOk result (goals_of self.new.planner.aims ≡ goals_ticked state.now.queues to.now) }
        ensures on { AreOn grid.now self.new.planner.aims }
        ensures size { self.new.planner.size ≡ self.old.planner.size }
        ensures bridge { self.new.planner.bridgeless ≡ self.old.planner.bridgeless }
        ensures keeps { Keeps grid.now self.new.planner.kept }
        ensures refused { OnErr result (self.new.planner.aims ≡ self.old.planner.aims) }
    {
        match &mut self.kind {
            Kind::Plain(planner) => planner.turn(grid, state, to),
            Kind::Turns(fleet) => fleet.turn(grid, state, to),
        }
    }

    /// Searches one robot's own field as far as the plan of the next tick will ask it, and returns whether some robot's
    /// field was not searched so far. The only error is out of memory.
    pub fn search_one(&mut self, grid: &Grid<A>, state: &FleetState<A>) -> Result<bool, AllocError>
        requires { AreOn grid.now self.old.planner.aims }
        ensures search { IfOk result (λ searched. IsSearch grid.now state.now.cells self.old.planner.aims self.new.planner.aims searched) }
        ensures turns { self.new.turns ≡ self.old.turns }
        ensures goals { goals_of self.new.planner.aims ≡ goals_of self.old.planner.aims }
        ensures on { AreOn grid.now self.new.planner.aims }
        ensures size { self.new.planner.size ≡ self.old.planner.size }
        ensures bridge { self.new.planner.bridgeless ≡ self.old.planner.bridgeless }
        ensures kept { self.new.planner.kept ≡ self.old.planner.kept }
    {
        match &mut self.kind {
            Kind::Plain(planner) => planner.search_one(grid, state),
            Kind::Turns(fleet) => fleet.search_one(grid, state),
        }
    }

    /// How many robots' own fields are not searched yet as far as the plan of the next tick may ask them. In turns the
    /// field of a robot that is lent one counts too, though the plan does not ask it.
    pub fn missing(&self, grid: &Grid<A>, state: &FleetState<A>) -> usize
        requires { AreOn grid.now self.now.planner.aims }
        ensures { AreMissing grid.now self.now.planner.aims state.now.cells result }
    {
        match &self.kind {
            Kind::Plain(planner) => planner.missing(grid, state),
            Kind::Turns(fleet) => fleet.missing(grid, state),
        }
    }
}

impl<A: Allocator + Copy + Send + Sync> Mover<A> {
    /// Searches the fields of the robots' next goals side by side, as many as fit among those that are kept. A goal
    /// that no robot got lately is left out: its field grows. In turns all fields grow, and nothing is searched ahead.
    pub fn search_ahead(
        &mut self,
        rt: &(impl Threads + Sync),
        alloc: A,
        grid: &Grid<A>,
        state: &FleetState<A>,
    ) -> Result<(), AllocError>
        requires { Keeps grid.now self.old.planner.kept }
        ensures turns { self.new.turns ≡ self.old.turns }
        ensures aims { self.new.planner.aims ≡ self.old.planner.aims }
        ensures size { self.new.planner.size ≡ self.old.planner.size }
        ensures bridge { self.new.planner.bridgeless ≡ self.old.planner.bridgeless }
        ensures keeps { Keeps grid.now self.new.planner.kept }
        ensures refused { OnErr result (self.new ≡ self.old) }
    {
        match &mut self.kind {
            Kind::Plain(planner) => planner.search_ahead(rt, alloc, grid, state),
            Kind::Turns(fleet) => fleet.search_ahead(),
        }
    }
}

/// Whether turns were chosen, and the map has a bridge.
fn takes_turns<A: Allocator + Copy>(
    alloc: A,
    grid: &Grid<A>,
    manner: Manner,
) -> Result<bool, AllocError>
    ensures taken { IfOk result (λ turns. turns ≡ true → (manner ≡ Manner.Turns) × (IsBridgeless (IsNeighbour grid.now) → ⊥)) }
    ensures plain { IfOk result (λ turns. turns ≡ false → manner ≡ Manner.Turns → IsBridgeless (IsNeighbour grid.now)) }
{
    match manner {
        Manner::Plain => Ok(false),
        Manner::Turns => Ok(!has_no_bridge(alloc, grid)?),
    }
}
