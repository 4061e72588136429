//! The planner of turns.

ghost use Rattle.std.specs.Prelude.{◌≡◌, ◌≤◌, length, map, slice_index, IfOk, OnOk, OnErr};
ghost use Rattle.fleet_field.specs.Store.{Keeps};
ghost use Rattle.fleet_grid.specs.Step.{IsPlacement};
ghost use Rattle.fleet_pibt.specs.Door.{IsSteppedWithDoor};
ghost use Rattle.fleet_pibt.specs.Goals.{AreGoals};
ghost use Rattle.fleet_planner.specs.Courses.{goals_of, AreOn, AreStill};
ghost use Rattle.fleet_planner.specs.Searched.{AreMissing, IsSearch};
ghost use Rattle.fleet_planner.specs.Turned.{turned, AreFloorTurns, AreKnownTurns};
ghost use Rattle.fleet_turns.specs.Planning.{IsNewPlanner, IsPlannerOf, IsReady};
ghost use Rattle.turns_law.specs.Turn.{IsTurn};
ghost use Rattle.fleet_turns.specs.inside.Lent.{goal_lent, way_lent, AreLent};

use crate::distances::distances;
use crate::guide::TurnGuide;
use crate::tables::{nothing, put};
use crate::to_core::read;
use fleet_bridge::{Rooms, rooms_of};
use fleet_field::FieldCache;
use fleet_grid::Grid;
use fleet_hooks::TieHook;
use fleet_pibt::{Door, Stepper};
use fleet_planner::{Courses, GoalChange, Lending, RoomLists, lend};
use std::alloc::{AllocError, Allocator, Global};
use std::marker::Model;

/// Why no planner of turns was opened.
#[derive(Clone, Copy, Debug, PartialEq, Eq)]
pub enum NoTurns {
    /// Memory ran out.
    NoMemory,
    /// The rooms of the map, or the distances to their cores, did not pass their check. This was met on no map that was tried.
    NoRooms,
}

impl From<AllocError> for NoTurns {
    fn from(_error: AllocError) -> NoTurns {
        NoTurns::NoMemory
    }
}

/// A fleet before a tick, robot by robot.
#[derive(Clone, Copy, Debug)]
pub struct Fleet<'a> {
    /// The robots' cells.
    pub cells: &'a [u32],
    /// How long each robot has waited.
    pub waits: &'a [Option<u64>],
    /// The tick that is being made.
    pub tick: u64,
}

/// What a step is made by.
#[derive(Clone, Copy)]
struct StepInput<'a> {
    cells: &'a [u32],
    ranks: &'a [Option<u64>],
    door: Option<Door>,
    tick: u64,
}

/// Plans ticks in which robots take turns in the rooms of a map. What it needs is allocated when it is opened.
#[derive(Drop)]
pub struct TurnPlanner<A: Allocator + Copy = Global> {
    guide: TurnGuide<A>,
    door: Vec<u32, A>,
    mouth: Vec<u32, A>,
    size: Vec<u32, A>,
    capacity: Vec<u32, A>,
    goals: Vec<Option<u32>, A>,
    ranks: Vec<Option<u64>, A>,
    stepper: Stepper<A>,
}

impl<A: Allocator + Copy> Model for TurnPlanner<A> {
    ghost use Rattle.std.specs.Prelude.{◌≡◌, vec_len};
    ghost use Rattle.fleet_planner.specs.Courses.{goals_of};
    ghost use Rattle.fleet_turns.specs.Planning.{TurnPlanner};

    ghost Value = { TurnPlanner };

    ghost view = { λ p. record {
      turns = record {
        core = p.guide.core.items;
        door = p.door.items;
        mouth = p.mouth.items;
        size = p.size.items;
        capacity = p.capacity.items;
        away = p.guide.away.items;
        robots = vec_len p.ranks;
      };
      courses = p.guide.courses;
      stepper = p.stepper;
    } };

    ghost invariant = { λ p. p.goals.items ≡ goals_of p.guide.courses };
}

/// Writes to `to` where the robots go from their cells.
fn step<A: Allocator + Copy>(
    grid: &Grid<A>,
    input: StepInput<'_>,
    guide: &mut TurnGuide<A>,
    stepper: &mut Stepper<A>,
    ties: &[TieHook],
    to: &mut [u32],
) -> Result<(), AllocError>
    requires placed { IsPlacement grid.now input.cells.now }
    requires few { length input.cells.now ≤ 512 }
    requires ranked { length input.ranks.now ≡ length input.cells.now }
    requires tied { length ties.now ≡ length input.cells.now }
    requires room { length to.old ≡ length input.cells.now }
    requires made { stepper.old ≡ record { cells = length grid.now.letters; robots = length input.cells.now } }
    requires goals { AreGoals grid.now input.cells.now input.ranks.now (goal_lent guide.old.lender guide.old.goal guide.old.courses) (way_lent guide.old.lender guide.old.goal guide.old.courses grid.now) }
    requires shows { AreLent grid.now guide.old.core.items guide.old.away.items guide.old.lender guide.old.goal guide.old.courses }
    ensures made { stepper.new ≡ stepper.old }
    ensures still { AreStill guide.old.courses guide.new.courses }
    ensures on { AreOn grid.now guide.new.courses }
    ensures core { guide.new.core.items ≡ guide.old.core.items }
    ensures away { guide.new.away.items ≡ guide.old.away.items }
    ensures stepped { OnOk result (IsSteppedWithDoor grid.now input.entry.door input.entry.ranks.now (goal_lent guide.old.lender guide.old.goal guide.old.courses) (map (λ h. h.law) ties.now) input.entry.cells.now to.new) }
{
    let StepInput {
        cells,
        ranks,
        door,
        tick,
    } = input;
    stepper.step_with_door(grid, cells, ranks, guide, ties, door, tick, to)
}

impl<A: Allocator + Copy> TurnPlanner<A> {
    /// A planner for this many robots (at most 512), without goals, in the rooms of a map.
    pub fn open(alloc: A, grid: &Grid<A>, robots: u32) -> Result<TurnPlanner<A>, NoTurns>
        requires { robots ≤ 512 }
        ensures { IfOk result (IsNewPlanner grid.now robots) }
    {
        let Some(rooms) = rooms_of(alloc, grid)? else {
            return Err(NoTurns::NoRooms);
        };
        let Some(away) = distances(alloc, grid, &rooms.core)? else {
            return Err(NoTurns::NoRooms);
        };
        let courses = Courses::new(alloc, robots as usize, grid.cell_count())?;
        let stepper = Stepper::new(alloc, grid.cell_count(), robots)?;
        let goals = nothing(alloc, robots)?;
        let ranks = nothing(alloc, robots)?;
        let Rooms {
            core,
            door,
            mouth,
            size,
            capacity,
        } = rooms;
        Ok(TurnPlanner {
            guide: TurnGuide {
                courses,
                core,
                away,
                lender: None,
                goal: 0,
            },
            door,
            mouth,
            size,
            capacity,
            goals,
            ranks,
            stepper,
        })
    }

    /// The robots' goals.
    pub fn goals(&self) -> &[Option<u32>]
        ensures { result.now ≡ goals_of self.now.courses }
    {
        &self.goals
    }

    /// The greatest number of robots for which all cells of the part of a floor cell are served.
    pub fn capacity(&self, cell: u32) -> u32
        ensures { result ≡ slice_index self.now.turns.capacity (slice_index self.now.turns.core cell) }
    {
        read(&self.capacity, read(&self.guide.core, cell))
    }

    /// Gives the robots of these changes their new goals, as `Courses::turn` does.
    pub fn turn<B: Allocator + Copy>(
        &mut self,
        cache: &mut FieldCache<A>,
        grid: &Grid<B>,
        cells: &[u32],
        turns: &[GoalChange],
    ) -> Result<(), AllocError>
        requires few { length turns.now ≤ length cells.now }
        requires known { AreKnownTurns (length cells.now) turns.now }
        requires floor { AreFloorTurns grid.now turns.now }
        requires planner { IsPlannerOf grid.now (length cells.now) self.old }
        requires keeps { Keeps grid.now cache.old }
        ensures planner { IsPlannerOf grid.now (length cells.now) self.new }
        ensures turns { self.new.turns ≡ self.old.turns }
        ensures keeps { Keeps grid.now cache.new }
        ensures goals { OnOk result (goals_of self.new.courses ≡ turned turns.now (goals_of self.old.courses)) }
        ensures refused { OnErr result (self.new ≡ self.old) }
    {
        self.guide.courses.turn(cache, grid, cells, turns)?;
        put(&mut self.goals, turns);
        Ok(())
    }

    /// Searches one robot's own field as far as a plan from these cells will ask it, as `Courses::search_one` does.
    pub fn search_one(&mut self, grid: &Grid<A>, cells: &[u32]) -> Result<bool, AllocError>
        requires { AreOn grid.now self.old.courses }
        ensures search { IfOk result (λ searched. IsSearch grid.now cells.now self.old.courses self.new.courses searched) }
        ensures on { AreOn grid.now self.new.courses }
        ensures still { AreStill self.old.courses self.new.courses }
        ensures turns { self.new.turns ≡ self.old.turns }
        ensures stepper { self.new.stepper ≡ self.old.stepper }
    {
        self.guide.courses.search_one(grid, cells)
    }

    /// How many robots' own fields are not searched yet as far as a plan from these cells may ask them. The field of a
    /// robot that is lent a turn counts too, though the plan does not ask it.
    pub fn missing(&self, grid: &Grid<A>, cells: &[u32]) -> usize
        requires { AreOn grid.now self.now.courses }
        ensures { AreMissing grid.now self.now.courses cells.now result }
    {
        self.guide.courses.missing(grid, cells)
    }

    /// Writes to `to` where the robots go from their cells in the tick that is being made, and returns what was lent for it. Their
    /// goals stay as they are. The only error is out of memory.
    pub fn plan(
        &mut self,
        grid: &Grid<A>,
        fleet: Fleet<'_>,
        ties: &[TieHook],
        to: &mut [u32],
    ) -> Result<Lending, AllocError>
        requires few { length fleet.cells.now ≤ 512 }
        requires tied { length ties.now ≡ length fleet.cells.now }
        requires room { length to.old ≡ length fleet.cells.now }
        requires planner { IsPlannerOf grid.now (length fleet.cells.now) self.old }
        requires ready { IsReady grid.now (goals_of self.old.courses) fleet.cells.now fleet.waits.now }
        ensures planner { IsPlannerOf grid.now (length fleet.entry.cells.now) self.new }
        ensures turns { self.new.turns ≡ self.old.turns }
        ensures still { AreStill self.old.courses self.new.courses }
        ensures turn { IfOk result (IsTurn grid.now self.old.turns (map (λ h. h.law) ties.now) (goals_of self.old.courses) fleet.entry.waits.now fleet.entry.cells.now to.new) }
    {
        let Fleet { cells, waits, tick } = fleet;
        let rooms = RoomLists {
            core: &self.guide.core,
            door: &self.door,
            mouth: &self.mouth,
            capacity: &self.capacity,
            away: &self.guide.away,
        };
        let lending = lend(rooms, cells, &self.goals, waits, &mut self.ranks);
        self.guide.lend_to(lending.lender, cells);
        let order = self.ranks.as_slice();
        let input = StepInput {
            cells,
            ranks: order,
            door: lending.door,
            tick,
        };
        step(grid, input, &mut self.guide, &mut self.stepper, ties, to)?;
        Ok(lending)
    }
}
