//! What the robots are under way to.

ghost use Rattle.std.specs.Prelude.{◌≡◌, ℕ, ◌<◌, ◌≤◌, Some, None, length, replicate, slice_set, IfOk, OnOk, OnErr};
ghost use Rattle.fleet_field.specs.Store.{Keeps};
ghost use Rattle.fleet_grid.specs.Floor.{Floor, IsFloor};
ghost use Rattle.fleet_grid.specs.Ways.{AreNearer, AreOpen};
ghost use Rattle.fleet_field.specs.Growing.{Growth, IsGrown};
ghost use Rattle.fleet_planner.specs.Aims.{AreOn as AreSharedOn, goal as shared_goal};
ghost use Rattle.fleet_planner.specs.Courses.{goals_of, goal, away, way_to, first_of, own_goal, growth_in, AreOn, AreStill};
ghost use Rattle.fleet_planner.specs.Searched.{AreMissing, IsSearch};
ghost use Rattle.fleet_planner.specs.Turned.{turned, AreFloorTurns, AreKnownTurns};

use crate::aims::Aims;
use crate::searching::{count_lacking, first_lacking, search_own};
use crate::started::{Started, place_own};
use crate::turns::GoalChange;
use fleet_field::{FieldCache, GrowingField};
use fleet_grid::{Grid, Outlook};
use fleet_pibt::Guide;
use std::alloc::{AllocError, Allocator, Global};
use std::marker::Model;

/// What each robot of a fleet is under way to: its goal, or nothing. A robot has a field of its own, which grows as far
/// as the robot's cells ask, if its goal is new; the fields of goals to which robots go often are searched whole, and
/// shared.
#[derive(Drop)]
pub struct Courses<A: Allocator + Copy = Global> {
    shared: Aims<A>,
    own: Vec<Option<GrowingField<A>>, A>,
    started: Started<A>,
}

impl<A: Allocator + Copy> Model for Courses<A> {
    ghost use Rattle.std.specs.Prelude.{◌≡◌, ◌≤◌, length, map, vec_capacity};
    ghost use Rattle.fleet_planner.specs.Courses.{Courses, growth_in};

    ghost Value = { Courses };

    ghost view = { λ c. record { shared = c.shared; own = map growth_in c.own.items } };

    ghost invariant = { λ c.
        (length c.own.items ≡ length c.shared)
        × (length c.own.items ≤ vec_capacity c.started.shared)
        × (length c.own.items ≤ vec_capacity c.started.own) };
}

/// This many robots without a field of their own.
fn no_fields<A: Allocator + Copy>(
    alloc: A,
    robots: usize,
) -> Result<Vec<Option<GrowingField<A>>, A>, AllocError>
    ensures { IfOk result (λ fields. fields.items ≡ replicate robots None) }
{
    let mut fields = Vec::with_capacity(alloc, robots)?;
    for _robot in 0..robots {
        fields.push_reserved(None);
    }
    Ok(fields)
}

/// What a robot sees from a floor cell: by its own field, or else by the shared one.
fn outlook_by<A: Allocator + Copy, B: Allocator + Copy>(
    own: &mut Option<GrowingField<A>>,
    shared: &Aims<A>,
    grid: &Grid<B>,
    robot: u32,
    cell: u32,
) -> Result<Outlook, AllocError>
    requires shared { AreSharedOn grid.now shared.now }
    requires grown { (field : Growth) → growth_in own.old ≡ Some field → IsGrown grid.now field }
    requires floor { IsFloor grid.now cell }
    ensures nearer { IfOk result (λ outlook. AreNearer grid.now (way_to grid.now (first_of (own_goal (growth_in own.old)) (shared_goal shared.now robot))) cell outlook.nearer.byte) }
    ensures idle { IfOk result (λ outlook. first_of (own_goal (growth_in own.old)) (shared_goal shared.now robot) ≡ None → outlook.nearer.byte ≡ 0) }
    ensures exits { IfOk result (λ outlook. AreOpen grid.now cell outlook.exits.byte) }
    ensures grown { (field : Growth) → growth_in own.new ≡ Some field → IsGrown grid.now field }
    ensures goal { own_goal (growth_in own.new) ≡ own_goal (growth_in own.old) }
{
    match own {
        Some(field) => field.outlook(grid, cell),
        None => Ok(shared.outlook(grid, robot, cell)),
    }
}

impl<A: Allocator + Copy> Courses<A> {
    /// This many robots (at most 512), without goals, on a map with this many cells.
    pub fn new(alloc: A, robots: usize, cells: u32) -> Result<Courses<A>, AllocError>
        requires { robots ≤ 512 }
        ensures none { IfOk result (λ courses. goals_of courses ≡ replicate robots None) }
        // Nothing is aimed at, so it is on each map.
        ensures on { IfOk result (λ courses. (m : Floor) → AreOn m courses) }
    {
        let shared = Aims::new(alloc, robots)?;
        let own = no_fields(alloc, robots)?;
        let started = Started::new(alloc, robots, cells)?;
        Ok(Courses {
            shared,
            own,
            started,
        })
    }

    /// Whether a robot that now got this goal would share a whole field that no robot has yet: robots go there often,
    /// or the field is kept.
    pub(crate) fn will_share(&self, cache: &FieldCache<A>, goal: u32) -> bool {
        let is_at_hand = self.started.is_recent(goal) || cache.has(goal);
        is_at_hand && !self.shared.has(goal)
    }

    /// Gives a robot a goal, which is a floor cell, in place of the goal that it had. The robots are on these cells.
    pub fn aim<B: Allocator + Copy>(
        &mut self,
        cache: &mut FieldCache<A>,
        grid: &Grid<B>,
        cells: &[u32],
        robot: u32,
        goal: u32,
    ) -> Result<(), AllocError>
        requires known { robot < length (goals_of self.old) }
        requires cells { length cells.now ≡ length (goals_of self.old) }
        requires floor { IsFloor grid.now goal }
        requires on { AreOn grid.now self.old }
        requires keeps { Keeps grid.now cache.old }
        ensures count { length (goals_of self.new) ≡ length (goals_of self.old) }
        ensures on { AreOn grid.now self.new }
        ensures keeps { Keeps grid.now cache.new }
        ensures goals { OnOk result (goals_of self.new ≡ slice_set (goals_of self.old) robot (Some goal)) }
        ensures refused { OnErr result (self.new ≡ self.old) }
    {
        let turn = GoalChange {
            robot,
            goal: Some(goal),
        };
        self.turn(cache, grid, cells, &[turn])
    }

    /// Gives the robots of these changes their new goals, which are floor cells, or no goal. If two changes are for one
    /// robot, the later one counts. There are at most as many changes as robots, which are on these cells.
    pub fn turn<B: Allocator + Copy>(
        &mut self,
        cache: &mut FieldCache<A>,
        grid: &Grid<B>,
        cells: &[u32],
        turns: &[GoalChange],
    ) -> Result<(), AllocError>
        requires few { length turns.now ≤ length (goals_of self.old) }
        requires known { AreKnownTurns (length (goals_of self.old)) turns.now }
        requires cells { length cells.now ≡ length (goals_of self.old) }
        requires floor { AreFloorTurns grid.now turns.now }
        requires on { AreOn grid.now self.old }
        requires keeps { Keeps grid.now cache.old }
        ensures count { length (goals_of self.new) ≡ length (goals_of self.old) }
        ensures on { AreOn grid.now self.new }
        ensures keeps { Keeps grid.now cache.new }
        ensures goals { OnOk result (goals_of self.new ≡ turned turns.now (goals_of self.old)) }
        ensures refused { OnErr result (self.new ≡ self.old) }
    {
        self.started
            .start_all(&self.shared, cache, grid, turns, cells)?;
        self.shared
            .turn(cache, grid, self.started.shared.as_slice())?;
        place_own(&mut self.own, &mut self.started.own, turns);
        self.started.recycle();
        Ok(())
    }

    /// Searches one robot's own field until it tells the ways from the robot's cell, as a step from these cells would,
    /// and returns whether some robot's field did not. The only error is out of memory; then the search goes on from
    /// there when it is asked again.
    pub fn search_one<B: Allocator + Copy>(
        &mut self,
        grid: &Grid<B>,
        cells: &[u32],
    ) -> Result<bool, AllocError>
        requires { AreOn grid.now self.old }
        ensures search { IfOk result (λ searched. IsSearch grid.now cells.now self.old self.new searched) }
        ensures on { AreOn grid.now self.new }
        ensures still { AreStill self.old self.new }
    {
        let Some(robot) = first_lacking(&self.own, grid, cells) else {
            return Ok(false);
        };
        search_own(&mut self.own[robot], grid, cells[robot])?;
        Ok(true)
    }

    /// How many robots' own fields do not tell the ways from the robots' cells yet. A step from these cells searches
    /// each of them.
    pub fn missing<B: Allocator + Copy>(&self, grid: &Grid<B>, cells: &[u32]) -> usize
        requires { AreOn grid.now self.now }
        ensures { AreMissing grid.now self.now cells.now result }
    {
        count_lacking(&self.own, grid, cells)
    }
}

impl<A: Allocator + Copy> Guide for Courses<A> {
    type Fault = AllocError;

    ghost use Rattle.std.proofs.Common.{refl, ◌∙◌};

    ghost goal_of = { λ s r. goal s r };

    ghost distance = { λ s m r c. away s m r c };

    ghost shows = { λ s m. AreOn m s };

    ghost stays = { λ a b. AreStill a b };

    ghost stays_same = { λ s. record { shared = refl; own = refl } };

    ghost stays_on = { λ a b c p q. record { shared = q.shared ∙ p.shared; own = q.own ∙ p.own } };

    fn outlook<B: Allocator + Copy>(
        &mut self,
        grid: &Grid<B>,
        robot: u32,
        cell: u32,
    ) -> Result<Outlook, AllocError> {
        if robot as usize >= self.own.len() {
            return Ok(self.shared.outlook(grid, robot, cell));
        }
        outlook_by(
            &mut self.own[robot as usize],
            &self.shared,
            grid,
            robot,
            cell,
        )
    }
}
