//! What the robots aim at.

ghost use Rattle.std.specs.Prelude.{◌≡◌, ℕ, ◌<◌, ◌≤◌, Some, None, length, replicate, slice_set, IfOk, OnOk, OnErr};
ghost use Rattle.fleet_field.specs.Store.{Keeps};
ghost use Rattle.fleet_grid.specs.Floor.{Floor, IsFloor};
ghost use Rattle.fleet_grid.specs.Ways.{AreNearer, AreOpen};
ghost use Rattle.fleet_planner.specs.Aims.{goals_of, goal, distance, AreOn};
ghost use Rattle.fleet_planner.specs.Turned.{turned, AreFloorTurns, AreKnownTurns};

use crate::keys::{distance_of, goal_of, outlook_of, ways_of};
use crate::turns::{GoalChange, turn_to};
use fleet_field::{FieldCache, FieldStore};
use fleet_grid::{Grid, Outlook, Ways};
use fleet_pibt::Goals;
use std::alloc::{AllocError, Allocator, Global};
use std::marker::Model;

/// What each robot of a fleet aims at: its goal with the distances to it, or nothing. Contracts see the list of these,
/// one for each robot. Robots with one goal share its distances.
#[derive(Drop)]
pub struct Aims<A: Allocator + Copy = Global> {
    store: FieldStore<A>,
    keys: Vec<Option<usize>, A>,
    // What a turn holds before it deals it, or what it gives back. Between calls it is empty, with room for all robots.
    fresh: Vec<Option<usize>, A>,
}

impl<A: Allocator + Copy> Model for Aims<A> {
    ghost use Rattle.std.specs.Prelude.{◌≡◌, ◌≤◌, [], List, Option, length, vec_capacity};
    ghost use Rattle.fleet_field.specs.Field.{Aim};
    ghost use Rattle.fleet_planner.specs.Keys.{fields_of, AreOwn};

    ghost Value = { List (Option Aim) };

    ghost view = { λ a. fields_of a.store a.keys.items };

    ghost invariant = { λ a. AreOwn a.store a.keys.items × (a.fresh.items ≡ []) × (length a.keys.items ≤ vec_capacity a.fresh) };
}

/// This many robots without a key.
fn no_keys<A: Allocator + Copy>(
    alloc: A,
    robots: usize,
) -> Result<Vec<Option<usize>, A>, AllocError>
    ensures { IfOk result (λ keys. keys.items ≡ replicate robots None) }
{
    let mut keys = Vec::with_capacity(alloc, robots)?;
    for _robot in 0..robots {
        keys.push_reserved(None);
    }
    Ok(keys)
}

impl<A: Allocator + Copy> Aims<A> {
    /// This many robots (at most 512), without goals.
    pub fn new(alloc: A, robots: usize) -> Result<Aims<A>, AllocError>
        requires { robots ≤ 512 }
        ensures none { IfOk result (λ aims. aims ≡ replicate robots None) }
        // Nothing is aimed at, so it is on each map.
        ensures on { IfOk result (λ aims. (m : Floor) → AreOn m aims) }
    {
        let store = FieldStore::new(alloc)?;
        let keys = no_keys(alloc, robots)?;
        let fresh = Vec::with_capacity(alloc, robots)?;
        Ok(Aims { store, keys, fresh })
    }

    /// Gives the robot a goal, which is a floor cell, in place of the goal that it had. All goals are on one map, and
    /// fields that no robot needs any more go to the cache.
    pub fn aim<B: Allocator + Copy>(
        &mut self,
        cache: &mut FieldCache<A>,
        grid: &Grid<B>,
        robot: u32,
        goal: u32,
    ) -> Result<(), AllocError>
        requires known { robot < length self.old }
        requires floor { IsFloor grid.now goal }
        requires on { AreOn grid.now self.old }
        requires keeps { Keeps grid.now cache.old }
        ensures count { length self.new ≡ length self.old }
        ensures on { AreOn grid.now self.new }
        ensures keeps { Keeps grid.now cache.new }
        ensures goals { OnOk result (goals_of self.new ≡ slice_set (goals_of self.old) robot (Some goal)) }
        ensures refused { OnErr result (self.new ≡ self.old) }
    {
        let turn = GoalChange {
            robot,
            goal: Some(goal),
        };
        self.turn(cache, grid, &[turn])
    }

    /// Gives the robots of these changes their new goals, which are floor cells, or no goal. If two changes are for one
    /// robot, the later one counts. There are at most as many changes as robots. Distances to new goals that are not
    /// kept are searched one after another. It allocates no list.
    pub fn turn<B: Allocator + Copy>(
        &mut self,
        cache: &mut FieldCache<A>,
        grid: &Grid<B>,
        turns: &[GoalChange],
    ) -> Result<(), AllocError>
        requires few { length turns.now ≤ length self.old }
        requires known { AreKnownTurns (length self.old) turns.now }
        requires floor { AreFloorTurns grid.now turns.now }
        requires on { AreOn grid.now self.old }
        requires keeps { Keeps grid.now cache.old }
        ensures count { length self.new ≡ length self.old }
        ensures on { AreOn grid.now self.new }
        ensures keeps { Keeps grid.now cache.new }
        ensures goals { OnOk result (goals_of self.new ≡ turned turns.now (goals_of self.old)) }
        ensures refused { OnErr result (self.new ≡ self.old) }
    {
        turn_to(
            cache,
            grid,
            &mut self.store,
            &mut self.keys,
            &mut self.fresh,
            turns,
        )
    }

    /// Whether some robot's goal is this one.
    pub(crate) fn has(&self, goal: u32) -> bool {
        self.store.has(goal)
    }

    /// What the robot sees from a floor cell of the map. Without a goal no way leads nearer.
    pub fn outlook<B: Allocator + Copy>(&self, grid: &Grid<B>, robot: u32, cell: u32) -> Outlook
        requires on { AreOn grid.now self.now }
        requires floor { IsFloor grid.now cell }
        ensures nearer { AreNearer grid.now (distance self.now robot) cell result.nearer.byte }
        ensures idle { goal self.now robot ≡ None → result.nearer.byte ≡ 0 }
        ensures exits { AreOpen grid.now cell result.exits.byte }
    {
        outlook_of(&self.store, &self.keys, grid, robot, cell)
    }
}

impl<A: Allocator + Copy> Goals for Aims<A> {
    ghost goal_of = { λ s r. goal s r };

    ghost distance = { λ s r c. distance s r c };

    fn goal(&self, robot: u32) -> Option<u32> {
        goal_of(&self.store, &self.keys, robot)
    }

    fn at(&self, robot: u32, cell: u32) -> Option<u32> {
        distance_of(&self.store, &self.keys, robot, cell)
    }

    fn ways<B: Allocator + Copy>(&self, grid: &Grid<B>, robot: u32, cell: u32) -> Ways {
        ways_of(&self.store, &self.keys, grid, robot, cell)
    }
}
