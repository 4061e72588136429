//! The fields that robots get for themselves.

ghost use Rattle.std.specs.Prelude.{◌≡◌, ℕ, ◌<◌, ◌≤◌, length, map, slice_get, slice_index_or, vec_capacity, vec_len, IfOk, OnOk, Some};
ghost use Rattle.fleet_grid.specs.Floor.{IsFloor};
ghost use Rattle.fleet_planner.specs.Courses.{growth_in};
ghost use Rattle.fleet_planner.specs.Turned.{AreFloorTurns, AreKnownTurns};
ghost use Rattle.fleet_planner.specs.inside.Started.{IsStart, AreStarts, shared_part, shared_parts, placed};

use crate::aims::Aims;
use crate::recent::RecentGoals;
use crate::turns::GoalChange;
use fleet_field::{FieldCache, GrowingField};
use fleet_grid::Grid;
use std::alloc::{AllocError, Allocator};
use std::mem;

/// How many fields that no robot needs any more are kept for their memory: seldom do more robots arrive in one tick.
const SPARE: usize = 8;

/// Turns that are made ready: for each robot that turns a field of its own, or the turn to a shared field.
#[derive(Drop)]
pub(crate) struct Started<A: Allocator + Copy> {
    /// The turns to shared fields, with room for all robots.
    pub(crate) shared: Vec<GoalChange, A>,
    /// The robots' own fields, with room for all robots.
    pub(crate) own: Vec<Option<GrowingField<A>>, A>,
    /// Fields that no robot needs any more, whose memory the next ones take.
    spare: Vec<GrowingField<A>, A>,
    recent: RecentGoals<A>,
}

/// The turn to a shared field that is left of a turn, where the robot may have got a field of its own.
fn shared_part<A: Allocator + Copy>(turn: GoalChange, field: &Option<GrowingField<A>>) -> GoalChange
    ensures { result ≡ shared_part turn (growth_in field.now) }
{
    match field {
        Some(_) => GoalChange {
            robot: turn.robot,
            goal: None,
        },
        None => turn,
    }
}

/// Keeps the memory of a field, if there is one, and there is room.
fn keep_spare<A: Allocator + Copy>(
    spare: &mut Vec<GrowingField<A>, A>,
    field: Option<GrowingField<A>>,
) {
    if spare.len() < spare.capacity() {
        if let Some(field) = field {
            spare.push_reserved(field);
        }
    }
}

impl<A: Allocator + Copy> Started<A> {
    /// Nothing is ready, with room for this many robots on a map with this many cells.
    pub(crate) fn new(alloc: A, robots: usize, cells: u32) -> Result<Started<A>, AllocError>
        ensures shared { IfOk result (λ started. robots ≤ vec_capacity started.shared) }
        ensures own { IfOk result (λ started. robots ≤ vec_capacity started.own) }
    {
        let shared = Vec::with_capacity(alloc, robots)?;
        let own = Vec::with_capacity(alloc, robots)?;
        let spare = Vec::with_capacity(alloc, robots.min(SPARE))?;
        let recent = RecentGoals::new(alloc, cells)?;
        Ok(Started {
            shared,
            own,
            spare,
            recent,
        })
    }

    /// Whether some robot got this goal lately.
    pub(crate) fn is_recent(&self, goal: u32) -> bool {
        self.recent.has(goal)
    }

    /// A field to a goal that grows toward a cell.
    fn grow<B: Allocator + Copy>(
        &mut self,
        grid: &Grid<B>,
        goal: u32,
        cell: u32,
    ) -> Result<GrowingField<A>, AllocError>
        requires { IsFloor grid.now goal }
        ensures start { IfOk result (λ field. IsStart grid.now (Some goal) (growth_in (Some field))) }
        ensures rest { self.new ≡ record self.old { spare = self.new.spare } }
    {
        match self.spare.pop() {
            Some(spare) => {
                let mut field = spare;
                field.restart(grid, goal, cell)?;
                Ok(field)
            }
            None => GrowingField::new(*self.own.allocator(), grid, goal, cell),
        }
    }

    /// A field to a turn's goal that grows toward a cell, if no whole field of the goal is at hand, and robots do not
    /// often go there.
    fn start<B: Allocator + Copy>(
        &mut self,
        aims: &Aims<A>,
        cache: &FieldCache<A>,
        grid: &Grid<B>,
        turn: GoalChange,
        cell: u32,
    ) -> Result<Option<GrowingField<A>>, AllocError>
        requires { (goal : ℕ) → turn.goal ≡ Some goal → IsFloor grid.now goal }
        ensures start { IfOk result (λ field. IsStart grid.now turn.goal (growth_in field)) }
        ensures shared { self.new.shared ≡ self.old.shared }
        ensures own { self.new.own ≡ self.old.own }
    {
        let Some(goal) = turn.goal else {
            return Ok(None);
        };
        if self.recent.note(goal) || aims.has(goal) || cache.has(goal) {
            return Ok(None);
        }
        Ok(Some(self.grow(grid, goal, cell)?))
    }

    /// Makes these turns ready, of robots on these cells. Nothing is turned yet.
    pub(crate) fn start_all<B: Allocator + Copy>(
        &mut self,
        aims: &Aims<A>,
        cache: &FieldCache<A>,
        grid: &Grid<B>,
        turns: &[GoalChange],
        cells: &[u32],
    ) -> Result<(), AllocError>
        requires known { AreKnownTurns (length cells.now) turns.now }
        requires floor { AreFloorTurns grid.now turns.now }
        requires room_shared { length turns.now ≤ vec_capacity self.old.shared }
        requires room_own { length turns.now ≤ vec_capacity self.old.own }
        ensures starts { OnOk result (AreStarts grid.now turns.now (map growth_in self.new.own.items)) }
        ensures shared { OnOk result (self.new.shared.items ≡ shared_parts turns.now (map growth_in self.new.own.items)) }
        ensures room_shared { vec_capacity self.new.shared ≡ vec_capacity self.old.shared }
        ensures room_own { vec_capacity self.new.own ≡ vec_capacity self.old.own }
    {
        self.shared.clear();
        self.own.clear();
        for at in 0..turns.len() {
            let turn = turns[at];
            let field = self.start(aims, cache, grid, turn, cells[turn.robot as usize])?;
            self.shared.push_reserved(shared_part(turn, &field));
            self.own.push_reserved(field);
        }
        Ok(())
    }

    /// Keeps the memory of the fields that no robot got, or that robots had before.
    pub(crate) fn recycle(&mut self)
        ensures room_shared { vec_capacity self.new.shared ≡ vec_capacity self.old.shared }
        ensures room_own { vec_capacity self.new.own ≡ vec_capacity self.old.own }
    {
        while let Some(item) = self.own.pop() {
            keep_spare(&mut self.spare, item);
        }
    }
}

/// Gives each turn's robot its fresh field, or none, and puts the field that it had in its place.
pub(crate) fn place_own<A: Allocator + Copy>(
    own: &mut Vec<Option<GrowingField<A>>, A>,
    fresh: &mut Vec<Option<GrowingField<A>>, A>,
    turns: &[GoalChange],
)
    requires count { length fresh.old.items ≡ length turns.now }
    requires known { AreKnownTurns (length own.old.items) turns.now }
    ensures placed { own.new.items ≡ placed turns.now fresh.old.items own.old.items }
    ensures room { vec_capacity fresh.new ≡ vec_capacity fresh.old }
{
    for at in 0..turns.len() {
        let turn = turns[at];
        mem::swap(&mut own[turn.robot as usize], &mut fresh[at]);
    }
}
