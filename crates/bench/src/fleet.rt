//! A fleet whose robots go from goal to goal.

ghost use Rattle.std.specs.Prelude.{◌≡◌, ℕ, ◌%◌, ◌<◌, ◌≤◌, Some, length, replicate, vec_len, slice_index, IfOk, IsSome};
ghost use Rattle.fleet_grid.specs.Step.{IsPlacement, IsConflictFree};
ghost use Rattle.fleet_pibt.specs.Order.{wait_of};
ghost use Rattle.bench.specs.Fleet.{AreWithin, Serves, IsUnderWay};

use crate::course::Course;
use crate::site::Site;
use fleet_field::Compass;
use fleet_hooks::TieHook;
use fleet_pibt::Stepper;
use std::alloc::{AllocError, Global};
use std::mem;
use test_kit::Random;

/// Robots that move. Each list has one item for each robot.
#[derive(Drop)]
pub(crate) struct Fleet {
    /// Where it is.
    pub(crate) from: Vec<u32>,
    /// Where it was before the last step.
    pub(crate) to: Vec<u32>,
    /// How many ticks ago it last came to its goal.
    pub(crate) waits: Vec<Option<u64>>,
    /// The number of its field.
    pub(crate) aims: Vec<usize>,
}

impl Fleet {
    /// A fleet that starts on these cells. Robot r gets field number r; if there are fewer fields, they are used again
    /// from the first one on.
    pub(crate) fn new(
        alloc: Global,
        site: &Site,
        starts: Vec<u32>,
        fields: usize,
    ) -> Result<Fleet, AllocError>
        requires some { 0 < fields }
        requires few { vec_len starts ≤ 512 }
        requires placed { IsPlacement site.now.grid starts.items }
        requires within { AreWithin site.now.grid site.now.home starts.items }
        ensures from { IfOk result (λ fleet. fleet.from.items ≡ starts.items) }
        ensures way { IfOk result (λ fleet. IsUnderWay site.now.grid site.now.home fields fleet.from.items fleet.to.items fleet.waits.items fleet.aims.items) }
        ensures to { IfOk result (λ fleet. fleet.to.items ≡ replicate (vec_len starts) 0) }
        ensures waits { IfOk result (λ fleet. fleet.waits.items ≡ replicate (vec_len starts) (Some 0)) }
        ensures aims { IfOk result (λ fleet. (r : ℕ) → r < vec_len starts → slice_index fleet.aims.items r ≡ r % fields) }
    {
        let robots = starts.len();
        let to = vec![in alloc; 0; robots]?;
        let waits = vec![in alloc; Some(0); robots]?;
        let aims = aims_of(alloc, robots, fields)?;
        Ok(Fleet {
            from: starts,
            to,
            waits,
            aims,
        })
    }

    /// One step of all robots.
    pub(crate) fn step(
        &mut self,
        site: &Site,
        fields: &[Compass],
        stepper: &mut Stepper,
        ties: &[TieHook],
        tick: u64,
    )
        requires serves { Serves site.now.grid site.now.home fields.now }
        requires way { IsUnderWay site.now.grid site.now.home (length fields.now) self.old.from.items self.old.to.items self.old.waits.items self.old.aims.items }
        requires tied { length ties.now ≡ vec_len self.old.from }
        requires made { stepper.old ≡ record { cells = length site.now.grid.letters; robots = vec_len self.old.from } }
        ensures made { stepper.new ≡ stepper.old }
        ensures way { IsUnderWay site.now.grid site.now.home (length fields.now) self.new.from.items self.new.to.items self.new.waits.items self.new.aims.items }
        ensures was { self.new.to ≡ self.old.from }
        ensures robots { vec_len self.new.from ≡ vec_len self.old.from }
        ensures conflict_free { IsConflictFree site.now.grid self.old.from.items self.new.from.items }
    {
        let mut course = Course {
            fields,
            aims: &self.aims,
        };
        match stepper.step_by(
            &site.grid,
            &self.from,
            &self.waits,
            &mut course,
            ties,
            tick,
            &mut self.to,
        ) {
            Ok(()) => {}
        }
        mem::swap(&mut self.from, &mut self.to);
    }

    /// Gives each robot that is on its goal a new one, and increases the wait of the others.
    pub(crate) fn arrive(&mut self, site: &Site, fields: &[Compass], random: &mut Random)
        requires some { 0 < length fields.now }
        requires way { IsUnderWay site.now.grid site.now.home (length fields.now) self.old.from.items self.old.to.items self.old.waits.items self.old.aims.items }
        ensures way { IsUnderWay site.now.grid site.now.home (length fields.now) self.new.from.items self.new.to.items self.new.waits.items self.new.aims.items }
        ensures from { self.new.from ≡ self.old.from }
    {
        for robot in 0..self.from.len() {
            let turn = Turn {
                aim: self.aims[robot],
                wait: self.waits[robot],
            };
            let next = next_turn(fields, self.from[robot], turn, random);
            self.aims[robot] = next.aim;
            self.waits[robot] = next.wait;
        }
    }
}

/// The number of each robot's field: the robot's number, or from the first field on again if there are fewer fields.
fn aims_of(alloc: Global, robots: usize, fields: usize) -> Result<Vec<usize>, AllocError>
    requires { 0 < fields }
    ensures count { IfOk result (λ aims. length aims.items ≡ robots) }
    ensures each { IfOk result (λ aims. (r : ℕ) → r < robots → slice_index aims.items r ≡ r % fields) }
{
    let mut aims = Vec::with_capacity(alloc, robots)?;
    for robot in 0..robots {
        aims.push_reserved(robot % fields);
    }
    Ok(aims)
}

/// The number of a robot's field, and how long it has waited.
#[derive(Clone, Copy)]
struct Turn {
    aim: usize,
    wait: Option<u64>,
}

/// A new field for a robot that is on its goal; for another robot the same field, and a wait of one tick more.
fn next_turn(fields: &[Compass], cell: u32, turn: Turn, random: &mut Random) -> Turn
    requires { turn.aim < length fields.now }
    ensures aim { result.aim < length fields.now }
    ensures wait { IsSome result.wait }
{
    if fields[turn.aim].goal() == cell {
        return Turn {
            aim: random.below(fields.len()),
            wait: Some(0),
        };
    }
    Turn {
        aim: turn.aim,
        wait: one_more(turn.wait),
    }
}

/// A wait of one tick more.
fn one_more(wait: Option<u64>) -> Option<u64>
    ensures { IsSome result }
{
    match wait {
        Some(ticks) => Some(ticks.saturating_add(1)),
        None => Some(0),
    }
}
