//! One step of all robots.

ghost use Rattle.std.specs.Prelude.{IfOk, OnOk, ◌≡◌, ℕ, ◌<◌, ◌≤◌, length, map, slice_get, slice_index, Some};
ghost use Rattle.fleet_grid.specs.Floor.{HasForm, IsFloor, IsNeighbour};
ghost use Rattle.fleet_grid.specs.Step.{IsPlacement, IsConflictFree};
ghost use Rattle.fleet_grid.specs.Walk.{IsBridgeless};
ghost use Rattle.fleet_pibt.specs.Advancing.{Advances, IsAdvancing, HasWayAhead};
ghost use Rattle.fleet_pibt.specs.Door.{IsSteppedWithDoor};
ghost use Rattle.fleet_pibt.specs.Eldest.{IsEldest};
ghost use Rattle.fleet_pibt.specs.Goals.{AreGoals};
ghost use Rattle.fleet_pibt.specs.Order.{IsOrder, IsRoll};
ghost use Rattle.fleet_pibt.specs.Purposeful.{IsPurposeful};
ghost use Rattle.fleet_pibt.specs.Stepped.{IsStepped};
ghost use Rattle.fleet_pibt.specs.Ties.{IsByLaw};
ghost use Rattle.fleet_pibt.specs.inside.Around.{AreArounds};
ghost use Rattle.fleet_pibt.specs.inside.Entry.{IsEmpty};
ghost use Rattle.fleet_pibt.specs.inside.Setting.{IsChosen};
ghost use Rattle.fleet_pibt.specs.inside.Tables.{IsClear};

use crate::around::{Around, gather};
use crate::board::Board;
use crate::door::Door;
use crate::goals::{Goals, Guide};
use crate::on_map::OnMap;
use crate::plan::plan_all;
use crate::priority::{numbered, put_in_order};
use crate::scene::Scene;
use crate::seats::Seats;
use crate::sight::Sight;
use crate::tables::{fetch, lift, place, settle};
use fleet_grid::Grid;
use fleet_hooks::TieHook;
use std::alloc::{AllocError, Allocator, Global};
use std::marker::Model;

/// The tables of a step, made once for a number of cells and robots. Between two steps all are empty except the queue
/// and what the robots saw.
#[derive(Drop)]
pub struct Stepper<A: Allocator + Copy = Global> {
    board: Board<A>,
    /// The robots, in the order of the last step.
    queue: Vec<u32, A>,
    arounds: Vec<Around, A>,
}

impl<A: Allocator + Copy> Model for Stepper<A> {
    ghost use Rattle.std.specs.Prelude.{◌≡◌, length, vec_len};
    ghost use Rattle.fleet_pibt.specs.inside.Entry.{IsEmpty};
    ghost use Rattle.fleet_pibt.specs.Order.{IsRoll};
    ghost use Rattle.fleet_pibt.specs.Size.{Size};

    ghost Value = { Size };

    ghost view = { λ s. record { cells = length s.board.seats.standing; robots = vec_len s.queue } };

    ghost invariant = { λ s.
        (length s.board.target ≡ vec_len s.queue)
        × (vec_len s.arounds ≡ vec_len s.queue)
        × (length s.board.seats.holder ≡ length s.board.seats.standing)
        × IsEmpty s.board.seats.standing
        × IsEmpty s.board.target
        × IsEmpty s.board.seats.holder
        × IsRoll s.queue.items };
}

impl<A: Allocator + Copy> Stepper<A> {
    /// The tables for this many cells and robots.
    pub fn new(alloc: A, cells: u32, robots: u32) -> Result<Stepper<A>, AllocError>
        ensures { IfOk result (λ stepper. stepper ≡ record { cells = cells; robots = robots }) }
    {
        let queue = numbered(alloc, robots)?;
        let board = Board::new(alloc, cells, robots)?;
        let arounds = vec![in alloc; Around::NOWHERE; robots as usize]?;
        Ok(Stepper {
            board,
            queue,
            arounds,
        })
    }

    /// Writes to `to` where each robot goes from its cell in `from`. The robots are planned in their order of priority,
    /// and one that wants another's cell hands its priority on (PIBT). `tick` is the tick that is being made, which the
    /// tie closures are told. Allocates nothing.
    pub fn step<G: Goals>(
        &mut self,
        grid: &Grid<A>,
        from: &[u32],
        waits: &[Option<u64>],
        goals: &G,
        ties: &[TieHook],
        tick: u64,
        to: &mut [u32],
    )
        requires placed { IsPlacement grid.now from.now }
        requires few { length from.now ≤ 512 }
        requires waited { length waits.now ≡ length from.now }
        requires tied { length ties.now ≡ length from.now }
        requires same_length { length to.old ≡ length from.now }
        requires made { self.old ≡ record { cells = length grid.now.letters; robots = length from.now } }
        requires goals { AreGoals grid.now from.now waits.now (G.goal_of goals.now) (G.distance goals.now) }
        ensures made { self.new ≡ self.old }
        ensures conflict_free { IsConflictFree grid.now from.now to.new }
        ensures purposeful { IsPurposeful grid.now (G.goal_of goals.now) from.now to.new }
        ensures advances { (e g : ℕ) → IsEldest waits.now e → G.goal_of goals.now e ≡ Some g →
            HasWayAhead grid.now from.now g (slice_index from.now e) →
            Advances grid.now g (slice_index from.now e) (slice_index to.new e) }
        ensures bridgeless { IsBridgeless (IsNeighbour grid.now) → IsAdvancing grid.now waits.now (G.goal_of goals.now) from.now to.new }
        ensures by_law { (e g : ℕ) (law : _) → IsEldest waits.now e → G.goal_of goals.now e ≡ Some g →
            HasWayAhead grid.now from.now g (slice_index from.now e) →
            slice_get (map (λ h. h.law) ties.now) e ≡ Some law →
            IsByLaw grid.now law g (slice_index from.now e) (slice_index to.new e) }
    {
        let mut guide = OnMap { goals };
        match self.step_by(grid, from, waits, &mut guide, ties, tick, to) {
            Ok(()) => {}
        }
    }

    /// Does what `step` does, for goals that tell the exits of a cell with the ways to the goal. A robot's guide that
    /// gives no answer is the only error; no robot is planned then.
    pub fn step_by<G: Guide>(
        &mut self,
        grid: &Grid<A>,
        from: &[u32],
        waits: &[Option<u64>],
        goals: &mut G,
        ties: &[TieHook],
        tick: u64,
        to: &mut [u32],
    ) -> Result<(), G::Fault>
        requires placed { IsPlacement grid.now from.now }
        requires few { length from.now ≤ 512 }
        requires waited { length waits.now ≡ length from.now }
        requires tied { length ties.now ≡ length from.now }
        requires same_length { length to.old ≡ length from.now }
        requires made { self.old ≡ record { cells = length grid.now.letters; robots = length from.now } }
        requires goals { AreGoals grid.now from.now waits.now (G.goal_of goals.old) (G.distance goals.old grid.now) }
        requires shows { G.shows goals.old grid.now }
        ensures made { self.new ≡ self.old }
        ensures goals { G.goal_of goals.new ≡ G.goal_of goals.old }
        ensures distances { G.distance goals.new ≡ G.distance goals.old }
        ensures shows { G.shows goals.new grid.now }
        ensures stays { G.stays goals.old goals.new }
        ensures stepped { OnOk result (IsStepped grid.now waits.now (G.goal_of goals.old) (map (λ h. h.law) ties.now) from.now to.new) }
    {
        self.step_with_door(grid, from, waits, goals, ties, None, tick, to)
    }

    /// Does what `step_by` does where a door is shut: the robot on its cell `from` does not go to its cell `to`, by itself or
    /// pushed. The way back is free. Without a door this is `step_by`. The robots' priority is what `waits` says, so that a
    /// caller who lends a robot the greatest wait lets it go first.
    pub fn step_with_door<G: Guide>(
        &mut self,
        grid: &Grid<A>,
        from: &[u32],
        waits: &[Option<u64>],
        goals: &mut G,
        ties: &[TieHook],
        door: Option<Door>,
        tick: u64,
        to: &mut [u32],
    ) -> Result<(), G::Fault>
        requires placed { IsPlacement grid.now from.now }
        requires few { length from.now ≤ 512 }
        requires waited { length waits.now ≡ length from.now }
        requires tied { length ties.now ≡ length from.now }
        requires same_length { length to.old ≡ length from.now }
        requires made { self.old ≡ record { cells = length grid.now.letters; robots = length from.now } }
        requires goals { AreGoals grid.now from.now waits.now (G.goal_of goals.old) (G.distance goals.old grid.now) }
        requires shows { G.shows goals.old grid.now }
        ensures made { self.new ≡ self.old }
        ensures goals { G.goal_of goals.new ≡ G.goal_of goals.old }
        ensures distances { G.distance goals.new ≡ G.distance goals.old }
        ensures shows { G.shows goals.new grid.now }
        ensures stays { G.stays goals.old goals.new }
        ensures stepped { OnOk result (IsSteppedWithDoor grid.now door waits.now (G.goal_of goals.old) (map (λ h. h.law) ties.now) from.now to.new) }
    {
        see(
            grid,
            from,
            goals,
            door,
            &mut self.arounds,
            &mut self.board.seats,
        )?;
        let scene = Scene {
            grid,
            goals: &*goals,
            door,
            from,
            ties,
            arounds: &self.arounds,
            tick,
        };
        decide(&scene, from, waits, &mut self.queue, &mut self.board, to);
        Ok(())
    }
}

/// Writes down what each robot sees, and fetches the entries that its plan asks for.
fn see<G: Guide, A: Allocator + Copy>(
    grid: &Grid<A>,
    from: &[u32],
    goals: &mut G,
    door: Option<Door>,
    arounds: &mut [Around],
    seats: &mut Seats<A>,
) -> Result<(), G::Fault>
    requires same_length { length arounds.old ≡ length from.now }
    requires few { length from.now ≤ 512 }
    requires floor { (r : ℕ) → r < length from.now → IsFloor grid.now (slice_index from.now r) }
    requires shows { G.shows goals.old grid.now }
    requires cells { length seats.old.standing ≡ length grid.now.letters }
    requires nobody { IsEmpty seats.old.standing }
    ensures arounds { OnOk result (AreArounds grid.now door (G.goal_of goals.old) (G.distance goals.old grid.now) from.now arounds.new) }
    ensures goals { G.goal_of goals.new ≡ G.goal_of goals.old }
    ensures distances { G.distance goals.new ≡ G.distance goals.old }
    ensures shows { G.shows goals.new grid.now }
    ensures stays { G.stays goals.old goals.new }
    ensures cells { length seats.new.standing ≡ length seats.old.standing }
    ensures nobody { IsEmpty seats.new.standing }
    ensures holder { seats.new.holder ≡ seats.old.holder }
    ensures form { HasForm grid.now }
{
    // The count comes with the form of the map, which the proof reads.
    let _cells = grid.cell_count();
    gather(grid, from, goals, door, arounds)?;
    fetch(arounds, seats);
    Ok(())
}

/// Plans the robots in their order of priority on an empty board, writes out where each goes, and empties the board
/// again.
fn decide<S: Sight, A: Allocator + Copy>(
    scene: &S,
    from: &[u32],
    waits: &[Option<u64>],
    queue: &mut [u32],
    board: &mut Board<A>,
    to: &mut [u32],
)
    requires whole { S.is_whole scene.now }
    requires from { from.now ≡ (S.setting scene.now).from }
    requires waited { length waits.now ≡ length from.now }
    requires queued { length queue.old ≡ length waits.now }
    requires roll { IsRoll queue.old }
    requires same_length { length to.old ≡ length from.now }
    requires clear { let s = S.setting scene.now in IsClear (length s.floor.letters) (length from.now) board.old.target board.old.seats }
    ensures order { IsOrder waits.now queue.new }
    ensures roll { IsRoll queue.new }
    ensures clear { let s = S.setting scene.now in IsClear (length s.floor.letters) (length from.now) board.new.target board.new.seats }
    ensures chosen { IsChosen (S.setting scene.now) queue.new to.new }
{
    put_in_order(waits, queue);
    place(from, &mut board.seats);
    plan_all(scene, board, queue);
    lift(from, &mut board.seats);
    settle(board, to);
}
