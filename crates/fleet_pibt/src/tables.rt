//! Filling and emptying a step's tables, by the robots' cells alone.

ghost use Rattle.std.specs.Prelude.{◌≡◌, ◌≢◌, ℕ, ◌<◌, ◌≤◌, length, slice_index, None};
ghost use Rattle.fleet_pibt.specs.inside.Entry.{table, IsEmpty};
ghost use Rattle.fleet_pibt.specs.inside.Plan.{Distinct};
ghost use Rattle.fleet_pibt.specs.inside.Tables.{IsPlaced, HasCells, HasSides, IsTaken, IsMatched};

use crate::around::Around;
use crate::board::Board;
use crate::seats::Seats;
use std::alloc::Allocator;

/// A table with more entries does not fit into the processor's cache.
const NEAR: usize = 262144;

/// Writes that no robot is on the cells north and south of the robots, before any robot is entered. This changes
/// nothing, but the processor fetches all these entries of a large table at once, and not one after another when the
/// robots are planned.
pub(crate) fn fetch<A: Allocator + Copy>(arounds: &[Around], seats: &mut Seats<A>)
    requires inside { HasSides arounds.now (length seats.old.standing) }
    requires empty { IsEmpty seats.old.standing }
    ensures same_length { length seats.new.standing ≡ length seats.old.standing }
    ensures empty { IsEmpty seats.new.standing }
    ensures holder { seats.new.holder ≡ seats.old.holder }
{
    if seats.len() <= NEAR {
        return;
    }
    for around in arounds {
        seats.leave(around.north);
        seats.leave(around.south);
    }
}

/// Enters each robot as the one that stands on its cell.
pub(crate) fn place<A: Allocator + Copy>(from: &[u32], seats: &mut Seats<A>)
    requires few { length from.now ≤ 512 }
    requires inside { HasCells from.now (length seats.old.standing) }
    requires distinct { Distinct (length from.now) (slice_index from.now) }
    requires empty { IsEmpty seats.old.standing }
    ensures same_length { length seats.new.standing ≡ length seats.old.standing }
    ensures placed { IsPlaced from.now seats.new.standing (length from.now) }
    ensures holder { seats.new.holder ≡ seats.old.holder }
{
    for (robot, cell) in from.iter().enumerate() {
        seats.enter(*cell, robot as u32);
    }
}

/// Takes each robot off its cell.
pub(crate) fn lift<A: Allocator + Copy>(from: &[u32], seats: &mut Seats<A>)
    requires inside { HasCells from.now (length seats.old.standing) }
    requires placed { IsPlaced from.now seats.old.standing (length from.now) }
    ensures same_length { length seats.new.standing ≡ length seats.old.standing }
    ensures empty { IsEmpty seats.new.standing }
    ensures holder { seats.new.holder ≡ seats.old.holder }
{
    for cell in from {
        seats.leave(*cell);
    }
}

/// Writes out where each robot goes, and empties the board.
pub(crate) fn settle<A: Allocator + Copy>(board: &mut Board<A>, to: &mut [u32])
    requires few { length to.old ≤ 512 }
    requires same { length board.old.target ≡ length to.old }
    requires matched { IsMatched board.old.target board.old.seats.holder }
    requires decided { (r : ℕ) → r < length to.old → table board.old.target r ≢ None }
    ensures targets { length board.new.target ≡ length board.old.target }
    ensures holders { length board.new.seats.holder ≡ length board.old.seats.holder }
    ensures no_target { IsEmpty board.new.target }
    ensures no_holder { IsEmpty board.new.seats.holder }
    ensures standing { board.new.seats.standing ≡ board.old.seats.standing }
    ensures taken { IsTaken board.old.target to.new (length to.new) }
{
    for (robot, cell) in to.iter_mut().enumerate() {
        *cell = board.release(robot as u32);
    }
}
