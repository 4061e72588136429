//! Planning one robot, and all of them.

ghost use Rattle.std.specs.Prelude.{◌≡◌, ◌≢◌, ℕ, ◌+◌, ◌<◌, ◌≤◌, ◌↔◌, ◌⊎◌, length, slice_index, IsTrue, MatchBool, Option, Some, None};
ghost use Rattle.fleet_pibt.specs.inside.Entry.{table, IsEmpty};
ghost use Rattle.fleet_pibt.specs.inside.Setting.{robots, Stands, cell_of, IsStanding, IsReady, IsDone, HasFailed, HasGrown, IsShut, Refused, IsChoice, HasTried, NamesAll, IsPlanned};

use crate::board::Board;
use crate::sight::Sight;
use std::alloc::Allocator;

/// Whether the robot that stands on the cell has decided to take this robot's cell, so that the two would swap.
#[tactic(auto, using(crate::proofs::Planning::stander_known, crate::proofs::Planning::meets_tells))]
fn meets<S: Sight, A: Allocator + Copy>(scene: &S, board: &Board<A>, robot: u32, cell: u32) -> bool
    requires whole { S.is_whole scene.now }
    requires known { robot < robots (S.setting scene.now) }
    requires inside { cell < length (S.setting scene.now).floor.letters }
    requires targets { length board.now.target ≡ robots (S.setting scene.now) }
    requires standing { IsStanding (S.setting scene.now) board.now.seats.standing }
    ensures { let s = S.setting scene.now in
        IsTrue result ↔ ((k : ℕ) × Stands s k cell × (table board.now.target k ≡ Some (cell_of s robot))) }
{
    match board.seats.stander(cell) {
        Some(other) => board.target.get(other) == Some(scene.cell_of(robot)),
        None => false,
    }
}

/// Lets the robot reserve the cell, and plans the robot on that cell at once. If the latter cannot move away, the
/// reservation is given up.
#[cycle(plan)]
fn attempt<S: Sight, A: Allocator + Copy>(
    scene: &S,
    board: &mut Board<A>,
    robot: u32,
    cell: u32,
) -> bool
    requires whole { S.is_whole scene.now }
    requires standing { IsStanding (S.setting scene.now) board.old.seats.standing }
    requires ready { let s = S.setting scene.now in IsReady s board.old.target board.old.seats.holder robot }
    requires choice { let s = S.setting scene.now in IsChoice s board.old.target board.old.seats.holder robot cell }
    ensures targets { length board.new.target ≡ length board.old.target }
    ensures holders { length board.new.seats.holder ≡ length board.old.seats.holder }
    ensures standing { board.new.seats.standing ≡ board.old.seats.standing }
    ensures done { let s = S.setting scene.now in
        MatchBool result
        (IsDone s board.old.target board.old.seats.holder board.new.target board.new.seats.holder robot
        × (table board.new.target robot ≡ Some cell))
        (HasGrown s board.old.target board.old.seats.holder board.new.target board.new.seats.holder robot
        × IsShut s board.new.target board.new.seats.holder robot cell
        × Refused s board.old.target board.old.seats.holder robot cell) }
{
    if board.seats.holder(cell).is_some() || meets(scene, board, robot, cell) {
        return false;
    }
    board.reserve(robot, cell);
    let Some(other) = board.seats.stander(cell) else {
        return true;
    };
    if board.target.get(other).is_some() || plan(scene, board, other) {
        return true;
    }
    board.hand_back(robot, other, cell);
    false // The robot tries its next cell.
}

/// Lets the robot try its cells in order, until it gets one. A robot that gets none stays; its caller writes this down.
#[cycle(plan)]
fn plan<S: Sight, A: Allocator + Copy>(scene: &S, board: &mut Board<A>, robot: u32) -> bool
    requires whole { S.is_whole scene.now }
    requires standing { IsStanding (S.setting scene.now) board.old.seats.standing }
    requires ready { let s = S.setting scene.now in IsReady s board.old.target board.old.seats.holder robot }
    ensures targets { length board.new.target ≡ length board.old.target }
    ensures holders { length board.new.seats.holder ≡ length board.old.seats.holder }
    ensures standing { board.new.seats.standing ≡ board.old.seats.standing }
    ensures done { let s = S.setting scene.now in
        MatchBool result
        (IsDone s board.old.target board.old.seats.holder board.new.target board.new.seats.holder robot)
        (HasFailed s board.old.target board.old.seats.holder board.new.target board.new.seats.holder robot) }
    ensures tried { let s = S.setting scene.now in
        IsTrue result → HasTried s board.old.target board.old.seats.holder board.new.target robot }
{
    let cells = scene.choices(robot);
    for cell in cells {
        if attempt(scene, board, robot, cell) {
            return true;
        }
    }
    false
}

/// Plans each robot of the queue that has not decided yet.
pub(crate) fn plan_all<S: Sight, A: Allocator + Copy>(
    scene: &S,
    board: &mut Board<A>,
    queue: &[u32],
)
    requires whole { S.is_whole scene.now }
    requires queue { NamesAll (S.setting scene.now) queue.now }
    requires targets { length board.old.target ≡ robots (S.setting scene.now) }
    requires holders { length board.old.seats.holder ≡ length (S.setting scene.now).floor.letters }
    requires no_target { IsEmpty board.old.target }
    requires standing { IsStanding (S.setting scene.now) board.old.seats.standing }
    requires no_holder { IsEmpty board.old.seats.holder }
    ensures standing { board.new.seats.standing ≡ board.old.seats.standing }
    ensures planned { let s = S.setting scene.now in
        IsPlanned s board.old.target board.old.seats.holder board.new.target board.new.seats.holder queue.now (length queue.now) }
{
    for robot in queue {
        if board.target.get(*robot).is_none() {
            plan(scene, board, *robot);
        }
    }
}
