//! Planning one robot, with those that it pushes, and all of them.

ghost use Rattle.std.specs.Prelude.{◌≡◌, ◌≢◌, ℕ, ◌<◌, ◌≤◌, length, slice_index, slice_set, None, MatchOption};
ghost use Rattle.fleet_shield.specs.Wishes.{IsOrder, wishes, robots};
ghost use Rattle.fleet_shield.specs.inside.First.{IsBlank, HasFirst};
ghost use Rattle.fleet_shield.specs.inside.Board.{undecided, AreSeated, IsHolding, Yields, Chooses, IsBoard, Keeps};

use crate::scene::{Scene, UNDECIDED};
use crate::seats::place_of;

/// Lets the robot reserve the cell.
fn reserve(holder: &mut [u32], to: &mut [u32], robot: u32, cell: u32)
    requires known { robot < length to.old }
    requires inside { cell < length holder.old }
    ensures to { to.new ≡ slice_set to.old robot cell }
    ensures holder { holder.new ≡ slice_set holder.old cell robot }
{
    to[robot as usize] = cell;
    holder[cell as usize] = robot;
}

/// Lets the robot, which can take none of its preferences, stay. A robot that had reserved this cell must choose again,
/// and is returned.
fn stay(from: &[u32], holder: &mut [u32], to: &mut [u32], robot: u32) -> Option<u32>
    requires holding { IsHolding (length from.now) (length holder.old) to.old holder.old }
    requires few { length holder.old ≤ 1048576 }
    requires known { robot < length from.now }
    requires inside { slice_index from.now robot < length holder.old }
    ensures same_length { length holder.new ≡ length holder.old }
    ensures holding { IsHolding (length from.now) (length holder.new) to.new holder.new }
    ensures yields { Yields (length from.now) to.old robot (slice_index from.now robot) to.new result }
{
    let own = from[robot as usize];
    let pusher = place_of(to, holder, own);
    if let Some(other) = pusher {
        to[other as usize] = UNDECIDED;
    }
    reserve(holder, to, robot, own);
    pusher
}

/// Lets the robot reserve the next of its preferences that it may take, or stay. Returns the robot that has to choose
/// now: the one on the reserved cell, or the one that had reserved this robot's cell.
///
/// So the robots whose cells are reserved while they have to choose are the stack of the search. Each finds the robot
/// that pushed it in the table of who has reserved its cell, and its next preference in `tried`.
fn choose(
    scene: &Scene,
    holder: &mut [u32],
    to: &mut [u32],
    tried: &mut [u32],
    robot: u32,
) -> Option<u32>
    requires seated { AreSeated (wishes scene.now.from.now scene.now.preferences) scene.now.standing.now }
    requires holding { IsHolding (length scene.now.from.now) (length scene.now.standing.now) to.old holder.old }
    requires counts { length tried.old ≡ length scene.now.from.now }
    requires known { robot < length scene.now.from.now }
    requires left { slice_index tried.old robot ≤ scene.now.preferences.each }
    ensures holding { IsHolding (length scene.now.from.now) (length scene.now.standing.now) to.new holder.new }
    ensures chooses { Chooses (wishes scene.now.from.now scene.now.preferences) to.old tried.old robot to.new tried.new result }
{
    let place = scene.first_open(holder, to, robot, tried[robot as usize]);
    tried[robot as usize] = place + 1;
    if place >= u32::from(scene.preferences.each) {
        return stay(scene.from, holder, to, robot);
    }
    let cell = scene.preferences.get(robot, place);
    reserve(holder, to, robot, cell);
    let Some(other) = scene.stander(cell) else {
        return None;
    };
    if to[other as usize] == UNDECIDED {
        Some(other)
    } else {
        None
    }
}

/// Plans the robot, with all that it pushes.
fn plan(scene: &Scene, holder: &mut [u32], to: &mut [u32], tried: &mut [u32], robot: u32)
    requires seated { AreSeated (wishes scene.now.from.now scene.now.preferences) scene.now.standing.now }
    requires holding { IsHolding (length scene.now.from.now) (length scene.now.standing.now) to.old holder.old }
    requires board { IsBoard (wishes scene.now.from.now scene.now.preferences) to.old tried.old None }
    requires known { robot < length scene.now.from.now }
    requires idle { slice_index to.old robot ≡ undecided }
    ensures holding { IsHolding (length scene.now.from.now) (length scene.now.standing.now) to.new holder.new }
    ensures board { IsBoard (wishes scene.now.from.now scene.now.preferences) to.new tried.new None }
    ensures keeps { Keeps (wishes scene.now.from.now scene.now.preferences) to.old to.new }
    ensures decided { slice_index to.new robot ≢ undecided }
    ensures first { IsBlank (wishes scene.now.from.now scene.now.preferences) to.old tried.old
        → HasFirst (wishes scene.now.from.now scene.now.preferences) to.new robot }
{
    let mut next = Some(robot);
    while let Some(chooser) = next {
        next = choose(scene, holder, to, tried, chooser);
    }
}

/// Writes one number at each place.
fn fill_with(list: &mut [u32], number: u32)
    ensures same_length { length list.new ≡ length list.old }
    ensures each { (k : ℕ) → k < length list.new → slice_index list.new k ≡ number }
{
    for item in list.iter_mut() {
        *item = number;
    }
}

/// Plans all robots, each that has not decided by the time that the order comes to it.
pub(crate) fn plan_all(
    scene: &Scene,
    order: &[u32],
    holder: &mut [u32],
    to: &mut [u32],
    tried: &mut [u32],
)
    requires seated { AreSeated (wishes scene.now.from.now scene.now.preferences) scene.now.standing.now }
    requires order { IsOrder order.now (length scene.now.from.now) }
    requires news { length to.old ≡ length scene.now.from.now }
    requires counts { length tried.old ≡ length scene.now.from.now }
    requires holders { length holder.old ≡ length scene.now.standing.now }
    ensures holders { length holder.new ≡ length holder.old }
    ensures board { IsBoard (wishes scene.now.from.now scene.now.preferences) to.new tried.new None }
    ensures decided { (r : ℕ) → r < length scene.now.from.now → slice_index to.new r ≢ undecided }
    ensures first { 0 < length scene.now.from.now → HasFirst (wishes scene.now.from.now scene.now.preferences) to.new (slice_index order.now 0) }
{
    fill_with(to, UNDECIDED);
    fill_with(tried, 0);
    for robot in order {
        if to[*robot as usize] == UNDECIDED {
            plan(scene, holder, to, tried, *robot);
        }
    }
}
