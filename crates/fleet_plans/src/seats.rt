//! A table that has the robot on each cell, for steps in which few robots move.

ghost use Rattle.std.specs.Prelude.{◌≡◌, ◌≢◌, ◌+◌, ◌<◌, ℕ, false, length, slice_index, IsTrue};
ghost use Rattle.fleet_grid.specs.Floor.{Floor};
ghost use Rattle.fleet_grid.specs.Step.{IsPlacement, IsConflictFree};
ghost use Rattle.fleet_plans.specs.inside.Seats.{IsSeated, AreSeated, HaveChanged, KeepToEdges, MayGo};

/// The item at a place of a list, 0 past its end.
pub(crate) fn item(list: &[u32], at: u32) -> u32
    ensures { result ≡ slice_index list.now at }
{
    match list.get(at as usize) {
        Some(item) => *item,
        None => 0,
    }
}

/// Puts a robot on its cell; false if another robot comes to it, or there is no such cell. A robot that the table has on
/// a cell to which it does not come has left it.
#[tactic(auto, using(crate::proofs::Seatings::seat_kept))]
fn sit(seats: &mut [u32], place: &[u32], robot: u32) -> bool
    ensures sat { IsTrue result → IsSeated seats.new place.now robot }
    ensures kept { IsTrue result → (r : ℕ) → IsSeated seats.old place.now r → IsSeated seats.new place.now r }
{
    let cell = item(place, robot);
    let at = cell as usize;
    if at >= seats.len() || robot == u32::MAX {
        return false;
    }
    let seat = seats[at];
    if seat > 0 && seat != robot + 1 && item(place, seat - 1) == cell {
        return false;
    }
    seats[at] = robot + 1;
    true
}

/// Puts these robots on their cells; false if there are two on one cell, or a cell is outside of the table.
pub(crate) fn sit_all(seats: &mut [u32], robots: &[u32], place: &[u32]) -> bool
    ensures sat { IsTrue result → (k : ℕ) → k < length robots.now → IsSeated seats.new place.now (slice_index robots.now k) }
    ensures kept { IsTrue result → (r : ℕ) → IsSeated seats.old place.now r → IsSeated seats.new place.now r }
{
    for k in 0..robots.len() {
        if !sit(seats, place, robots[k]) {
            return false;
        }
    }
    true
}

/// Whether the robot that was on the one cell comes to the other.
fn is_met(seats: &[u32], last: &[u32], place: &[u32], from: u32, to: u32) -> bool
    ensures { result ≡ false → (j : ℕ) → slice_index seats.now to ≡ j + 1 → slice_index last.now j ≡ to → slice_index place.now j ≢ from }
{
    let seat = item(seats, to);
    seat > 0 && item(place, seat - 1) == from && item(last, seat - 1) == to
}

/// Whether a robot stays, or moves without meeting another robot.
fn may_go(seats: &[u32], last: &[u32], place: &[u32], robot: u32) -> bool
    ensures { IsTrue result → MayGo seats.now last.now place.now robot }
{
    let (from, to) = (item(last, robot), item(place, robot));
    if to == from {
        return true;
    }
    !is_met(seats, last, place, from, to)
}

/// Whether each of these robots stays, or moves without meeting another.
fn may_all(seats: &[u32], robots: &[u32], last: &[u32], place: &[u32]) -> bool
    ensures { IsTrue result → (k : ℕ) → k < length robots.now → MayGo seats.now last.now place.now (slice_index robots.now k) }
{
    for k in 0..robots.len() {
        if !may_go(seats, last, place, robots[k]) {
            return false;
        }
    }
    true
}

/// Whether a step in which only these robots move, and each of them stays or crosses an edge, is free of conflicts. The
/// table has the robots on their last cells; if the step is free, it has them on their new ones afterwards.
pub(crate) fn is_free_step(seats: &mut [u32], robots: &[u32], last: &[u32], place: &[u32]) -> bool
    requires each_one { length place.now ≡ length last.now }
    requires changed { HaveChanged robots.now last.now place.now }
    requires seated { AreSeated seats.old last.now }
    ensures free { (m : Floor) → IsPlacement m last.now → KeepToEdges m last.now place.now → IsTrue result → IsConflictFree m last.now place.now }
    ensures seated { IsTrue result → AreSeated seats.new place.now }
{
    if !may_all(seats, robots, last, place) {
        return false;
    }
    sit_all(seats, robots, place)
}
