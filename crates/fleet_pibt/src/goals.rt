//! What a step asks about the robots' goals.

ghost use Rattle.std.specs.Prelude.{◌≡◌, ◌↔◌, ℕ, Option, None, IfOk, IsSome, IsTrue};
ghost use Rattle.fleet_grid.specs.Floor.{Floor, IsFloor, IsNeighbourIn};
ghost use Rattle.fleet_grid.specs.Ways.{AreNearer, AreOpen, IsLess};

use fleet_grid::{Dir, Grid, Outlook, Ways};
use std::alloc::Allocator;

/// Where each robot goes, and how far that is. An implementation says `goal` and `at`; `ways` follows from them, and
/// may be given where a quicker way to it is at hand.
pub trait Goals {
    ghost goal_of: { Self → ℕ → Option ℕ };

    ghost distance: { Self → ℕ → ℕ → Option ℕ };

    /// The robot's goal; an idle robot has none.
    fn goal(&self, robot: u32) -> Option<u32>
        ensures { result ≡ goal_of self.now robot };

    /// The number of edges from the cell to the robot's goal; none where no walk leads there.
    fn at(&self, robot: u32, cell: u32) -> Option<u32>
        ensures { result ≡ distance self.now robot cell };

    /// The ways out of the cell that lead nearer to the robot's goal: of those to floor neighbours the ones to a lesser
    /// distance. An idle robot has none.
    fn ways<A: Allocator + Copy>(&self, grid: &Grid<A>, robot: u32, cell: u32) -> Ways
        ensures nearer { IsSome (goal_of self.now robot) → AreNearer grid.now (distance self.now robot) cell result.byte }
        ensures idle { goal_of self.now robot ≡ None → result.byte ≡ 0 }
    {
        if self.goal(robot).is_none() {
            return Ways::NONE;
        }
        let own = self.at(robot, cell);
        Ways::of(
            is_less(self.at(robot, beside(grid, cell, Dir::North)), own),
            is_less(self.at(robot, beside(grid, cell, Dir::East)), own),
            is_less(self.at(robot, beside(grid, cell, Dir::South)), own),
            is_less(self.at(robot, beside(grid, cell, Dir::West)), own),
        )
    }
}

/// What a step asks about the robots' goals, once for each robot: both kinds of ways at once, so that one read of
/// memory may answer both. A guide may search before it answers, and the search may fail.
pub trait Guide {
    /// Why there is no answer.
    type Fault: Drop;

    ghost goal_of: { Self → ℕ → Option ℕ };

    ghost distance: { Self → Floor → ℕ → ℕ → Option ℕ };

    ghost shows: { Self → Floor → Type 0 };

    ghost stays: { Self → Self → Type 0 };

    /// What the robot sees from a floor cell of the map that these goals show. An idle robot has no way that leads
    /// nearer. The goals stay as they are, with or without an answer.
    fn outlook<A: Allocator + Copy>(
        &mut self,
        grid: &Grid<A>,
        robot: u32,
        cell: u32,
    ) -> Result<Outlook, Self::Fault>
        requires shows { shows self.old grid.now }
        requires floor { IsFloor grid.now cell }
        ensures nearer { IfOk result (λ outlook. IsSome (goal_of self.old robot) → AreNearer grid.now (distance self.old grid.now robot) cell outlook.nearer.byte) }
        ensures idle { IfOk result (λ outlook. goal_of self.old robot ≡ None → outlook.nearer.byte ≡ 0) }
        ensures exits { IfOk result (λ outlook. AreOpen grid.now cell outlook.exits.byte) }
        ensures goals { goal_of self.new ≡ goal_of self.old }
        ensures distances { distance self.new ≡ distance self.old }
        ensures shows { shows self.new grid.now }
        ensures stays { stays self.old self.new };

    ghost stays_same: { (s : Self) → stays s s };

    ghost stays_on: { (a b c : Self) → stays a b → stays b c → stays a c };
}

/// The floor neighbour of the cell in a direction; where there is none, the cell.
#[tactic(auto, using(crate::proofs::Rated::beside_once))]
fn beside<A: Allocator + Copy>(grid: &Grid<A>, cell: u32, dir: Dir) -> u32
    ensures { (w : ℕ) → IsNeighbourIn grid.now dir cell w → result ≡ w }
{
    match grid.neighbour(cell, dir) {
        Some(next) => next,
        None => cell,
    }
}

/// Whether both are distances, and the first is less.
fn is_less(a: Option<u32>, b: Option<u32>) -> bool
    ensures { IsTrue result ↔ IsLess a b }
{
    match (a, b) {
        (Some(a), Some(b)) => a < b,
        _ => false,
    }
}
