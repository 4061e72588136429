//! What a step is made from.

ghost use Rattle.std.specs.Prelude.{◌≡◌, ◌≢◌, ℕ, ◌<◌, ◌≤◌, length, MatchBool, MatchOption};
ghost use Rattle.fleet_shield.specs.Wishes.{wishes, robots, cell_of, preference};
ghost use Rattle.fleet_shield.specs.inside.Board.{AreSeated, IsHolding, IsOpen, IsShut};

use crate::preferences::Preferences;
use crate::seats::place_of;

/// What a new cell is before a robot has decided: no cell has this number.
pub(crate) const UNDECIDED: u32 = u32::MAX;

/// Where robots stand before the step, and what they prefer.
#[derive(Clone, Copy)]
pub(crate) struct Scene<'a> {
    pub(crate) from: &'a [u32],
    /// The robot on each cell where there is one.
    pub(crate) standing: &'a [u32],
    pub(crate) preferences: Preferences<'a>,
}

impl<'a> Scene<'a> {
    /// The robot that stands on the cell.
    pub(crate) fn stander(&self, cell: u32) -> Option<u32>
        requires seated { AreSeated (wishes self.now.from.now self.now.preferences) self.now.standing.now }
        requires inside { cell < length self.now.standing.now }
        ensures { let w = wishes self.now.from.now self.now.preferences in
            MatchOption result
            ((q : ℕ) → q < robots w → cell_of w q ≢ cell)
            (λ q. (q < robots w) × (cell_of w q ≡ cell)) }
    {
        place_of(self.from, self.standing, cell)
    }

    /// Whether the robot may take the cell now: no robot has reserved it, and the one that stands there is not to come
    /// the other way.
    fn is_open(&self, holder: &[u32], to: &[u32], robot: u32, cell: u32) -> bool
        requires seated { AreSeated (wishes self.now.from.now self.now.preferences) self.now.standing.now }
        requires holding { IsHolding (length self.now.from.now) (length self.now.standing.now) to.now holder.now }
        requires known { robot < length self.now.from.now }
        requires inside { cell < length self.now.standing.now }
        ensures { let w = wishes self.now.from.now self.now.preferences in
            MatchBool result (IsOpen w to.now robot cell) (IsShut w to.now robot cell) }
    {
        if place_of(to, holder, cell).is_some() {
            return false;
        }
        match self.stander(cell) {
            Some(other) => to[other as usize] != self.from[robot as usize],
            None => true,
        }
    }

    /// The place of the robot's first preference, from a place on, that it may take now; past the last if there is none.
    pub(crate) fn first_open(&self, holder: &[u32], to: &[u32], robot: u32, start: u32) -> u32
        requires seated { AreSeated (wishes self.now.from.now self.now.preferences) self.now.standing.now }
        requires holding { IsHolding (length self.now.from.now) (length self.now.standing.now) to.now holder.now }
        requires known { robot < length self.now.from.now }
        requires left { start ≤ self.now.preferences.each }
        ensures low { start ≤ result }
        ensures high { result ≤ self.now.preferences.each }
        ensures small { result ≤ 65535 }
        ensures shut { let w = wishes self.now.from.now self.now.preferences in
            (j : ℕ) → start ≤ j → j < result → IsShut w to.now robot (preference w robot j) }
        ensures open { let w = wishes self.now.from.now self.now.preferences in
            result < w.each → IsOpen w to.now robot (preference w robot result) }
    {
        for place in start..u32::from(self.preferences.each) {
            if self.is_open(holder, to, robot, self.preferences.get(robot, place)) {
                return place;
            }
        }
        u32::from(self.preferences.each)
    }
}
