//! The sight of a step, made from a map, a placement, goals and tie closures.

ghost use Rattle.std.specs.Prelude.{◌≡◌, ℕ, ◌+◌, ◌<◌, cond, length, map, slice_get, slice_index, Some};
ghost use Rattle.fleet_grid.specs.Floor.{IsNeighbourIn};
ghost use Rattle.fleet_pibt.specs.Door.{IsOpen};
ghost use Rattle.fleet_pibt.specs.inside.Setting.{setting};
ghost use Rattle.fleet_pibt.specs.inside.Around.{IsWhole};
ghost use Rattle.fleet_pibt.specs.inside.Candidate.{IsCandidate};

use crate::around::Around;
use crate::choice::{Candidate, cells, in_order};
use crate::door::Door;
use crate::goals::Guide;
use crate::sight::Sight;
use fleet_grid::{Dir, Grid};
use fleet_hooks::{TieHook, TieView};
use std::alloc::Allocator;

/// The cost of a neighbour, compared with 1 for the own cell.
fn cost_beside(is_nearer: bool) -> u8
    ensures { result ≡ cond is_nearer 0 2 }
{
    if is_nearer { 0 } else { 2 }
}

/// The rank of a neighbour that the tie closure ranks so, compared with 0 for the own cell.
fn rank_beside(rank: u8) -> u16
    ensures { result ≡ rank + 1 }
{
    u16::from(rank) + 1
}

/// What the plan of one step is made from.
#[derive(Drop)]
pub(crate) struct Scene<'a, G, A: Allocator + Copy> {
    /// The map, the goals and the shut door from which `arounds` was gathered.
    pub(crate) grid: &'a Grid<A>,
    pub(crate) goals: &'a G,
    pub(crate) door: Option<Door>,
    pub(crate) from: &'a [u32],
    pub(crate) ties: &'a [TieHook],
    /// What each robot sees.
    pub(crate) arounds: &'a [Around],
    pub(crate) tick: u64,
}

impl<'a, G: Guide, A: Allocator + Copy> Sight for Scene<'a, G, A> {
    ghost setting = { λ s. setting s.grid.now s.from.now (G.goal_of s.goals.now) (G.distance s.goals.now s.grid.now) (map (λ h. h.law) s.ties.now) s.door };

    ghost is_whole = { λ s.
        IsWhole
        (setting s.grid.now s.from.now (G.goal_of s.goals.now) (G.distance s.goals.now s.grid.now) (map (λ h. h.law) s.ties.now) s.door)
        s.arounds.now };

    ghost is_scene = { λ s whole. whole.scene };

    fn cell_of(&self, robot: u32) -> u32 {
        self.from[robot as usize]
    }

    fn choices(&self, robot: u32) -> [u32; 5] {
        let around = self.arounds[robot as usize];
        let keys = [
            self.staying(robot, around).key(),
            self.moving(robot, around, Dir::North).key(),
            self.moving(robot, around, Dir::East).key(),
            self.moving(robot, around, Dir::South).key(),
            self.moving(robot, around, Dir::West).key(),
        ];
        cells(in_order(keys))
    }
}

impl<'a, G: Guide, A: Allocator + Copy> Scene<'a, G, A> {
    /// The candidate of the own cell of a robot that sees this.
    fn staying(&self, robot: u32, around: Around) -> Candidate
        requires whole { ⟦<Scene<'a, G, A> as Sight>⟧.is_whole self.now }
        requires known { robot < length self.now.from.now }
        requires seen { slice_get self.now.arounds.now robot ≡ Some around }
        ensures candidate { IsCandidate (⟦<Scene<'a, G, A> as Sight>⟧.setting self.now) robot result }
        ensures own { result.cell ≡ slice_index self.now.from.now robot }
        ensures rank { result.rank ≡ 0 }
    {
        Candidate {
            cost: 1,
            rank: 0,
            side: 0,
            cell: around.own,
        }
    }

    /// The candidate in a direction of a robot that sees this, or that of the own cell where it may not go there.
    fn moving(&self, robot: u32, around: Around, dir: Dir) -> Candidate
        requires whole { ⟦<Scene<'a, G, A> as Sight>⟧.is_whole self.now }
        requires known { robot < length self.now.from.now }
        requires seen { slice_get self.now.arounds.now robot ≡ Some around }
        ensures candidate { IsCandidate (⟦<Scene<'a, G, A> as Sight>⟧.setting self.now) robot result }
        ensures covers { (w : ℕ) → IsNeighbourIn self.now.grid.now dir (slice_index self.now.from.now robot) w →
            IsOpen self.now.door (slice_index self.now.from.now robot) w → result.cell ≡ w }
    {
        let cell = around.beside(dir);
        if cell == around.own {
            return self.staying(robot, around);
        }
        let view = TieView {
            robot,
            cell: around.own,
            neighbour: cell,
            dir,
            tick: self.tick,
        };
        Candidate {
            cost: cost_beside(around.nearer.has(dir)),
            rank: rank_beside(self.ties[robot as usize].rank(view)),
            side: dir.number(),
            cell,
        }
    }
}
