//! What each robot sees from its cell, collected in one pass before the planning.

ghost use Rattle.std.specs.Prelude.{◌≡◌, ◌≢◌, ℕ, ◌<◌, ◌≤◌, length, slice_index, None, OnOk};
ghost use Rattle.fleet_grid.specs.Floor.{Floor, HasForm, IsFloor};
ghost use Rattle.fleet_grid.specs.Ways.{AreOpen};
ghost use Rattle.fleet_pibt.specs.inside.Around.{IsSpot, IsAround, AreArounds, IsAsked, AreAsked, cell_in};

use crate::door::Door;
use crate::goals::Guide;
use fleet_grid::{Dir, Grid, Outlook, Ways};
use std::alloc::Allocator;

/// A robot's own cell, the cells next to it, and which of those are nearer to its goal. Where there is no floor the own
/// cell stands in.
#[derive(Clone, Copy)]
pub(crate) struct Around {
    pub(crate) own: u32,
    pub(crate) north: u32,
    pub(crate) east: u32,
    pub(crate) south: u32,
    pub(crate) west: u32,
    /// The ways to those.
    pub(crate) nearer: Ways,
    /// The ways to floor neighbours.
    pub(crate) exits: Ways,
}

impl Around {
    /// What no robot has seen yet.
    pub(crate) const NOWHERE: Around = Around {
        own: 0,
        north: 0,
        east: 0,
        south: 0,
        west: 0,
        nearer: Ways::NONE,
        exits: Ways::NONE,
    };

    /// The cell in a direction.
    pub(crate) fn beside(&self, dir: Dir) -> u32
        ensures { result ≡ cell_in self.now dir }
    {
        match dir {
            Dir::North => self.north,
            Dir::East => self.east,
            Dir::South => self.south,
            Dir::West => self.west,
        }
    }
}

/// The cell next to the floor cell `own` in a direction where that is an exit, and else `own`. No letter is read. The
/// width is read beforehand, so that a processor need not foresee which ways are exits.
fn spot<A: Allocator + Copy>(grid: &Grid<A>, width: u32, exits: Ways, own: u32, dir: Dir) -> u32
    requires form { HasForm grid.now }
    requires width { width ≡ grid.now.width }
    requires floor { IsFloor grid.now own }
    requires exits { AreOpen grid.now own exits.byte }
    ensures { IsSpot grid.now own dir result }
{
    if !exits.has(dir) {
        return own;
    }
    dir.across(width, own)
}

/// What a robot that has this outlook sees from the floor cell `own`.
fn look<A: Allocator + Copy>(grid: &Grid<A>, own: u32, outlook: Outlook) -> Around
    requires floor { IsFloor grid.now own }
    requires exits { AreOpen grid.now own outlook.exits.byte }
    ensures cells { IsAround grid.now None own result }
    ensures nearer { result.nearer ≡ outlook.nearer }
    ensures exits { result.exits ≡ outlook.exits }
{
    let exits = outlook.exits;
    let width = grid.width();
    Around {
        own,
        north: spot(grid, width, exits, own, Dir::North),
        east: spot(grid, width, exits, own, Dir::East),
        south: spot(grid, width, exits, own, Dir::South),
        west: spot(grid, width, exits, own, Dir::West),
        nearer: outlook.nearer,
        exits,
    }
}

/// The cell next to the cell `own`, where it is not the one that is shut, and else `own`.
fn unless_shut(cell: u32, shut: u32, own: u32) -> u32
    ensures shut { cell ≡ shut → result ≡ own }
    ensures open { cell ≢ shut → result ≡ cell }
{
    if cell == shut { own } else { cell }
}

/// What the robot sees where that door is shut: beyond it there is no floor.
fn with_door(door: Option<Door>, around: Around) -> Around
    ensures cells { (m : Floor) (own : ℕ) → IsAround m None own around → IsAround m door own result }
    ensures nearer { result.nearer ≡ around.nearer }
    ensures exits { result.exits ≡ around.exits }
{
    let Some(door) = door else {
        return around;
    };
    if around.own != door.from {
        return around;
    }
    Around {
        own: around.own,
        north: unless_shut(around.north, door.to, around.own),
        east: unless_shut(around.east, door.to, around.own),
        south: unless_shut(around.south, door.to, around.own),
        west: unless_shut(around.west, door.to, around.own),
        nearer: around.nearer,
        exits: around.exits,
    }
}

/// Writes each robot's outlook from its cell. The robots' fields are far apart in memory; reading them directly one
/// after the other lets the processor fetch many of them at once.
fn ask<G: Guide, A: Allocator + Copy>(
    grid: &Grid<A>,
    from: &[u32],
    goals: &mut G,
    arounds: &mut [Around],
) -> Result<(), G::Fault>
    requires same_length { length arounds.old ≡ length from.now }
    requires few { length from.now ≤ 512 }
    requires floor { (r : ℕ) → r < length from.now → IsFloor grid.now (slice_index from.now r) }
    requires shows { G.shows goals.old grid.now }
    ensures asked { OnOk result (AreAsked grid.now (G.goal_of goals.old) (G.distance goals.old grid.now) from.now arounds.new) }
    ensures goals { G.goal_of goals.new ≡ G.goal_of goals.old }
    ensures distances { G.distance goals.new ≡ G.distance goals.old }
    ensures shows { G.shows goals.new grid.now }
    ensures stays { G.stays goals.old goals.new }
{
    for (robot, seen) in arounds.iter_mut().enumerate() {
        let outlook = goals.outlook(grid, robot as u32, from[robot])?;
        seen.nearer = outlook.nearer;
        seen.exits = outlook.exits;
    }
    Ok(())
}

/// Writes down what each robot sees where that door is shut.
pub(crate) fn gather<G: Guide, A: Allocator + Copy>(
    grid: &Grid<A>,
    from: &[u32],
    goals: &mut G,
    door: Option<Door>,
    arounds: &mut [Around],
) -> Result<(), G::Fault>
    requires same_length { length arounds.old ≡ length from.now }
    requires few { length from.now ≤ 512 }
    requires floor { (r : ℕ) → r < length from.now → IsFloor grid.now (slice_index from.now r) }
    requires shows { G.shows goals.old grid.now }
    ensures arounds { OnOk result (AreArounds grid.now door (G.goal_of goals.old) (G.distance goals.old grid.now) from.now arounds.new) }
    ensures goals { G.goal_of goals.new ≡ G.goal_of goals.old }
    ensures distances { G.distance goals.new ≡ G.distance goals.old }
    ensures shows { G.shows goals.new grid.now }
    ensures stays { G.stays goals.old goals.new }
{
    ask(grid, from, goals, arounds)?;
    for (robot, seen) in arounds.iter_mut().enumerate() {
        let outlook = Outlook {
            nearer: seen.nearer,
            exits: seen.exits,
        };
        *seen = with_door(door, look(grid, from[robot], outlook));
    }
    Ok(())
}
