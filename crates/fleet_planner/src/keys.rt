//! The robots' keys in the store of fields.

ghost use Rattle.std.specs.Prelude.{◌≡◌, ℕ, None};
ghost use Rattle.fleet_field.specs.Store.{Serves};
ghost use Rattle.fleet_grid.specs.Floor.{IsFloor};
ghost use Rattle.fleet_grid.specs.Ways.{AreNearer, AreOpen};
ghost use Rattle.fleet_planner.specs.Aims.{goal_in, distance_in};
ghost use Rattle.fleet_planner.specs.Keys.{key_at, field_at, AreShowing};

use fleet_field::FieldStore;
use fleet_grid::{Grid, Outlook, Ways};
use std::alloc::Allocator;

/// The robot's key; none past the last robot.
pub(crate) fn key_of(keys: &[Option<usize>], robot: u32) -> Option<usize>
    ensures { result ≡ key_at keys.now robot }
{
    keys.get(robot as usize).copied().flatten()
}

/// The robot's goal.
pub(crate) fn goal_of<A: Allocator + Copy>(
    store: &FieldStore<A>,
    keys: &[Option<usize>],
    robot: u32,
) -> Option<u32>
    requires { AreShowing store.now keys.now }
    ensures { result ≡ goal_in (field_at store.now (key_at keys.now robot)) }
{
    let key = key_of(keys, robot)?;
    Some(store.goal(key))
}

/// How far the cell is from the robot's goal.
pub(crate) fn distance_of<A: Allocator + Copy>(
    store: &FieldStore<A>,
    keys: &[Option<usize>],
    robot: u32,
    cell: u32,
) -> Option<u32>
    requires { AreShowing store.now keys.now }
    ensures { result ≡ distance_in (field_at store.now (key_at keys.now robot)) cell }
{
    let key = key_of(keys, robot)?;
    store.at(key, cell)
}

/// The ways out of the cell that lead nearer to the robot's goal; none without a goal.
pub(crate) fn ways_of<A: Allocator + Copy, B: Allocator + Copy>(
    store: &FieldStore<A>,
    keys: &[Option<usize>],
    grid: &Grid<B>,
    robot: u32,
    cell: u32,
) -> Ways
    requires { AreShowing store.now keys.now }
    ensures nearer { AreNearer grid.now (distance_in (field_at store.now (key_at keys.now robot))) cell result.byte }
    ensures idle { goal_in (field_at store.now (key_at keys.now robot)) ≡ None → result.byte ≡ 0 }
{
    match key_of(keys, robot) {
        Some(key) => store.ways(grid, key, cell),
        None => Ways::NONE,
    }
}

/// What the robot sees from a floor cell. Without a goal no way leads nearer, and the map tells the exits.
pub(crate) fn outlook_of<A: Allocator + Copy, B: Allocator + Copy>(
    store: &FieldStore<A>,
    keys: &[Option<usize>],
    grid: &Grid<B>,
    robot: u32,
    cell: u32,
) -> Outlook
    requires showing { AreShowing store.now keys.now }
    requires serves { Serves grid.now store.now }
    requires floor { IsFloor grid.now cell }
    ensures nearer { AreNearer grid.now (distance_in (field_at store.now (key_at keys.now robot))) cell result.nearer.byte }
    ensures idle { goal_in (field_at store.now (key_at keys.now robot)) ≡ None → result.nearer.byte ≡ 0 }
    ensures exits { AreOpen grid.now cell result.exits.byte }
{
    match key_of(keys, robot) {
        Some(key) => store.outlook(grid, key, cell),
        None => Outlook {
            nearer: Ways::NONE,
            exits: grid.exits(cell),
        },
    }
}
