//! A field that grows, asked for each cell of the ring in turn, and on a floor in two parts.

ghost use Rattle.fleet_grid.specs.Floor.{IsFloor};
ghost use Rattle.fleet_field.specs.Growing.{Serves, goal_of};

use super::{EXITS, WAYS, ring};
use crate::floor::grid_of;
use fleet_field::GrowingField;
use fleet_grid::Grid;
use std::process::Abort;

/// The ways from a floor cell, nearer and all.
fn seen(rt: &impl Abort, field: &mut GrowingField, grid: &Grid, cell: u32) -> (u8, u8)
    requires serves { Serves grid.now field.old }
    requires floor { IsFloor grid.now cell }
    ensures { Serves grid.now field.new }
{
    let outlook = field.outlook(grid, cell).expect(rt, "memory for a search");
    (outlook.nearer.byte, outlook.exits.byte)
}

/// Asks for all cells of the ring, from the goal's neighbours on.
fn ask_around(rt: &impl Abort, field: &mut GrowingField, grid: &Grid)
    requires { Serves grid.now field.old }
{
    for at in 0..8 {
        let (cell, ways) = WAYS[at];
        let (_, exits) = EXITS[at];
        assert!(rt; grid.is_floor(cell));
        assert!(rt; seen(rt, field, grid, cell) == (ways, exits));
    }
}

#[test]
fn ring_grows(rt: HostRuntime) {
    let grid = ring(&rt, rt.alloc());
    for target in [0, 8, 4] {
        let mut field = GrowingField::new(rt.alloc(), &grid, 0, target).expect(
            &rt,
            "memory for a field",
        );
        assert!(&rt; field.goal() == 0);
        ask_around(&rt, &mut field, &grid);
    }
}

/// No way leads nearer from a part of the floor without the goal.
#[test]
fn no_walk_to_the_goal(rt: HostRuntime) {
    let grid = grid_of(&rt, rt.alloc(), 1, 5, b".W...");
    assert!(&rt; grid.is_floor(0) && grid.is_floor(3));
    let mut field = GrowingField::new(rt.alloc(), &grid, 0, 3).expect(&rt, "memory for a field");
    assert!(&rt; seen(&rt, &mut field, &grid, 3) == (0, 10));
    assert!(&rt; seen(&rt, &mut field, &grid, 0) == (0, 0));
}
