//! Ten thousand robots in one chain of pushes.

ghost use Rattle.std.specs.Prelude.{◌≤◌};

use crate::policy::shielded;
use fleet_grid::Grid;
use fleet_map::MapText;
use fleet_shield::Shield;

/// The cell at a place of a way through each row of a map of 101 columns, to the east in one row and to the west in the
/// next.
fn on_the_way(place: u32) -> u32
    requires { place ≤ 10000 }
{
    let (row, column) = (place / 101, place % 101);
    if row % 2 == 0 {
        row * 101 + column
    } else {
        row * 101 + (100 - column)
    }
}

#[test]
fn ten_thousand_robots_push_one_another(rt: HostRuntime) {
    let cells = vec![in rt.alloc(); b'.'; 10_100].expect(&rt, "memory for a map");
    let map = MapText {
        height: 100,
        width: 101,
        cells,
    };
    let grid = Grid::new(map).expect(&rt, "memory for a grid");
    let mut shield = Shield::new(rt.alloc(), 10_100, 10_000).expect(&rt, "memory for a shield");
    let mut from = Vec::new(rt.alloc());
    let mut order = Vec::new(rt.alloc());
    let mut wanted = Vec::new(rt.alloc());
    for robot in 0..10_000 {
        from.push(on_the_way(robot)).expect(&rt, "memory for cells");
        order.push(robot).expect(&rt, "memory for an order");
        wanted
            .push(on_the_way(robot + 1))
            .expect(&rt, "memory for preferences");
    }
    let mut to = vec![in rt.alloc(); 0; 10_000].expect(&rt, "memory for cells");
    // Each robot pushes the next one, and the last one goes to the only free cell of the way.
    assert!(rt; shielded(&mut shield, &grid, &from, &order, &wanted, &mut to));
    assert!(rt; to.as_slice() == wanted.as_slice());
    // Cell 10,000 is not next to the first robot.
    wanted[0] = 10_000;
    assert!(rt; !shielded(&mut shield, &grid, &from, &order, &wanted, &mut to));
}
