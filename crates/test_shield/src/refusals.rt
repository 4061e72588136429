//! What no step is made of.

use crate::asked::{grid, refusal};
use fleet_shield::{Preferences, Refusal, Shield};

#[test]
fn lengths_at_fault(rt: HostRuntime) {
    assert!(rt; refusal(&rt, &[0, 1], &[0, 1], 1, &[1, 2]) == None);
    assert!(rt; refusal(&rt, &[0], &[0, 1], 1, &[1, 2]) == Some(Refusal::Length));
    assert!(rt; refusal(&rt, &[0, 1], &[0, 1, 2], 1, &[1, 2]) == Some(Refusal::Length));
    assert!(rt; refusal(&rt, &[0, 1], &[0, 1], 2, &[1, 2]) == Some(Refusal::Length));
    assert!(rt; refusal(&rt, &[0, 1], &[0, 1], 2, &[1, 0, 2]) == Some(Refusal::Length));
}

#[test]
fn sizes_at_fault(rt: HostRuntime) {
    let grid = grid(&rt);
    let rest = Preferences {
        each: 0,
        cells: &[],
    };
    let mut small = Shield::new(rt.alloc(), 9, 1).expect(&rt, "memory for a shield");
    assert!(rt; small.step(&grid, &[0], &[0], &rest, &mut [0]) == Err(Refusal::Map));
    let mut whole = Shield::new(rt.alloc(), 10, 1).expect(&rt, "memory for a shield");
    assert!(rt; whole.step(&grid, &[0], &[0], &rest, &mut [0, 0]) == Err(Refusal::Length));
    assert!(rt; whole.step(&grid, &[0], &[0], &rest, &mut [0]) == Ok(()));
}

#[test]
fn cells_at_fault(rt: HostRuntime) {
    assert!(rt; refusal(&rt, &[0, 10], &[0, 1], 1, &[1, 2]) == Some(Refusal::Outside(1)));
    assert!(rt; refusal(&rt, &[7, 10], &[0, 1], 1, &[1, 2]) == Some(Refusal::Wall(0)));
    assert!(rt; refusal(&rt, &[3, 3], &[0, 1], 1, &[1, 2]) == Some(Refusal::Shared(0, 1)));
}

#[test]
fn orders_at_fault(rt: HostRuntime) {
    assert!(rt; refusal(&rt, &[0, 1], &[0, 2], 1, &[1, 2]) == Some(Refusal::Unknown(1)));
    assert!(rt; refusal(&rt, &[0, 1], &[1, 1], 1, &[1, 2]) == Some(Refusal::Twice(1)));
}

#[test]
fn preferences_at_fault(rt: HostRuntime) {
    // Cell 2 is two steps from cell 0, cell 7 a wall, cell 5 in the next row is not next to cell 4, and 99 no cell.
    assert!(rt; refusal(&rt, &[0, 1], &[0, 1], 2, &[1, 2, 1, 2]) == Some(Refusal::Far(0, 1)));
    assert!(rt; refusal(&rt, &[0, 2], &[0, 1], 2, &[0, 5, 7, 2]) == Some(Refusal::Far(1, 0)));
    assert!(rt; refusal(&rt, &[0, 4], &[0, 1], 1, &[5, 5]) == Some(Refusal::Far(1, 0)));
    assert!(rt; refusal(&rt, &[0, 4], &[0, 1], 1, &[99, 5]) == Some(Refusal::Far(0, 0)));
    assert!(rt; refusal(&rt, &[0, 4], &[1, 0], 2, &[5, 1, 9, 3]) == None);
}
