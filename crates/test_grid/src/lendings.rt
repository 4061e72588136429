//! Whose turn is lent, worked out by hand: a ring of the cells 0 to 3, and a stub of the cells 4 and 5 beyond cell 3.

use fleet_pibt::Door;
use fleet_planner::{Lending, RoomLists, lend};

const CORE: [u32; 6] = [0; 6];

const DOOR: [u32; 6] = [0, 0, 0, 0, 4, 4];

const MOUTH: [u32; 6] = [0, 0, 0, 0, 3, 0];

const AWAY: [u32; 6] = [0, 1, 1, 2, 3, 4];

const WAITS: [Option<u64>; 3] = [Some(9), None, Some(2)];

/// What is added to the wait of a robot whose goal is served.
const SERVED: u64 = 1 << 63;

/// What is lent to three robots on these cells, and their ranks, where the cells are served for this many.
fn lent(cells: [u32; 3], goals: [Option<u32>; 3], capacity: u32) -> (Lending, [Option<u64>; 3]) {
    let rooms = RoomLists {
        core: &CORE,
        door: &DOOR,
        mouth: &MOUTH,
        capacity: &[capacity],
        away: &AWAY,
    };
    let mut ranks = [None; 3];
    let lending = lend(rooms, &cells, &goals, &WAITS, &mut ranks);
    (lending, ranks)
}

/// The door from cell 3 to cell 4.
fn shut(lender: Option<u32>) -> Lending {
    Lending {
        lender,
        door: Some(Door { from: 3, to: 4 }),
    }
}

#[test]
fn turn_lent_into_a_stub(rt: HostRuntime) {
    let own = [Some(9 + SERVED), None, Some(2 + SERVED)];
    // Robots 1 and 2 are in the stub; robot 2 is the nearest to its mouth.
    let first = [Some(9 + SERVED), None, Some(u64::MAX)];
    assert!(rt; lent([1, 5, 4], [Some(5), None, Some(0)], 4) == (shut(Some(2)), first));
    // Nobody is inside, and robot 0 is on its way, at the mouth, or inside.
    assert!(rt; lent([1, 2, 0], [Some(5), None, Some(0)], 4) == (shut(None), own));
    let nothing = Lending {
        lender: None,
        door: None,
    };
    assert!(rt; lent([3, 2, 0], [Some(5), None, Some(0)], 4) == (nothing, own));
    assert!(rt; lent([4, 2, 0], [Some(5), None, Some(0)], 4) == (shut(None), own));
    // Its goal is on the ring.
    assert!(rt; lent([1, 5, 4], [Some(2), None, Some(0)], 4) == (nothing, own));
    // No cell is served for three robots.
    assert!(rt; lent([1, 5, 4], [Some(5), None, Some(0)], 2) == (nothing, WAITS));
}
